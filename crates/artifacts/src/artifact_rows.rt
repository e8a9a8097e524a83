//! The table of artifacts.
ghost use Rattle.std.specs.Prelude.{◌≡◌, ◌≤◌, ◌<◌, ◌+◌, ◌++◌, ◌∷◌, ℕ, [], Some, IfOk, IfErr, OnOk, MatchOption, length};
ghost use Rattle.std.specs.Prelude.{slice_get, option_map};
ghost use Rattle.std.specs.List.{All};
ghost use Rattle.artifacts.specs.Artifacts.{HasItsHash, HasKey, IsPlaceOf, IsTable, key_of, named, places_in, room_for};
ghost use Rattle.artifacts.specs.Batches.{AreFree, AreOnce, CanCome, Fits, HaveNoFault, IsBatchFault, IsRepeat};
ghost use Rattle.artifacts.specs.Batches.{IsRowFault, IsTaken, of_holder};
ghost use Rattle.artifacts.specs.Pages.{IsPage};

use crate::artifact::{Artifact, ArtifactBatch};
use crate::faults::ArtifactFault;
use crate::holder_lists::HolderLists;
use crate::keys::{Repeat, first_repeat, place_of, slot_of};
use crate::new_artifact::{Digested, WrongHash, WrongSize};
use crate::pages::{ArtifactPage, listing, page_of};
use names_realms::{ArtifactId, ArtifactName, Parent};
use std::alloc::{AllocError, Global};
use std::marker::Model;

/// How many rows a batch may have.
const MOST_OF_BATCH: usize = 500;

/// How many rows a holder may have.
const MOST_OF_HOLDER: usize = 100_000;

/// How many rows there may be: as many as there are places for them.
const MOST_ROWS: usize = 4_294_967_295;

/// The artifacts, in order of arrival. No two of a holder have the same name, and each holder has
/// at most 100,000.
#[derive(Drop)]
pub struct ArtifactRows {
    rows: Vec<Artifact>,
    by_holder: HolderLists,
    by_name: HolderLists,
    order: Vec<u32>,
}

impl Model for ArtifactRows {
    ghost use Rattle.std.specs.Prelude.{◌≤◌, ◌-◌, min, length, vec_len, vec_capacity};
    ghost use Rattle.artifacts.specs.Orders.{IsIndexed, least_rooms};
    ghost use Rattle.artifacts.specs.Artifacts.{ArtifactsState};

    ghost Value = { ArtifactsState };

    ghost view = { λ t. record {
      rows = t.rows.items;
      rooms = least_rooms (min (vec_capacity t.rows) 4_294_967_295 - vec_len t.rows)
          t.by_holder.rooms t.by_name.rooms;
    } };

    ghost invariant = { λ t. IsIndexed t.rows.items t.by_holder.lists t.by_name.lists
        × (length t.rows.items ≤ 4_294_967_295)
        × (500 ≤ vec_capacity t.order) };
}

impl ArtifactRows {
    /// A table without rows. `Err` where there is no memory for it.
    pub fn new(alloc: Global) -> Result<ArtifactRows, AllocError>
        ensures { IfOk result (λ table. table.rows ≡ []) }
    {
        let order = Vec::with_capacity(alloc, MOST_OF_BATCH)?;
        Ok(ArtifactRows {
            rows: Vec::new(alloc),
            by_holder: HolderLists::new(alloc),
            by_name: HolderLists::new(alloc),
            order,
        })
    }

    /// The rows, in order of arrival.
    pub fn rows(&self) -> &[Artifact]
        ensures rows { result.now ≡ self.now.rows }
        ensures table { IsTable self.now.rows }
    {
        self.rows.as_slice()
    }

    /// How many rows there are.
    pub fn count(&self) -> u32
        ensures { result ≡ length self.now.rows }
    {
        self.rows.len() as u32
    }

    /// The row at a place, counted from 0.
    pub fn row(&self, at: u32) -> &Artifact
        requires { at < length self.now.rows }
        ensures { slice_get self.now.rows at ≡ Some result.now }
    {
        &self.rows[at as usize]
    }

    /// The places of the rows of a holder, in order of arrival.
    pub fn rows_of(&self, holder: u32) -> &[u32]
        ensures places { result.now ≡ places_in self.now.rows holder }
        ensures few { length result.now ≤ 100_000 }
    {
        self.by_holder.list(holder)
    }

    /// The place of the row of a holder with this name, or none where no row has it.
    pub fn find(&self, holder: u32, name: &ArtifactName) -> Option<u32>
        ensures { MatchOption result (¬ HasKey self.now.rows (named holder name.now))
            (IsPlaceOf self.now.rows (named holder name.now)) }
    {
        place_of(
            self.by_name.list(holder),
            self.rows.as_slice(),
            holder,
            name,
        )
    }

    /// The first artifacts of a parent that a holder has, so many, by id: those behind the last one
    /// that was shown, where one was. Takes no memory.
    pub fn list(
        &self,
        holder: u32,
        parent: &Parent,
        after: Option<&ArtifactId>,
        size: u32,
    ) -> ArtifactPage<'_>
        ensures page { IsPage self.now.rows holder parent.now
            (option_map (λ a. a.now) after.entry) size result.rows.now result.more }
        ensures within { All (λ place. place < length self.now.rows) result.rows.now }
    {
        let places = self.by_name.list(holder);
        page_of(
            listing(places, self.rows.as_slice(), holder, parent, after),
            size,
        )
    }

    /// The first row of a batch whose key a row of the table has.
    fn first_taken(&self, batch: &[Artifact]) -> Option<usize>
        ensures { MatchOption result (AreFree self.now.rows batch.now (length batch.now))
            (IsTaken self.now.rows batch.now) }
    {
        for (at, row) in batch.iter().enumerate() {
            if self.find(row.holder, &row.name).is_some() {
                return Some(at);
            }
        }
        None
    }

    /// Makes room for this many rows more of a holder.
    fn reserve(&mut self, alloc: Global, holder: u32, additional: usize) -> Result<(), AllocError>
        ensures rows { self.new.rows ≡ self.old.rows }
        ensures rooms { (other : ℕ) → room_for self.old other ≤ room_for self.new other }
        ensures enough { OnOk result (additional ≤ room_for self.new holder) }
    {
        if additional > MOST_ROWS - self.rows.len() {
            return Err(AllocError);
        }
        self.rows.reserve(additional)?;
        self.by_holder.reserve(alloc, holder, additional)?;
        self.by_name.reserve(alloc, holder, additional)
    }

    /// The first two rows of a batch with the same key.
    fn repeat_in(&mut self, batch: &[Artifact]) -> Option<Repeat>
        requires { length batch.now ≤ 500 }
        ensures table { self.new ≡ self.old }
        ensures repeat { MatchOption result (AreOnce batch.now (length batch.now))
            (λ repeat. IsRepeat batch.now repeat.first repeat.second) }
    {
        first_repeat(&mut self.order, batch)
    }

    /// The first fault of the rows of a batch: `Repeated`, `SizeWrong`, `HashWrong` or `Taken`.
    fn first_fault(&mut self, batch: &Digested) -> Option<ArtifactFault>
        requires { length batch.now.rows ≤ 500 }
        ensures table { self.new ≡ self.old }
        ensures fault { MatchOption result (HaveNoFault self.old.rows batch.now)
            (IsRowFault self.old.rows batch.now) }
    {
        if let Some(repeat) = self.repeat_in(batch.rows()) {
            let Repeat { first, second } = repeat;
            return Some(ArtifactFault::Repeated { first, second });
        }
        if let Some(wrong) = batch.wrong_size() {
            let WrongSize { index, said, found } = wrong;
            return Some(ArtifactFault::SizeWrong { index, said, found });
        }
        if let Some(wrong) = batch.wrong_hash() {
            let WrongHash { index, said, found } = wrong;
            return Some(ArtifactFault::HashWrong { index, said, found });
        }
        let index = self.first_taken(batch.rows())?;
        Some(ArtifactFault::Taken { index })
    }

    /// The artifacts of a request as a batch of a holder, with room for them. In this order:
    /// `TooMany` where there are more than 500; `Repeated` where two have the same name;
    /// `SizeWrong` where another size is said of one than it has; `HashWrong` where another hash
    /// is; `Taken` where the holder has the name of one; `Full` where it would have more than
    /// 100,000 rows; `Memory` where there is no memory for them.
    pub fn prepare_batch(
        &mut self,
        alloc: Global,
        holder: u32,
        rows: Digested,
    ) -> Result<ArtifactBatch, ArtifactFault>
        ensures rows { self.new.rows ≡ self.old.rows }
        ensures rooms { (other : ℕ) → room_for self.old other ≤ room_for self.new other }
        ensures batch { IfOk result (λ batch. batch ≡ of_holder holder rows) }
        ensures fits { IfOk result (λ batch. Fits self.new batch.rows) }
        ensures can { IfOk result
            (λ _. CanCome self.old.rows holder (of_holder holder rows)) }
        ensures fault { IfErr result (IsBatchFault self.old.rows holder (of_holder holder rows)) }
    {
        let count = rows.rows().len();
        if count > MOST_OF_BATCH {
            return Err(ArtifactFault::TooMany { count });
        }
        let batch = rows.of_holder(holder);
        if let Some(fault) = self.first_fault(&batch) {
            return Err(fault);
        }
        let held = self.rows_of(holder).len();
        if count > MOST_OF_HOLDER - held {
            return Err(ArtifactFault::Full { count: held });
        }
        self.reserve(alloc, holder, count)?;
        Ok(ArtifactBatch { all: batch })
    }

    /// Appends a row. It takes no memory.
    fn append(&mut self, row: Artifact)
        requires free { ¬ HasKey self.old.rows (key_of row) }
        requires hashed { HasItsHash row }
        requires few { length (places_in self.old.rows row.holder) < 100_000 }
        requires room { 0 < room_for self.old row.holder }
        ensures rows { self.new.rows ≡ self.old.rows ++ row ∷ [] }
        ensures rooms { (other : ℕ) → room_for self.old other ≤ room_for self.new other + 1 }
    {
        let holder = row.holder;
        let place = self.rows.len() as u32;
        let slot = slot_of(self.by_name.list(holder), self.rows.as_slice(), &row);
        self.by_name.insert(holder, slot, place);
        let end = self.by_holder.list(holder).len();
        self.by_holder.insert(holder, end, place);
        self.rows.push_reserved(row);
    }

    /// Appends rows that fit, in order.
    fn append_all(&mut self, rows: Vec<Artifact>)
        requires { Fits self.old rows.items }
        ensures rows { self.new.rows ≡ self.old.rows ++ rows.items }
        ensures rooms { (other : ℕ) →
            room_for self.old other ≤ room_for self.new other + length rows.items }
    {
        for row in rows {
            self.append(row);
        }
    }

    /// Appends the rows of a batch, in order. It takes no memory.
    pub fn commit(&mut self, batch: ArtifactBatch)
        requires { Fits self.old batch.rows }
        ensures rows { self.new.rows ≡ self.old.rows ++ batch.rows }
        ensures rooms { (other : ℕ) →
            room_for self.old other ≤ room_for self.new other + length batch.rows }
    {
        self.append_all(batch.all.into_rows());
    }
}
