//! The table of exonerations.
ghost use Rattle.std.specs.Prelude.{◌≡◌, ◌≤◌, ◌<◌, ◌+◌, ◌++◌, ◌∷◌, ℕ, [], Some, IfOk, IfErr, OnOk, length, slice_get};
ghost use Rattle.test_results.specs.Exonerations.{Fits, IsBatchFault, IsPlaced, IsTable, given, places_in, room_for};

use crate::exoneration::{ExonerationBatch, TestExoneration};
use crate::faults::BatchFault;
use crate::holder_lists::HolderLists;
use std::alloc::{AllocError, Global};
use std::marker::Model;

/// How many rows a batch may have.
const MOST_OF_BATCH: usize = 500;

/// How many rows a holder may have.
const MOST_OF_HOLDER: usize = 100_000;

/// How many rows there may be: as many as there are places for them.
const MOST_ROWS: usize = 4_294_967_295;

/// The exonerations, in order of arrival. Each holder has at most 100,000, with their places.
#[derive(Drop)]
pub struct ExonerationRows {
    rows: Vec<TestExoneration>,
    by_holder: HolderLists,
}

impl Model for ExonerationRows {
    ghost use Rattle.std.specs.Prelude.{◌≤◌, ◌-◌, min, length, vec_len, vec_capacity};
    ghost use Rattle.test_results.specs.Exonerations.{ExonerationsState, IsIndexed};
    ghost use Rattle.test_results.specs.Lists.{least_rooms};

    ghost Value = { ExonerationsState };

    ghost view = { λ t. record {
      rows = t.rows.items;
      rooms = least_rooms (min (vec_capacity t.rows) 4_294_967_295 - vec_len t.rows)
          t.by_holder.rooms;
    } };

    ghost invariant = { λ t. IsIndexed t.rows.items t.by_holder.lists
        × (length t.rows.items ≤ 4_294_967_295) };
}

impl ExonerationRows {
    /// A table without rows. `Err` where there is no memory for it.
    pub fn new(alloc: Global) -> Result<ExonerationRows, AllocError>
        ensures { IfOk result (λ table. table.rows ≡ []) }
    {
        Ok(ExonerationRows {
            rows: Vec::new(alloc),
            by_holder: HolderLists::new(alloc),
        })
    }

    /// The rows, in order of arrival.
    pub fn rows(&self) -> &[TestExoneration]
        ensures rows { result.now ≡ self.now.rows }
        ensures table { IsTable self.now.rows }
    {
        self.rows.as_slice()
    }

    /// How many rows there are.
    pub fn count(&self) -> u32
        ensures { result ≡ length self.now.rows }
    {
        self.rows.len() as u32
    }

    /// The row at a place, counted from 0.
    pub fn row(&self, at: u32) -> &TestExoneration
        requires { at < length self.now.rows }
        ensures { slice_get self.now.rows at ≡ Some result.now }
    {
        &self.rows[at as usize]
    }

    /// The places of the rows of a holder, in order of arrival.
    pub fn rows_of(&self, holder: u32) -> &[u32]
        ensures places { result.now ≡ places_in self.now.rows holder }
        ensures few { length result.now ≤ 100_000 }
    {
        self.by_holder.list(holder)
    }

    /// Makes room for this many rows more of a holder.
    fn reserve(&mut self, alloc: Global, holder: u32, additional: usize) -> Result<(), AllocError>
        ensures rows { self.new.rows ≡ self.old.rows }
        ensures rooms { (other : ℕ) → room_for self.old other ≤ room_for self.new other }
        ensures enough { OnOk result (additional ≤ room_for self.new holder) }
    {
        if additional > MOST_ROWS - self.rows.len() {
            return Err(AllocError);
        }
        self.rows.reserve(additional)?;
        self.by_holder.reserve(alloc, holder, additional)
    }

    /// The rows of a request as a batch of a holder, with their places and room for them. In this
    /// order: `TooMany` where there are more than 500; `Full` where the holder would have more than
    /// 100,000 rows; `Memory` where there is no memory for them.
    pub fn prepare_batch(
        &mut self,
        alloc: Global,
        holder: u32,
        rows: Vec<TestExoneration>,
    ) -> Result<ExonerationBatch, BatchFault>
        ensures rows { self.new.rows ≡ self.old.rows }
        ensures rooms { (other : ℕ) → room_for self.old other ≤ room_for self.new other }
        ensures batch { IfOk result (λ batch.
            batch ≡ given holder (length (places_in self.old.rows holder)) rows.items) }
        ensures fits { IfOk result (Fits self.new) }
        ensures fault { IfErr result (IsBatchFault self.old.rows holder (length rows.items)) }
    {
        let count = rows.len();
        if count > MOST_OF_BATCH {
            return Err(BatchFault::TooMany { count });
        }
        let held = self.rows_of(holder).len();
        if count > MOST_OF_HOLDER - held {
            return Err(BatchFault::Full { count: held });
        }
        self.reserve(alloc, holder, count)?;
        let mut rows = rows;
        give(holder, held as u32, &mut rows);
        Ok(ExonerationBatch { rows })
    }

    /// Appends a row. It takes no memory.
    fn append(&mut self, row: TestExoneration)
        requires few { length (places_in self.old.rows row.holder) < 100_000 }
        requires placed { IsPlaced self.old.rows row }
        requires room { 0 < room_for self.old row.holder }
        ensures rows { self.new.rows ≡ self.old.rows ++ row ∷ [] }
        ensures rooms { (other : ℕ) → room_for self.old other ≤ room_for self.new other + 1 }
    {
        let place = self.rows.len() as u32;
        self.by_holder.push(row.holder, place);
        self.rows.push_reserved(row);
    }

    /// Appends rows that fit, in order.
    fn append_all(&mut self, rows: Vec<TestExoneration>)
        requires { Fits self.old rows.items }
        ensures rows { self.new.rows ≡ self.old.rows ++ rows.items }
        ensures rooms { (other : ℕ) →
            room_for self.old other ≤ room_for self.new other + length rows.items }
    {
        for row in rows {
            self.append(row);
        }
    }

    /// Appends the rows of a batch, in order. It takes no memory.
    pub fn commit(&mut self, batch: ExonerationBatch)
        requires { Fits self.old batch }
        ensures rows { self.new.rows ≡ self.old.rows ++ batch }
        ensures rooms { (other : ℕ) →
            room_for self.old other ≤ room_for self.new other + length batch }
    {
        self.append_all(batch.rows);
    }
}

/// Gives rows their holder, of which so many stand before them, and their places.
fn give(holder: u32, before: u32, rows: &mut [TestExoneration])
    requires { before + length rows.old ≤ 4_294_967_295 }
    ensures { rows.new ≡ given holder before rows.old }
{
    for at in 0..rows.len() {
        let row = &mut rows[at];
        row.holder = holder;
        row.place = before + at as u32 + 1;
    }
}
