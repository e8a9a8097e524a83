//! The table of results.
ghost use Rattle.std.specs.Prelude.{◌≡◌, ◌≤◌, ◌<◌, ◌+◌, ◌++◌, ◌∷◌, ℕ, [], Some, IfOk, IfErr, OnOk, MatchOption, length};
ghost use Rattle.std.specs.Prelude.{slice_get};
ghost use Rattle.test_results.specs.Batches.{AreFree, AreOnce, Fits, IsBatchFault, IsRepeat, IsTaken, given};
ghost use Rattle.test_results.specs.Results.{HasKey, IsPlaceOf, IsTable, key_of, named, places_in, room_for};

use crate::faults::BatchFault;
use crate::holder_lists::HolderLists;
use crate::key_places::{find_key, hash_of_row};
use crate::keys::{Repeat, first_repeat};
use crate::result::{ResultBatch, TestResult};
use hash_chains::HashChains;
use names_realms::{ResultId, TestId};
use std::alloc::{AllocError, Global};
use std::marker::Model;

/// How many rows a batch may have.
const MOST_OF_BATCH: usize = 500;

/// How many rows a holder may have.
const MOST_OF_HOLDER: usize = 100_000;

/// How many rows there may be: as many as there are places for them.
const MOST_ROWS: usize = 4_294_967_295;

/// The results, in order of arrival. No two of a holder have the same test's id and id, and each
/// holder has at most 100,000.
#[derive(Drop)]
pub struct ResultRows {
    rows: Vec<TestResult>,
    by_holder: HolderLists,
    by_key: HashChains,
    order: Vec<u32>,
}

impl Model for ResultRows {
    ghost use Rattle.std.specs.Prelude.{◌≤◌, ◌-◌, min, length, vec_len, vec_capacity};
    ghost use Rattle.test_results.specs.Lists.{least_rooms};
    ghost use Rattle.test_results.specs.Orders.{IsIndexed};
    ghost use Rattle.test_results.specs.Results.{ResultsState};

    ghost Value = { ResultsState };

    ghost view = { λ t. record {
      rows = t.rows.items;
      rooms = least_rooms
          (min (min (vec_capacity t.rows) 4_294_967_295 - vec_len t.rows) t.by_key.room)
          t.by_holder.rooms;
    } };

    ghost invariant = { λ t. IsIndexed t.rows.items t.by_holder.lists t.by_key
        × (length t.rows.items ≤ 4_294_967_295)
        × (500 ≤ vec_capacity t.order) };
}

impl ResultRows {
    /// A table without rows. `Err` where there is no memory for it.
    pub fn new(alloc: Global) -> Result<ResultRows, AllocError>
        ensures { IfOk result (λ table. table.rows ≡ []) }
    {
        let order = Vec::with_capacity(alloc, MOST_OF_BATCH)?;
        Ok(ResultRows {
            rows: Vec::new(alloc),
            by_holder: HolderLists::new(alloc),
            by_key: HashChains::new(alloc),
            order,
        })
    }

    /// The rows, in order of arrival.
    pub fn rows(&self) -> &[TestResult]
        ensures rows { result.now ≡ self.now.rows }
        ensures table { IsTable self.now.rows }
    {
        self.rows.as_slice()
    }

    /// How many rows there are.
    pub fn count(&self) -> u32
        ensures { result ≡ length self.now.rows }
    {
        self.rows.len() as u32
    }

    /// The row at a place, counted from 0.
    pub fn row(&self, at: u32) -> &TestResult
        requires { at < length self.now.rows }
        ensures { slice_get self.now.rows at ≡ Some result.now }
    {
        &self.rows[at as usize]
    }

    /// The places of the rows of a holder, in order of arrival.
    pub fn rows_of(&self, holder: u32) -> &[u32]
        ensures places { result.now ≡ places_in self.now.rows holder }
        ensures few { length result.now ≤ 100_000 }
    {
        self.by_holder.list(holder)
    }

    /// The place of the row of a holder with these ids, or none where no row has them.
    pub fn find(&self, holder: u32, test: &TestId, id: &ResultId) -> Option<u32>
        ensures { MatchOption result (¬ HasKey self.now.rows (named holder test.now id.now))
            (IsPlaceOf self.now.rows (named holder test.now id.now)) }
    {
        let rows = self.rows.as_slice();
        find_key(rows, &self.by_key, holder, test.as_str(), id.as_str())
    }

    /// The first row of a batch whose key a row of the table has.
    fn first_taken(&self, batch: &[TestResult]) -> Option<usize>
        ensures { MatchOption result (AreFree self.now.rows batch.now (length batch.now))
            (IsTaken self.now.rows batch.now) }
    {
        for (at, row) in batch.iter().enumerate() {
            if self.find(row.holder, &row.test, &row.result).is_some() {
                return Some(at);
            }
        }
        None
    }

    /// Makes room for this many rows more of a holder.
    fn reserve(&mut self, alloc: Global, holder: u32, additional: usize) -> Result<(), AllocError>
        ensures rows { self.new.rows ≡ self.old.rows }
        ensures rooms { (other : ℕ) → room_for self.old other ≤ room_for self.new other }
        ensures enough { OnOk result (additional ≤ room_for self.new holder) }
    {
        if additional > MOST_ROWS - self.rows.len() {
            return Err(AllocError);
        }
        self.rows.reserve(additional)?;
        self.by_key.reserve(additional)?;
        self.by_holder.reserve(alloc, holder, additional)
    }

    /// The first two rows of a batch with the same key.
    fn repeat_in(&mut self, batch: &[TestResult]) -> Option<Repeat>
        requires { length batch.now ≤ 500 }
        ensures table { self.new ≡ self.old }
        ensures repeat { MatchOption result (AreOnce batch.now (length batch.now))
            (λ repeat. IsRepeat batch.now repeat.first repeat.second) }
    {
        first_repeat(&mut self.order, batch)
    }

    /// The rows of a request as a batch of a holder, with room for them. In this order: `TooMany`
    /// where there are more than 500; `Repeated` where two have the same test's id and id; `Taken`
    /// where the holder has those of one; `Full` where it would have more than 100,000 rows;
    /// `Memory` where there is no memory for them.
    pub fn prepare_batch(
        &mut self,
        alloc: Global,
        holder: u32,
        rows: Vec<TestResult>,
    ) -> Result<ResultBatch, BatchFault>
        ensures rows { self.new.rows ≡ self.old.rows }
        ensures rooms { (other : ℕ) → room_for self.old other ≤ room_for self.new other }
        ensures batch { IfOk result (λ batch. batch ≡ given holder rows.items) }
        ensures fits { IfOk result (Fits self.new) }
        ensures fault { IfErr result (IsBatchFault self.old.rows holder (given holder rows.items)) }
    {
        let count = rows.len();
        if count > MOST_OF_BATCH {
            return Err(BatchFault::TooMany { count });
        }
        let mut rows = rows;
        give(holder, &mut rows);
        if let Some(repeat) = self.repeat_in(rows.as_slice()) {
            let Repeat { first, second } = repeat;
            return Err(BatchFault::Repeated { first, second });
        }
        if let Some(index) = self.first_taken(rows.as_slice()) {
            return Err(BatchFault::Taken { index });
        }
        let held = self.rows_of(holder).len();
        if count > MOST_OF_HOLDER - held {
            return Err(BatchFault::Full { count: held });
        }
        self.reserve(alloc, holder, count)?;
        Ok(ResultBatch { rows })
    }

    /// Appends a row. It takes no memory.
    fn append(&mut self, row: TestResult)
        requires free { ¬ HasKey self.old.rows (key_of row) }
        requires few { length (places_in self.old.rows row.holder) < 100_000 }
        requires room { 0 < room_for self.old row.holder }
        ensures rows { self.new.rows ≡ self.old.rows ++ row ∷ [] }
        ensures rooms { (other : ℕ) → room_for self.old other ≤ room_for self.new other + 1 }
    {
        self.by_key.push(hash_of_row(&row));
        self.by_holder.push(row.holder, self.rows.len() as u32);
        self.rows.push_reserved(row);
    }

    /// Appends rows that fit, in order.
    fn append_all(&mut self, rows: Vec<TestResult>)
        requires { Fits self.old rows.items }
        ensures rows { self.new.rows ≡ self.old.rows ++ rows.items }
        ensures rooms { (other : ℕ) →
            room_for self.old other ≤ room_for self.new other + length rows.items }
    {
        for row in rows {
            self.append(row);
        }
    }

    /// Appends the rows of a batch, in order. It takes no memory.
    pub fn commit(&mut self, batch: ResultBatch)
        requires { Fits self.old batch }
        ensures rows { self.new.rows ≡ self.old.rows ++ batch }
        ensures rooms { (other : ℕ) →
            room_for self.old other ≤ room_for self.new other + length batch }
    {
        self.append_all(batch.rows);
    }
}

/// Gives rows their holder.
fn give(holder: u32, rows: &mut [TestResult])
    ensures { rows.new ≡ given holder rows.old }
{
    for at in 0..rows.len() {
        let row = &mut rows[at];
        row.holder = holder;
    }
}
