//! The table of invocations.
ghost use Rattle.std.specs.Prelude.{◌≡◌, ◌≤◌, ◌<◌, ◌+◌, ◌++◌, ◌∷◌, [], Some, IfOk, IfErr, IfSome, OnOk, MatchOption};
ghost use Rattle.std.specs.Prelude.{length, slice_get};
ghost use Rattle.invocations.specs.Due.{IsNextPlace};
ghost use Rattle.invocations.specs.Orders.{IsInTurn};
ghost use Rattle.invocations.specs.Faults.{CanAdd, IsAddFault};
ghost use Rattle.invocations.specs.Rows.{HasId, IsInState, IsPlaceOf, IsRoomier, IsTable, begun, ended, states_of};
ghost use Rattle.invocations.specs.Rows.{with_deadline, with_row, with_row_changed, with_tags};

use crate::due::{Due, DueIndex};
use crate::faults::AddFault;
use crate::ids::{find_id, hash_of};
use crate::invocation::Invocation;
use hash_chains::HashChains;
use names_realms::{InvocationId, Listed, Moment, Pair, State};
use std::alloc::{AllocError, Global};
use std::marker::Model;

/// How many rows there may be.
const MOST_ROWS: usize = 65_536;

/// The invocations, in order of creation. No two have the same id, and there are at most 65,536.
#[derive(Drop)]
pub struct Table {
    rows: Vec<Invocation>,
    by_id: HashChains,
    by_deadline: DueIndex,
}

impl Model for Table {
    ghost use Rattle.std.specs.Prelude.{◌-◌, min, vec_len, vec_capacity};
    ghost use Rattle.std.specs.VecDeque.{deque_len, deque_capacity};
    ghost use Rattle.invocations.specs.Rows.{TableState};
    ghost use Rattle.invocations.specs.Orders.{IsIndexed};

    ghost Value = { TableState };

    ghost view = { λ t. record {
      rows = t.rows.items;
      spare = min (min (vec_capacity t.rows) 65_536 - vec_len t.rows)
          (min t.by_id.room
          (deque_capacity t.by_deadline.entries - deque_len t.by_deadline.entries));
    } };

    ghost invariant = { λ t.
        IsIndexed t.rows.items t.by_id t.by_deadline.entries.items };
}

impl Table {
    /// A table without rows. `Err` where there is no memory for it.
    pub fn new(alloc: Global) -> Result<Table, AllocError>
        ensures { IfOk result (λ table. table.rows ≡ []) }
    {
        Ok(Table {
            rows: Vec::new(alloc),
            by_id: HashChains::new(alloc),
            by_deadline: DueIndex::new(alloc),
        })
    }

    /// The rows, in order of creation.
    pub fn rows(&self) -> &[Invocation]
        ensures rows { result.now ≡ self.now.rows }
        ensures table { IsTable self.now.rows }
    {
        self.rows.as_slice()
    }

    /// How many rows there are.
    pub fn count(&self) -> u32
        ensures count { result ≡ length self.now.rows }
        ensures table { IsTable self.now.rows }
    {
        self.rows.len() as u32
    }

    /// The row at a place, counted from 0.
    pub fn row(&self, place: u32) -> &Invocation
        requires { place < length self.now.rows }
        ensures { slice_get self.now.rows place ≡ Some result.now }
    {
        &self.rows[place as usize]
    }

    /// The state of the row at a place, or none where there is no row.
    pub fn state_at(&self, place: u32) -> Option<State>
        ensures { result ≡ slice_get (states_of self.now.rows) place }
    {
        match self.rows.get(place as usize) {
            Some(row) => Some(row.state),
            None => None,
        }
    }

    /// The place of the row with this id, or none where no row has it.
    pub fn find(&self, id: &InvocationId) -> Option<u32>
        ensures place { MatchOption result (¬ HasId self.now.rows id.now)
            (IsPlaceOf self.now.rows id.now) }
        ensures table { IsTable self.now.rows }
    {
        find_id(self.rows.as_slice(), &self.by_id, id)
    }

    /// The place of the active row with the least deadline at or before a moment, the first of
    /// several. None where there is no such row.
    pub fn next_due(&self, moment: Moment) -> Option<u32>
        ensures { IsNextPlace self.now.rows moment result }
    {
        self.by_deadline.next(moment)
    }

    /// The place of the active row before which so many others are due: the rows go by deadline,
    /// those of the same one in the order of creation. None where no more rows than these are
    /// active.
    pub fn in_turn(&self, turn: u32) -> Option<u32>
        ensures turn { IsInTurn self.now.rows turn result }
        ensures active { IfSome result (IsInState State.Active self.now.rows) }
    {
        self.by_deadline.at(turn)
    }

    /// Makes room for a row with this id. `Taken` where a row has the id, else `Full` where there
    /// are 65,536 rows, else `Memory` where there is no memory for a row more.
    pub fn prepare_add(&mut self, alloc: Global, id: &InvocationId) -> Result<(), AddFault>
        ensures roomier { IsRoomier self.old self.new }
        ensures room { OnOk result (0 < self.new.spare) }
        ensures can { OnOk result (CanAdd self.old.rows id.now) }
        ensures fault { IfErr result (IsAddFault self.old.rows id.now) }
    {
        let _ = alloc;
        if let Some(place) = self.find(id) {
            return Err(AddFault::Taken { place });
        }
        let count = self.rows.len();
        if count == MOST_ROWS {
            return Err(AddFault::Full {
                count: count as u32,
            });
        }
        self.rows.reserve(1)?;
        self.by_id.reserve(1)?;
        self.by_deadline.reserve(1)?;
        Ok(())
    }

    /// Appends a row, and gives its place. It takes no memory.
    pub fn add_prepared(&mut self, row: Invocation) -> u32
        requires room { 0 < self.old.spare }
        requires untaken { ¬ HasId self.old.rows row.id }
        ensures roomier { IsRoomier (with_row self.old row) self.new }
        ensures place { result ≡ length self.old.rows }
    {
        let place = self.rows.len() as u32;
        self.by_id.push(hash_of(&row.id));
        self.by_deadline.add_row(self.rows.as_slice(), &row);
        self.rows.push_reserved(row);
        place
    }

    /// Begins the finalization of an active row. It takes no memory.
    pub fn begin_final(&mut self, place: u32, moment: Moment)
        requires { IsInState State.Active self.old.rows place }
        ensures roomier { IsRoomier (with_row_changed (begun moment) self.old place) self.new }
    {
        let row = &mut self.rows[place as usize];
        let due = Due {
            deadline: row.deadline,
            place,
        };
        row.state = State::Finalizing;
        row.started = Some(moment);
        self.by_deadline.remove(due);
    }

    /// Ends the finalization of a row. It takes no memory.
    pub fn set_final(&mut self, place: u32, moment: Moment)
        requires { IsInState State.Finalizing self.old.rows place }
        ensures roomier { IsRoomier (with_row_changed (ended moment) self.old place) self.new }
    {
        let row = &mut self.rows[place as usize];
        row.state = State::Finalized;
        row.finished = Some(moment);
    }

    /// Sets the deadline of an active row. It takes no memory.
    pub fn set_deadline(&mut self, place: u32, deadline: Moment)
        requires { IsInState State.Active self.old.rows place }
        ensures roomier { IsRoomier
            (with_row_changed (with_deadline deadline) self.old place) self.new }
    {
        let row = &mut self.rows[place as usize];
        let due = Due {
            deadline: row.deadline,
            place,
        };
        row.deadline = deadline;
        self.by_deadline.replace(due, Due { deadline, place });
    }

    /// Sets the tags of an active row. It takes no memory.
    pub fn set_tags(&mut self, place: u32, tags: Listed<Pair>)
        requires { IsInState State.Active self.old.rows place }
        ensures roomier { IsRoomier (with_row_changed (with_tags tags) self.old place) self.new }
    {
        let row = &mut self.rows[place as usize];
        row.tags = tags;
    }
}
