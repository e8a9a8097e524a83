//! Deadlines with the places of their rows, kept in order.
ghost use Rattle.std.specs.Prelude.{◌≡◌, ◌≤◌, ◌<◌, ◌+◌, ◌≤ℤ◌, ◌<ℤ◌, ◌⊎◌, ◌++◌, ◌∷◌, [], List, OnOk, Contains, length};
ghost use Rattle.std.specs.VecDeque.{deque_len, deque_capacity};
ghost use Rattle.invocations.specs.Due.{IsNextPlace};
ghost use Rattle.lists.specs.Orders.{HasOneFewer, HasOneMore, IsRising, IsSlot};
ghost use Rattle.invocations.specs.Orders.{HasReplaced, IsDueIndex};
ghost use Rattle.invocations.specs.Orders.{deadline_in, deadlines_of, due_order, place_at};
ghost use Rattle.invocations.specs.declared.invocation.Invocation.{Invocation};

use crate::invocation::Invocation;
use names_realms::{Moment, State};
use std::alloc::{AllocError, Global};
use std::collections::VecDeque;

/// A deadline, and the place of its row.
#[derive(Clone, Copy, Debug, PartialEq, Eq, PartialOrd, Ord)]
pub(crate) struct Due {
    pub(crate) deadline: Moment,
    pub(crate) place: u32,
}

/// The deadlines of the active rows, in order, those that are equal in the order of the places.
#[derive(Drop)]
pub(crate) struct DueIndex {
    pub(crate) entries: VecDeque<Due>,
}

impl DueIndex {
    /// No deadlines.
    pub(crate) fn new(alloc: Global) -> DueIndex
        ensures { result.entries.items ≡ [] }
    {
        DueIndex {
            entries: VecDeque::new(alloc),
        }
    }

    /// Makes room for one more.
    pub(crate) fn reserve(&mut self, additional: usize) -> Result<(), AllocError>
        ensures entries { self.new.entries.items ≡ self.old.entries.items }
        ensures len { deque_len self.new.entries ≡ deque_len self.old.entries }
        ensures room { OnOk result
            (deque_len self.new.entries + additional ≤ deque_capacity self.new.entries) }
        ensures capacity { deque_capacity self.old.entries ≤ deque_capacity self.new.entries }
    {
        self.entries.reserve(additional)
    }

    /// Where a deadline stands, or where it would go.
    fn search(&self, due: &Due) -> Result<usize, usize>
        requires { IsRising due_order self.now.entries.items }
        ensures { IsSlot (λ entry. due_order entry due.now) self.now.entries.items result }
    {
        self.entries.binary_search(due)
    }

    /// Adds a deadline. There is room for it. Those before it or those behind it move, whichever
    /// are fewer: at most 32,768 entries of 16 bytes.
    pub(crate) fn add(&mut self, due: Due)
        requires rising { IsRising due_order self.old.entries.items }
        requires absent { ¬ Contains self.old.entries.items due }
        requires room { deque_len self.old.entries < deque_capacity self.old.entries }
        ensures rising { IsRising due_order self.new.entries.items }
        ensures entries { HasOneMore self.old.entries.items due self.new.entries.items }
        ensures len { deque_len self.new.entries ≡ deque_len self.old.entries + 1 }
        ensures capacity { deque_capacity self.old.entries ≤ deque_capacity self.new.entries }
    {
        if let Err(at) = self.search(&due) {
            let _ = self.entries.insert(at, due);
        }
    }

    /// Adds the deadline of the row that comes next, where it is active. There is room for it.
    pub(crate) fn add_row(&mut self, rows: &[Invocation], row: &Invocation)
        requires index { IsDueIndex (deadlines_of rows.now) self.old.entries.items }
        requires few { length rows.now < 65_536 }
        requires room { deque_len self.old.entries < deque_capacity self.old.entries }
        ensures index { IsDueIndex
            (deadlines_of rows.now ++ deadline_in row.now.state row.now.deadline ∷ [])
            self.new.entries.items }
        ensures len { deque_len self.new.entries ≤ deque_len self.old.entries + 1 }
        ensures capacity { deque_capacity self.old.entries ≤ deque_capacity self.new.entries }
    {
        if row.state == State::Active {
            self.add(Due {
                deadline: row.deadline,
                place: rows.len() as u32,
            });
        }
    }

    /// Takes a deadline out. Those before it or those behind it move, whichever are fewer: none
    /// where it is the first.
    pub(crate) fn remove(&mut self, due: Due)
        requires rising { IsRising due_order self.old.entries.items }
        requires there { Contains self.old.entries.items due }
        ensures rising { IsRising due_order self.new.entries.items }
        ensures entries { HasOneFewer self.old.entries.items due self.new.entries.items }
        ensures len { deque_len self.new.entries + 1 ≡ deque_len self.old.entries }
        ensures capacity { deque_capacity self.old.entries ≤ deque_capacity self.new.entries }
    {
        if let Ok(at) = self.search(&due) {
            let _ = self.entries.remove(at);
        }
    }

    /// Takes a deadline out, and puts another one in.
    pub(crate) fn replace(&mut self, due: Due, to: Due)
        requires rising { IsRising due_order self.old.entries.items }
        requires there { Contains self.old.entries.items due }
        requires absent { Contains self.old.entries.items to → to ≡ due }
        ensures entries { HasReplaced self.old.entries.items due to self.new.entries.items }
        ensures len { deque_len self.new.entries ≡ deque_len self.old.entries }
        ensures capacity { deque_capacity self.old.entries ≤ deque_capacity self.new.entries }
    {
        self.remove(due);
        self.add(to);
    }

    /// The place of the row whose deadline stands at a place in the order, counted from 0, or none
    /// where so few do.
    pub(crate) fn at(&self, place: u32) -> Option<u32>
        ensures { result ≡ place_at self.now.entries.items place }
    {
        match self.entries.get(place as usize) {
            Some(due) => Some(due.place),
            None => None,
        }
    }

    /// The place of the first deadline, where it is this moment or earlier.
    pub(crate) fn next(&self, moment: Moment) -> Option<u32>
        ensures { (rows : List Invocation) →
            IsDueIndex (deadlines_of rows) self.now.entries.items → IsNextPlace rows moment result }
    {
        let Some(due) = self.entries.front() else {
            return None;
        };
        if due.deadline <= moment {
            Some(due.place)
        } else {
            None
        }
    }
}
