//! A list of places for each holder.
ghost use Rattle.std.specs.Prelude.{◌≡◌, ◌≢◌, ◌≤◌, ◌<◌, ◌+◌, ◌++◌, ◌∷◌, ℕ, [], OnOk, length};
ghost use Rattle.test_results.specs.Lists.{list_of, room_of};

use std::alloc::{AllocError, Global};
use std::marker::Model;

/// A list of places for each holder, which is empty where none was added.
#[derive(Drop)]
pub(crate) struct HolderLists {
    lists: Vec<Vec<u32>>,
}

impl Model for HolderLists {
    ghost use Rattle.test_results.specs.Lists.{ListsState, lists_in, rooms_in};

    ghost Value = { ListsState };

    ghost view = { λ l. record { lists = lists_in l.lists.items; rooms = rooms_in l.lists.items } };
}

impl HolderLists {
    /// Empty lists.
    pub(crate) fn new(alloc: Global) -> HolderLists
        ensures { (holder : ℕ) → list_of result holder ≡ [] }
    {
        HolderLists {
            lists: Vec::new(alloc),
        }
    }

    /// The list of a holder.
    pub(crate) fn list(&self, holder: u32) -> &[u32]
        ensures { result.now ≡ list_of self.now holder }
    {
        match self.lists.get(holder as usize) {
            Some(list) => list.as_slice(),
            None => &[],
        }
    }

    /// Makes an empty list for the next holder.
    fn add_empty(&mut self, alloc: Global) -> Result<(), AllocError>
        ensures list { (other : ℕ) → list_of self.new other ≡ list_of self.old other }
        ensures room { (other : ℕ) → room_of self.old other ≤ room_of self.new other }
        ensures count { OnOk result (length self.new.lists ≡ length self.old.lists + 1) }
    {
        self.lists.reserve(1)?;
        let none = Vec::new(alloc);
        self.lists.push_reserved(none);
        Ok(())
    }

    /// Makes a list for each holder up to this one.
    fn fill(&mut self, alloc: Global, holder: u32) -> Result<(), AllocError>
        ensures list { (other : ℕ) → list_of self.new other ≡ list_of self.old other }
        ensures room { (other : ℕ) → room_of self.old other ≤ room_of self.new other }
        ensures there { OnOk result (holder < length self.new.lists) }
    {
        let lacking = (holder as usize + 1).saturating_sub(self.lists.len());
        for _ in 0..lacking {
            self.add_empty(alloc)?;
        }
        Ok(())
    }

    /// Makes room for this many places more in the list of a holder.
    pub(crate) fn reserve(
        &mut self,
        alloc: Global,
        holder: u32,
        additional: usize,
    ) -> Result<(), AllocError>
        ensures list { (other : ℕ) → list_of self.new other ≡ list_of self.old other }
        ensures room { (other : ℕ) → room_of self.old other ≤ room_of self.new other }
        ensures enough { OnOk result (additional ≤ room_of self.new holder) }
    {
        self.fill(alloc, holder)?;
        self.reserve_in(holder, additional)
    }

    /// Makes room for this many places more in a list that is there.
    fn reserve_in(&mut self, holder: u32, additional: usize) -> Result<(), AllocError>
        requires { holder < length self.old.lists }
        ensures list { (other : ℕ) → list_of self.new other ≡ list_of self.old other }
        ensures room { (other : ℕ) → room_of self.old other ≤ room_of self.new other }
        ensures enough { OnOk result (additional ≤ room_of self.new holder) }
    {
        let list = &mut self.lists[holder as usize];
        list.reserve(additional)
    }

    /// Puts a place behind those in the list of a holder, for which there is room.
    pub(crate) fn push(&mut self, holder: u32, place: u32)
        requires { 0 < room_of self.old holder }
        ensures list { list_of self.new holder ≡ list_of self.old holder ++ place ∷ [] }
        ensures others { (other : ℕ) →
            other ≢ holder → list_of self.new other ≡ list_of self.old other }
        ensures room { (other : ℕ) → room_of self.old other ≤ room_of self.new other + 1 }
    {
        let list = &mut self.lists[holder as usize];
        list.push_reserved(place);
    }
}
