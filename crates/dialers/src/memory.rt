//! Links in memory, which a dialer or a door gives.
ghost use Rattle.std.specs.Prelude.{◌≡◌, ◌+◌, ◌++◌, [], IfOk, IfNone, length, option_to_list};
ghost use Rattle.fault_counts.specs.Calls.{no_call_yet, one_call_more, outcome_of, times_listed};
ghost use Rattle.dialers.specs.Dials.{Accepts, Connects, IsOneOut, with_returned};
ghost use Rattle.dialers.specs.Memory.{EndsAccept, EndsConnect, dials_of};

use crate::Dialer;
use fault_counts::{Count, Outcome, Schedule};
use outside::{Failed, Link};
use std::alloc::{AllocError, Global};
use std::collections::VecDeque;
use std::marker::Model;

/// A dialer that has its links from the start. Some of its calls fail, and so does each where no
/// link is left.
pub type MemoryDialer<L> = MemoryLinks<L>;

/// Links that are there from the start and are given one after the other. Some of the calls for
/// one fail.
#[derive(Drop)]
pub struct MemoryLinks<L: Link + Drop> {
    schedule: Schedule,
    coming: VecDeque<L>,
    returned: Vec<L>,
    out: usize,
    faults: Count,
}

impl<L: Link + Drop> Model for MemoryLinks<L> {
    ghost use Rattle.std.specs.Prelude.{◌≤◌, ◌+◌, length, vec_len, vec_capacity};
    ghost use Rattle.dialers.specs.Memory.{LinksState};

    ghost Value = { LinksState L };

    ghost view = { λ d. record {
      calls = d.schedule;
      coming = d.coming.items;
      returned = d.returned.items;
      out = d.out;
      faults = d.faults;
    } };

    ghost invariant = { λ d.
        length d.coming.items + d.out + vec_len d.returned ≤ vec_capacity d.returned };
}

impl<L: Link + Drop> MemoryLinks<L> {
    /// These links, in order. The calls for a link whose numbers, counted from 1, stand in `fails`
    /// fail. Room for the links that are given back is made here. `Err` where there is no memory
    /// for it.
    pub fn new(alloc: Global, links: Vec<L>, fails: Vec<u64>) -> Result<MemoryLinks<L>, AllocError>
        ensures calls { IfOk result (λ d. d.calls ≡ no_call_yet fails.items) }
        ensures coming { IfOk result (λ d. d.coming ≡ links.items) }
        ensures returned { IfOk result (λ d. d.returned ≡ []) }
        ensures out { IfOk result (λ d. d.out ≡ 0) }
        ensures faults { IfOk result (λ d. d.faults ≡ 0) }
    {
        let returned = Vec::with_capacity(alloc, links.len())?;
        Ok(MemoryLinks {
            schedule: Schedule::new(fails),
            coming: VecDeque::from(links),
            returned,
            out: 0,
            faults: Count::new(),
        })
    }

    /// The links that were given back, in order.
    pub fn returned(&self) -> &[L]
        ensures { result.now ≡ self.now.returned }
    {
        self.returned.as_slice()
    }

    /// How many links are out.
    pub fn out(&self) -> usize
        ensures { result ≡ self.now.out }
    {
        self.out
    }

    /// How many calls failed.
    pub fn faults(&self) -> u64
        ensures { result ≡ self.now.faults }
    {
        self.faults.value()
    }

    /// Takes the first link that is to come, if one is left.
    fn take_first(&mut self) -> Option<L>
        ensures first { self.old.coming ≡ option_to_list result ++ self.new.coming }
        ensures end { IfNone result (self.old.coming ≡ []) }
        ensures out { self.new.out ≡ self.old.out + length (option_to_list result) }
        ensures rest { (self.new.calls ≡ self.old.calls) × (self.new.returned ≡ self.old.returned)
            × (self.new.faults ≡ self.old.faults) }
    {
        let link = self.coming.pop_front()?;
        self.out += 1;
        Some(link)
    }

    /// Gives the next link, or tells that there is none. Fails where the call is listed.
    pub fn next(&mut self) -> Result<Option<L>, Failed>
        ensures accepts { Accepts (dials_of self.old) result (dials_of self.new) }
        ensures ends { EndsAccept (outcome_of (times_listed self.old.calls)) self.old.coming
            result }
        ensures calls { self.new.calls ≡ one_call_more self.old.calls }
    {
        match self.schedule.next_outcome() {
            Outcome::Works => match self.take_first() {
                Some(link) => Ok(Some(link)),
                None => Ok(None),
            },
            Outcome::Fails | Outcome::Stalls => {
                self.faults.raise();
                Err(Failed)
            }
        }
    }

    /// Keeps the link behind those that were given back before. Takes no memory.
    pub fn keep(&mut self, link: L)
        requires { IsOneOut (dials_of self.old) }
        ensures dials { dials_of self.new ≡ with_returned (dials_of self.old) link }
        ensures calls { self.new.calls ≡ self.old.calls }
    {
        self.out -= 1;
        self.returned.push_reserved(link);
    }
}

impl<L: Link + Drop> Dialer for MemoryLinks<L> {
    ghost use Rattle.dialers.specs.Memory.{dials_of};

    type L = L;

    ghost dials = { dials_of };

    /// Gives the next link, or fails where there is none or the call is listed.
    fn connect(&mut self) -> Result<L, Failed>
        ensures dials { Connects (dials_of self.old) result (dials_of self.new) }
        ensures ends { EndsConnect (outcome_of (times_listed self.old.calls)) self.old.coming
            result }
        ensures calls { self.new.calls ≡ one_call_more self.old.calls }
    {
        match self.schedule.next_outcome() {
            Outcome::Works => match self.take_first() {
                Some(link) => Ok(link),
                None => self.faults.failed(),
            },
            Outcome::Fails | Outcome::Stalls => self.faults.failed(),
        }
    }

    /// Keeps the link behind those before it. Takes no memory.
    fn give_back(&mut self, link: L)
        requires { IsOneOut (dials_of self.old) }
        ensures dials { dials_of self.new ≡ with_returned (dials_of self.old) link }
        ensures calls { self.new.calls ≡ self.old.calls }
    {
        self.keep(link);
    }
}
