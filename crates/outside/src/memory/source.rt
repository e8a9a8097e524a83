//! A source in memory.
ghost use Rattle.std.specs.Prelude.{◌≡◌, IfOk};
ghost use Rattle.fault_counts.specs.Calls.{no_call_yet, outcome_of, times_listed};
ghost use Rattle.outside.specs.Ends.{ReadsOnce};
ghost use Rattle.outside.specs.Memory.{EndsRead, source_after, source_ends};

use super::pieces::Unread;
use crate::source::count_end;
use crate::{Failed, Source};
use fault_counts::{Count, Outcome, Schedule};
use std::alloc::{AllocError, Global};
use std::marker::Model;

/// A source of bytes in memory, some of whose calls fail.
#[derive(Drop)]
pub struct MemorySource {
    schedule: Schedule,
    unread: Unread,
    faults: Count,
    ends: Count,
}

impl Model for MemorySource {
    ghost use Rattle.outside.specs.Memory.{SourceState};

    ghost Value = { SourceState };

    ghost view = { λ s. record {
      calls = s.schedule;
      left = s.unread;
      faults = s.faults;
      ends = s.ends;
    } };
}

impl MemorySource {
    /// A source that gives `bytes`. The calls whose numbers, counted from 1, stand in `fails` fail.
    pub fn new(_alloc: Global, bytes: Vec<u8>, fails: Vec<u64>) -> Result<MemorySource, AllocError>
        ensures calls { IfOk result (λ s. s.calls ≡ no_call_yet fails.items) }
        ensures left { IfOk result (λ s. s.left ≡ bytes.items) }
        ensures faults { IfOk result (λ s. s.faults ≡ 0) }
        ensures ends { IfOk result (λ s. s.ends ≡ 0) }
    {
        Ok(MemorySource {
            schedule: Schedule::new(fails),
            unread: Unread::new(bytes),
            faults: Count::new(),
            ends: Count::new(),
        })
    }

    /// How many reads failed.
    pub fn faults(&self) -> u64
        ensures { result ≡ self.now.faults }
    {
        self.faults.value()
    }

    /// How many reads gave nothing into room that isn't empty.
    pub fn ends(&self) -> u64
        ensures { result ≡ self.now.ends }
    {
        self.ends.value()
    }
}

impl Source for MemorySource {
    ghost use Rattle.outside.specs.Memory.{source_ends};

    ghost ends = { source_ends };

    /// Gives as many bytes as fit, or fails where the call is listed.
    fn read(&mut self, room: &mut [u8]) -> Result<usize, Failed>
        ensures read { ReadsOnce (source_ends self.old) room.new result (source_ends self.new) }
        ensures ends { EndsRead (outcome_of (times_listed self.old.calls)) self.old.left room.new
            result }
        ensures after { self.new ≡ source_after self.old room.new result }
    {
        match self.schedule.next_outcome() {
            Outcome::Works => {
                let count = self.unread.give(room);
                count_end(&mut self.ends, room, count);
                Ok(count)
            }
            Outcome::Fails | Outcome::Stalls => self.faults.failed(),
        }
    }
}
