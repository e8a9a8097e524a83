//! A sink in memory.
ghost use Rattle.std.specs.Prelude.{◌≡◌, IfOk};
ghost use Rattle.fault_counts.specs.Calls.{no_call_yet, outcome_of, times_listed};
ghost use Rattle.outside.specs.Output.{nothing_written, EndsWrite};
ghost use Rattle.outside.specs.Ends.{WritesOnce};
ghost use Rattle.outside.specs.Memory.{sink_after, sink_ends};

use super::output::Output;
use crate::{Failed, Sink};
use fault_counts::Schedule;
use std::alloc::{AllocError, Global};
use std::marker::Model;

/// A sink in memory, some of whose calls fail or take nothing.
#[derive(Drop)]
pub struct MemorySink {
    schedule: Schedule,
    output: Output,
}

impl Model for MemorySink {
    ghost use Rattle.outside.specs.Memory.{SinkState};

    ghost Value = { SinkState };

    ghost view = { λ s. record { calls = s.schedule; output = s.output } };
}

impl MemorySink {
    /// A sink that took nothing yet.
    ///
    /// The calls whose numbers, counted from 1, stand in `fails` fail. Where a number stands there
    /// twice, the write takes nothing instead, if its piece isn't empty.
    pub fn new(alloc: Global, fails: Vec<u64>) -> Result<MemorySink, AllocError>
        ensures calls { IfOk result (λ s. s.calls ≡ no_call_yet fails.items) }
        ensures output { IfOk result (λ s. s.output ≡ nothing_written) }
    {
        Ok(MemorySink {
            schedule: Schedule::new(fails),
            output: Output::new(alloc),
        })
    }

    /// What was taken so far.
    pub fn written(&self) -> &[u8]
        ensures { result.now ≡ self.now.output.written }
    {
        self.output.written()
    }

    /// How many writes failed.
    pub fn faults(&self) -> u64
        ensures { result ≡ self.now.output.faults }
    {
        self.output.faults()
    }

    /// How many writes took nothing of a piece that isn't empty.
    pub fn stalls(&self) -> u64
        ensures { result ≡ self.now.output.stalls }
    {
        self.output.stalls()
    }
}

impl Sink for MemorySink {
    ghost use Rattle.outside.specs.Memory.{sink_ends};

    ghost ends = { sink_ends };

    /// Takes the whole piece, unless the call is listed or there is no memory for the piece.
    fn write(&mut self, piece: &[u8]) -> Result<usize, Failed>
        ensures write { WritesOnce (sink_ends self.old) piece.now result (sink_ends self.new) }
        ensures ends { EndsWrite (outcome_of (times_listed self.old.calls)) piece.now result }
        ensures after { self.new ≡ sink_after self.old piece.now result }
    {
        let outcome = self.schedule.next_outcome();
        self.output.write(outcome, piece)
    }
}
