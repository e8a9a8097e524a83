//! A link in memory.
ghost use Rattle.std.specs.Prelude.{◌≡◌, map, IfOk};
ghost use Rattle.fault_counts.specs.Calls.{no_call_yet, outcome_of, times_listed};
ghost use Rattle.outside.specs.Pieces.{without_empty, first_piece};
ghost use Rattle.outside.specs.Output.{nothing_written, EndsWrite};
ghost use Rattle.outside.specs.Ends.{OnlyReads, OnlyWrites, ReadsOnce, WritesOnce};
ghost use Rattle.outside.specs.Memory.{EndsRead, link_after_read, link_after_write, link_ends};

use super::output::Output;
use super::pieces::Pieces;
use crate::source::count_end;
use crate::{Failed, Link};
use fault_counts::{Count, Outcome, Schedule};
use std::alloc::{AllocError, Global};
use std::marker::Model;

/// A link in memory, some of whose calls fail or take nothing.
#[derive(Drop)]
pub struct MemoryLink {
    schedule: Schedule,
    pieces: Pieces,
    read_faults: Count,
    ends: Count,
    output: Output,
}

impl Model for MemoryLink {
    ghost use Rattle.outside.specs.Memory.{LinkState};

    ghost Value = { LinkState };

    ghost view = { λ l. record {
      calls = l.schedule;
      pieces = l.pieces;
      read_faults = l.read_faults;
      ends = l.ends;
      output = l.output;
    } };
}

impl MemoryLink {
    /// A link whose reads give the pieces as they are cut. Empty ones are passed over.
    ///
    /// The calls whose numbers, counted from 1 over reads and writes, stand in `fails` fail. Where
    /// the number of a write stands there twice, the write takes nothing instead, if its piece
    /// isn't empty.
    pub fn new(
        alloc: Global,
        pieces: Vec<Vec<u8>>,
        fails: Vec<u64>,
    ) -> Result<MemoryLink, AllocError>
        ensures calls { IfOk result (λ l. l.calls ≡ no_call_yet fails.items) }
        ensures pieces { IfOk result (λ l. l.pieces ≡ without_empty
            (map (λ v. v.items) pieces.items)) }
        ensures read_faults { IfOk result (λ l. l.read_faults ≡ 0) }
        ensures ends { IfOk result (λ l. l.ends ≡ 0) }
        ensures output { IfOk result (λ l. l.output ≡ nothing_written) }
    {
        Ok(MemoryLink {
            schedule: Schedule::new(fails),
            pieces: Pieces::new(alloc, pieces),
            read_faults: Count::new(),
            ends: Count::new(),
            output: Output::new(alloc),
        })
    }

    /// What was taken so far.
    pub fn written(&self) -> &[u8]
        ensures { result.now ≡ self.now.output.written }
    {
        self.output.written()
    }

    /// How many reads failed.
    pub fn read_faults(&self) -> u64
        ensures { result ≡ self.now.read_faults }
    {
        self.read_faults.value()
    }

    /// How many reads gave nothing into room that isn't empty.
    pub fn ends(&self) -> u64
        ensures { result ≡ self.now.ends }
    {
        self.ends.value()
    }

    /// How many writes failed.
    pub fn write_faults(&self) -> u64
        ensures { result ≡ self.now.output.faults }
    {
        self.output.faults()
    }

    /// How many writes took nothing of a piece that isn't empty.
    pub fn stalls(&self) -> u64
        ensures { result ≡ self.now.output.stalls }
    {
        self.output.stalls()
    }
}

impl Link for MemoryLink {
    ghost use Rattle.std.specs.Prelude.{[]};
    ghost use Rattle.outside.specs.Memory.{link_ends};

    ghost ends = { link_ends };

    ghost holds = { λ l. [] };

    /// Gives as many bytes of the first piece as fit, or fails where the call is listed.
    fn read(&mut self, room: &mut [u8]) -> Result<usize, Failed>
        ensures read { ReadsOnce (link_ends self.old).incoming room.new result
            (link_ends self.new).incoming }
        ensures only { OnlyReads (link_ends self.old) (link_ends self.new) }
        ensures ends { EndsRead (outcome_of (times_listed self.old.calls))
            (first_piece self.old.pieces) room.new result }
        ensures after { self.new ≡ link_after_read self.old room.new result }
    {
        match self.schedule.next_outcome() {
            Outcome::Works => {
                let count = self.pieces.give(room);
                count_end(&mut self.ends, room, count);
                Ok(count)
            }
            Outcome::Fails | Outcome::Stalls => self.read_faults.failed(),
        }
    }

    /// Takes the whole piece, unless the call is listed or there is no memory for the piece.
    fn write(&mut self, piece: &[u8]) -> Result<usize, Failed>
        ensures write { WritesOnce (link_ends self.old).outgoing piece.now result
            (link_ends self.new).outgoing }
        ensures only { OnlyWrites (link_ends self.old) (link_ends self.new) }
        ensures ends { EndsWrite (outcome_of (times_listed self.old.calls)) piece.now result }
        ensures after { self.new ≡ link_after_write self.old piece.now result }
    {
        let outcome = self.schedule.next_outcome();
        self.output.write(outcome, piece)
    }
}
