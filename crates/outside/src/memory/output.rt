//! Bytes that were written.
ghost use Rattle.std.specs.Prelude.{◌≡◌};
ghost use Rattle.outside.specs.Ends.{WritesOnce};
ghost use Rattle.outside.specs.Output.{nothing_written, output_ends, EndsWrite, output_after};

use crate::Failed;
use fault_counts::{Count, Outcome};
use std::alloc::Global;
use std::marker::Model;

/// What an end in memory took, with its counts.
#[derive(Drop)]
pub struct Output {
    written: Vec<u8>,
    faults: Count,
    stalls: Count,
}

impl Model for Output {
    ghost use Rattle.outside.specs.Output.{Output};

    ghost Value = { Output };

    ghost view = { λ o. record {
      written = o.written.items;
      faults = o.faults;
      stalls = o.stalls;
    } };
}

impl Output {
    pub fn new(alloc: Global) -> Output
        ensures { result ≡ nothing_written }
    {
        Output {
            written: Vec::new(alloc),
            faults: Count::new(),
            stalls: Count::new(),
        }
    }

    pub fn written(&self) -> &[u8]
        ensures { result.now ≡ self.now.written }
    {
        &self.written
    }

    pub fn faults(&self) -> u64
        ensures { result ≡ self.now.faults }
    {
        self.faults.value()
    }

    pub fn stalls(&self) -> u64
        ensures { result ≡ self.now.stalls }
    {
        self.stalls.value()
    }

    /// Takes the whole piece, or ends as `outcome` says. Where there is no memory for the piece,
    /// the write fails too.
    pub fn write(&mut self, outcome: Outcome, piece: &[u8]) -> Result<usize, Failed>
        ensures write { WritesOnce (output_ends self.old) piece.now result (output_ends self.new) }
        ensures ends { EndsWrite outcome piece.now result }
        ensures after { self.new ≡ output_after self.old piece.now result }
    {
        match outcome {
            Outcome::Works => self.take(piece),
            Outcome::Stalls if !piece.is_empty() => {
                self.stalls.raise();
                Ok(0)
            }
            _ => self.faults.failed(),
        }
    }

    fn take(&mut self, piece: &[u8]) -> Result<usize, Failed>
        ensures write { WritesOnce (output_ends self.old) piece.now result (output_ends self.new) }
        ensures ends { EndsWrite Outcome.Works piece.now result }
        ensures after { self.new ≡ output_after self.old piece.now result }
    {
        match self.written.extend_from_slice(piece) {
            Ok(()) => Ok(piece.len()),
            Err(_) => self.faults.failed(),
        }
    }
}
