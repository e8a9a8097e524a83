//! Readers and writers of the system as a source and a sink: one system call a call, and no buffer.
ghost use Rattle.std.specs.Prelude.{◌≡◌, MatchResult};
ghost use Rattle.fault_counts.specs.Causes.{counted};
ghost use Rattle.outside.specs.Ends.{ReadsOnce, WritesOnce};

use crate::source::count_end;
use crate::{Failed, Sink, Source};
use fault_counts::Count;
use std::io::{Read, Write};
use std::marker::Model;

/// A reader as a source. It tells what std tells of the reader's bytes.
#[derive(Drop)]
pub struct StreamSource<S: Read + Drop> {
    stream: S,
    faults: Count,
    ends: Count,
}

impl<S: Read + Drop> Model for StreamSource<S> {
    ghost use Rattle.outside.specs.Ends.{Incoming};

    ghost Value = { Incoming };

    ghost view = { λ s. record {
      left = S.remaining s.stream;
      faults = s.faults;
      ends = s.ends;
    } };
}

impl<S: Read + Drop> StreamSource<S> {
    pub fn new(stream: S) -> StreamSource<S>
        ensures { result ≡ record { left = S.remaining stream; faults = 0; ends = 0 } }
    {
        StreamSource {
            stream,
            faults: Count::new(),
            ends: Count::new(),
        }
    }

    /// How many reads failed.
    pub fn faults(&self) -> u64
        ensures { result ≡ self.now.faults }
    {
        self.faults.value()
    }

    /// How many reads gave nothing into room that isn't empty.
    pub fn ends(&self) -> u64
        ensures { result ≡ self.now.ends }
    {
        self.ends.value()
    }
}

impl<S: Read + Drop> Source for StreamSource<S> {
    ghost ends = { λ s. s };

    /// Reads once. A read that fails is counted, and no other.
    fn read(&mut self, room: &mut [u8]) -> Result<usize, Failed>
        ensures read { ReadsOnce self.old room.new result self.new }
        ensures faults { MatchResult result (λ _. self.new.faults ≡ self.old.faults)
            (λ _. self.new.faults ≡ counted self.old.faults) }
    {
        match self.stream.read(room) {
            Ok(count) => {
                count_end(&mut self.ends, room, count);
                Ok(count)
            }
            Err(_) => self.faults.failed(),
        }
    }
}

/// A writer as a sink. It tells what std tells of the writer's bytes.
#[derive(Drop)]
pub struct StreamSink<S: Write + Drop> {
    stream: S,
    faults: Count,
    stalls: Count,
}

impl<S: Write + Drop> Model for StreamSink<S> {
    ghost use Rattle.outside.specs.Ends.{Outgoing};

    ghost Value = { Outgoing };

    ghost view = { λ s. record {
      written = S.contents s.stream;
      faults = s.faults;
      stalls = s.stalls;
    } };
}

impl<S: Write + Drop> StreamSink<S> {
    pub fn new(stream: S) -> StreamSink<S>
        ensures { result ≡ record { written = S.contents stream; faults = 0; stalls = 0 } }
    {
        StreamSink {
            stream,
            faults: Count::new(),
            stalls: Count::new(),
        }
    }

    /// How many writes failed.
    pub fn faults(&self) -> u64
        ensures { result ≡ self.now.faults }
    {
        self.faults.value()
    }

    /// How many writes took nothing of a piece that isn't empty.
    pub fn stalls(&self) -> u64
        ensures { result ≡ self.now.stalls }
    {
        self.stalls.value()
    }
}

impl<S: Write + Drop> Sink for StreamSink<S> {
    ghost ends = { λ s. s };

    /// Writes once. A write that fails is counted as a fault, and no other.
    fn write(&mut self, piece: &[u8]) -> Result<usize, Failed>
        ensures write { WritesOnce self.old piece.now result self.new }
        ensures faults { MatchResult result (λ _. self.new.faults ≡ self.old.faults)
            (λ _. self.new.faults ≡ counted self.old.faults) }
    {
        match self.stream.write(piece) {
            Ok(count) => {
                if count == 0 && !piece.is_empty() {
                    self.stalls.raise();
                }
                Ok(count)
            }
            Err(_) => self.faults.failed(),
        }
    }
}
