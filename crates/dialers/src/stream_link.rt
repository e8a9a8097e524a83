//! A stream of the system that is read and written, as a link.
ghost use Rattle.std.specs.Prelude.{◌≡◌, MatchResult};
ghost use Rattle.fault_counts.specs.Causes.{counted};
ghost use Rattle.outside.specs.Ends.{OnlyReads, OnlyWrites, ReadsOnce, WritesOnce};
ghost use Rattle.dialers.specs.Streams.{stream_ends};

use fault_counts::Count;
use outside::{Failed, Link};
use std::io::{Read, Write};
use std::marker::Model;

/// A stream as a link: one system call a call, and no buffer. It tells nothing of the bytes.
#[derive(Drop)]
pub struct StreamLink<S: Read + Write + Drop> {
    stream: S,
    read_faults: Count,
    ends: Count,
    write_faults: Count,
    stalls: Count,
}

impl<S: Read + Write + Drop> Model for StreamLink<S> {
    ghost use Rattle.dialers.specs.Streams.{StreamCounts};

    ghost Value = { StreamCounts };

    ghost view = { λ l. record {
      read_faults = l.read_faults;
      ends = l.ends;
      write_faults = l.write_faults;
      stalls = l.stalls;
    } };
}

impl<S: Read + Write + Drop> StreamLink<S> {
    /// A link over an open stream.
    pub fn new(stream: S) -> StreamLink<S>
        ensures { result ≡ record { read_faults = 0; ends = 0; write_faults = 0; stalls = 0 } }
    {
        StreamLink {
            stream,
            read_faults: Count::new(),
            ends: Count::new(),
            write_faults: Count::new(),
            stalls: Count::new(),
        }
    }

    /// The stream, for what ends it.
    pub fn into_stream(self) -> S {
        self.stream
    }

    /// How many reads failed.
    pub fn read_faults(&self) -> u64
        ensures { result ≡ self.now.read_faults }
    {
        self.read_faults.value()
    }

    /// How many reads gave nothing into room that isn't empty.
    pub fn ends(&self) -> u64
        ensures { result ≡ self.now.ends }
    {
        self.ends.value()
    }

    /// How many writes failed.
    pub fn write_faults(&self) -> u64
        ensures { result ≡ self.now.write_faults }
    {
        self.write_faults.value()
    }

    /// How many writes took nothing of a piece that isn't empty.
    pub fn stalls(&self) -> u64
        ensures { result ≡ self.now.stalls }
    {
        self.stalls.value()
    }
}

impl<S: Read + Write + Drop> Link for StreamLink<S> {
    ghost use Rattle.std.specs.Prelude.{[]};
    ghost use Rattle.dialers.specs.Streams.{stream_ends};

    ghost ends = { stream_ends };

    ghost holds = { λ l. [] };

    /// Reads once. A read that fails is counted, and no other.
    fn read(&mut self, room: &mut [u8]) -> Result<usize, Failed>
        ensures read { ReadsOnce (stream_ends self.old).incoming room.new result
            (stream_ends self.new).incoming }
        ensures only { OnlyReads (stream_ends self.old) (stream_ends self.new) }
        ensures faults { MatchResult result (λ _. self.new.read_faults ≡ self.old.read_faults)
            (λ _. self.new.read_faults ≡ counted self.old.read_faults) }
    {
        match self.stream.read(room) {
            Ok(count) => {
                if count == 0 && !room.is_empty() {
                    self.ends.raise();
                }
                Ok(count)
            }
            Err(_) => self.read_faults.failed(),
        }
    }

    /// Writes once. A write that fails is counted as a fault, and no other.
    fn write(&mut self, piece: &[u8]) -> Result<usize, Failed>
        ensures write { WritesOnce (stream_ends self.old).outgoing piece.now result
            (stream_ends self.new).outgoing }
        ensures only { OnlyWrites (stream_ends self.old) (stream_ends self.new) }
        ensures faults { MatchResult result (λ _. self.new.write_faults ≡ self.old.write_faults)
            (λ _. self.new.write_faults ≡ counted self.old.write_faults) }
    {
        match self.stream.write(piece) {
            Ok(count) => {
                if count == 0 && !piece.is_empty() {
                    self.stalls.raise();
                }
                Ok(count)
            }
            Err(_) => self.write_faults.failed(),
        }
    }
}
