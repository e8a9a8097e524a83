//! A disk in memory.
ghost use Rattle.std.specs.Prelude.{◌≡◌, ◌≤◌, ◌<◌, ◌+◌, ℕ, [], length, take, true, false, ◌↔◌, IsTrue, if◌then◌else◌};
ghost use Rattle.std.specs.Prelude.{Some, None, IfOk, OnOk, OnErr};
ghost use Rattle.std.specs.Io.{ReadsAtMost};
ghost use Rattle.fault_counts.specs.Causes.{HasCause};
ghost use Rattle.fault_counts.specs.Calls.{no_call_yet};
ghost use Rattle.disks.specs.Parts.{Part, all_synced, part_of, as_read, MayLeave, written_over, write_begun, cut_begun};
ghost use Rattle.disks.specs.Calls.{WhereTold, Gives, Writes, Cuts, Syncs};
ghost use Rattle.disks.specs.PartStates.{state};
ghost use Rattle.disks.specs.Memories.{told_by, parts_by, advanced, WorksNow};

use crate::give::give;
use crate::part_state::PartState;
use crate::{Disk, Failed};
use fault_counts::{Count, Outcome, Schedule};
use std::alloc::{AllocError, Global};

/// Both parts at one moment.
#[derive(Drop)]
pub struct Moment {
    pub first: PartState,
    pub second: PartState,
}

/// A disk in memory, which keeps each of its moments. Some of its calls fail.
#[derive(Drop)]
pub struct MemoryDisk {
    alloc: Global,
    schedule: Schedule,
    faults: Count,
    stop: Option<u64>,
    pub(crate) current: Moment,
    pub(crate) past: Vec<Moment>,
}

impl MemoryDisk {
    /// A disk with these two parts, both synced.
    ///
    /// The calls whose numbers, counted from 1, stand in `fails` fail. After `stop` writes every
    /// call fails. A write or a cut that is to fail counts as begun, unless the disk has stopped,
    /// or memory for it was wanting.
    pub fn new(
        alloc: Global,
        first: Vec<u8>,
        second: Vec<u8>,
        fails: Vec<u64>,
        stop: Option<u64>,
    ) -> Result<MemoryDisk, AllocError>
        ensures first { IfOk result (λ d. (parts_by d.current).first ≡ all_synced first.items) }
        ensures second { IfOk result (λ d. (parts_by d.current).second ≡ all_synced second.items) }
        ensures past { IfOk result (λ d. d.past.items ≡ []) }
        ensures calls { IfOk result (λ d. d.schedule ≡ no_call_yet fails.items) }
        ensures stop { IfOk result (λ d. d.stop ≡ stop) }
        ensures faults { IfOk result (λ d. d.faults ≡ 0) }
    {
        Ok(MemoryDisk {
            alloc,
            schedule: Schedule::new(fails),
            faults: Count::new(),
            stop,
            current: Moment {
                first: PartState::new(alloc, first)?,
                second: PartState::new(alloc, second)?,
            },
            past: Vec::new(alloc),
        })
    }

    /// What a read gives of a part.
    pub fn bytes(&self, part: u8) -> &[u8]
        requires { part ≤ 1 }
        ensures { result.now ≡ (part_of (parts_by self.now.current) part).bytes }
    {
        &self.current.part(part).bytes
    }

    /// How many calls failed.
    pub fn faults(&self) -> u64
        ensures { result ≡ self.now.faults }
    {
        self.faults.value()
    }

    // Counts a call, and tells whether it works.
    fn call_works(&mut self) -> bool
        ensures works { IsTrue result ↔ WorksNow self.old.schedule self.old.stop }
        ensures stop { self.new.stop ≡ self.old.stop }
        ensures faults { self.new.faults ≡ self.old.faults }
        ensures current { self.new.current ≡ self.old.current }
        ensures past { self.new.past ≡ self.old.past }
    {
        let outcome = self.schedule.next_outcome();
        matches!(outcome, Outcome::Works) && self.stop != Some(0)
    }

    // Writes, or begins a write that fails.
    fn write(&mut self, works: bool, part: u8, at: u64, piece: &[u8]) -> Result<(), AllocError>
        requires part { part ≤ 1 }
        requires at { at ≤ length (part_of (parts_by self.old.current) part).bytes }
        ensures ok { OnOk result (told_by self.new.current self.new.past.items
            ≡ advanced self.old.current self.old.past.items part
            (write_begun (part_of (parts_by self.old.current) part) at (length piece.now)
            (if works
            then written_over (part_of (parts_by self.old.current) part).bytes at piece.now
            else (part_of (parts_by self.old.current) part).bytes))) }
        ensures err { OnErr result (told_by self.new.current self.new.past.items
            ≡ told_by self.old.current self.old.past.items) }
        ensures faults { self.new.faults ≡ self.old.faults }
    {
        let state = self.current.part(part);
        let next = if works {
            state.written(self.alloc, at, piece)?
        } else {
            state.not_written(self.alloc, at, piece.len() as u64)?
        };
        self.advance(part, next)
    }

    // Cuts, or begins a cut that fails.
    fn cut_part(&mut self, works: bool, part: u8, end: u64) -> Result<(), AllocError>
        requires part { part ≤ 1 }
        requires end { end ≤ length (part_of (parts_by self.old.current) part).bytes }
        ensures ok { OnOk result (told_by self.new.current self.new.past.items
            ≡ advanced self.old.current self.old.past.items part
            (cut_begun (part_of (parts_by self.old.current) part) end
            (if works then take end (part_of (parts_by self.old.current) part).bytes
            else (part_of (parts_by self.old.current) part).bytes))) }
        ensures err { OnErr result (told_by self.new.current self.new.past.items
            ≡ told_by self.old.current self.old.past.items) }
        ensures faults { self.new.faults ≡ self.old.faults }
    {
        let state = self.current.part(part);
        let next = if works {
            state.cut(self.alloc, end)?
        } else {
            state.not_cut(self.alloc, end)?
        };
        self.advance(part, next)
    }

    fn sync_part(&mut self, part: u8) -> Result<(), AllocError>
        requires { part ≤ 1 }
        ensures ok { OnOk result (told_by self.new.current self.new.past.items
            ≡ advanced self.old.current self.old.past.items part
            (all_synced (part_of (parts_by self.old.current) part).bytes)) }
        ensures err { OnErr result (told_by self.new.current self.new.past.items
            ≡ told_by self.old.current self.old.past.items) }
        ensures faults { self.new.faults ≡ self.old.faults }
    {
        let next = self.current.part(part).after_sync(self.alloc)?;
        self.advance(part, next)
    }

    // Goes on to the next moment, at which a part stands otherwise.
    fn advance(&mut self, part: u8, next: PartState) -> Result<(), AllocError>
        requires { part ≤ 1 }
        ensures ok { OnOk result (told_by self.new.current self.new.past.items
            ≡ advanced self.old.current self.old.past.items part (state next)) }
        ensures err { OnErr result (told_by self.new.current self.new.past.items
            ≡ told_by self.old.current self.old.past.items) }
        ensures faults { self.new.faults ≡ self.old.faults }
    {
        let kept = self.current.copy(self.alloc)?;
        self.past.insert(0, kept)?;
        match part {
            0 => self.current.first = next,
            _ => self.current.second = next,
        }
        Ok(())
    }
}

impl Moment {
    pub fn part(&self, part: u8) -> &PartState
        requires { part ≤ 1 }
        ensures { state result.now ≡ part_of (parts_by self.now) part }
    {
        match part {
            0 => &self.first,
            _ => &self.second,
        }
    }

    pub fn copy(&self, alloc: Global) -> Result<Moment, AllocError>
        ensures { IfOk result (λ m. parts_by m ≡ parts_by self.now) }
    {
        Ok(Moment {
            first: self.first.copy(alloc)?,
            second: self.second.copy(alloc)?,
        })
    }
}

impl Disk for MemoryDisk {
    ghost use Rattle.std.specs.Prelude.{Some};
    ghost use Rattle.disks.specs.Memories.{told_by, memory_reads_as_image};

    ghost faults = { λ d. d.faults };

    ghost told = { λ d. Some (told_by d.current d.past.items) };

    ghost reads_as_image = { λ d. memory_reads_as_image d.current d.past.items };

    fn len(&mut self, part: u8) -> Result<u64, Failed> {
        if !self.call_works() {
            return self.faults.failed();
        }
        Ok(self.current.part(part).bytes.len() as u64)
    }

    fn read(&mut self, part: u8, at: u64, room: &mut [u8]) -> Result<usize, Failed> {
        if !self.call_works() {
            return self.faults.failed();
        }
        Ok(give(&self.current.part(part).bytes, at, room))
    }

    fn write_at(&mut self, part: u8, at: u64, piece: &[u8]) -> Result<(), Failed> {
        let works = self.call_works();
        if self.stop == Some(0) {
            return self.faults.failed();
        }
        self.stop = self.stop.map(|left| left - 1);
        match self.write(works, part, at, piece) {
            Ok(()) if works => Ok(()),
            _ => self.faults.failed(),
        }
    }

    fn cut(&mut self, part: u8, end: u64) -> Result<(), Failed> {
        let works = self.call_works();
        if self.stop == Some(0) {
            return self.faults.failed();
        }
        match self.cut_part(works, part, end) {
            Ok(()) if works => Ok(()),
            _ => self.faults.failed(),
        }
    }

    fn sync(&mut self, part: u8) -> Result<(), Failed> {
        if !self.call_works() {
            return self.faults.failed();
        }
        match self.sync_part(part) {
            Ok(()) => Ok(()),
            Err(_) => self.faults.failed(),
        }
    }
}
