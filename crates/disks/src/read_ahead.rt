//! Reads of a part through bytes that were read ahead.
ghost use Rattle.std.specs.Prelude.{◌≡◌, ◌+◌, ◌^◌, ◌<◌, ◌≤◌, ◌↔◌, IsTrue, length, take, drop, IfOk};
ghost use Rattle.std.specs.Io.{ReadsAtMost};
ghost use Rattle.fault_counts.specs.Causes.{HasCause};
ghost use Rattle.disks.specs.Calls.{WhereTold, Gives};
ghost use Rattle.disks.specs.Whole.{FillsRoom};
ghost use Rattle.disks.specs.Aheads.{IsAheadOf, HoldsNothing};

use crate::ahead::ReadAhead;
use crate::give::give;
use crate::{Disk, Failed};
use std::alloc::{AllocError, Global};

/// How many bytes are read at once.
const ROOM: usize = 1 << 16;

impl ReadAhead {
    pub fn new(alloc: Global) -> Result<ReadAhead, AllocError>
        ensures { IfOk result HoldsNothing }
    {
        Ok(ReadAhead {
            room: vec![in alloc; 0u8; ROOM]?,
            from: 0,
            count: 0,
        })
    }

    /// Lets go of what was read, as is due once the part is changed.
    pub fn forget(&mut self)
        ensures { HoldsNothing self.new }
    {
        self.count = 0;
    }

    /// Reads a part from `at` on until `room` is full, or answers false where the part ends before.
    pub fn read_exact_at<D: Disk>(
        &mut self,
        disk: &mut D,
        part: u8,
        at: u64,
        room: &mut [u8],
    ) -> Result<bool, Failed>
        requires part { part ≤ 1 }
        requires ahead { IsAheadOf (D.told disk.old) part self.old }
        requires some { 0 < length room.old }
        requires fits { at + length room.old < 2 ^ 64 }
        ensures fills { WhereTold (D.told disk.old) part (λ p. IfOk result
            (FillsRoom p.bytes at room.new)) }
        ensures ahead { IsAheadOf (D.told disk.old) part self.new }
        ensures cause { HasCause (D.faults disk.old) (D.faults disk.new) result }
        ensures told { D.told disk.new ≡ D.told disk.old }
    {
        let mut done = 0usize;
        while done < room.len() {
            let count = self.read_behind(disk, part, at, room, done)?;
            if count == 0 {
                return Ok(false);
            }
            done += count;
        }
        Ok(true)
    }

    // Reads on into the room behind what is done.
    fn read_behind<D: Disk>(
        &mut self,
        disk: &mut D,
        part: u8,
        at: u64,
        room: &mut [u8],
        done: usize,
    ) -> Result<usize, Failed>
        requires part { part ≤ 1 }
        requires ahead { IsAheadOf (D.told disk.old) part self.old }
        requires done { done < length room.old }
        requires fits { at + length room.old < 2 ^ 64 }
        ensures bound { IfOk result (λ count. done + count ≤ length room.new) }
        ensures front { take done room.new ≡ take done room.old }
        ensures gives { WhereTold (D.told disk.old) part (λ p. IfOk result
            (Gives p.bytes (at + done) (drop done room.new))) }
        ensures ahead { IsAheadOf (D.told disk.old) part self.new }
        ensures cause { HasCause (D.faults disk.old) (D.faults disk.new) result }
        ensures told { D.told disk.new ≡ D.told disk.old }
    {
        self.read(disk, part, at + done as u64, &mut room[done..])
    }

    /// What `Disk::read` gives. Less than is read at once is filled from what was read ahead.
    pub fn read<D: Disk>(
        &mut self,
        disk: &mut D,
        part: u8,
        at: u64,
        room: &mut [u8],
    ) -> Result<usize, Failed>
        requires part { part ≤ 1 }
        requires ahead { IsAheadOf (D.told disk.old) part self.old }
        ensures bound { ReadsAtMost result room.new }
        ensures cause { HasCause (D.faults disk.old) (D.faults disk.new) result }
        ensures gives { WhereTold (D.told disk.old) part (λ p. IfOk result
            (Gives p.bytes at room.new)) }
        ensures ahead { IsAheadOf (D.told disk.old) part self.new }
        ensures told { D.told disk.new ≡ D.told disk.old }
    {
        if self.holds(at) {
            return Ok(give(&self.room[..self.count], at - self.from, room));
        }
        if room.len() >= self.room.len() {
            return disk.read(part, at, room);
        }
        self.fill(disk, part, at)?;
        Ok(give(&self.room[..self.count], 0, room))
    }

    fn holds(&self, at: u64) -> bool
        ensures { IsTrue result ↔ ((self.now.from ≤ at) × (at < self.now.from + self.now.count)) }
    {
        self.from <= at && at - self.from < self.count as u64
    }

    // Reads anew from a place on.
    fn fill<D: Disk>(&mut self, disk: &mut D, part: u8, at: u64) -> Result<(), Failed>
        requires { part ≤ 1 }
        ensures from { self.new.from ≡ at }
        ensures same_room { length self.new.room.items ≡ length self.old.room.items }
        ensures gives { WhereTold (D.told disk.old) part (λ p. IfOk result (λ _.
            Gives p.bytes at self.new.room.items self.new.count)) }
        ensures ahead { IsAheadOf (D.told disk.old) part self.new }
        ensures cause { HasCause (D.faults disk.old) (D.faults disk.new) result }
        ensures told { D.told disk.new ≡ D.told disk.old }
    {
        self.from = at;
        self.count = 0;
        let count = disk.read(part, at, &mut self.room)?;
        self.count = count;
        Ok(())
    }
}
