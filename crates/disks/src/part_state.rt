//! A part of a disk in memory.
ghost use Rattle.disks.specs.Parts.{IsPartImage};
ghost use Rattle.disks.specs.States.{part_with};

use crate::Range;
use crate::overwritten::overwritten;
use std::alloc::{AllocError, Global};

/// A part: its bytes, those after its last sync, and what was begun since then.
#[derive(Drop)]
pub struct PartState {
    pub bytes: Vec<u8>,
    pub synced: Vec<u8>,
    pub least: u64,
    pub greatest: u64,
    pub begun: Vec<Range>,
    ghost image: { IsPartImage
        (part_with bytes.items synced.items least greatest begun.items) bytes.items },
}

impl PartState {
    ghost use Rattle.std.specs.Prelude.{◌≡◌, ◌≤◌, ◌<◌, ◌+◌, ◌^◌, length, take, IfOk};
    ghost use Rattle.disks.specs.Parts.{all_synced, written_over, write_begun, cut_begun, IsPartImage};
    ghost use Rattle.disks.specs.PartStates.{state};

    /// A part all of which is synced.
    pub fn new(alloc: Global, bytes: Vec<u8>) -> Result<PartState, AllocError>
        ensures { IfOk result (λ p. state p ≡ all_synced bytes.items) }
    {
        let synced = bytes.to_vec(alloc)?;
        let least = bytes.len() as u64;
        Ok(PartState {
            bytes,
            synced,
            least,
            greatest: least,
            begun: Vec::new(alloc),
        })
    }

    pub fn copy(&self, alloc: Global) -> Result<PartState, AllocError>
        ensures { IfOk result (λ p. state p ≡ state self.now) }
    {
        Ok(PartState {
            bytes: self.bytes.to_vec(alloc)?,
            synced: self.synced.to_vec(alloc)?,
            least: self.least,
            greatest: self.greatest,
            begun: self.begun.to_vec(alloc)?,
        })
    }

    /// The part after a write of so many bytes was begun, with these bytes.
    pub fn with_write(
        &self,
        alloc: Global,
        at: u64,
        count: u64,
        bytes: Vec<u8>,
    ) -> Result<PartState, AllocError>
        requires fits { at + count < 2 ^ 64 }
        requires image { IsPartImage (write_begun (state self.now) at count bytes.items)
            bytes.items }
        ensures { IfOk result (λ p. state p ≡ write_begun (state self.now) at count bytes.items) }
    {
        let mut begun = self.begun.to_vec(alloc)?;
        begun.insert(0, Range { at, count })?;
        Ok(PartState {
            bytes,
            synced: self.synced.to_vec(alloc)?,
            least: self.least,
            greatest: self.greatest.max(at + count),
            begun,
        })
    }

    /// The part after a cut was begun, with these bytes.
    pub fn with_cut(&self, alloc: Global, end: u64, bytes: Vec<u8>) -> Result<PartState, AllocError>
        requires { IsPartImage (cut_begun (state self.now) end bytes.items) bytes.items }
        ensures { IfOk result (λ p. state p ≡ cut_begun (state self.now) end bytes.items) }
    {
        Ok(PartState {
            bytes,
            synced: self.synced.to_vec(alloc)?,
            least: self.least.min(end),
            greatest: self.greatest,
            begun: self.begun.to_vec(alloc)?,
        })
    }

    /// The part after a write.
    pub fn written(&self, alloc: Global, at: u64, piece: &[u8]) -> Result<PartState, AllocError>
        requires { at ≤ length (state self.now).bytes }
        ensures { IfOk result (λ p. state p ≡ write_begun (state self.now) at (length piece.now)
            (written_over (state self.now).bytes at piece.now)) }
    {
        let bytes = overwritten(alloc, &self.bytes, at as usize, piece)?;
        self.with_write(alloc, at, piece.len() as u64, bytes)
    }

    /// The part after a write that failed.
    pub fn not_written(&self, alloc: Global, at: u64, count: u64) -> Result<PartState, AllocError>
        requires { at + count < 2 ^ 64 }
        ensures { IfOk result (λ p. state p
            ≡ write_begun (state self.now) at count (state self.now).bytes) }
    {
        let bytes = self.bytes.to_vec(alloc)?;
        self.with_write(alloc, at, count, bytes)
    }

    /// The part after a cut.
    pub fn cut(&self, alloc: Global, end: u64) -> Result<PartState, AllocError>
        requires { end ≤ length (state self.now).bytes }
        ensures { IfOk result (λ p. state p
            ≡ cut_begun (state self.now) end (take end (state self.now).bytes)) }
    {
        let bytes = self.bytes[..end as usize].to_vec(alloc)?;
        self.with_cut(alloc, end, bytes)
    }

    /// The part after a cut that failed.
    pub fn not_cut(&self, alloc: Global, end: u64) -> Result<PartState, AllocError>
        requires { end ≤ length (state self.now).bytes }
        ensures { IfOk result (λ p. state p
            ≡ cut_begun (state self.now) end (state self.now).bytes) }
    {
        let bytes = self.bytes.to_vec(alloc)?;
        self.with_cut(alloc, end, bytes)
    }

    /// The part after a sync.
    pub fn after_sync(&self, alloc: Global) -> Result<PartState, AllocError>
        ensures { IfOk result (λ p. state p ≡ all_synced (state self.now).bytes) }
    {
        PartState::new(alloc, self.bytes.to_vec(alloc)?)
    }
}
