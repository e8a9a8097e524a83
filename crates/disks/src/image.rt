//! What a crash leaves of a disk in memory.
ghost use Rattle.std.specs.Prelude.{◌≡◌, ◌≤◌, ◌<◌, [], length, slice_index, false, IfOk};
ghost use Rattle.std.specs.List.{slice_index_or};
ghost use Rattle.fault_counts.specs.Calls.{no_call_yet};
ghost use Rattle.disks.specs.Parts.{MayLeave, IsPartImage, as_read, all_synced, is_among};
ghost use Rattle.disks.specs.PartStates.{state};
ghost use Rattle.disks.specs.Memories.{parts_by};

use crate::part_state::PartState;
use crate::{MemoryDisk, Range};
use std::alloc::{AllocError, Global};

/// A byte that stands where none was written.
const NEVER_WRITTEN: u8 = 0xA5;

impl MemoryDisk {
    /// A disk with one of the images that a crash now may leave, on which no call is to fail.
    ///
    /// The first eight choices are: all kept; all lost; the newest write half kept at its front,
    /// and at its back; every cut undone; bytes never written; as short as may be; kept and lost
    /// bytes mixed. A choice and one that is greater by eight mix and cut otherwise.
    pub fn image(&self, alloc: Global, choice: u64) -> Result<MemoryDisk, AllocError>
        ensures image { IfOk result (λ d. MayLeave (parts_by self.now.current)
            (as_read (parts_by d.current))) }
        ensures first { IfOk result (λ d. (parts_by d.current).first
            ≡ all_synced (parts_by d.current).first.bytes) }
        ensures second { IfOk result (λ d. (parts_by d.current).second
            ≡ all_synced (parts_by d.current).second.bytes) }
        ensures past { IfOk result (λ d. d.past.items ≡ []) }
        ensures calls { IfOk result (λ d. d.schedule ≡ no_call_yet []) }
    {
        let first = self.current.first.image(alloc, choice)?;
        let second = self.current.second.image(alloc, choice)?;
        MemoryDisk::new(alloc, first, second, Vec::new(alloc), None)
    }
}

impl PartState {
    fn image(&self, alloc: Global, choice: u64) -> Result<Vec<u8>, AllocError>
        ensures { IfOk result (λ v. IsPartImage (state self.now) v.items) }
    {
        let len = self.image_len(choice) as usize;
        let mut image = Vec::new(alloc);
        for place in 0..len {
            image.push(self.image_byte(choice, place))?;
        }
        Ok(image)
    }

    fn image_len(&self, choice: u64) -> u64
        ensures least { (state self.now).least ≤ result }
        ensures greatest { result ≤ (state self.now).greatest }
    {
        let wanted = match choice % 8 {
            1 => self.synced.len() as u64,
            4 | 5 => self.greatest,
            6 => self.least,
            7 => self.least.saturating_add(choice / 8),
            _ => self.bytes.len() as u64,
        };
        wanted.max(self.least).min(self.greatest)
    }

    fn image_byte(&self, choice: u64, place: usize) -> u8
        ensures { place < (state self.now).least → is_among (state self.now).begun place ≡ false →
            result ≡ slice_index (state self.now).synced place }
    {
        if (place as u64) < self.least && !is_begun(&self.begun, place as u64) {
            return byte_or(&self.synced, place, 0);
        }
        self.torn_byte(choice, place)
    }

    // A byte at a place where any may stand.
    fn torn_byte(&self, choice: u64, place: usize) -> u8 {
        let kept = byte_or(&self.bytes, place, NEVER_WRITTEN);
        let lost = byte_or(&self.synced, place, NEVER_WRITTEN);
        let is_front = match self.begun.first() {
            Some(newest) => (place as u64) < newest.at.saturating_add(newest.count / 2),
            None => true,
        };
        let keeps = match choice % 8 {
            1 | 4 => false,
            2 => is_front,
            3 => !is_front,
            5 => return NEVER_WRITTEN,
            7 => (place as u64).wrapping_add(choice / 8) % 2 == 0,
            _ => true,
        };
        if keeps { kept } else { lost }
    }
}

fn byte_or(bytes: &[u8], place: usize, none: u8) -> u8
    ensures { result ≡ slice_index_or bytes.now place none }
{
    bytes.get(place).copied().unwrap_or(none)
}

// Whether a place lies in one of the ranges.
fn is_begun(ranges: &[Range], place: u64) -> bool
    ensures { result ≡ is_among ranges.now place }
{
    ranges
        .iter()
        .any(|r| r.at <= place && place - r.at < r.count)
}
