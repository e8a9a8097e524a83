//! A disk of two parts.
ghost use Rattle.std.specs.Prelude.{ℕ, ◌≡◌, ◌≤◌, length, Option, IfOk};
ghost use Rattle.std.specs.Io.{ReadsAtMost};
ghost use Rattle.fault_counts.specs.Causes.{HasCause};
ghost use Rattle.disks.specs.Moments.{Told};
ghost use Rattle.disks.specs.Calls.{WhereTold, Gives, Writes, Cuts, Syncs, ReadsAsImage};

use crate::Failed;

/// Two parts of bytes, of which a crash keeps what was synced.
///
/// Between two syncs of a part each range whose write was begun, and everything past the old end,
/// may hold any bytes after a crash, and the part may have any length that lies between its least
/// and its greatest one. All other bytes stay. A write or a cut that failed counts as begun, or did
/// nothing. After a sync a crash leaves what a read gives.
///
/// `faults` counts the calls that failed. `told` is how the parts stand and how they stood at each
/// moment before, from which follow what a read gives, what a crash now may leave, and what a crash
/// since some moment may have left; or it is `None`, as over a real file.
pub trait Disk {
    ghost faults: { Self → ℕ };

    ghost told: { Self → Option Told };

    /// How many bytes a part has.
    fn len(&mut self, part: u8) -> Result<u64, Failed>
        requires { part ≤ 1 }
        ensures cause { HasCause (faults self.old) (faults self.new) result }
        ensures length { WhereTold (told self.old) part
            (λ p. IfOk result (λ len. len ≡ length p.bytes)) }
        ensures told { told self.new ≡ told self.old };

    /// Puts bytes of a part from `at` on at the front of `room`, and answers how many they are.
    ///
    /// 0 into room that isn't empty comes only where `at` is the part's end, or past it.
    fn read(&mut self, part: u8, at: u64, room: &mut [u8]) -> Result<usize, Failed>
        requires { part ≤ 1 }
        ensures bound { ReadsAtMost result room.new }
        ensures cause { HasCause (faults self.old) (faults self.new) result }
        ensures gives { WhereTold (told self.old) part
            (λ p. IfOk result (Gives p.bytes at room.new)) }
        ensures told { told self.new ≡ told self.old };

    /// Writes over what is there from `at` on, and past the end.
    fn write_at(&mut self, part: u8, at: u64, piece: &[u8]) -> Result<(), Failed>
        requires part { part ≤ 1 }
        requires at { WhereTold (told self.old) part (λ p. at ≤ length p.bytes) }
        ensures cause { HasCause (faults self.old) (faults self.new) result }
        ensures writes { Writes part at piece.now (told self.old) result (told self.new) };

    /// Cuts a part to a length.
    fn cut(&mut self, part: u8, end: u64) -> Result<(), Failed>
        requires part { part ≤ 1 }
        requires end { WhereTold (told self.old) part (λ p. end ≤ length p.bytes) }
        ensures cause { HasCause (faults self.old) (faults self.new) result }
        ensures cuts { Cuts part end (told self.old) result (told self.new) };

    /// Brings a part to the device. After it a crash leaves what a read gives.
    fn sync(&mut self, part: u8) -> Result<(), Failed>
        requires { part ≤ 1 }
        ensures cause { HasCause (faults self.old) (faults self.new) result }
        ensures syncs { Syncs part (told self.old) result (told self.new) };

    /// As it reads, the disk is one of its images.
    ghost reads_as_image: { (disk : Self) → ReadsAsImage (told disk) };
}
