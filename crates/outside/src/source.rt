//! Where bytes come from.
ghost use Rattle.std.specs.Prelude.{◌≡◌};
ghost use Rattle.outside.specs.Ends.{Incoming, ReadsOnce, ends_after};

use crate::Failed;
use fault_counts::Count;

/// Bytes that come in, as from standard input.
///
/// `ends` is what is still to come, or `None` where that isn't told, how many reads failed, and how
/// many reached the end.
pub trait Source {
    ghost ends: { Self → Incoming };

    /// Puts the next bytes at the front of `room`, and answers how many they are.
    ///
    /// 0 into room that isn't empty is the end of input. After `Failed` nothing was given.
    fn read(&mut self, room: &mut [u8]) -> Result<usize, Failed>
        ensures read { ReadsOnce (ends self.old) room.new result (ends self.new) };
}

/// Counts an end where a read gave so many bytes into room.
pub fn count_end(ends: &mut Count, room: &[u8], count: usize)
    ensures { ends.new ≡ ends_after ends.old room.now count }
{
    if count == 0 && !room.is_empty() {
        ends.raise();
    }
}
