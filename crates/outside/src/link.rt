//! A connection's two directions.
ghost use Rattle.std.specs.Prelude.{◌≡◌, List};
ghost use Rattle.std.specs.Borrow.{GName};
ghost use Rattle.outside.specs.Ends.{Ends, OnlyReads, OnlyWrites, ReadsOnce, WritesOnce};

use crate::Failed;

/// A connection: bytes come in and go out.
///
/// `ends` is what a `Source` and a `Sink` tell. `holds` names the references that a link reads and
/// writes through, and no call exchanges them.
pub trait Link {
    ghost ends: { Self → Ends };

    ghost holds: { Self → List GName };

    /// Puts the next bytes at the front of `room`, and answers how many they are.
    ///
    /// 0 into room that isn't empty is the end of input. After `Failed` nothing was given.
    fn read(&mut self, room: &mut [u8]) -> Result<usize, Failed>
        ensures read { ReadsOnce (ends self.old).incoming room.new result (ends self.new).incoming }
        ensures only { OnlyReads (ends self.old) (ends self.new) }
        ensures holds { holds self.new ≡ holds self.old };

    /// Takes a front of `piece`, and answers how many bytes it took. After `Failed` nothing was
    /// taken.
    fn write(&mut self, piece: &[u8]) -> Result<usize, Failed>
        ensures write { WritesOnce (ends self.old).outgoing piece.now result
            (ends self.new).outgoing }
        ensures only { OnlyWrites (ends self.old) (ends self.new) }
        ensures holds { holds self.new ≡ holds self.old };
}
