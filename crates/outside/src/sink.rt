//! Where bytes go to.
ghost use Rattle.outside.specs.Ends.{Outgoing, WritesOnce};

use crate::Failed;

/// Bytes that go out, as to standard output.
///
/// `ends` is what was taken so far, or `None` where that isn't told, how many writes failed, and
/// how many took nothing of a piece that isn't empty.
pub trait Sink {
    ghost ends: { Self → Outgoing };

    /// Takes a front of `piece`, and answers how many bytes it took. After `Failed` nothing was
    /// taken.
    fn write(&mut self, piece: &[u8]) -> Result<usize, Failed>
        ensures write { WritesOnce (ends self.old) piece.now result (ends self.new) };
}
