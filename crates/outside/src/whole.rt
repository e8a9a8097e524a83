//! Writes of a whole piece, which go on after a short write.
ghost use Rattle.std.specs.Prelude.{◌≡◌, ◌≤◌, length, drop};
ghost use Rattle.outside.specs.Ends.{OnlyWrites};
ghost use Rattle.outside.specs.Whole.{WritesWhole};

use crate::{Failed, Link, Sink};

/// Why a piece wasn't written whole.
#[derive(Clone, Copy, Debug, PartialEq, Eq)]
pub enum WriteEnd {
    /// A write failed, and its fault was counted.
    WriteFault,
    /// A write took nothing of bytes that were left, and its stall was counted.
    SinkTakesNothing,
}

impl From<Failed> for WriteEnd {
    ghost use Rattle.outside.specs.declared.whole.WriteEnd.TheVariants.{WriteFault};

    ghost from_gives = { λ _ e. e ≡ WriteFault };

    fn from(_: Failed) -> WriteEnd
        ensures { result ≡ WriteEnd.WriteFault }
    {
        WriteEnd::WriteFault
    }
}

/// Writes all of `bytes` to a link, and goes on after a short write.
///
/// After `WriteFault` or `SinkTakesNothing` a front of `bytes` was taken. The link's other
/// direction isn't touched.
pub fn write_whole<L: Link>(link: &mut L, bytes: &[u8]) -> Result<(), WriteEnd>
    ensures written { WritesWhole (L.ends link.old).outgoing bytes.now result
        (L.ends link.new).outgoing }
    ensures only { OnlyWrites (L.ends link.old) (L.ends link.new) }
    ensures holds { L.holds link.new ≡ L.holds link.old }
{
    let mut rest = bytes;
    while !rest.is_empty() {
        let count = link.write(rest)?;
        if count == 0 {
            return Err(WriteEnd::SinkTakesNothing);
        }
        rest = after(rest, count);
    }
    Ok(())
}

/// Writes all of `bytes` to a sink, as `write_whole` does to a link.
pub fn put_whole<O: Sink>(sink: &mut O, bytes: &[u8]) -> Result<(), WriteEnd>
    ensures { WritesWhole (O.ends sink.old) bytes.now result (O.ends sink.new) }
{
    let mut rest = bytes;
    while !rest.is_empty() {
        let count = sink.write(rest)?;
        if count == 0 {
            return Err(WriteEnd::SinkTakesNothing);
        }
        rest = after(rest, count);
    }
    Ok(())
}

fn after(bytes: &[u8], count: usize) -> &[u8]
    requires { count ≤ length bytes.now }
    ensures { result.now ≡ drop count bytes.now }
{
    &bytes[count..]
}
