//! One read from a link, and why no reply is read.
ghost use Rattle.std.specs.Prelude.{◌≡◌, ◌<◌, length};
ghost use Rattle.outside.specs.Ends.{OnlyReads};
ghost use Rattle.sink_replies.specs.Reads.{ReadsAt, ReadsInto};

use outside::Link;

/// Why no reply is read.
#[derive(Clone, Copy, Debug, PartialEq, Eq)]
pub enum ReplyEnd {
    /// The first `end` bytes begin no reply.
    BadReply { end: usize },
    /// The input ended where a reply isn't whole.
    Ended,
    /// A read failed, and its fault was counted.
    ReadFault,
}

/// Reads once into room that isn't empty, and answers how many bytes came: one at least.
pub fn read_into<L: Link>(link: &mut L, room: &mut [u8]) -> Result<usize, ReplyEnd>
    requires { 0 < length room.old }
    ensures read { ReadsInto (L.ends link.old).incoming result room.new
        (L.ends link.new).incoming }
    ensures only { OnlyReads (L.ends link.old) (L.ends link.new) }
    ensures holds { L.holds link.new ≡ L.holds link.old }
{
    match link.read(room) {
        Ok(0) => Err(ReplyEnd::Ended),
        Ok(count) => Ok(count),
        Err(_) => Err(ReplyEnd::ReadFault),
    }
}

/// Reads once into the room from a place on.
pub fn read_at<L: Link>(link: &mut L, room: &mut [u8], at: usize) -> Result<usize, ReplyEnd>
    requires { at < length room.old }
    ensures read { ReadsAt (L.ends link.old).incoming at room.old result room.new
        (L.ends link.new).incoming }
    ensures only { OnlyReads (L.ends link.old) (L.ends link.new) }
    ensures holds { L.holds link.new ≡ L.holds link.old }
{
    match read_into(link, &mut room[at..]) {
        Ok(count) => Ok(count),
        Err(end) => Err(end),
    }
}
