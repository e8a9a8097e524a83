//! What is sent and read on one link.
ghost use Rattle.std.specs.Prelude.{◌≡◌, ◌≤◌, [], length};
ghost use Rattle.sink_uploads.specs.Visits.{Trace, Carried, IsDoneAt};
ghost use Rattle.sink_uploads.specs.Tries.{Tries};

use lists::Bytes;
use outside::{Link, WriteEnd, write_whole};
use sink_replies::{ReplyEnd, ReplyReader};

/// How the visit of a link ended.
#[derive(Clone, Copy, Debug, PartialEq, Eq)]
pub enum Parting {
    /// Each request was answered.
    Done,
    /// A write or a read failed.
    Fault,
    /// The link ended before a reply was whole, or took nothing of a piece.
    End,
    /// A whole reply of another status than 200 was read.
    Refused { status: u16 },
    /// The first `end` bytes behind the replies begin none.
    BadReply { end: usize },
}

/// How many requests a visit got answered, and how it ended.
#[derive(Clone, Copy)]
pub struct Visited {
    pub answered: usize,
    pub parting: Parting,
}

/// Sends requests one after the other, each once the reply to the one before it is whole.
pub fn visit<L: Link>(link: &mut L, reader: &mut ReplyReader, requests: &[Bytes]) -> Visited
    requires { reader.old ≡ [] }
    ensures carried { (trace : Trace) × Carried requests.now trace (L.ends link.old)
        (L.ends link.new) × (length trace.replies ≡ result.answered)
        × (trace.parting ≡ result.parting) }
    ensures within { result.answered ≤ length requests.now }
    ensures done { IsDoneAt requests.now result.answered result.parting }
{
    let mut answered = 0;
    while answered < requests.len() {
        if let Err(parting) = try_request(link, reader, requests[answered].as_slice()) {
            return Visited { answered, parting };
        }
        answered += 1;
    }
    Visited {
        answered,
        parting: Parting::Done,
    }
}

/// Writes a request whole, and then reads its reply, of which only one with status 200 is an
/// answer.
fn try_request<L: Link>(
    link: &mut L,
    reader: &mut ReplyReader,
    request: &[u8],
) -> Result<(), Parting>
    ensures { Tries request.now reader.old (L.ends link.old) result reader.new (L.ends link.new) }
{
    match write_whole(link, request) {
        Ok(()) => match reader.next(link) {
            Ok(200) => Ok(()),
            Ok(status) => Err(Parting::Refused { status }),
            Err(ReplyEnd::Ended) => Err(Parting::End),
            Err(ReplyEnd::ReadFault) => Err(Parting::Fault),
            Err(ReplyEnd::BadReply { end }) => Err(Parting::BadReply { end }),
        },
        Err(WriteEnd::WriteFault) => Err(Parting::Fault),
        Err(WriteEnd::SinkTakesNothing) => Err(Parting::End),
    }
}
