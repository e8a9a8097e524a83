//! Replies to a link.
ghost use Rattle.std.specs.Prelude.{◌≡◌, ◌≤◌, ◌++◌, length};
ghost use Rattle.outside.specs.Ends.{OnlyWrites};
ghost use Rattle.outside.specs.Whole.{WritesWhole};
ghost use Rattle.call_forms.specs.ReplyBytes.{answer_bytes, standin_bytes};
ghost use Rattle.http_wire.specs.Out.{farewell_bytes, farewell_text};

use crate::message::WireFault;
use crate::reply_head::{Reply, SHORT_BODY, put, reply_head};
use call_forms::{Answer, Standin};
use outside::{Link, WriteEnd, write_whole};

/// Writes a reply: in one write where its body is short, so that the peer waits for no second one;
/// else its head, and then its body, which isn't copied. Where the link takes less at a time, in
/// more.
pub fn write_response<L: Link>(link: &mut L, answer: &Answer, close: bool) -> Result<(), WriteEnd>
    ensures written { WritesWhole (L.ends link.old).outgoing (answer_bytes answer.now close) result
        (L.ends link.new).outgoing }
    ensures only { OnlyWrites (L.ends link.old) (L.ends link.new) }
    ensures holds { L.holds link.new ≡ L.holds link.old }
{
    let body = answer.body.as_slice();
    let mut reply = reply_head(answer.status, answer.code, &answer.token, close, body.len());
    if body.len() > SHORT_BODY {
        return write_both(link, reply.as_slice(), body);
    }
    put(&mut reply, body);
    write_whole(link, reply.as_slice())
}

/// Writes a stand-in for an answer.
pub fn write_standin<L: Link>(link: &mut L, which: Standin, close: bool) -> Result<(), WriteEnd>
    ensures written { WritesWhole (L.ends link.old).outgoing (standin_bytes which close) result
        (L.ends link.new).outgoing }
    ensures only { OnlyWrites (L.ends link.old) (L.ends link.new) }
    ensures holds { L.holds link.new ≡ L.holds link.old }
{
    write_whole(link, which.bytes(close))
}

/// Writes why no more messages are read.
pub fn write_farewell<L: Link>(link: &mut L, fault: &WireFault) -> Result<(), WriteEnd>
    ensures written { WritesWhole (L.ends link.old).outgoing (farewell_bytes fault.now) result
        (L.ends link.new).outgoing }
    ensures only { OnlyWrites (L.ends link.old) (L.ends link.new) }
    ensures holds { L.holds link.new ≡ L.holds link.old }
{
    write_whole(link, farewell(fault).as_slice())
}

/// The whole reply that says why.
fn farewell(fault: &WireFault) -> Reply
    ensures { result.items ≡ farewell_bytes fault.now }
{
    let text = farewell_text(fault).as_bytes();
    let mut reply = reply_head(400, 3, &None, true, text.len());
    put(&mut reply, text);
    reply
}

fn farewell_text(fault: &WireFault) -> &'static str
    ensures text { result.now ≡ farewell_text fault.now }
    ensures short { length result.now ≤ 22 }
{
    match fault {
        WireFault::HeadTooLong => "wire 1 HeadTooLong\n",
        WireFault::TooManyHeaders => "wire 2 TooManyHeaders\n",
        WireFault::BadHead { .. } => "wire 3 BadHead\n",
        WireFault::NoLength => "wire 4 NoLength\n",
        WireFault::TwoLengths => "wire 5 TwoLengths\n",
        WireFault::TransferCoded => "wire 6 TransferCoded\n",
        WireFault::BodyTooLong { .. } => "wire 7 BodyTooLong\n",
        WireFault::CutShort { .. } => "wire 8 CutShort\n",
        WireFault::ReadFault => "wire 9 ReadFault\n",
        WireFault::Memory => "wire 10 Memory\n",
    }
}

fn write_both<L: Link>(link: &mut L, front: &[u8], rest: &[u8]) -> Result<(), WriteEnd>
    ensures written { WritesWhole (L.ends link.old).outgoing (front.now ++ rest.now) result
        (L.ends link.new).outgoing }
    ensures only { OnlyWrites (L.ends link.old) (L.ends link.new) }
    ensures holds { L.holds link.new ≡ L.holds link.old }
{
    write_whole(link, front)?;
    write_whole(link, rest)
}
