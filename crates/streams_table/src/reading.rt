//! What streams come to.
//!
//! A message is printed with its call, its target, the bearer's token and the update token, its
//! body with its length, and its flag. What stands behind the messages is `end`, `closed` where the
//! last one closes, or a fault with its number, its name and what it tells: the place, the length
//! that was announced, or how many bytes are there.
//!
//! A `read` in which no call fails is made several times: in the pieces that stand there, in pieces
//! of each of `SIZES`, and by `read_stream`; and all this also behind another message, `ONE`, and
//! before one where the stream has no fault. What doesn't come to the same is printed, too, behind
//! `but`.
use crate::fault::Fault;
use crate::notation::{bytes_of, flag_word, pieces_of, put_quoted};
use http_wire::{End, Message, Wire, WireFault, read_stream, there_is_a_reading};
use lists::Bytes;
use outside::MemoryLink;
use std::alloc::{AllocError, Global};

/// The most messages that are read of a stream.
const MOST_MESSAGES: usize = 100;

/// The sizes of pieces in which each stream comes.
const SIZES: [usize; 5] = [1, 7, 100, 4_096, 1_000_000];

/// A message that stands before streams, and behind them.
const ONE: &[u8] = b"POST /prpc/r.R/Create HTTP/1.1\r\nHost: h\r\nContent-Length: 3\r\n\r\nabc";

/// What a stream comes to.
#[derive(Drop)]
struct Come {
    /// A line for each message.
    messages: Vec<u8>,
    /// What stands behind them; none where there are too many.
    end: Option<End>,
    /// How many reads failed.
    failed: u64,
    /// Whether nothing else comes to be behind the end.
    stays: bool,
}

/// Puts the value of a header, or `none`.
fn put_header(alloc: Global, value: &Option<Bytes>, out: &mut Vec<u8>) -> Result<(), AllocError> {
    match value {
        Some(value) => put_quoted(alloc, value.as_slice(), out),
        None => out.extend_from_slice(b"none"),
    }
}

fn put_body(alloc: Global, body: &[u8], out: &mut Vec<u8>) -> Result<(), AllocError> {
    let len = body.len();
    let front = format!(in alloc; " body {len} ")?;
    out.extend_from_slice(front.as_bytes())?;
    put_quoted(alloc, body, out)
}

/// Puts the line of a message.
fn put_message(alloc: Global, message: &Message, out: &mut Vec<u8>) -> Result<(), AllocError> {
    let asked = &message.asked;
    out.extend_from_slice(b"  service ")?;
    put_quoted(alloc, asked.service.as_slice(), out)?;
    out.extend_from_slice(b" method ")?;
    put_quoted(alloc, asked.method.as_slice(), out)?;
    out.extend_from_slice(b" target ")?;
    put_quoted(alloc, message.target.as_slice(), out)?;
    out.extend_from_slice(b" bearer ")?;
    put_header(alloc, &asked.bearer, out)?;
    out.extend_from_slice(b" token ")?;
    put_header(alloc, &asked.update_token, out)?;
    put_body(alloc, asked.body.as_slice(), out)?;
    out.extend_from_slice(b" ")?;
    out.extend_from_slice(flag_word(message.close).as_bytes())?;
    out.extend_from_slice(b"\n")
}

/// Puts a fault: its number, its name and what it tells.
pub(crate) fn put_fault(
    alloc: Global,
    fault: WireFault,
    out: &mut Vec<u8>,
) -> Result<(), AllocError> {
    let (number, name) = (fault.number(), fault.name());
    let text = match fault {
        WireFault::BadHead { end } => format!(in alloc; "fault {number} {name} {end}")?,
        WireFault::BodyTooLong { said } => format!(in alloc; "fault {number} {name} {said}")?,
        WireFault::CutShort { have } => format!(in alloc; "fault {number} {name} {have}")?,
        _ => format!(in alloc; "fault {number} {name}")?,
    };
    out.extend_from_slice(text.as_bytes())
}

/// Puts what stands behind the messages.
fn put_end(alloc: Global, come: &Come, out: &mut Vec<u8>) -> Result<(), AllocError> {
    match come.end {
        Some(End::Finished) => out.extend_from_slice(b"end")?,
        Some(End::Closed) => out.extend_from_slice(b"closed")?,
        Some(End::Fault(fault)) => put_fault(alloc, fault, out)?,
        None => out.extend_from_slice(b"too many messages")?,
    }
    let failed = come.failed;
    if failed > 0 {
        let text = format!(in alloc; ", failed reads {failed}")?;
        out.extend_from_slice(text.as_bytes())?;
    }
    if !come.stays {
        out.extend_from_slice(b", and then something else")?;
    }
    out.extend_from_slice(b"\n")
}

fn put_come(alloc: Global, come: &Come, out: &mut Vec<u8>) -> Result<(), AllocError> {
    out.extend_from_slice(come.messages.as_slice())?;
    out.extend_from_slice(b"  ")?;
    put_end(alloc, come, out)
}

/// Reads messages to their end, or to one that closes.
fn read_messages(
    alloc: Global,
    wire: &mut Wire,
    link: &mut MemoryLink,
    messages: &mut Vec<u8>,
) -> Result<Option<End>, AllocError> {
    for _ in 0..MOST_MESSAGES {
        match wire.next(alloc, link) {
            Ok(Some(message)) => {
                put_message(alloc, &message, messages)?;
                if message.close {
                    return Ok(Some(End::Closed));
                }
            }
            Ok(None) => return Ok(Some(End::Finished)),
            Err(WireFault::Memory) => return Err(AllocError),
            Err(fault) => return Ok(Some(End::Fault(fault))),
        }
    }
    Ok(None)
}

/// Whether a wire that came to an end says that nothing is left.
fn is_over(
    alloc: Global,
    wire: &mut Wire,
    link: &mut MemoryLink,
    end: Option<End>,
) -> Result<bool, AllocError> {
    if end == Some(End::Closed) {
        return Ok(true);
    }
    match wire.next(alloc, link) {
        Ok(None) => Ok(true),
        Ok(Some(_)) => Ok(false),
        Err(WireFault::Memory) => Err(AllocError),
        Err(_) => Ok(false),
    }
}

/// What pieces come to where these calls fail.
fn read_pieces(alloc: Global, pieces: Vec<Vec<u8>>, fails: Vec<u64>) -> Result<Come, AllocError> {
    let mut link = MemoryLink::new(alloc, pieces, fails)?;
    let mut wire = Wire::new(alloc)?;
    let mut messages = Vec::new(alloc);
    let end = read_messages(alloc, &mut wire, &mut link, &mut messages)?;
    let stays = is_over(alloc, &mut wire, &mut link, end)?;
    Ok(Come {
        messages,
        end,
        failed: link.read_faults(),
        stays,
    })
}

/// What a stream comes to in pieces of a size.
fn read_cut(alloc: Global, stream: &[u8], size: usize) -> Result<Come, AllocError> {
    let mut pieces = Vec::new(alloc);
    for piece in stream.chunks(size.max(1)) {
        pieces.push(Vec::from_slice(alloc, piece)?)?;
    }
    read_pieces(alloc, pieces, Vec::new(alloc))
}

/// What a stream comes to as a whole.
fn read_whole(alloc: Global, stream: &[u8]) -> Result<Come, AllocError> {
    let (read, end) = read_stream(alloc, stream)?;
    let mut messages = Vec::new(alloc);
    for message in &read {
        put_message(alloc, message, &mut messages)?;
    }
    Ok(Come {
        messages,
        end: Some(end),
        failed: 0,
        stays: there_is_a_reading(stream) == end,
    })
}

/// Whether two are the same.
fn is_same(come: &Come, other: &Come) -> bool {
    come.messages.as_slice() == other.messages.as_slice()
        && come.end == other.end
        && come.failed == other.failed
        && come.stays == other.stays
}

/// Puts what a stream comes to in some way, where it isn't what it comes to.
fn put_other(
    alloc: Global,
    come: &Come,
    other: &Come,
    way: &str,
    out: &mut Vec<u8>,
) -> Result<(), AllocError> {
    if is_same(come, other) {
        return Ok(());
    }
    out.extend_from_slice(b"  but ")?;
    out.extend_from_slice(way.as_bytes())?;
    out.extend_from_slice(b":\n")?;
    put_come(alloc, other, out)
}

/// Reads a stream in other ways, and puts what isn't what it comes to.
fn put_others(
    alloc: Global,
    stream: &[u8],
    come: &Come,
    place: &str,
    out: &mut Vec<u8>,
) -> Result<(), AllocError> {
    for size in &SIZES {
        let size = *size;
        let way = format!(in alloc; "{place}in pieces of {size}")?;
        put_other(alloc, come, &read_cut(alloc, stream, size)?, &way, out)?;
    }
    let way = format!(in alloc; "{place}as a whole")?;
    put_other(alloc, come, &read_whole(alloc, stream)?, &way, out)
}

/// A stream behind `ONE`, and before it where it has no fault.
fn stream_among(alloc: Global, stream: &[u8], come: &Come) -> Result<Vec<u8>, AllocError> {
    let mut among = Vec::from_slice(alloc, ONE)?;
    among.extend_from_slice(stream)?;
    if let Some(End::Finished | End::Closed) = come.end {
        among.extend_from_slice(ONE)?;
    }
    Ok(among)
}

/// What such a stream comes to, where `ONE` comes to this.
fn come_among(alloc: Global, come: &Come, one: &Come) -> Result<Come, AllocError> {
    let mut messages = Vec::from_slice(alloc, one.messages.as_slice())?;
    messages.extend_from_slice(come.messages.as_slice())?;
    if come.end == Some(End::Finished) {
        messages.extend_from_slice(one.messages.as_slice())?;
    }
    Ok(Come {
        messages,
        end: come.end,
        failed: 0,
        stays: true,
    })
}

fn joined(alloc: Global, pieces: &[Vec<u8>]) -> Result<Vec<u8>, AllocError> {
    let mut all = Vec::new(alloc);
    for piece in pieces {
        all.extend_from_slice(piece.as_slice())?;
    }
    Ok(all)
}

/// Tells what pieces come to, and what their stream comes to in other ways.
pub(crate) fn tell_read(
    alloc: Global,
    subject: &str,
    fails: Vec<u64>,
    out: &mut Vec<u8>,
) -> Result<(), Fault> {
    let pieces = pieces_of(alloc, subject)?;
    let stream = joined(alloc, pieces.as_slice())?;
    let has_fails = !fails.is_empty();
    let come = read_pieces(alloc, pieces, fails)?;
    put_come(alloc, &come, out)?;
    if has_fails {
        return Ok(());
    }
    put_others(alloc, stream.as_slice(), &come, "", out)?;
    let among = stream_among(alloc, stream.as_slice(), &come)?;
    let one = read_whole(alloc, ONE)?;
    let come = come_among(alloc, &come, &one)?;
    put_others(alloc, among.as_slice(), &come, "among others ", out)?;
    Ok(())
}

/// Tells what each front of a stream comes to, from the empty one on, but for the stream itself.
pub(crate) fn tell_fronts(alloc: Global, subject: &str, out: &mut Vec<u8>) -> Result<(), Fault> {
    let stream = bytes_of(alloc, subject)?;
    let mut front = Vec::new(alloc);
    for byte in &stream {
        let come = read_whole(alloc, front.as_slice())?;
        put_come(alloc, &come, out)?;
        put_others(alloc, front.as_slice(), &come, "", out)?;
        front.push(*byte)?;
    }
    Ok(())
}
