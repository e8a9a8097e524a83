//! The body behind a head.
ghost use Rattle.std.specs.Prelude.{◌≡◌, ◌+◌, ◌<◌, ◌≤◌, ◌^◌, length, take, vec_len, IfOk, OnOk};
ghost use Rattle.outside.specs.Ends.{OnlyReads};
ghost use Rattle.http_wire.specs.Reads.{TakesBody, FillsBody};

use crate::buffer::{Buffer, read_at};
use crate::message::WireFault;
use outside::Link;
use std::alloc::{AllocError, Global};

/// The most room that is made for a body before any of it was read.
const PIECE: usize = 65_536;

/// Takes the body of so many bytes from behind a head of so many.
///
/// What the buffer has of it is copied, and the rest is read right into the body, and no byte
/// behind it. Room is made as the body comes: a piece ahead of it, or as much again as is there.
pub fn take_body<L: Link>(
    alloc: Global,
    buffer: &mut Buffer,
    link: &mut L,
    head: usize,
    len: usize,
) -> Result<Vec<u8>, WireFault>
    requires head { head ≤ length buffer.old }
    requires fits { head + len < 2 ^ 64 }
    ensures taken { TakesBody buffer.old (L.ends link.old).incoming head len result buffer.new
        (L.ends link.new).incoming }
    ensures short { length buffer.new ≤ length buffer.old }
    ensures only { OnlyReads (L.ends link.old) (L.ends link.new) }
    ensures holds { L.holds link.new ≡ L.holds link.old }
{
    let stored = buffer.as_slice().len() - head;
    if len <= stored {
        let body = Vec::from_slice(alloc, &buffer.as_slice()[head..head + len])?;
        buffer.advance(head + len);
        return Ok(body);
    }
    let mut body = begun(alloc, &buffer.as_slice()[head..], len)?;
    fill_body(link, &mut body, len, head)?;
    buffer.advance(head + stored);
    Ok(body)
}

/// A body that has these bytes, and the room that is made first for one of so many.
fn begun(alloc: Global, front: &[u8], len: usize) -> Result<Vec<u8>, AllocError>
    ensures { IfOk result (λ v. v.items ≡ front.now) }
{
    let mut body = Vec::with_capacity(alloc, len.min(PIECE))?;
    body.extend_from_slice(front)?;
    Ok(body)
}

/// Reads what a body of `len` bytes lacks, which stands behind a head of `head` bytes.
fn fill_body<L: Link>(
    link: &mut L,
    body: &mut Vec<u8>,
    len: usize,
    head: usize,
) -> Result<(), WireFault>
    requires begun { vec_len body.old ≤ len }
    requires fits { head + len < 2 ^ 64 }
    ensures filled { FillsBody body.old.items (L.ends link.old).incoming len head result
        body.new.items (L.ends link.new).incoming }
    ensures only { OnlyReads (L.ends link.old) (L.ends link.new) }
    ensures holds { L.holds link.new ≡ L.holds link.old }
{
    let mut at = body.len();
    while at < len {
        make_room(body, at, len)?;
        let count = read_at(link, body.as_mut_slice(), at)?;
        if count == 0 {
            return Err(WireFault::CutShort { have: head + at });
        }
        at += count;
    }
    Ok(())
}

/// Makes room behind the first `at` bytes where there is none: a piece, or as much again as there
/// is.
fn make_room(body: &mut Vec<u8>, at: usize, len: usize) -> Result<(), AllocError>
    requires within { at ≤ vec_len body.old }
    requires lacks { at < len }
    requires bounded { vec_len body.old ≤ len }
    ensures kept { OnOk result (take at body.new.items ≡ take at body.old.items) }
    ensures room { OnOk result (at < vec_len body.new) }
    ensures bounded { OnOk result (vec_len body.new ≤ len) }
{
    if at < body.len() {
        return Ok(());
    }
    let room = at.saturating_mul(2).max(PIECE).min(len);
    body.reserve_exact(room - at)?;
    body.resize(room, 0)
}
