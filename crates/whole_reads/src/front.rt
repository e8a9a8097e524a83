//! The front of a source, or all of it.
ghost use Rattle.std.specs.Prelude.{◌≡◌, ◌<◌, ◌≤◌, length, take, vec_len, IfOk, OnOk, OnErr};
ghost use Rattle.whole_reads.specs.Front.{ReadsFront};
ghost use Rattle.whole_reads.specs.Filled.{ReadsAt, Fills};

use outside::{Failed, Source};
use std::alloc::{AllocError, Global};

/// How many bytes are made ready for reading at once.
const PIECE: usize = 4096;

/// Why a source wasn't read to its end or to the bound.
#[derive(Clone, Copy, Debug, PartialEq, Eq)]
pub enum ReadEnd {
    /// A read failed, and its fault was counted.
    Failed,
    /// There was no memory for more. What was read is gone.
    Memory,
}

impl From<Failed> for ReadEnd {
    ghost use Rattle.whole_reads.specs.declared.front.ReadEnd.TheVariants.{Failed};

    ghost from_gives = { λ _ e. e ≡ Failed };

    fn from(_: Failed) -> ReadEnd
        ensures { result ≡ ReadEnd.Failed }
    {
        ReadEnd::Failed
    }
}

impl From<AllocError> for ReadEnd {
    ghost use Rattle.whole_reads.specs.declared.front.ReadEnd.TheVariants.{Memory};

    ghost from_gives = { λ _ e. e ≡ Memory };

    fn from(_: AllocError) -> ReadEnd
        ensures { result ≡ ReadEnd.Memory }
    {
        ReadEnd::Memory
    }
}

/// Reads until the source ends or `most` bytes are there, whichever comes first, and never a byte
/// more.
///
/// `Failed` comes where a read failed, and `Memory` for want of memory; either way what was read is
/// gone, and the source stands behind it.
pub fn read_front<S: Source>(alloc: Global, source: &mut S, most: usize) -> Result<Vec<u8>, ReadEnd>
    ensures { ReadsFront (S.ends source.old) most result (S.ends source.new) }
{
    let mut bytes = Vec::new(alloc);
    while bytes.len() < most {
        let from = bytes.len();
        extend(&mut bytes, most)?;
        let end = fill(source, bytes.as_mut_slice(), from)?;
        if end < bytes.len() {
            bytes.truncate(end);
            return Ok(bytes);
        }
    }
    Ok(bytes)
}

/// Makes a piece ready behind the bytes that are there, in room that doubles up to the bound.
fn extend(bytes: &mut Vec<u8>, most: usize) -> Result<(), AllocError>
    requires { vec_len bytes.old < most }
    ensures kept { OnOk result (take (vec_len bytes.old) bytes.new.items ≡ bytes.old.items) }
    ensures longer { OnOk result (vec_len bytes.old < vec_len bytes.new) }
    ensures bounded { OnOk result (vec_len bytes.new ≤ most) }
{
    let from = bytes.len();
    let end = from + PIECE.min(most - from);
    if bytes.capacity() < end {
        let room = end.max(from.saturating_mul(2).min(most));
        bytes.reserve_exact(room - from)?;
    }
    bytes.resize(end, 0)
}

/// Reads into the room from a place on until it is full or the source ends, and answers up to where
/// it is filled.
fn fill<S: Source>(source: &mut S, room: &mut [u8], from: usize) -> Result<usize, ReadEnd>
    requires { from ≤ length room.old }
    ensures { Fills room.old (S.ends source.old) from result room.new (S.ends source.new) }
{
    let mut at = from;
    while at < room.len() {
        let count = read_at(source, room, at)?;
        if count == 0 {
            return Ok(at);
        }
        at += count;
    }
    Ok(at)
}

/// Reads once into the room from a place on.
fn read_at<S: Source>(source: &mut S, room: &mut [u8], at: usize) -> Result<usize, Failed>
    requires { at < length room.old }
    ensures { ReadsAt (S.ends source.old) at room.old result room.new (S.ends source.new) }
{
    source.read(&mut room[at..])
}
