//! How texts of any bytes are written in lines.
use crate::words::Stop;
use std::alloc::{AllocError, Global};

/// The most times that a text is repeated.
const MOST_TIMES: usize = 65_536;

/// The fewest bytes that are printed as one byte repeated.
const FEWEST_TIMES: usize = 32;

/// The bytes that a word stands for.
pub(crate) fn undone(alloc: Global, word: &str) -> Result<Vec<u8>, Stop> {
    let mut out = Vec::new(alloc);
    for (i, piece) in word.split('\\').enumerate() {
        if i == 0 {
            out.extend_from_slice(piece.as_bytes())?;
        } else {
            put_piece(piece, &mut out)?;
        }
    }
    Ok(out)
}

/// Puts what stands behind a backslash, up to the next one, behind what is there.
fn put_piece(piece: &str, out: &mut Vec<u8>) -> Result<(), Stop> {
    if let [b'x', high, low, rest @ ..] = piece.as_bytes() {
        out.push(byte_of([*high, *low])?)?;
        out.extend_from_slice(rest)?;
        return Ok(());
    }
    let repeated = repeated_of(piece).ok_or(Stop::Odd("bad notation"))?;
    for _ in 0..repeated.times {
        out.extend_from_slice(repeated.text.as_bytes())?;
    }
    out.extend_from_slice(repeated.rest.as_bytes())?;
    Ok(())
}

/// The byte of two digits.
fn byte_of(digits: [u8; 2]) -> Result<u8, Stop> {
    let mut byte = [0u8; 1];
    match hex::decode_to_slice(digits.as_slice(), &mut byte) {
        Ok(()) => Ok(byte[0]),
        Err(_) => Err(Stop::Odd("bad notation")),
    }
}

/// A text that is repeated, and what stands behind it.
#[derive(Clone, Copy)]
struct Repeated<'t> {
    times: usize,
    text: &'t str,
    rest: &'t str,
}

/// Reads `{N,TEXT}` and the rest.
fn repeated_of(piece: &str) -> Option<Repeated<'_>> {
    let (inside, rest) = piece.strip_prefix('{')?.split_once('}')?;
    let (times, text) = inside.split_once(',')?;
    let times: usize = times.parse().ok()?;
    if times > MOST_TIMES {
        return None;
    }
    Some(Repeated { times, text, rest })
}

/// Puts a value, as it is written in lines, behind what is there.
pub(crate) fn put_value(alloc: Global, bytes: &[u8], out: &mut Vec<u8>) -> Result<(), AllocError> {
    let mut last = 0u8;
    let mut times: usize = 0;
    for byte in bytes {
        if *byte != last {
            put_run(alloc, last, times, out)?;
            last = *byte;
            times = 0;
        }
        times = times.saturating_add(1);
    }
    put_run(alloc, last, times, out)
}

/// Whether a byte is written as itself.
fn is_printable(byte: u8) -> bool {
    byte >= 0x20 && byte < 0x7F && byte != b'\\'
}

/// Puts a byte so many times behind what is there.
fn put_run(alloc: Global, byte: u8, times: usize, out: &mut Vec<u8>) -> Result<(), AllocError> {
    if is_printable(byte) && times >= FEWEST_TIMES {
        let front = format!(in alloc; "{times}")?;
        out.extend_from_slice(b"\\{")?;
        out.extend_from_slice(front.as_bytes())?;
        return out.extend_from_slice(&[b',', byte, b'}']);
    }
    for _ in 0..times {
        put_byte(alloc, byte, out)?;
    }
    Ok(())
}

/// Puts a byte behind what is there.
fn put_byte(alloc: Global, byte: u8, out: &mut Vec<u8>) -> Result<(), AllocError> {
    if is_printable(byte) {
        out.push(byte)?;
        return Ok(());
    }
    let text = format!(in alloc; "\\x{byte:02X}")?;
    out.extend_from_slice(text.as_bytes())
}
