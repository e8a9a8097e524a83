//! How bytes are written in the table.
//!
//! `\r`, `\n` and `\\` are CR, LF and a backslash, `\xHH` is the byte of two hex digits, `\*98{`
//! and a text and `\}` are the text 98 times, and all else is itself. `|` parts pieces.
//!
//! Printed are so the bytes from a blank to `~` but for `"` and `|`, and a byte that stands 17
//! times or more on end by `\*`; the others are `\xHH`.
use crate::fault::Fault;
use std::alloc::{AllocError, Global};

/// The most times that a text is repeated.
const MOST_TIMES: usize = 1_000_000;

/// How often a byte stands alone at most, before it is printed once and their number.
const SHORT_RUN: usize = 16;

/// A text that is repeated: where it begins in what is read, and how often it stands.
#[derive(Clone, Copy)]
struct Repeat {
    from: usize,
    times: usize,
}

/// The numbers between commas.
pub(crate) fn numbers_of(alloc: Global, text: &str) -> Result<Vec<u64>, Fault> {
    let mut numbers = Vec::new(alloc);
    for word in text.split(',') {
        let number: u64 = word.parse().ok().ok_or(Fault::Form)?;
        numbers.push(number)?;
    }
    Ok(numbers)
}

/// The bytes of each piece.
pub(crate) fn pieces_of(alloc: Global, text: &str) -> Result<Vec<Vec<u8>>, Fault> {
    let mut pieces = Vec::new(alloc);
    for piece in text.split('|') {
        pieces.push(bytes_of(alloc, piece)?)?;
    }
    Ok(pieces)
}

/// The bytes that a text stands for.
pub(crate) fn bytes_of(alloc: Global, text: &str) -> Result<Vec<u8>, Fault> {
    let mut bytes = Vec::new(alloc);
    let mut repeat = None;
    let mut is_plain = true;
    for part in text.split('\\') {
        if is_plain {
            bytes.extend_from_slice(part.as_bytes())?;
            is_plain = false;
        } else if part.is_empty() {
            bytes.push(b'\\')?;
            is_plain = true;
        } else {
            repeat = read_escape(part, repeat, &mut bytes)?;
        }
    }
    if is_plain || repeat.is_some() {
        return Err(Fault::Form);
    }
    Ok(bytes)
}

/// Reads what stands behind a backslash, and answers the text that is repeated from there on, if
/// any.
fn read_escape(
    part: &str,
    repeat: Option<Repeat>,
    bytes: &mut Vec<u8>,
) -> Result<Option<Repeat>, Fault> {
    if let Some(rest) = part.strip_prefix('*') {
        return begin_repeat(rest, repeat, bytes);
    }
    if let Some(rest) = part.strip_prefix('}') {
        end_repeat(repeat.ok_or(Fault::Form)?, bytes)?;
        bytes.extend_from_slice(rest.as_bytes())?;
        return Ok(None);
    }
    let (byte, rest) = byte_of(part).ok_or(Fault::Form)?;
    bytes.push(byte)?;
    bytes.extend_from_slice(rest.as_bytes())?;
    Ok(repeat)
}

/// The byte that stands behind a backslash, and the rest.
fn byte_of(part: &str) -> Option<(u8, &str)> {
    if let Some(rest) = part.strip_prefix('r') {
        return Some((b'\r', rest));
    }
    if let Some(rest) = part.strip_prefix('n') {
        return Some((b'\n', rest));
    }
    let (digits, rest) = part.strip_prefix('x')?.split_at_checked(2)?;
    Some((u8::from_str_radix(digits, 16).ok()?, rest))
}

fn begin_repeat(
    rest: &str,
    repeat: Option<Repeat>,
    bytes: &mut Vec<u8>,
) -> Result<Option<Repeat>, Fault> {
    let (number, text) = rest.split_once('{').ok_or(Fault::Form)?;
    let times: usize = number.parse().ok().ok_or(Fault::Form)?;
    if repeat.is_some() || times == 0 || times > MOST_TIMES {
        return Err(Fault::Form);
    }
    let from = bytes.len();
    bytes.extend_from_slice(text.as_bytes())?;
    Ok(Some(Repeat { from, times }))
}

/// Puts a text as often as it stands behind its first one.
fn end_repeat(repeat: Repeat, bytes: &mut Vec<u8>) -> Result<(), Fault> {
    if repeat.from > bytes.len() {
        return Err(Fault::Form);
    }
    let text = bytes.split_off(repeat.from)?;
    for _ in 0..repeat.times {
        bytes.extend_from_slice(text.as_slice())?;
    }
    Ok(())
}

/// Puts bytes as they are printed behind what is there.
pub(crate) fn put_bytes(alloc: Global, bytes: &[u8], out: &mut Vec<u8>) -> Result<(), AllocError> {
    let mut last = 0;
    let mut count: usize = 0;
    for byte in bytes {
        if count > 0 && *byte != last {
            put_run(alloc, last, count, out)?;
            count = 0;
        }
        last = *byte;
        count = count.saturating_add(1);
    }
    put_run(alloc, last, count, out)
}

/// Puts a byte that stands so often on end.
fn put_run(alloc: Global, byte: u8, count: usize, out: &mut Vec<u8>) -> Result<(), AllocError> {
    if count <= SHORT_RUN {
        for _ in 0..count {
            put_byte(alloc, byte, out)?;
        }
        return Ok(());
    }
    let front = format!(in alloc; "\\*{count}{{")?;
    out.extend_from_slice(front.as_bytes())?;
    put_byte(alloc, byte, out)?;
    out.extend_from_slice(b"\\}")
}

fn put_byte(alloc: Global, byte: u8, out: &mut Vec<u8>) -> Result<(), AllocError> {
    match byte {
        b'\r' => out.extend_from_slice(b"\\r"),
        b'\n' => out.extend_from_slice(b"\\n"),
        b'\\' => out.extend_from_slice(b"\\\\"),
        b' '..=b'~' if byte != b'"' && byte != b'|' => Ok(out.push(byte)?),
        _ => {
            let text = format!(in alloc; "\\x{byte:02x}")?;
            out.extend_from_slice(text.as_bytes())
        }
    }
}

/// Puts bytes as they are printed between quotes.
pub(crate) fn put_quoted(alloc: Global, bytes: &[u8], out: &mut Vec<u8>) -> Result<(), AllocError> {
    out.extend_from_slice(b"\"")?;
    put_bytes(alloc, bytes, out)?;
    out.extend_from_slice(b"\"")
}

/// Puts a line of a front and, where there are any, bytes as they are printed.
pub(crate) fn put_line(
    alloc: Global,
    front: &str,
    bytes: &[u8],
    out: &mut Vec<u8>,
) -> Result<(), AllocError> {
    out.extend_from_slice(b"  ")?;
    out.extend_from_slice(front.as_bytes())?;
    if !front.is_empty() && !bytes.is_empty() {
        out.extend_from_slice(b" ")?;
    }
    put_bytes(alloc, bytes, out)?;
    out.extend_from_slice(b"\n")
}

/// Whether a flag says that the connection closes.
pub(crate) fn flag_of(word: &str) -> Result<bool, Fault> {
    match word {
        "open" => Ok(false),
        "close" => Ok(true),
        _ => Err(Fault::Form),
    }
}

/// The word of a flag.
pub(crate) fn flag_word(close: bool) -> &'static str {
    if close { "close" } else { "open" }
}
