//! How a body is written in a line: long texts by how often a piece stands, and bytes that can't
//! stand in a line by their numbers.
//!
//! `\r{98,a}` is 98 times `a`, where the piece has no `}` and no backslash; `\x0a` is the byte of
//! this number; `\\` is a backslash. Any other backslash is itself.
ghost use Rattle.std.specs.Prelude.{◌<◌, IfSome};

use std::alloc::{AllocError, Global};

/// How many bytes a body may have.
const MOST_BODY: usize = 4_194_304;

/// The body that a text stands for, none where it is too long.
pub(crate) fn body_of(alloc: Global, text: &str) -> Result<Option<Vec<u8>>, AllocError> {
    let mut body = Vec::new(alloc);
    // Behind a backslash that stands for itself, and at the front, a piece is plain.
    let mut is_plain = true;
    for piece in text.split('\\') {
        is_plain = put_piece(piece, is_plain, &mut body)?;
        if body.len() > MOST_BODY {
            return Ok(None);
        }
    }
    Ok(Some(body))
}

/// Puts what stands up to the next backslash. Whether what stands behind that is plain.
fn put_piece(piece: &str, is_plain: bool, body: &mut Vec<u8>) -> Result<bool, AllocError> {
    if is_plain {
        body.extend_from_slice(piece.as_bytes())?;
        return Ok(false);
    }
    if piece.is_empty() {
        body.push(b'\\')?;
        return Ok(true);
    }
    put_escaped(piece, body)?;
    Ok(false)
}

/// Puts what stands behind a backslash.
fn put_escaped(piece: &str, body: &mut Vec<u8>) -> Result<(), AllocError> {
    if let Some((count, part, rest)) = repeated(piece) {
        put_repeated(part, count, body)?;
        return body.extend_from_slice(rest.as_bytes());
    }
    if let Some((byte, rest)) = numbered(piece.as_bytes()) {
        body.push(byte)?;
        return body.extend_from_slice(rest);
    }
    body.push(b'\\')?;
    body.extend_from_slice(piece.as_bytes())
}

/// How often a part stands, the part, and what stands behind them, of `r{98,a}`.
fn repeated(piece: &str) -> Option<(u32, &str, &str)> {
    let (inside, rest) = piece.strip_prefix("r{")?.split_once('}')?;
    let (count, part) = inside.split_once(',')?;
    let count: u32 = count.parse().ok()?;
    Some((count, part, rest))
}

/// Puts a part so often, or until the body is too long.
fn put_repeated(part: &str, count: u32, body: &mut Vec<u8>) -> Result<(), AllocError> {
    for _ in 0..count {
        if body.len() > MOST_BODY {
            return Ok(());
        }
        body.extend_from_slice(part.as_bytes())?;
    }
    Ok(())
}

/// The byte of two hexadecimal digits behind an `x`, and what stands behind them.
fn numbered(piece: &[u8]) -> Option<(u8, &[u8])> {
    let (first, rest) = piece.split_first()?;
    if *first != b'x' {
        return None;
    }
    let (high, rest) = rest.split_first()?;
    let (low, rest) = rest.split_first()?;
    let byte = digit(*high)? * 16 + digit(*low)?;
    Some((byte, rest))
}

/// What a hexadecimal digit says.
fn digit(byte: u8) -> Option<u8>
    ensures { IfSome result (λ n. n < 16) }
{
    match byte {
        b'0'..=b'9' => Some(byte - b'0'),
        b'a'..=b'f' => Some(byte - b'a' + 10),
        _ => None,
    }
}
