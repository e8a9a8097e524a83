//! The message of a point: its diagnostic, cut.
ghost use Rattle.std.specs.Prelude.{◌≡◌, ◌+◌, ◌*◌, ◌≤◌, ◌++◌, length, take, IfOk, OnOk};
ghost use Rattle.tap_reader.specs.Lines.{lines};
ghost use Rattle.tap_reader.specs.Cases.{message_of, unindented};
ghost use Rattle.tap_reader.specs.MessageWords.{front_of, parted};

use crate::forms::count_spaces;
use crate::lines::split_line;
use name_parts::{append, utf8_len};
use std::alloc::{AllocError, Global};

/// How many bytes a message has at most.
const MOST: usize = 1024;

/// A line of a diagnostic of a point of the level, without its indent where it has that.
fn unindent(level: usize, line: &[u8]) -> &[u8]
    ensures { result.now ≡ unindented (4 * level + 2) line.now }
{
    let spaces = count_spaces(line);
    if spaces / 4 > level || (spaces / 4 == level && spaces % 4 >= 2) {
        &line[4 * level + 2..]
    } else {
        line
    }
}

/// Appends bytes, or as many of them as there is room for in a message.
fn append_front(out: &mut Vec<u8>, bytes: &[u8]) -> Result<(), AllocError>
    requires { length out.old.items ≤ 1024 }
    ensures front { OnOk result (out.new.items ≡ take 1024 (out.old.items ++ bytes.now)) }
    ensures most { OnOk result (length out.new.items ≤ 1024) }
{
    let room = MOST - out.len();
    if bytes.len() <= room {
        append(out, bytes)
    } else {
        append(out, &bytes[..room])
    }
}

/// Appends a line behind those before it, as far as there is room for it in a message.
fn append_line(out: &mut Vec<u8>, is_first: bool, line: &[u8]) -> Result<(), AllocError>
    requires { length out.old.items ≤ 1024 }
    ensures front { OnOk result (out.new.items
        ≡ take 1024 (out.old.items ++ parted is_first line.now)) }
    ensures most { OnOk result (length out.new.items ≤ 1024) }
{
    if is_first {
        return append_front(out, line);
    }
    append_front(out, b"\n")?;
    append_front(out, line)
}

/// The first bytes of so many lines of a diagnostic, as many as a message has at most.
fn read_front(
    alloc: Global,
    level: usize,
    count: usize,
    diagnostic: &[u8],
) -> Result<Vec<u8>, AllocError>
    ensures { IfOk result (λ v. v.items ≡ front_of level (take count (lines diagnostic.now))) }
{
    let mut out = Vec::new(alloc);
    let mut rest = diagnostic;
    for at in 0..count {
        match split_line(rest) {
            Some((line, behind)) => {
                append_line(&mut out, at == 0, unindent(level, line))?;
                rest = behind;
            }
            None => return Ok(out),
        }
    }
    Ok(out)
}

/// The message of a diagnostic of so many lines.
pub(crate) fn read_message(
    alloc: Global,
    level: usize,
    count: usize,
    diagnostic: &[u8],
) -> Result<Vec<u8>, AllocError>
    ensures { IfOk result (λ v. v.items ≡ message_of level (take count (lines diagnostic.now))) }
{
    let mut out = read_front(alloc, level, count, diagnostic)?;
    let len = utf8_len(&out);
    out.truncate(len);
    Ok(out)
}
