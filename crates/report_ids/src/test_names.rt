//! The ids of tests that are made of the names of cases.
ghost use Rattle.std.specs.Prelude.{◌≡◌, ◌++◌, ◌≤◌, IfOk, map, string_bytes, encode_utf8_all};
ghost use Rattle.std.specs.Str.{chars};
ghost use Rattle.report_ids.specs.TestNames.{front_within, or_unnamed, shown, test_id_text, text_of};
ghost use Rattle.report_ids.specs.Rooms.{room_behind};

use names_realms::{NameFault, TestId};
use std::alloc::{AllocError, Global};
use std::str::from_utf8;

/// How many bytes the id of a test has at most.
const MOST: usize = 512;

/// A character as it stands in the id of a test.
fn shown(c: char) -> char
    ensures { result ≡ shown c }
{
    if c.is_control() { ' ' } else { c }
}

/// Appends the characters of a text, as many as fit into so many bytes. Answers how many bytes are
/// left, none where a character didn't fit.
fn append_shown(out: &mut String, room: usize, text: &str) -> Result<usize, AllocError>
    ensures front { IfOk result (λ left. string_bytes out.new ≡ string_bytes out.old
        ++ encode_utf8_all (front_within room (map shown (chars text.now)))) }
    ensures left { IfOk result (λ left. left ≡ room_behind room (map shown (chars text.now))) }
{
    let mut left = room;
    for c in text.chars() {
        let c = shown(c);
        let len = c.len_utf8();
        if len > left {
            return Ok(0);
        }
        out.push(c)?;
        left -= len;
    }
    Ok(left)
}

/// The text of bytes, up to the first that is no UTF-8.
fn front_text(bytes: &[u8]) -> &str
    ensures { result.now ≡ text_of bytes.now }
{
    let valid = match from_utf8(bytes) {
        Ok(text) => return text,
        Err(error) => error.valid_up_to(),
    };
    match from_utf8(&bytes[..valid]) {
        Ok(text) => text,
        Err(_) => unreachable!(),
    }
}

/// A text, or `unnamed` in the place of none.
fn or_unnamed(alloc: Global, text: String) -> Result<String, AllocError>
    ensures { IfOk result (λ t. string_bytes t ≡ or_unnamed (string_bytes text)) }
{
    match text.as_bytes() {
        [] => String::from_str(alloc, "unnamed"),
        _ => Ok(text),
    }
}

/// The text of the id of a test with this name.
fn id_text(alloc: Global, prefix: &str, name: &[u8]) -> Result<String, AllocError>
    ensures { IfOk result (λ text. string_bytes text ≡ test_id_text prefix.now name.now) }
{
    let mut text = String::new(alloc);
    let left = append_shown(&mut text, MOST, prefix)?;
    append_shown(&mut text, left, front_text(name))?;
    or_unnamed(alloc, text)
}

/// The id of the test of a case with this name. `Err` where there is no memory for it.
pub fn test_id(alloc: Global, prefix: &str, name: &[u8]) -> Result<TestId, AllocError>
    ensures { IfOk result (λ id. id ≡ test_id_text prefix.now name.now) }
{
    let text = id_text(alloc, prefix, name)?;
    match TestId::parse(alloc, text.as_bytes()) {
        Ok(id) => Ok(id),
        Err(fault) => match fault {
            NameFault::Memory => Err(AllocError),
            _ => unreachable!(),
        },
    }
}
