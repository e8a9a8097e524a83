//! Texts of the values: each is ASCII or UTF-8, so that it is a `str` at no cost.
ghost use Rattle.std.specs.Prelude.{◌≡◌, IfOk, OnOk, OnErr, ◌++◌, string_bytes, ◌↔◌, ◌==◌, ◌<◌, ◌≤◌, nat_eq, true};
ghost use Rattle.std.specs.Prelude.{length, take, IfSome, IsTrue};
ghost use Rattle.std.specs.List.{common_prefix_len, position, position_or_len};
ghost use Rattle.name_parts.specs.Parts.{begins_control, control_place, key_place_from, key_step, literal_bad_place};
ghost use Rattle.name_parts.specs.Parts.{text_place};
ghost use Rattle.std.specs.Str.{IsUtf8};
ghost use Rattle.std.specs.Str.Lossy.{utf8_valid_len};

use std::alloc::{AllocError, Global};
use std::str::from_utf8;

/// The text of bytes that are UTF-8. Fails only where there is no memory for it.
pub fn owned_text(alloc: Global, bytes: &[u8]) -> Result<String, AllocError>
    requires { IsUtf8 bytes.now }
    ensures { IfOk result (λ t. string_bytes t ≡ bytes.now) }
{
    match from_utf8(bytes) {
        Ok(text) => String::from_str(alloc, text),
        Err(_) => unreachable!(),
    }
}

/// Appends bytes, all of them or, where there is no memory for them, none.
pub fn append(out: &mut Vec<u8>, bytes: &[u8]) -> Result<(), AllocError>
    ensures ok { OnOk result (out.new.items ≡ out.old.items ++ bytes.now) }
    ensures err { OnErr result (out.new.items ≡ out.old.items) }
{
    out.extend_from_slice(bytes)
}

/// Hands on how appending went, and where it failed takes away what stands behind so many bytes.
pub fn all_or_nothing(
    out: &mut Vec<u8>,
    before: usize,
    appended: Result<(), AllocError>,
) -> Result<(), AllocError>
    ensures same { result ≡ appended }
    ensures ok { OnOk result (out.new.items ≡ out.old.items) }
    ensures err { OnErr result (out.new.items ≡ take before out.old.items) }
{
    if appended.is_err() {
        out.truncate(before);
    }
    appended
}

/// Whether two texts have the same bytes.
pub fn same(left: &str, right: &str) -> bool
    ensures { IsTrue result ↔ (left.now ≡ right.now) }
{
    left == right
}

/// The first place of such a byte.
fn place_of_byte(text: &[u8], byte: u8) -> Option<usize>
    ensures place { result ≡ position (λ b. b == byte) text.now }
    ensures within { IfSome result (λ place. place < length text.now) }
{
    text.iter().position(|b| *b == byte)
}

/// How many bytes stand before the first such byte, or all where there is none.
pub fn len_before(text: &[u8], byte: u8) -> usize
    ensures place { result ≡ position_or_len (λ b. b == byte) text.now }
    ensures within { result ≤ length text.now }
{
    match place_of_byte(text, byte) {
        Some(place) => place,
        None => text.len(),
    }
}

/// How many bytes two texts have in common from the front on.
pub(crate) fn common_len(text: &[u8], literal: &[u8]) -> usize
    ensures value { result ≡ common_prefix_len nat_eq text.now literal.now }
    ensures within { result ≤ length text.now }
{
    let mut at = 0;
    while at < text.len() && at < literal.len() && text[at] == literal[at] {
        at += 1;
    }
    at
}

/// The first place at which a text isn't the literal, its length where it ends too soon.
pub fn bad_in_literal(literal: &[u8], text: &[u8]) -> Option<usize>
    ensures place { result ≡ literal_bad_place literal.now text.now }
    ensures within { IfSome result (λ place. place ≤ length text.now) }
{
    let same = common_len(text, literal);
    if same == text.len() && same == literal.len() {
        return None;
    }
    Some(same)
}

/// Whether a control character begins here.
fn is_control_here(text: &[u8]) -> bool
    ensures { result ≡ begins_control text.now }
{
    match text {
        [0xC2, second, ..] => *second > 0x7F && *second < 0xA0,
        [first, ..] => *first < 0x20 || *first == 0x7F,
        [] => false,
    }
}

/// How many bytes stand before the first control character.
fn len_before_control(text: &[u8]) -> usize
    ensures { result ≡ control_place text.now }
{
    let mut at = 0;
    while at < text.len() && !is_control_here(&text[at..]) {
        at += 1;
    }
    at
}

/// How many bytes stand before the first that is no UTF-8.
pub fn utf8_len(text: &[u8]) -> usize
    ensures value { result ≡ utf8_valid_len text.now }
    ensures within { result ≤ length text.now }
{
    match from_utf8(text) {
        Ok(_) => text.len(),
        Err(error) => error.valid_up_to(),
    }
}

/// The first place where no UTF-8 goes on or where a control character begins, or 0 where there are
/// no bytes.
pub(crate) fn bad_in_text(text: &[u8]) -> Option<usize>
    ensures place { result ≡ text_place text.now }
    ensures within { IfSome result (λ place. place ≤ length text.now) }
{
    let good = utf8_len(text).min(len_before_control(text));
    if good == text.len() && !text.is_empty() {
        return None;
    }
    Some(good)
}

/// Whether a key goes on with the byte, and if so whether a word starts behind it.
fn step_in_key(at_start: bool, byte: u8) -> Option<bool>
    ensures { result ≡ key_step at_start byte }
{
    if at_start {
        return if byte.is_ascii_lowercase() {
            Some(false)
        } else {
            None
        };
    }
    match byte {
        b'a'..=b'z' | b'0'..=b'9' | b'_' => Some(false),
        b'/' => Some(true),
        _ => None,
    }
}

/// The first place where a key doesn't go on, its length where it ends at the start of a word.
pub(crate) fn bad_in_key(text: &[u8]) -> Option<usize>
    ensures place { result ≡ key_place_from true text.now }
    ensures within { IfSome result (λ place. place ≤ length text.now) }
{
    let mut at_start = true;
    for (at, byte) in text.iter().enumerate() {
        match step_in_key(at_start, *byte) {
            Some(next) => at_start = next,
            None => return Some(at),
        }
    }
    if at_start { Some(text.len()) } else { None }
}
