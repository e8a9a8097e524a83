//! References to characters.
ghost use Rattle.std.specs.Prelude.{◌≡◌, ◌≤◌, ◌<◌, ◌^◌, min, length, IfErr, IfOk};
ghost use Rattle.junit_parts.specs.Answers.{Gives};
ghost use Rattle.junit_parts.specs.References.{all_digits, character, digit_value, meaning_of, number_from, numbered};
ghost use Rattle.junit_parts.specs.References.{other_meaning, reference_from};

use crate::bytes::{is_name, parted_at};
use crate::unread::Unread;

/// What a reference means.
#[derive(Clone, Copy, Debug, PartialEq, Eq)]
pub(crate) enum Meaning {
    /// A character.
    Character(char),
    /// An entity other than the five predefined ones.
    Foreign,
}

/// What a digit is worth, and 99 of what is none.
pub(crate) fn digit_value(byte: u8) -> u8
    ensures value { result ≡ digit_value byte }
    ensures bound { result ≤ 99 }
{
    match byte {
        b'0'..=b'9' => byte - b'0',
        b'a'..=b'f' => byte - b'a' + 10,
        b'A'..=b'F' => byte - b'A' + 10,
        _ => 99,
    }
}

/// Whether there are digits of the base, and nothing else.
fn all_digits(base: u8, digits: &[u8]) -> bool
    ensures { result ≡ all_digits base digits.now }
{
    digits.iter().all(|b| digit_value(*b) < base)
}

/// The number that digits say, or the cap where it is greater.
pub(crate) fn capped_number(base: u8, cap: u64, digits: &[u8]) -> u64
    requires base { 1 ≤ base }
    requires few { base ≤ 16 }
    requires cap { cap < 2 ^ 59 }
    ensures { result ≡ min cap (number_from base 0 digits.now) }
{
    let mut number: u64 = 0;
    for digit in digits {
        number = (base as u64 * number + digit_value(*digit) as u64).min(cap);
    }
    number
}

/// The character of a number.
fn character(number: u32) -> Result<Meaning, Unread>
    ensures sure { IfErr result (λ e. e ≡ Unread.Broken) }
    ensures meaning { Gives (λ m. m) result (character number) }
{
    match char::from_u32(number) {
        Some(c) => Ok(Meaning::Character(c)),
        None => Err(Unread::Broken),
    }
}

/// The character whose number the digits say.
fn numbered(base: u8, digits: &[u8]) -> Result<Meaning, Unread>
    requires base { 1 ≤ base }
    requires few { base ≤ 16 }
    ensures sure { IfErr result (λ e. e ≡ Unread.Broken) }
    ensures meaning { Gives (λ m. m) result (numbered base digits.now) }
{
    if digits.is_empty() || !all_digits(base, digits) {
        return Err(Unread::Broken);
    }
    character(capped_number(base, 0x11_0000, digits) as u32)
}

/// What stands between `&` and `;` where it is no predefined entity.
fn other_meaning(body: &[u8]) -> Result<Meaning, Unread>
    ensures sure { IfErr result (λ e. e ≡ Unread.Broken) }
    ensures meaning { Gives (λ m. m) result (other_meaning body.now) }
{
    if body.starts_with(b"#x") {
        return numbered(16, &body[2..]);
    }
    if body.starts_with(b"#") {
        return numbered(10, &body[1..]);
    }
    if is_name(body) {
        Ok(Meaning::Foreign)
    } else {
        Err(Unread::Broken)
    }
}

/// What stands between `&` and `;`.
#[tactic(auto, unfolding(crate::specs::References::meaning_of))]
fn meaning_of(body: &[u8]) -> Result<Meaning, Unread>
    ensures sure { IfErr result (λ e. e ≡ Unread.Broken) }
    ensures meaning { Gives (λ m. m) result (meaning_of body.now) }
{
    if body == b"lt".as_slice() {
        return Ok(Meaning::Character('<'));
    }
    if body == b"gt".as_slice() {
        return Ok(Meaning::Character('>'));
    }
    if body == b"amp".as_slice() {
        return Ok(Meaning::Character('&'));
    }
    if body == b"quot".as_slice() {
        return Ok(Meaning::Character('"'));
    }
    if body == b"apos".as_slice() {
        return Ok(Meaning::Character('\''));
    }
    other_meaning(body)
}

/// Reads what stands behind `&`.
#[tactic(auto, unfolding(crate::specs::References::reference_from))]
pub(crate) fn reference(bytes: &[u8]) -> Result<(Meaning, &[u8]), Unread>
    ensures sure { IfErr result (λ e. e ≡ Unread.Broken) }
    ensures read { Gives (λ r. (r.0, r.1.now)) result (reference_from bytes.now) }
    ensures within { IfOk result (λ r. length r.1.now ≤ length bytes.now) }
{
    let (body, rest) = parted_at(bytes, b";")?;
    let meaning = meaning_of(body)?;
    Ok((meaning, rest))
}
