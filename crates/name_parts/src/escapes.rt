//! Escaped texts: the one spelling of a value in a name.
ghost use Rattle.std.specs.Prelude.{◌≡◌, ◌≢◌, ◌+◌, ◌*◌, ◌==◌, ◌<◌, ◌≤◌, ◌^◌, ◌↔◌, ◌++◌, ℕ, List, [], ◌∷◌, length, take};
ghost use Rattle.std.specs.Prelude.{drop, if◌then◌else◌, IsTrue, IfOk, IfErr, IfNone, IfSome, MatchOption, OnOk, OnErr};
ghost use Rattle.std.specs.Prelude.{true, false, None, Some, string_bytes};
ghost use Rattle.std.specs.Char.{digit_value, is_digit};
ghost use Rattle.std.specs.Str.{IsUtf8};
ghost use Rattle.percent_encoding.specs.Percent.{percent_decode};
ghost use Rattle.name_parts.specs.Parts.{IsPart, bad_place, most_bytes, place_of};
ghost use Rattle.name_parts.specs.Escapes.{escaped, escaped_fault, first_fault, is_plain, is_spelling, misspelt};
ghost use Rattle.name_parts.specs.Escapes.{spelled, spelling};
ghost use Rattle.name_parts.specs.Spellings.{front_byte, front_fault, front_len, is_at};

use crate::NameFault;
use crate::parts::{PartForm, first_bad};
use crate::texts::{all_or_nothing, append};
use percent_encoding::{
    AsciiSet, NON_ALPHANUMERIC, ascii_set, percent_decode, percent_encode_byte,
};
use std::alloc::{AllocError, Global};

/// The ASCII bytes that don't stand as themselves in a name.
pub(crate) const NAME_SET: AsciiSet = ascii_set!(
    NON_ALPHANUMERIC
        .remove(b'-')
        .remove(b'_')
        .remove(b'.')
        .remove(b'~')
        .remove(b'$')
        .remove(b'&')
        .remove(b'+')
        .remove(b'=')
        .remove(b':')
        .remove(b'@')
);

/// Whether the byte stands as itself in a name.
fn stands_as_itself(byte: u8) -> bool
    ensures { result ≡ is_plain byte }
{
    !NAME_SET.should_percent_encode(byte)
}

/// The value of a hexadecimal digit of either case.
fn hex_value(digit: u8) -> Option<u8>
    ensures { MatchOption result (is_digit digit 16 ≡ false)
        (λ v. (is_digit digit 16 ≡ true) × (v ≡ digit_value digit) × (v < 16)) }
{
    match digit {
        b'0'..=b'9' => Some(digit - b'0'),
        b'a'..=b'f' => Some(digit - b'a' + 10),
        b'A'..=b'F' => Some(digit - b'A' + 10),
        _ => None,
    }
}

/// The byte that the front of a text spells, and how many bytes spell it.
fn front(text: &[u8]) -> (u8, usize)
    requires { 0 < length text.now }
    ensures byte { result.0 ≡ front_byte text.now }
    ensures len { result.1 ≡ front_len text.now }
    ensures within { (0 < result.1) × (result.1 ≤ length text.now) }
{
    if text.len() < 3 || text[0] != b'%' {
        return (text[0], 1);
    }
    match (hex_value(text[1]), hex_value(text[2])) {
        (Some(high), Some(low)) => (16 * high + low, 3),
        _ => (text[0], 1),
    }
}

/// Whether this is the one spelling of the byte.
#[tactic(auto, unfolding(crate::specs::Escapes::spelling))]
fn spells(text: &[u8], byte: u8) -> bool
    ensures { result ≡ is_spelling text.now byte }
{
    if stands_as_itself(byte) {
        text == [byte].as_slice()
    } else {
        text == percent_encode_byte(byte).as_bytes()
    }
}

/// The fault of another spelling.
fn fault_of_spelling(text: &[u8], at: usize) -> NameFault
    ensures { result ≡ misspelt text.now at }
{
    match text.first() {
        Some(b'%') => NameFault::NotCanonical { at },
        _ => NameFault::BadByte { at },
    }
}

/// The fault of one byte of a text at this place.
fn fault_of_front(byte: u8, text: &[u8], at: usize, is_bad: bool) -> Option<NameFault>
    ensures value { result ≡ front_fault (byte, text.now) at is_bad }
    ensures place { IfSome result (λ f. place_of f ≡ at) }
{
    if !spells(text, byte) {
        return Some(fault_of_spelling(text, at));
    }
    if is_bad {
        Some(NameFault::BadByte { at })
    } else {
        None
    }
}

/// Whether the bad byte is this one.
fn is_bad_at(bad: Option<usize>, index: usize) -> bool
    ensures { result ≡ is_at bad index }
{
    match bad {
        Some(place) => place == index,
        None => false,
    }
}

/// The first fault of a text whose value has its first bad byte here.
fn fault_of_spellings(text: &[u8], bad: Option<usize>) -> Option<NameFault>
    ensures value { result ≡ first_fault bad (spelled text.now) }
    ensures within { IfSome result (λ f. place_of f ≤ length text.now) }
{
    let mut rest = text;
    let mut index: usize = 0;
    let mut place: usize = 0;
    while !rest.is_empty() {
        let (byte, len) = front(rest);
        let (spelling, behind) = rest.split_at(len);
        if let Some(fault) = fault_of_front(byte, spelling, place, is_bad_at(bad, index)) {
            return Some(fault);
        }
        index += 1;
        place += len;
        rest = behind;
    }
    match bad {
        Some(_) => Some(NameFault::BadByte { at: place }),
        None => None,
    }
}

/// What is wrong with how many bytes an escaped part has: that it is empty, else that its value is
/// too long. Nothing is decoded for it.
#[tactic(auto, unfolding(crate::specs::Escapes::escaped_fault))]
fn fault_of_len(form: PartForm, text: &[u8]) -> Option<NameFault>
    ensures fault { IfSome result (λ f. (escaped_fault form text.now ≡ Some f) × (place_of f ≡ 0)) }
    ensures none { IfNone result
        (escaped_fault form text.now
        ≡ first_fault (bad_place form (percent_decode text.now)) (spelled text.now)) }
    ensures few { IfNone result (length (percent_decode text.now) ≤ most_bytes form) }
{
    if text.is_empty() {
        return Some(NameFault::Empty);
    }
    let len = percent_decode(text).count();
    if len > form.most() {
        return Some(NameFault::TooLong { len });
    }
    None
}

/// The few bytes that a text spells, in any spelling.
fn unescaped(alloc: Global, text: &[u8]) -> Result<Vec<u8>, AllocError>
    requires { length (percent_decode text.now) ≤ 512 }
    ensures { IfOk result (λ v. v.items ≡ percent_decode text.now) }
{
    let mut value = Vec::new(alloc);
    percent_decode(text).append_to(&mut value)?;
    Ok(value)
}

/// The text of bytes that are UTF-8.
fn text_of(bytes: Vec<u8>) -> String
    requires { IsUtf8 bytes.items }
    ensures { string_bytes result ≡ bytes.items }
{
    match String::from_utf8(bytes) {
        Ok(text) => text,
        Err(_) => unreachable!(),
    }
}

/// Reads an escaped part, all of the text. Its fault where it is no spelling of one, and `Memory`
/// where there is none for the part.
pub fn read_escaped(alloc: Global, form: PartForm, text: &[u8]) -> Result<String, NameFault>
    ensures ok { IfOk result
        (λ t. (text.now ≡ escaped (string_bytes t)) × IsPart form (string_bytes t)) }
    ensures none { IfOk result (λ _. escaped_fault form text.now ≡ None) }
    ensures fault { IfErr result
        (λ f. f ≢ NameFault.Memory → escaped_fault form text.now ≡ Some f) }
    ensures within { IfErr result (λ f. place_of f ≤ length text.now) }
{
    if let Some(fault) = fault_of_len(form, text) {
        return Err(fault);
    }
    let value = unescaped(alloc, text)?;
    if let Some(fault) = fault_of_spellings(text, first_bad(form, value.as_slice())) {
        return Err(fault);
    }
    Ok(text_of(value))
}

/// How many bytes the one spelling of bytes has, of which there are not too many.
pub fn escaped_len(bytes: &[u8]) -> usize
    requires { length bytes.now < 2 ^ 32 }
    ensures { result ≡ length (escaped bytes.now) }
{
    let mut len = 0;
    for byte in bytes {
        len += if stands_as_itself(*byte) { 1 } else { 3 };
    }
    len
}

/// Appends the one spelling of a byte, all of it or, where there is no memory for it, nothing.
#[tactic(auto, unfolding(crate::specs::Escapes::spelling))]
fn append_spelling(out: &mut Vec<u8>, byte: u8) -> Result<(), AllocError>
    ensures ok { OnOk result (out.new.items ≡ out.old.items ++ spelling byte) }
    ensures err { OnErr result (out.new.items ≡ out.old.items) }
{
    if stands_as_itself(byte) {
        Ok(out.push(byte)?)
    } else {
        append(out, percent_encode_byte(byte).as_bytes())
    }
}

/// Appends the one spelling of bytes, or a front of it where there is no memory for the rest.
fn append_spellings(out: &mut Vec<u8>, bytes: &[u8]) -> Result<(), AllocError>
    ensures ok { OnOk result (out.new.items ≡ out.old.items ++ escaped bytes.now) }
    ensures front { take (length out.old.items) out.new.items ≡ out.old.items }
{
    for byte in bytes {
        append_spelling(out, *byte)?;
    }
    Ok(())
}

/// Appends the one spelling of bytes, all of it or, where there is no memory for it, nothing.
pub fn append_escaped(out: &mut Vec<u8>, bytes: &[u8]) -> Result<(), AllocError>
    ensures ok { OnOk result (out.new.items ≡ out.old.items ++ escaped bytes.now) }
    ensures err { OnErr result (out.new.items ≡ out.old.items) }
{
    let before = out.len();
    let appended = append_spellings(out, bytes);
    all_or_nothing(out, before, appended)
}
