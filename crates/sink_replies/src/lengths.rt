//! The one length of body that a head announces.
ghost use Rattle.std.specs.Prelude.{◌≡◌, ◌++◌, ◌∷◌, [], ℕ, List, All, length, map, codes, true};
ghost use Rattle.std.specs.Prelude.{IsTrue, MatchOption};
ghost use Rattle.std.specs.Str.{all_ascii_digits, str_eq_ignore_ascii_case};
ghost use Rattle.std.specs.Str.Parse.{digits_value};
ghost use Rattle.httparse.specs.Spans.{IsHeaderWithin, header_bytes};
ghost use Rattle.http_wire.specs.Form.{values_of, is_length};
ghost use Rattle.sink_replies.specs.Found.{IsFound};
ghost use Rattle.sink_replies.specs.Replies.{IsOneLength};

use httparse::spans::HeaderSpan;

/// The most bytes that a body has.
const BODY_LIMIT: u64 = 4_194_304;

/// The most digits of a Content-Length.
const DIGIT_LIMIT: usize = 10;

/// What a head has under a name.
#[derive(Clone, Copy)]
pub enum Found<'b> {
    Absent,
    Once(&'b [u8]),
    Again,
}

/// The body's length, where the head has one Content-Length alone, of 1 to 10 digits, which isn't
/// over the limit.
pub fn one_length(head: &[u8], headers: &[HeaderSpan]) -> Option<usize>
    requires { All (IsHeaderWithin (length head.now)) headers.now }
    ensures { MatchOption result
        ((len : ℕ) → ¬ (IsOneLength (values_of (codes "content-length")
        (map (header_bytes head.now) headers.now)) len))
        (IsOneLength (values_of (codes "content-length")
        (map (header_bytes head.now) headers.now))) }
{
    match lengths_in(head, headers) {
        Found::Once(text) => said_length(text),
        _ => None,
    }
}

/// What a head has under Content-Length, without regard to ASCII case.
fn lengths_in<'b>(head: &'b [u8], headers: &[HeaderSpan]) -> Found<'b>
    requires { All (IsHeaderWithin (length head.now)) headers.now }
    ensures { IsFound result (values_of (codes "content-length")
        (map (header_bytes head.now) headers.now)) }
{
    let mut found = Found::Absent;
    for header in headers {
        found = with_field(found, header.name.of(head), header.value.of(head));
    }
    found
}

/// What stands under Content-Length, with one field more.
fn with_field<'b>(found: Found<'b>, name: &[u8], value: &'b [u8]) -> Found<'b>
    ensures { (list : List (List ℕ × List ℕ))
        → IsFound found.entry (values_of (codes "content-length") list)
        → IsFound result (values_of (codes "content-length") (list ++ (name.now, value.now) ∷ [])) }
{
    if !is_content_length(name) {
        return found;
    }
    match found {
        Found::Absent => Found::Once(value),
        _ => Found::Again,
    }
}

fn is_content_length(name: &[u8]) -> bool
    ensures { result ≡ str_eq_ignore_ascii_case name.now (codes "content-length") }
{
    name.eq_ignore_ascii_case(b"content-length")
}

/// The length that a text is.
fn said_length(text: &[u8]) -> Option<usize>
    ensures { MatchOption result ((len : ℕ) → ¬ (IsOneLength (text.now ∷ []) len))
        (IsOneLength (text.now ∷ [])) }
{
    if !is_length(text) {
        return None;
    }
    let said = number(text);
    if said > BODY_LIMIT {
        return None;
    }
    Some(said as usize)
}

fn are_digits(text: &[u8]) -> bool
    ensures { result ≡ all_ascii_digits text.now }
{
    let mut left = text;
    'digits: while let Some((digit, rest)) = left.split_first() {
        if !digit.is_ascii_digit() {
            return false;
        }
        left = rest;
    }
    true
}

fn is_length(text: &[u8]) -> bool
    ensures { result ≡ is_length text.now }
{
    !text.is_empty() && text.len() <= DIGIT_LIMIT && are_digits(text)
}

fn number(digits: &[u8]) -> u64
    requires { IsTrue (is_length digits.now) }
    ensures { result ≡ digits_value 10 digits.now }
{
    let mut number: u64 = 0;
    for digit in digits {
        number = number * 10 + u64::from(*digit - b'0');
    }
    number
}
