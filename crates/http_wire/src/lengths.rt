//! The length of body that a head's fields announce, or their first fault.
ghost use Rattle.std.specs.Prelude.{◌≡◌, ◌≤◌, ◌<◌, ◌+◌, ◌*◌, ◌^◌, ℕ, true, false};
ghost use Rattle.std.specs.Prelude.{length, List, codes, nat_lt, IsTrue, MatchResult, None, Some};
ghost use Rattle.std.specs.Char.{is_ascii_digit};
ghost use Rattle.std.specs.List.{list_all};
ghost use Rattle.std.specs.Str.Parse.{digits_value};
ghost use Rattle.http_wire.specs.Form.{values_of, is_length, length_of};
ghost use Rattle.http_wire.specs.Faults.{first_there, length_signs, is_some_value, is_bad_length};
ghost use Rattle.http_wire.specs.Found.{IsFound, AreFound};

use crate::fields::{Fields, Found};
use crate::message::WireFault;

/// The most bytes that a body has.
const BODY_LIMIT: u64 = 4_194_304;

/// The most digits of a Content-Length.
const DIGIT_LIMIT: usize = 10;

fn are_digits(text: &[u8]) -> bool
    ensures { result ≡ list_all is_ascii_digit text.now }
{
    text.iter().all(|digit| digit.is_ascii_digit())
}

/// Whether a text is 1 to 10 digits.
#[tactic(auto, using(crate::proofs::LengthLaws::each_digit))]
fn is_length(text: &[u8]) -> bool
    ensures { result ≡ is_length text.now }
{
    !text.is_empty() && text.len() <= DIGIT_LIMIT && are_digits(text)
}

fn number(digits: &[u8]) -> u64
    requires { IsTrue (is_length digits.now) }
    ensures { result ≡ digits_value 10 digits.now }
{
    let mut number: u64 = 0;
    for digit in digits {
        number = number * 10 + u64::from(*digit - b'0');
    }
    number
}

/// Whether one value stands alone and is no length.
fn is_bad(lengths: Found) -> bool
    ensures { (values : List (List ℕ)) → IsFound lengths.entry values
        → result ≡ is_bad_length values }
{
    matches!(lengths, Found::Once(text) if !is_length(text))
}

fn is_there(found: Found) -> bool
    ensures { (values : List (List ℕ)) → IsFound found.entry values
        → result ≡ is_some_value values }
{
    !matches!(found, Found::Absent)
}

fn is_again(found: Found) -> bool
    ensures { (values : List (List ℕ)) → IsFound found.entry values
        → result ≡ nat_lt 1 (length values) }
{
    matches!(found, Found::Again)
}

/// The length that is given, where no more than one is and it is one.
fn said_length(lengths: Found) -> u64
    ensures { (values : List (List ℕ)) → IsFound lengths.entry values → is_bad_length values ≡ false
        → nat_lt 1 (length values) ≡ false → result ≡ length_of values }
{
    match lengths {
        Found::Once(text) => number_in(text),
        _ => 0,
    }
}

/// The number of a text that is a length, and else 0.
fn number_in(text: &[u8]) -> u64
    ensures { is_length text.now ≡ true → result ≡ digits_value 10 text.now }
{
    if is_length(text) { number(text) } else { 0 }
}

/// The length of body that the fields of a head of so many bytes announce, or their first fault.
pub fn announced_length(fields: Fields, is_post: bool, end: usize) -> Result<usize, WireFault>
    ensures { (list : List (List ℕ × List ℕ)) → AreFound fields.entry list → MatchResult result
        (λ len. (first_there (length_signs is_post end (values_of (codes "content-length") list)
        (values_of (codes "transfer-encoding") list)) ≡ None)
        × (len ≡ length_of (values_of (codes "content-length") list)))
        (λ fault. first_there (length_signs is_post end (values_of (codes "content-length") list)
        (values_of (codes "transfer-encoding") list)) ≡ Some fault) }
{
    let lengths = fields.content_length;
    if is_bad(lengths) {
        return Err(WireFault::BadHead { end });
    }
    if is_there(fields.transfer_encoding) {
        return Err(WireFault::TransferCoded);
    }
    if is_again(lengths) {
        return Err(WireFault::TwoLengths);
    }
    if is_post && !is_there(lengths) {
        return Err(WireFault::NoLength);
    }
    let said = said_length(lengths);
    if said > BODY_LIMIT {
        return Err(WireFault::BodyTooLong { said });
    }
    Ok(said as usize)
}
