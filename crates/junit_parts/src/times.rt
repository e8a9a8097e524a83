//! The attribute `time`.
ghost use Rattle.std.specs.Prelude.{◌≡◌, ◌≤◌, ◌*◌, ◌^◌, min, length, IfOk, IfSome, option_map};
ghost use Rattle.junit_parts.specs.Answers.{Gives};
ghost use Rattle.junit_parts.specs.Times.{duration_from, exponent_from, few_digits, fraction_from, microseconds};
ghost use Rattle.junit_parts.specs.Times.{signed, time_from, without_commas};

use crate::bytes::{Run, len_of};
use crate::references::capped_number;
use crate::unread::Unread;
use names_realms::Span;
use std::alloc::{AllocError, Global};

/// More microseconds than a span may have.
const TOO_LONG: u64 = 315_576_000_000_000_001;

/// The digits without the commas among them.
fn without_commas(alloc: Global, text: &[u8]) -> Result<Vec<u8>, AllocError>
    ensures { IfOk result (λ v. v.items ≡ without_commas text.now) }
{
    text.iter()
        .copied()
        .filter(|b| b.is_ascii_digit())
        .collect(alloc)
}

/// The digits behind a point, and what stands behind them.
fn fraction(text: &[u8]) -> (&[u8], &[u8])
    ensures { (result.0.now, result.1.now) ≡ fraction_from text.now }
{
    match text {
        [b'.', rest @ ..] => rest.split_at(len_of(Run::Digits, rest)),
        _ => (&text[..0], text),
    }
}

/// The number of one to three digits.
fn few_digits(digits: &[u8]) -> Option<usize>
    ensures value { result ≡ few_digits digits.now }
    ensures bound { IfSome result (λ n. n ≤ 999) }
{
    match digits {
        [a] if a.is_ascii_digit() => Some((*a - b'0') as usize),
        [a, b] if a.is_ascii_digit() && b.is_ascii_digit() => {
            Some(10 * (*a - b'0') as usize + (*b - b'0') as usize)
        }
        [a, b, c] if a.is_ascii_digit() && b.is_ascii_digit() && c.is_ascii_digit() => Some(
            100 * (*a - b'0') as usize + 10 * (*b - b'0') as usize + (*c - b'0') as usize,
        ),
        _ => None,
    }
}

/// How many places the point moves to the right, and how many to the left.
fn signed(sign: u8, digits: &[u8]) -> Option<(usize, usize)>
    ensures value { result ≡ signed sign digits.now }
    ensures bound { IfSome result (λ m. m.0 ≤ 999) }
{
    let places = few_digits(digits)?;
    match sign {
        b'+' => Some((places, 0)),
        b'-' => Some((0, places)),
        _ => None,
    }
}

/// Reads an exponent.
fn exponent(text: &[u8]) -> Option<(usize, usize)>
    ensures value { result ≡ exponent_from text.now }
    ensures bound { IfSome result (λ m. m.0 ≤ 999) }
{
    match text {
        [] => Some((0, 0)),
        [b'e', sign, digits @ ..] => signed(*sign, digits),
        [b'E', sign, digits @ ..] => signed(*sign, digits),
        _ => None,
    }
}

/// So many zeros more behind a number that is at most `TOO_LONG`.
fn with_zeros(number: u64, zeros: usize) -> u64
    requires { number ≤ 315_576_000_000_000_001 }
    ensures { result ≡ min 315_576_000_000_000_001 (number * 10 ^ zeros) }
{
    let mut number = number;
    for _ in 0..zeros {
        number = (number * 10).min(TOO_LONG);
    }
    number
}

/// Whole microseconds, or `TOO_LONG` where there are more.
fn microseconds(digits: &[u8], before: usize, moved: (usize, usize)) -> u64
    requires before { before ≤ length digits.now }
    requires moved { moved.0 ≤ 999 }
    ensures { result ≡ min 315_576_000_000_000_001 (microseconds digits.now before moved) }
{
    let places = (before + 6 + moved.0).saturating_sub(moved.1);
    let taken = places.min(digits.len());
    let number = capped_number(10, TOO_LONG, &digits[..taken]);
    with_zeros(number, places.saturating_sub(digits.len()))
}

/// The microseconds of a time, or `TOO_LONG` where there are more.
#[tactic(auto, unfolding(crate::specs::Times::duration_from))]
fn duration(alloc: Global, text: &[u8]) -> Result<u64, Unread>
    ensures { Gives (λ n. n) result
        (option_map (min 315_576_000_000_000_001) (duration_from text.now)) }
{
    let (whole, rest) = text.split_at(len_of(Run::DigitsAndCommas, text));
    let mut digits = without_commas(alloc, whole)?;
    let before = digits.len();
    if before == 0 {
        return Err(Unread::Broken);
    }
    let (fraction, rest) = fraction(rest);
    let Some(moved) = exponent(rest) else {
        return Err(Unread::Broken);
    };
    digits.extend_from_slice(fraction)?;
    Ok(microseconds(digits.as_slice(), before, moved))
}

/// What a time says.
#[tactic(auto, unfolding(crate::specs::Times::time_from))]
pub fn time(alloc: Global, text: &[u8]) -> Result<Option<Span>, Unread>
    ensures { Gives (λ s. s) result (time_from text.now) }
{
    match text {
        [] => Ok(None),
        [first, ..] => {
            if *first == b'-' {
                return Ok(None);
            }
            match Span::from_micros(duration(alloc, text)?) {
                Some(span) => Ok(Some(span)),
                None => Err(Unread::Broken),
            }
        }
    }
}
