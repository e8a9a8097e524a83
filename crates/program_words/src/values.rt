//! Values of options.
ghost use Rattle.std.specs.Prelude.{◌≡◌, ◌≢◌, ◌↔◌, ℕ, Option, Some, Err, IfOk, IfErr, IfSome, IfNone, IsTrue, decimal};
ghost use Rattle.std.specs.Prelude.{option_map};
ghost use Rattle.std.specs.Option.{ForSome};
ghost use Rattle.clap.specs.Words.{first_value, found_of};
ghost use Rattle.program_words.specs.Serves.{IsWithin};

use crate::command::WordFault;
use clap::ArgMatches;
use itoa::Buffer;
use lists::Bytes;
use std::alloc::{AllocError, Global};

/// The value of an option that has one.
pub(crate) fn named_text(
    alloc: Global,
    found: &ArgMatches<'_>,
    name: &str,
) -> Result<Bytes, WordFault>
    ensures ok { IfOk result (λ b. first_value (found_of found.now) name.now ≡ Some b) }
    ensures memory { result ≢ Err WordFault.Refused }
{
    match found.get_str(name) {
        Some(text) => copied(alloc, text),
        None => Err(WordFault::Memory),
    }
}

fn copied(alloc: Global, text: &str) -> Result<Bytes, WordFault>
    ensures ok { IfOk result (λ b. b ≡ text.now) }
    ensures memory { result ≢ Err WordFault.Refused }
{
    match Bytes::from_slice(alloc, text.as_bytes()) {
        Ok(bytes) => Ok(bytes),
        Err(AllocError) => Err(WordFault::Memory),
    }
}

/// Whether a text is how a number is written.
fn is_written(text: &str, number: u64) -> bool
    ensures { IsTrue result ↔ (text.now ≡ decimal number) }
{
    Buffer::new().format(number) == text
}

/// The number that a text is, from the least to the most.
fn number_of(text: &str, least: u64, most: u64) -> Option<u64>
    ensures some { IfSome result (λ n. (text.now ≡ decimal n) × IsWithin least most n) }
    ensures none { IfNone result ((n : ℕ) → IsWithin least most n → text.now ≢ decimal n) }
{
    let Ok(number) = text.parse::<u64>() else {
        return None;
    };
    if number < least || number > most || !is_written(text, number) {
        return None;
    }
    Some(number)
}

/// The number that an option has, from the least to the most, where it has a value.
pub(crate) fn named_number(
    found: &ArgMatches<'_>,
    name: &str,
    least: u64,
    most: u64,
) -> Result<Option<u64>, WordFault>
    ensures ok { IfOk result (λ r. (first_value (found_of found.now) name.now
        ≡ option_map decimal r) × ForSome r (IsWithin least most)) }
    ensures refused { IfErr result (λ _. (r : Option ℕ) → ForSome r (IsWithin least most)
        → first_value (found_of found.now) name.now ≢ option_map decimal r) }
{
    match found.get_str(name) {
        Some(text) => match number_of(text, least, most) {
            Some(number) => Ok(Some(number)),
            None => Err(WordFault::Refused),
        },
        None => Ok(None),
    }
}
