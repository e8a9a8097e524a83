//! Hashes of contents.
ghost use Rattle.std.specs.Prelude.{◌≡◌, ◌≤◌, ◌+◌, None, Some, not, drop, length, option_map, IfOk, IfErr, IfSome};
ghost use Rattle.std.specs.List.{position};
ghost use Rattle.json_fields.specs.Faults.{Says};
ghost use Rattle.json_fields.specs.Texts.{bad_value};
ghost use Rattle.text_kinds.specs.Hashes.{is_lower_hex, digit_place, end_place, wrong_place, hash_why};

use json_fields::{FaultKind, Form, ReadFault, Why, Written, bad_in_literal, is_empty_text};
use serde_json::Value;
use std::alloc::{AllocError, Global};
use std::marker::Model;

/// How many bytes a hash has: its front and its digits.
const WHOLE: usize = 71;

/// A SHA-256 as a text: `sha256:` and 64 lower-case hexadecimal digits.
#[derive(Debug, Drop)]
pub struct HashText {
    text: String,
}

impl Model for HashText {
    ghost use Rattle.std.specs.Prelude.{◌≡◌, ℕ, List, None, string_bytes};
    ghost use Rattle.text_kinds.specs.Hashes.{hash_why};

    ghost Value = { List ℕ };

    ghost view = { λ h. string_bytes h.text };

    ghost invariant = { λ h. hash_why (string_bytes h.text) ≡ None };
}

fn is_lower_hex(byte: u8) -> bool
    ensures { result ≡ is_lower_hex byte }
{
    byte.is_ascii_digit() || (byte > 96 && byte < 103)
}

fn first_no_digit(digits: &[u8]) -> Option<usize>
    ensures place { result ≡ position (λ b. not (is_lower_hex b)) digits.now }
    ensures within { IfSome result (λ n. n ≤ length digits.now) }
{
    digits.iter().position(|byte| !is_lower_hex(*byte))
}

/// The first place behind the seventh byte that is no digit.
fn digit_place(text: &[u8]) -> Option<usize>
    requires { 7 ≤ length text.now }
    ensures { result ≡ digit_place text.now }
{
    match first_no_digit(&text[7..]) {
        Some(at) => Some(at + 7),
        None => None,
    }
}

fn end_place(text: &[u8]) -> Option<usize>
    ensures { result ≡ end_place text.now }
{
    if text.len() < WHOLE {
        Some(text.len())
    } else {
        None
    }
}

/// The first wrong place of a text.
fn wrong_place(text: &[u8]) -> Option<usize>
    ensures { result ≡ wrong_place text.now }
{
    if let Some(at) = bad_in_literal(b"sha256:", &text[..text.len().min(7)]) {
        return Some(at);
    }
    if let Some(at) = digit_place(text) {
        return Some(at);
    }
    end_place(text)
}

fn why_refused(text: &[u8]) -> Option<Why>
    ensures { result ≡ hash_why text.now }
{
    if text.is_empty() {
        return Some(Why::Empty);
    }
    if text.len() > WHOLE {
        return Some(Why::TooLong(text.len()));
    }
    match wrong_place(text) {
        Some(at) => Some(Why::BadByte(at)),
        None => None,
    }
}

impl HashText {
    /// The hash that a text is: `Empty`, else `TooLong` where it has more than 71 bytes, else
    /// `BadByte` at the first wrong byte, or at the length where the text ends too soon.
    pub fn parse(alloc: Global, text: &str) -> Result<HashText, ReadFault>
        ensures ok { IfOk result (λ h. (h ≡ text.now) × (hash_why text.now ≡ None)) }
        ensures err { IfErr result (λ e. Says e (bad_value (hash_why text.now))) }
    {
        if let Some(why) = why_refused(text.as_bytes()) {
            return Err(ReadFault::here(alloc, FaultKind::BadValue(why)));
        }
        let text = String::from_str(alloc, text)?;
        Ok(HashText { text })
    }

    /// The text.
    pub fn as_str(&self) -> &str
        ensures text { result.now ≡ self.now }
        ensures form { hash_why self.now ≡ None }
    {
        self.text.as_str()
    }
}

impl Form for HashText {
    ghost use Rattle.json_fields.specs.Kinds.{empty_text};
    ghost use Rattle.json_fields.specs.Texts.{IsText, IsSame};
    ghost use Rattle.text_kinds.specs.Texts.{a_string};
    ghost use Rattle.text_kinds.specs.Hashes.{hash_why};

    ghost fault = { a_string hash_why };

    ghost means = { IsText IsSame };

    ghost empty = { empty_text };

    fn is_empty(value: &Value) -> bool {
        is_empty_text(value)
    }

    fn read(alloc: Global, value: &Value) -> Result<HashText, ReadFault> {
        match value {
            Value::String(text) => HashText::parse(alloc, text.as_str()),
            _ => Err(ReadFault::here(alloc, FaultKind::WrongKind)),
        }
    }
}

impl Written for HashText {
    ghost use Rattle.std.specs.Prelude.{false};
    ghost use Rattle.serde_json.specs.Data.{string};

    ghost json = { λ x. string x };

    ghost blank = { λ _. false };

    fn write(&self, alloc: Global) -> Result<Value, AllocError> {
        Value::try_from_str(alloc, self.as_str())
    }
}
