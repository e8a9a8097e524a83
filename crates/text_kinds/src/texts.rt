//! Texts with a limit.
ghost use Rattle.std.specs.Prelude.{◌≡◌, ℕ, Bool, [], None, Some, not, option_map, IfOk, IfErr, refl};
ghost use Rattle.std.specs.List.{position};
ghost use Rattle.std.specs.Str.{IsUtf8};
ghost use Rattle.json_fields.specs.Faults.{Says};
ghost use Rattle.json_fields.specs.Texts.{bad_value};
ghost use Rattle.text_kinds.specs.Texts.{limited_why, any_byte, printed, inked, most_of_html, most_of_message};
ghost use Rattle.text_kinds.specs.Texts.{most_of_content_type, least_of_request_id, most_of_request_id};

use json_fields::{Bytes, FaultKind, Form, ReadFault, Why, Written, is_empty_text};
use serde_json::Value;
use std::alloc::{AllocError, Global};
use std::marker::{Model, PhantomData};

/// What a text of a kind may have: at least and at most so many bytes, each of which is allowed.
pub trait TextRule: Drop {
    ghost least: { ℕ };

    ghost limit: { ℕ };

    ghost allowed: { ℕ → Bool };

    /// How many bytes a text has at least: one with fewer counts as empty.
    fn least() -> usize
        ensures { result ≡ least };

    /// How many bytes a text may have.
    fn most() -> usize
        ensures { result ≡ limit };

    /// Whether a text may have the byte.
    fn allows(byte: u8) -> bool
        ensures { result ≡ allowed byte };
}

/// A rule of texts that may be empty.
pub trait MayBeEmpty: TextRule {
    ghost from_nothing: { Self.least ≡ 0 };
}

/// Any text of at most 4,096 bytes: a summary, or an explanation.
#[derive(Debug, Drop)]
pub struct Html;

impl TextRule for Html {
    ghost least = { 0 };

    ghost limit = { most_of_html };

    ghost allowed = { any_byte };

    fn least() -> usize {
        0
    }

    fn most() -> usize {
        4096
    }

    fn allows(_byte: u8) -> bool {
        true
    }
}

impl MayBeEmpty for Html {
    ghost from_nothing = { refl };
}

/// Any text of at most 1,024 bytes: an error's message.
#[derive(Debug, Drop)]
pub struct Message;

impl TextRule for Message {
    ghost least = { 0 };

    ghost limit = { most_of_message };

    ghost allowed = { any_byte };

    fn least() -> usize {
        0
    }

    fn most() -> usize {
        1024
    }

    fn allows(_byte: u8) -> bool {
        true
    }
}

impl MayBeEmpty for Message {
    ghost from_nothing = { refl };
}

/// At most 128 bytes of 0x20 to 0x7E: the type of a content.
#[derive(Debug, Drop)]
pub struct ContentType;

impl TextRule for ContentType {
    ghost least = { 0 };

    ghost limit = { most_of_content_type };

    ghost allowed = { printed };

    fn least() -> usize {
        0
    }

    fn most() -> usize {
        128
    }

    fn allows(byte: u8) -> bool {
        byte >= 0x20 && byte <= 0x7E
    }
}

impl MayBeEmpty for ContentType {
    ghost from_nothing = { refl };
}

/// 1 to 36 bytes of 0x21 to 0x7E: the id of a request.
#[derive(Debug, Drop)]
pub struct RequestId;

impl TextRule for RequestId {
    ghost least = { least_of_request_id };

    ghost limit = { most_of_request_id };

    ghost allowed = { inked };

    fn least() -> usize {
        1
    }

    fn most() -> usize {
        36
    }

    fn allows(byte: u8) -> bool {
        byte >= 0x21 && byte <= 0x7E
    }
}

/// A text that a rule allows.
#[derive(Debug, Drop)]
pub struct LimitedText<R: TextRule> {
    text: String,
    rule: PhantomData<R>,
}

impl<R: TextRule> Model for LimitedText<R> {
    ghost use Rattle.std.specs.Prelude.{◌≡◌, ℕ, List, None, string_bytes};
    ghost use Rattle.text_kinds.specs.Texts.{limited_why};

    ghost Value = { List ℕ };

    ghost view = { λ t. string_bytes t.text };

    ghost invariant = { λ t. limited_why R.least R.limit R.allowed (string_bytes t.text) ≡ None };
}

/// The first place of a byte that isn't allowed.
fn first_refused<R: TextRule>(text: &[u8]) -> Option<usize>
    ensures { result ≡ position (λ b. not (R.allowed b)) text.now }
{
    text.iter().position(|byte| !R::allows(*byte))
}

/// Why a text is refused.
fn why_refused<R: TextRule>(text: &[u8]) -> Option<Why>
    ensures { result ≡ limited_why R.least R.limit R.allowed text.now }
{
    if text.len() < R::least() {
        return Some(Why::Empty);
    }
    if text.len() > R::most() {
        return Some(Why::TooLong(text.len()));
    }
    match first_refused::<R>(text) {
        Some(at) => Some(Why::BadByte(at)),
        None => None,
    }
}

impl<R: TextRule> LimitedText<R> {
    /// The text, where the rule allows it. `Empty` where it has too few bytes, `TooLong` where it
    /// has too many, else `BadByte` at the first that isn't allowed.
    pub fn parse(alloc: Global, text: &str) -> Result<LimitedText<R>, ReadFault>
        ensures ok { IfOk result (λ t. (t ≡ text.now)
            × (limited_why R.least R.limit R.allowed text.now ≡ None)) }
        ensures err { IfErr result (λ e.
            Says e (bad_value (limited_why R.least R.limit R.allowed text.now))) }
    {
        if let Some(why) = why_refused::<R>(text.as_bytes()) {
            return Err(ReadFault::here(alloc, FaultKind::BadValue(why)));
        }
        let text = String::from_str(alloc, text)?;
        Ok(LimitedText {
            text,
            rule: PhantomData,
        })
    }

    /// The text.
    pub fn as_str(&self) -> &str
        ensures text { result.now ≡ self.now }
        ensures allowed { limited_why R.least R.limit R.allowed self.now ≡ None }
    {
        self.text.as_str()
    }

    /// The bytes of the text, moved out.
    pub fn into_bytes(self) -> Bytes
        ensures bytes { result ≡ self }
        ensures utf8 { IsUtf8 self }
        ensures allowed { limited_why R.least R.limit R.allowed self ≡ None }
    {
        let _utf8 = self.text.as_str();
        Bytes::new(self.text.into_bytes())
    }
}

impl<R: MayBeEmpty> LimitedText<R> {
    /// The empty text.
    pub fn empty(alloc: Global) -> LimitedText<R>
        ensures { result ≡ [] }
    {
        LimitedText {
            text: String::new(alloc),
            rule: PhantomData,
        }
    }
}

impl<R: TextRule> Form for LimitedText<R> {
    ghost use Rattle.json_fields.specs.Kinds.{empty_text};
    ghost use Rattle.json_fields.specs.Texts.{IsText, IsSame};
    ghost use Rattle.text_kinds.specs.Texts.{a_string, limited_why};

    ghost fault = { a_string (limited_why R.least R.limit R.allowed) };

    ghost means = { IsText IsSame };

    ghost empty = { empty_text };

    fn is_empty(value: &Value) -> bool {
        is_empty_text(value)
    }

    fn read(alloc: Global, value: &Value) -> Result<LimitedText<R>, ReadFault> {
        match value {
            Value::String(text) => LimitedText::parse(alloc, text.as_str()),
            _ => Err(ReadFault::here(alloc, FaultKind::WrongKind)),
        }
    }
}

impl<R: TextRule> Written for LimitedText<R> {
    ghost use Rattle.serde_json.specs.Data.{string};
    ghost use Rattle.text_kinds.specs.Texts.{is_blank};

    ghost json = { λ x. string x };

    ghost blank = { is_blank };

    fn write(&self, alloc: Global) -> Result<Value, AllocError> {
        Value::try_from_str(alloc, self.as_str())
    }
}
