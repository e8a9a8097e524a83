//! Contents in base64.
ghost use Rattle.std.specs.Prelude.{◌≡◌, ◌≢◌, ◌≤◌, ℕ, List, Some, None, length, IfOk, IfErr, MatchOption, ◌<◌};
ghost use Rattle.std.specs.Prelude.{string_bytes};
ghost use Rattle.base64.specs.Engines.{standard};
ghost use Rattle.base64.specs.GeneralPurpose.{encode_of, decoded_of, IsBytes};
ghost use Rattle.json_fields.specs.Faults.{Says};
ghost use Rattle.json_fields.specs.Kinds.{empty_text};
ghost use Rattle.json_fields.specs.Texts.{bad_value, IsText};
ghost use Rattle.json_fields.specs.Writing.{IsWritten};
ghost use Rattle.serde_json.specs.Data.{string};
ghost use Rattle.text_kinds.specs.Texts.{a_string, is_blank};
ghost use Rattle.text_kinds.specs.Contents.{contents_why, contents_why_of, Encodes};

use base64::DecodeAllocError;
use base64::engine::general_purpose::STANDARD;
use json_fields::{Bytes, FaultKind, Form, ReadFault, Why, Written, is_empty_text};
use serde_json::Value;
use std::alloc::{AllocError, Global};
use std::marker::Model;

/// How many bytes contents may have.
const MOST_BYTES: usize = 1_048_576;

/// At most 1,048,576 bytes, which are written in standard base64 with padding (RFC 4648, section
/// 4).
#[derive(Debug, Drop)]
pub struct Contents {
    bytes: Bytes,
}

impl Model for Contents {
    ghost use Rattle.std.specs.Prelude.{◌≤◌, ℕ, List, length};

    ghost Value = { List ℕ };

    ghost view = { λ c. c.bytes };

    ghost invariant = { λ c. length c.bytes ≤ 1048576 };
}

fn refused(alloc: Global, why: Why) -> ReadFault
    ensures { Says result (bad_value (Some why)) }
{
    ReadFault::here(alloc, FaultKind::BadValue(why))
}

/// Keeps bytes, of which there may be too many.
fn kept(alloc: Global, bytes: Vec<u8>) -> Result<Contents, ReadFault>
    ensures ok { IfOk result (λ c. (c ≡ bytes.items) × (length bytes.items ≤ 1048576)) }
    ensures err { IfErr result (λ e. Says e (bad_value (contents_why_of (Some bytes.items)))) }
{
    if bytes.len() > MOST_BYTES {
        return Err(refused(alloc, Why::TooLong(bytes.len())));
    }
    Ok(Contents {
        bytes: Bytes::new(bytes),
    })
}

impl Contents {
    /// The contents of a text. `NotBase64` where no bytes have this encoding, else `TooLong` with
    /// their number where they are too many.
    pub fn parse(alloc: Global, text: &[u8]) -> Result<Contents, ReadFault>
        ensures ok { IfOk result (λ c. (contents_why text.now ≡ None) × Encodes text.now c) }
        ensures err { IfErr result (λ e. Says e (bad_value (contents_why text.now))) }
        ensures spelling { contents_why text.now ≡ Some Why.NotBase64 → (b : List ℕ) → IsBytes b
            → text.now ≢ encode_of standard b }
    {
        match STANDARD.decode(alloc, text) {
            Ok(bytes) => kept(alloc, bytes),
            Err(DecodeAllocError::OutOfMemory) => Err(ReadFault::Memory),
            Err(DecodeAllocError::DecodeError(_)) => Err(refused(alloc, Why::NotBase64)),
        }
    }

    /// These bytes, or `None` where they are too many.
    pub fn new(bytes: Vec<u8>) -> Option<Contents>
        ensures { MatchOption result (1048576 < length bytes.items)
            (λ c. (c ≡ bytes.items) × (length bytes.items ≤ 1048576)) }
    {
        if bytes.len() > MOST_BYTES {
            return None;
        }
        Some(Contents {
            bytes: Bytes::new(bytes),
        })
    }

    /// The bytes, without taking memory.
    pub fn into_bytes(self) -> Bytes
        ensures bytes { result ≡ self }
        ensures few { length self ≤ 1048576 }
    {
        self.bytes
    }

    /// The bytes.
    pub fn as_slice(&self) -> &[u8]
        ensures bytes { result.now ≡ self.now }
        ensures few { length self.now ≤ 1048576 }
    {
        self.bytes.as_slice()
    }
}

impl Form for Contents {
    ghost use Rattle.json_fields.specs.Kinds.{empty_text};
    ghost use Rattle.json_fields.specs.Texts.{IsText};
    ghost use Rattle.text_kinds.specs.Texts.{a_string};
    ghost use Rattle.text_kinds.specs.Contents.{contents_why, contents_why_of, Encodes};

    ghost fault = { a_string contents_why };

    ghost means = { IsText Encodes };

    ghost empty = { empty_text };

    fn is_empty(value: &Value) -> bool {
        is_empty_text(value)
    }

    fn read(alloc: Global, value: &Value) -> Result<Contents, ReadFault> {
        match value {
            Value::String(text) => Contents::parse(alloc, text.as_bytes()),
            _ => Err(ReadFault::here(alloc, FaultKind::WrongKind)),
        }
    }
}

/// The encoding of bytes.
fn encoded(alloc: Global, bytes: &[u8]) -> Result<String, AllocError>
    ensures text { IfOk result (λ t. string_bytes t ≡ encode_of standard bytes.now) }
    ensures again { length bytes.now ≤ 1048576 → IsWritten (a_string contents_why) (IsText Encodes)
        empty_text is_blank bytes.now (string (encode_of standard bytes.now)) }
{
    STANDARD.encode(alloc, bytes)
}

impl Written for Contents {
    ghost use Rattle.serde_json.specs.Data.{string};
    ghost use Rattle.text_kinds.specs.Texts.{is_blank};

    ghost json = { λ c. string (encode_of standard c) };

    ghost blank = { is_blank };

    fn write(&self, alloc: Global) -> Result<Value, AllocError> {
        let text = encoded(alloc, self.as_slice())?;
        Ok(Value::String(text))
    }
}
