//! Tokens, read and written for cursors of any kind.
ghost use Rattle.std.specs.Prelude.{◌≡◌, ◌≢◌, ◌<◌, ◌^◌, ◌∷◌, ◌++◌, ℕ, nat_eq, List, IfOk, IfErr, OnOk, MatchOption};
ghost use Rattle.std.specs.Prelude.{Some, None, drop, map, length, string_bytes};
ghost use Rattle.std.specs.List.{starts_with};
ghost use Rattle.base64.specs.Engines.{standard};
ghost use Rattle.base64.specs.GeneralPurpose.{encode_of, decoded_of, IsBytes};
ghost use Rattle.page_tokens.specs.declared.keys.KeyPart.{KeyPart};
ghost use Rattle.page_tokens.specs.Keys.{AreContents, key_bytes};
ghost use Rattle.page_tokens.specs.Tokens.{IsToken, bytes_fault, front_place, rest_place, token_bytes, token_fault};

use crate::faults::TokenFault;
use crate::keys::{KeyFault, KeyPart, contents_of};
use crate::query::Query;
use base64::DecodeAllocError;
use base64::engine::general_purpose::STANDARD;
use std::alloc::{AllocError, Global};

/// A place in the ordered answer to a query: the key of the last row that was given. Its kind has a
/// number and the parts of its key.
pub trait Cursor: Sized + Drop {
    ghost number: { ℕ };

    ghost form: { List KeyPart };

    ghost held: { Self → List (List ℕ) };

    /// The number of its kind.
    fn kind() -> u8
        ensures { result ≡ number };

    /// The parts of its key.
    fn parts() -> &'static [KeyPart]
        ensures { result.now ≡ form };

    /// The cursor whose parts hold these. `Err` where there is no memory for it.
    fn of_contents(alloc: Global, contents: &[&[u8]]) -> Result<Self, AllocError>
        requires { AreContents form (map (λ c. c.now) contents.now) }
        ensures { IfOk result (λ cursor. held cursor ≡ map (λ c. c.now) contents.now) };

    /// Appends its key. `Err` where there is no memory for it; some of it may then be appended.
    fn append_key(&self, key: &mut Vec<u8>) -> Result<(), AllocError>
        ensures holds { AreContents form (held self.now) }
        ensures ok { OnOk result
            (key.new.items ≡ key.old.items ++ key_bytes form (held self.now)) };
}

/// The bytes that a text encodes.
fn decoded(alloc: Global, text: &[u8]) -> Result<Vec<u8>, TokenFault>
    ensures ok { IfOk result (λ bytes. (decoded_of standard text.now ≡ Some bytes.items)
        × (text.now ≡ encode_of standard bytes.items) × IsBytes bytes.items) }
    ensures err { IfErr result (λ f. f ≢ TokenFault.Memory
        → (f ≡ TokenFault.NotBase64) × (decoded_of standard text.now ≡ None)) }
{
    match STANDARD.decode(alloc, text) {
        Ok(bytes) => Ok(bytes),
        Err(DecodeAllocError::OutOfMemory) => Err(TokenFault::Memory),
        Err(DecodeAllocError::DecodeError(_)) => Err(TokenFault::NotBase64),
    }
}

/// Where bytes break the front of each token.
fn front_place(bytes: &[u8]) -> Option<usize>
    ensures { result ≡ front_place bytes.now }
{
    let Some(first) = bytes.first() else {
        return Some(0);
    };
    if *first != 1 {
        return Some(0);
    }
    if bytes.len() < 33 {
        return Some(bytes.len());
    }
    None
}

/// Whether the hash of a query stands behind the first byte.
fn is_of_query(bytes: &[u8], hash: &[u8]) -> bool
    requires { 0 < length bytes.now }
    ensures { result ≡ starts_with nat_eq (drop 1 bytes.now) hash.now }
{
    bytes[1..].starts_with(hash)
}

/// What stands behind the kind, where bytes begin with it.
fn behind_kind(kind: u8, bytes: &[u8]) -> Option<&[u8]>
    ensures { MatchOption result
        ((parts : List KeyPart) → rest_place kind parts bytes.now ≡ Some 0)
        (λ key. bytes.now ≡ kind ∷ key.now) }
{
    let (first, key) = bytes.split_first()?;
    if *first == kind { Some(key) } else { None }
}

/// The key in the bytes of a token of this query and kind; else their fault, which isn't one of the
/// key.
fn key_of<'a>(bytes: &'a [u8], query: &Query, kind: u8) -> Result<&'a [u8], TokenFault>
    ensures ok { IfOk result (λ key. bytes.now ≡ token_bytes query.now kind key.now) }
    ensures err { IfErr result (λ f. (parts : List KeyPart)
        → bytes_fault query.now kind parts bytes.now ≡ Some f) }
    ensures len { length query.now ≡ 32 }
{
    let hash = query.as_slice();
    if let Some(at) = front_place(bytes) {
        return Err(TokenFault::BadForm { at });
    }
    if !is_of_query(bytes, hash) {
        return Err(TokenFault::OtherQuery);
    }
    match behind_kind(kind, &bytes[33..]) {
        Some(key) => Ok(key),
        None => Err(TokenFault::BadForm { at: 33 }),
    }
}

/// What the parts of a key hold in the bytes of a token.
fn held_in<'a>(
    alloc: Global,
    bytes: &'a [u8],
    query: &Query,
    kind: u8,
    parts: &[KeyPart],
) -> Result<Vec<&'a [u8]>, TokenFault>
    requires { length bytes.now < 2 ^ 63 }
    ensures ok { IfOk result (λ held. AreContents parts.now (map (λ c. c.now) held.items)
        × (bytes.now ≡ token_bytes query.now kind
        (key_bytes parts.now (map (λ c. c.now) held.items)))) }
    ensures fault { IfErr result (λ f. f ≢ TokenFault.Memory
        → bytes_fault query.now kind parts.now bytes.now ≡ Some f) }
    ensures len { length query.now ≡ 32 }
{
    let key = key_of(bytes, query, kind)?;
    match contents_of(alloc, parts, key) {
        Ok(held) => Ok(held),
        Err(KeyFault::At(at)) => Err(TokenFault::BadForm { at: 34 + at }),
        Err(KeyFault::Memory) => Err(TokenFault::Memory),
    }
}

/// Reads the token of a cursor of this query, all of the text. In this order: `NotBase64` where it
/// is not the standard base64 of any bytes; `BadForm` at the first byte where it isn't 1, and at
/// the end where they don't reach behind the query; `OtherQuery`; `BadForm` at the first byte that
/// breaks the kind or the key, at the second byte of a length that no such text has, and at the end
/// where a part ends too soon. `Memory` where there is none.
pub fn read_token<C: Cursor>(alloc: Global, text: &[u8], query: &Query) -> Result<C, TokenFault>
    ensures ok { IfOk result
        (λ cursor. IsToken query.now C.number C.form (C.held cursor) text.now) }
    ensures refused { IfErr result (λ f. f ≢ TokenFault.Memory → (held : List (List ℕ))
        → ¬ IsToken query.now C.number C.form held text.now) }
    ensures fault { IfErr result (λ f. f ≢ TokenFault.Memory
        → token_fault query.now C.number C.form text.now ≡ Some f) }
{
    let bytes = decoded(alloc, text)?;
    let held = held_in(alloc, bytes.as_slice(), query, C::kind(), C::parts())?;
    let cursor = C::of_contents(alloc, held.as_slice())?;
    Ok(cursor)
}

/// The bytes of the token of a cursor.
fn bytes_of<C: Cursor>(alloc: Global, cursor: &C, query: &Query) -> Result<Vec<u8>, AllocError>
    ensures { IfOk result (λ bytes. AreContents C.form (C.held cursor.now)
        × (bytes.items ≡ token_bytes query.now C.number (key_bytes C.form (C.held cursor.now)))) }
{
    let mut bytes = Vec::new(alloc);
    bytes.push(1)?;
    bytes.extend_from_slice(query.as_slice())?;
    bytes.push(C::kind())?;
    cursor.append_key(&mut bytes)?;
    Ok(bytes)
}

/// The one text of bytes.
fn encoded(alloc: Global, bytes: &[u8]) -> Result<String, AllocError>
    ensures text { IfOk result (λ text. string_bytes text ≡ encode_of standard bytes.now) }
    ensures bytes { IsBytes bytes.now }
{
    STANDARD.encode(alloc, bytes)
}

/// The token of a cursor of this query: the one text that is read as this cursor. `Err` where there
/// is no memory for it.
pub fn write_token<C: Cursor>(
    alloc: Global,
    cursor: &C,
    query: &Query,
) -> Result<String, AllocError>
    ensures { IfOk result
        (λ text. IsToken query.now C.number C.form (C.held cursor.now) (string_bytes text)) }
{
    let bytes = bytes_of(alloc, cursor, query)?;
    encoded(alloc, bytes.as_slice())
}
