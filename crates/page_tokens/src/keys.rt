//! Keys: parts one behind the other, read and written over the list of their forms.
ghost use Rattle.std.specs.Prelude.{◌≡◌, ◌++◌, ◌≤◌, ℕ, false, IfOk, IfErr, OnOk, Some, None, Err, length, map, take};
ghost use Rattle.name_parts.specs.Parts.{IsPart, most_bytes};
ghost use Rattle.page_tokens.specs.Keys.{AreContents, BreaksAt, IsContent, content_place, end_place, is_bad_len};
ghost use Rattle.page_tokens.specs.Keys.{key_bytes, part_bytes, part_place, text_place};

use name_parts::{Alphabet, PartForm, first_bad};
use std::alloc::{AllocError, AllocFailed, Global};

/// The form of a part of a key.
#[derive(Clone, Copy)]
pub enum KeyPart {
    /// So many bytes of any kind. Of a number the lowest stands first.
    Plain(usize),
    /// A text, in front of which its length stands.
    Text(PartForm),
}

/// Why a key isn't read.
#[derive(Clone, Copy)]
pub(crate) enum KeyFault {
    /// It breaks at this place, from its start.
    At(usize),
    /// There was no memory.
    Memory,
}

impl From<AllocError> for KeyFault {
    ghost use Rattle.std.specs.Prelude.{◌≡◌};
    ghost use Rattle.page_tokens.specs.declared.keys.KeyFault.TheVariants.{Memory};

    ghost from_gives = { λ _ e. e ≡ Memory };

    fn from(_e: AllocError) -> KeyFault {
        KeyFault::Memory
    }
}

impl<T: Drop> From<AllocFailed<T>> for KeyFault {
    ghost use Rattle.std.specs.Prelude.{◌≡◌};
    ghost use Rattle.page_tokens.specs.declared.keys.KeyFault.TheVariants.{Memory};

    ghost from_gives = { λ _ e. e ≡ Memory };

    fn from(_e: AllocFailed<T>) -> KeyFault {
        KeyFault::Memory
    }
}

/// How many bytes a text of a form may have.
fn most_bytes(form: PartForm) -> usize
    ensures { result ≡ most_bytes form }
{
    match form {
        PartForm::Letters(Alphabet::Invocation) => 100,
        PartForm::Letters(Alphabet::Project) => 100,
        PartForm::Letters(Alphabet::Subrealm) => 400,
        PartForm::Letters(Alphabet::Outcome) => 32,
        PartForm::Letters(Alphabet::Artifact) => 256,
        PartForm::TestId => 512,
        PartForm::PairKey => 64,
    }
}

/// Whether no text of a form has so many bytes.
fn is_bad_len(form: PartForm, len: usize) -> bool
    ensures { result ≡ is_bad_len form len }
{
    len == 0 || len > most_bytes(form)
}

/// What a part holds in front of bytes, and what stands behind it.
#[derive(Clone, Copy)]
struct Front<'a> {
    content: &'a [u8],
    rest: &'a [u8],
}

/// So many bytes in front of others; their end where they are fewer.
fn plain_of(len: usize, bytes: &[u8]) -> Result<Front<'_>, usize>
    ensures ok { IfOk result (λ front. (length front.content.now ≡ len)
        × (front.content.now ≡ take len bytes.now)
        × (bytes.now ≡ front.content.now ++ front.rest.now)) }
    ensures err { IfErr result (λ at. end_place len bytes.now ≡ Some at) }
    ensures none { IfOk result (λ _. end_place len bytes.now ≡ None) }
    ensures within { IfErr result (λ at. at ≤ length bytes.now) }
{
    if bytes.len() < len {
        return Err(bytes.len());
    }
    let (content, rest) = bytes.split_at(len);
    Ok(Front { content, rest })
}

/// A text of so many bytes; where they break it.
fn content_of(form: PartForm, len: usize, bytes: &[u8]) -> Result<Front<'_>, usize>
    requires { is_bad_len form len ≡ false }
    ensures ok { IfOk result (λ front. (length front.content.now ≡ len)
        × IsPart form front.content.now
        × (bytes.now ≡ front.content.now ++ front.rest.now)) }
    ensures err { IfErr result (λ at. content_place form len bytes.now ≡ Some at) }
    ensures within { IfErr result (λ at. at ≤ length bytes.now) }
{
    if let Some(at) = first_bad(form, &bytes[..len.min(bytes.len())]) {
        return Err(at);
    }
    plain_of(len, bytes)
}

/// A text behind its length; where bytes break the two.
fn text_of(form: PartForm, bytes: &[u8]) -> Result<Front<'_>, usize>
    ensures ok { IfOk result (λ front. IsPart form front.content.now
        × (bytes.now ≡ part_bytes (KeyPart.Text form) front.content.now ++ front.rest.now)) }
    ensures err { IfErr result (λ at. text_place form bytes.now ≡ Some at) }
    ensures within { IfErr result (λ at. at ≤ length bytes.now) }
{
    let Some((low, behind)) = bytes.split_first() else {
        return Err(bytes.len());
    };
    let Some((high, behind)) = behind.split_first() else {
        return Err(bytes.len());
    };
    let len = *low as usize + 256 * *high as usize;
    if is_bad_len(form, len) {
        return Err(1);
    }
    match content_of(form, len, behind) {
        Ok(front) => Ok(front),
        Err(at) => Err(2 + at),
    }
}

/// A part in front of bytes; where they break it.
fn part_of(part: KeyPart, bytes: &[u8]) -> Result<Front<'_>, usize>
    ensures ok { IfOk result (λ front. IsContent part front.content.now
        × (bytes.now ≡ part_bytes part front.content.now ++ front.rest.now)) }
    ensures err { IfErr result (λ at. part_place part bytes.now ≡ Some at) }
    ensures within { IfErr result (λ at. at ≤ length bytes.now) }
{
    match part {
        KeyPart::Plain(len) => plain_of(len, bytes),
        KeyPart::Text(form) => text_of(form, bytes),
    }
}

/// What the parts of a key hold. `At` where the bytes break it, and `Memory` where there is none
/// for the list.
pub(crate) fn contents_of<'a>(
    alloc: Global,
    parts: &[KeyPart],
    key: &'a [u8],
) -> Result<Vec<&'a [u8]>, KeyFault>
    ensures ok { IfOk result (λ held. AreContents parts.now (map (λ c. c.now) held.items)
        × (key.now ≡ key_bytes parts.now (map (λ c. c.now) held.items))) }
    ensures fault { (at : ℕ) → result ≡ Err (KeyFault.At at)
        → BreaksAt parts.now key.now at × (at ≤ length key.now) }
{
    let mut held = Vec::with_capacity(alloc, parts.len())?;
    let mut rest = key;
    for part in parts {
        match part_of(*part, rest) {
            Ok(front) => {
                held.push(front.content)?;
                rest = front.rest;
            }
            Err(at) => return Err(KeyFault::At(key.len() - rest.len() + at)),
        }
    }
    if rest.is_empty() {
        Ok(held)
    } else {
        Err(KeyFault::At(key.len() - rest.len()))
    }
}

/// Appends a part that holds this, or answers `AllocError` with some of it appended.
fn append_part(key: &mut Vec<u8>, part: KeyPart, content: &[u8]) -> Result<(), AllocError>
    requires { IsContent part content.now }
    ensures { OnOk result (key.new.items ≡ key.old.items ++ part_bytes part content.now) }
{
    if let KeyPart::Text(_) = part {
        key.extend_from_slice((content.len() as u16).to_le_bytes().as_slice())?;
    }
    key.extend_from_slice(content)
}

/// Appends a key whose parts hold these, or answers `AllocError` with some of it appended.
pub(crate) fn append_parts(
    key: &mut Vec<u8>,
    parts: &[KeyPart],
    held: &[&[u8]],
) -> Result<(), AllocError>
    requires { AreContents parts.now (map (λ c. c.now) held.now) }
    ensures { OnOk result (key.new.items
        ≡ key.old.items ++ key_bytes parts.now (map (λ c. c.now) held.now)) }
{
    for i in 0..parts.len() {
        append_part(key, parts[i], held[i])?;
    }
    Ok(())
}
