//! The texts of attributes.
ghost use Rattle.std.specs.Prelude.{◌≡◌, ◌≤◌, ◌++◌, length, IfOk, OnOk, encode_utf8, map, option_map};
ghost use Rattle.junit_parts.specs.Answers.{Tells};
ghost use Rattle.junit_parts.specs.References.{reference_from};
ghost use Rattle.junit_parts.specs.Tags.{attribute_text, tag_text};
ghost use Rattle.junit_parts.specs.Values.{flaw_in, named_text, reference_at, seen_reference, value_named, value_of};

use crate::faults::{Cause, Flaw, Stop, Unsupported};
use crate::references::{Meaning, reference};
use crate::tags::{Attribute, Tag};
use std::alloc::{AllocError, Global};

/// Reads a reference with so many bytes from its `&` on: its character, and what stands behind it.
pub fn reference_at(left: usize, bytes: &[u8]) -> Result<(char, &[u8]), Flaw>
    ensures read { seen_reference result ≡ reference_at left (reference_from bytes.now) }
    ensures within { IfOk result (λ r. length r.1.now ≤ length bytes.now) }
{
    match reference(bytes) {
        Ok((Meaning::Character(c), rest)) => Ok((c, rest)),
        Ok((Meaning::Foreign, _)) => Err(Flaw {
            left,
            cause: Cause::Unsupported(Unsupported::Entity),
        }),
        Err(_) => Err(Flaw {
            left,
            cause: Cause::NotWellFormed,
        }),
    }
}

/// Appends a character.
fn push_char(text: &mut Vec<u8>, c: char) -> Result<(), AllocError>
    ensures { OnOk result (text.new.items ≡ text.old.items ++ encode_utf8 c) }
{
    let mut buffer = [0u8; 4];
    let encoded = c.encode_utf8(&mut buffer);
    text.extend_from_slice(encoded.as_bytes())
}

/// The text of a value.
fn value_of(alloc: Global, value: &[u8]) -> Result<Vec<u8>, Stop>
    ensures { Tells (λ v. v.items) result (value_of value.now) }
{
    let mut text = Vec::new(alloc);
    let mut rest = value;
    while let Some((first, behind)) = rest.split_first() {
        if *first != b'&' {
            text.push(*first)?;
            rest = behind;
            continue;
        }
        let (c, next) = match reference_at(rest.len(), behind) {
            Ok(read) => read,
            Err(flaw) => return Err(Stop::Flawed(flaw)),
        };
        push_char(&mut text, c)?;
        rest = next;
    }
    Ok(text)
}

/// The first faulty reference of a value.
pub(crate) fn flaw_in(value: &[u8]) -> Option<Flaw>
    ensures { result ≡ flaw_in (value_of value.now) }
{
    let mut rest = value;
    while let Some((first, behind)) = rest.split_first() {
        if *first != b'&' {
            rest = behind;
            continue;
        }
        match reference_at(rest.len(), behind) {
            Ok((_, next)) => rest = next,
            Err(flaw) => return Some(flaw),
        }
    }
    None
}

/// The value of the attribute of this name.
pub fn value_named<'a>(attributes: &[Attribute<'a>], name: &[u8]) -> Option<&'a [u8]>
    ensures { option_map (λ v. v.now) result
        ≡ value_named name.now (map attribute_text attributes.now) }
{
    for attribute in attributes {
        if attribute.name == name {
            return Some(attribute.value);
        }
    }
    None
}

/// The text of the attribute of this name, nothing where there is none.
pub fn named_text(alloc: Global, tag: &Tag<'_>, name: &[u8]) -> Result<Vec<u8>, Stop>
    ensures { Tells (λ v. v.items) result (named_text name.now (tag_text tag.now)) }
{
    match value_named(tag.attributes.as_slice(), name) {
        Some(value) => value_of(alloc, value),
        None => Ok(Vec::new(alloc)),
    }
}
