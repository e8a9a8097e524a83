//! Tags and their attributes.
ghost use Rattle.std.specs.Prelude.{◌≡◌, ◌≤◌, ◌<◌, length, map, IfOk};
ghost use Rattle.junit_parts.specs.Answers.{Gives};
ghost use Rattle.junit_parts.specs.Tags.{are_distinct, attribute_from, attribute_text, attributes_from, closed_by};
ghost use Rattle.junit_parts.specs.Tags.{has_attribute, is_quote, quoted_from, tag_from, tag_text};

use crate::bytes::{begins_name, behind_white, byte, len_before_either, name, white_len};
use crate::unread::Unread;
use std::alloc::{AllocError, Global};
use std::collections::BTreeSet;

/// An attribute as it is written.
#[derive(Clone, Copy, Debug)]
pub struct Attribute<'a> {
    pub name: &'a [u8],
    pub value: &'a [u8],
    /// How many bytes of the report there are from the value's first on.
    pub left: usize,
}

/// A tag of an element.
#[derive(Debug, Drop)]
pub struct Tag<'a> {
    pub name: &'a [u8],
    pub attributes: Vec<Attribute<'a>>,
}

/// Parts bytes at a place where the quote is to stand.
fn closed(bytes: &[u8], quote: u8, len: usize) -> Result<(&[u8], &[u8]), Unread>
    requires { len ≤ length bytes.now }
    ensures read { Gives (λ r. (r.0.now, r.1.now)) result (closed_by quote len bytes.now) }
    ensures within { IfOk result (λ r. length r.1.now ≤ length bytes.now) }
{
    let (value, rest) = bytes.split_at(len);
    let behind = byte(rest, quote)?;
    Ok((value, behind))
}

/// Whether a value begins with the byte.
fn is_quote(byte: u8) -> bool
    ensures { result ≡ is_quote byte }
{
    byte == b'"' || byte == b'\''
}

/// Reads a value in quotes.
#[tactic(auto, unfolding(crate::specs::Tags::quoted_from))]
fn quoted(bytes: &[u8]) -> Result<(&[u8], &[u8]), Unread>
    ensures read { Gives (λ r. (r.0.now, r.1.now)) result (quoted_from bytes.now) }
    ensures shorter { IfOk result (λ r. length r.1.now < length bytes.now) }
{
    match bytes.split_first() {
        Some((quote, rest)) => {
            if is_quote(*quote) {
                closed(rest, *quote, len_before_either(rest, *quote, b'<'))
            } else {
                Err(Unread::Broken)
            }
        }
        None => Err(Unread::Broken),
    }
}

/// Reads an attribute.
#[tactic(auto, unfolding(crate::specs::Tags::attribute_from))]
fn read_attribute(bytes: &[u8]) -> Result<(Attribute<'_>, &[u8]), Unread>
    ensures read { Gives (λ r. (attribute_text r.0, r.1.now)) result (attribute_from bytes.now) }
    ensures shorter { IfOk result (λ r. length r.1.now < length bytes.now) }
{
    let (name, rest) = name(bytes)?;
    let rest = byte(behind_white(rest), b'=')?;
    let rest = behind_white(rest);
    let (value, behind) = quoted(rest)?;
    let left = rest.len().saturating_sub(1);
    Ok((Attribute { name, value, left }, behind))
}

/// Whether an attribute is to come.
fn has_attribute(bytes: &[u8]) -> bool
    ensures { result ≡ has_attribute bytes.now }
{
    white_len(bytes) > 0 && begins_name(behind_white(bytes))
}

/// Reads the attributes of a tag.
fn attributes(alloc: Global, bytes: &[u8]) -> Result<(Vec<Attribute<'_>>, &[u8]), Unread>
    ensures read { Gives (λ r. (map attribute_text r.0.items, r.1.now)) result
        (attributes_from (length bytes.now) bytes.now) }
    ensures within { IfOk result (λ r. length r.1.now ≤ length bytes.now) }
{
    let mut attributes = Vec::new(alloc);
    let mut rest = bytes;
    while has_attribute(rest) {
        let (attribute, behind) = read_attribute(behind_white(rest))?;
        attributes.push(attribute)?;
        rest = behind;
    }
    Ok((attributes, rest))
}

/// Whether no name stands twice, in the time that a sorted set takes.
fn are_distinct(alloc: Global, attributes: &[Attribute<'_>]) -> Result<bool, AllocError>
    ensures { IfOk result (λ distinct. distinct
        ≡ are_distinct (map (λ a. a.name) (map attribute_text attributes.now))) }
{
    let mut behind: BTreeSet<&[u8]> = BTreeSet::new(alloc);
    let mut at = attributes.len();
    while at > 0 {
        at -= 1;
        let name = attributes[at].name;
        if !behind.insert(name)? {
            return Ok(false);
        }
    }
    Ok(true)
}

/// Reads a name and attributes.
#[tactic(auto, unfolding(crate::specs::Tags::tag_from))]
pub(crate) fn read_tag(alloc: Global, bytes: &[u8]) -> Result<(Tag<'_>, &[u8]), Unread>
    ensures read { Gives (λ r. (tag_text r.0, r.1.now)) result (tag_from bytes.now) }
    ensures within { IfOk result (λ r. length r.1.now ≤ length bytes.now) }
{
    let (name, rest) = name(bytes)?;
    let (attributes, rest) = attributes(alloc, rest)?;
    if are_distinct(alloc, attributes.as_slice())? {
        Ok((Tag { name, attributes }, rest))
    } else {
        Err(Unread::Broken)
    }
}
