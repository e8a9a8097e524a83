//! Fronts of texts, of which no more is kept than what is told.
ghost use Rattle.std.specs.Prelude.{◌≡◌, ◌++◌, List, ℕ, IfOk, OnOk, codes};
ghost use Rattle.junit_parts.specs.Answers.{Tells};
ghost use Rattle.junit_parts.specs.Cases.{text_named};
ghost use Rattle.junit_parts.specs.Tags.{tag_text};
ghost use Rattle.junit_parts.specs.Values.{value_of};
ghost use Rattle.junit_reader.specs.Fronts.{front, front_of};

use junit_parts::{Stop, Tag, reference_at, value_named};
use std::alloc::{AllocError, Global};

/// How many bytes are kept of a text: one more than is told, which says whether a character goes
/// over the last place.
pub(crate) const KEPT: usize = 1025;

/// Appends to the front of a text.
pub(crate) fn push_front(kept: &mut Vec<u8>, more: &[u8]) -> Result<(), AllocError>
    ensures { OnOk result ((text : List ℕ)
        → kept.old.items ≡ front text → kept.new.items ≡ front (text ++ more.now)) }
{
    let room = KEPT.saturating_sub(kept.as_slice().len());
    kept.extend_from_slice(&more[..room.min(more.len())])?;
    Ok(())
}

/// The front of the text of a value.
fn value_front(alloc: Global, value: &[u8]) -> Result<Vec<u8>, Stop>
    ensures { Tells (λ v. v.items) result (front_of (value_of value.now)) }
{
    let mut kept = Vec::new(alloc);
    let mut rest = value;
    while let Some((first, behind)) = rest.split_first() {
        if *first != b'&' {
            push_front(&mut kept, &[*first])?;
            rest = behind;
            continue;
        }
        let (c, next) = match reference_at(rest.len(), behind) {
            Ok(read) => read,
            Err(flaw) => return Err(Stop::Flawed(flaw)),
        };
        let mut buffer = [0u8; 4];
        let encoded = c.encode_utf8(&mut buffer);
        push_front(&mut kept, encoded.as_bytes())?;
        rest = next;
    }
    Ok(kept)
}

/// The front of the attribute `message`, nothing where there is none.
pub(crate) fn message_front(alloc: Global, tag: &Tag<'_>) -> Result<Vec<u8>, AllocError>
    ensures { IfOk result (λ v. v.items ≡ front (text_named (codes "message") (tag_text tag.now))) }
{
    let Some(value) = value_named(tag.attributes.as_slice(), b"message") else {
        return Ok(Vec::new(alloc));
    };
    match value_front(alloc, value) {
        Ok(text) => Ok(text),
        Err(Stop::Flawed(_)) => Ok(Vec::new(alloc)),
        Err(Stop::Memory) => Err(AllocError),
    }
}
