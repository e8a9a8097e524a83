//! Update masks: which fields a request changes.
ghost use Rattle.std.specs.Prelude.{◌≡◌, ◌||◌, ◌∷◌, ◌<◌, [], true, false, length, codes, IfSome, MatchOption};
ghost use Rattle.std.specs.List.{list_all};
ghost use Rattle.std.specs.Str.{bytes_eq};
ghost use Rattle.invocation_forms.specs.Masks.{pieces, can_be_updated, IsMask};

use json_fields::{FaultKind, Form, ReadFault, Why, is_empty_text};
use name_parts::len_before;
use serde_json::Value;
use std::alloc::Global;

/// Which fields a mask names.
#[derive(Clone, Copy, Debug, PartialEq, Eq)]
pub struct UpdateMask {
    pub deadline: bool,
    pub tags: bool,
}

/// The first piece of a text, and what stands behind its comma, where it has one.
fn first_piece(text: &[u8]) -> (&[u8], Option<&[u8]>)
    ensures first { MatchOption result.1 (pieces text.now ≡ result.0.now ∷ [])
        (λ rest. pieces text.now ≡ result.0.now ∷ pieces rest.now) }
    ensures less { IfSome result.1 (λ rest. length rest.now < length text.now) }
{
    let end = len_before(text, b',');
    if end < text.len() {
        (&text[..end], Some(&text[end + 1..]))
    } else {
        (text, None)
    }
}

/// The mask that names this field too, or `None` where the field can't be updated.
fn with_name(mask: UpdateMask, name: &[u8]) -> Option<UpdateMask>
    ensures { MatchOption result (can_be_updated name.now ≡ false)
        (λ more. (can_be_updated name.now ≡ true)
        × (more.deadline ≡ (mask.deadline || bytes_eq name.now (codes "deadline")))
        × (more.tags ≡ (mask.tags || bytes_eq name.now (codes "tags")))) }
{
    if name == b"deadline".as_slice() {
        Some(UpdateMask {
            deadline: true,
            tags: mask.tags,
        })
    } else if name == b"tags".as_slice() {
        Some(UpdateMask {
            deadline: mask.deadline,
            tags: true,
        })
    } else {
        None
    }
}

/// The mask that a text is, or `None` where it names a field that can't be updated.
fn mask_of(text: &[u8]) -> Option<UpdateMask>
    ensures { MatchOption result (list_all can_be_updated (pieces text.now) ≡ false)
        (λ mask. (list_all can_be_updated (pieces text.now) ≡ true) × IsMask text.now mask) }
{
    let mut mask = UpdateMask {
        deadline: false,
        tags: false,
    };
    let mut left = text;
    'pieces: loop {
        let (name, rest) = first_piece(left);
        let Some(more) = with_name(mask, name) else {
            return None;
        };
        mask = more;
        let Some(behind) = rest else {
            return Some(mask);
        };
        left = behind;
    }
}

impl Form for UpdateMask {
    ghost use Rattle.json_fields.specs.Kinds.{empty_text};
    ghost use Rattle.json_fields.specs.Texts.{IsText};
    ghost use Rattle.invocation_forms.specs.Masks.{a_mask, IsMask};

    ghost fault = { a_mask };

    ghost means = { IsText IsMask };

    ghost empty = { empty_text };

    fn is_empty(value: &Value) -> bool {
        is_empty_text(value)
    }

    fn read(alloc: Global, value: &Value) -> Result<UpdateMask, ReadFault> {
        match value {
            Value::String(text) => match mask_of(text.as_bytes()) {
                Some(mask) => Ok(mask),
                None => Err(ReadFault::here(alloc, FaultKind::BadValue(Why::NotUpdatable))),
            },
            _ => Err(ReadFault::here(alloc, FaultKind::WrongKind)),
        }
    }
}
