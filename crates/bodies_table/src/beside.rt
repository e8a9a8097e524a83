//! The word for elements that are judged beside a name: those of a list `must`, which has to have
//! one, and that of a field `one`, each beside the name `a`.
use crate::faults::Fault;
use crate::telling::told_word;
use field_kinds::{FormBeside, optional_beside, required_list_beside, same_text};
use json_fields::{Name, ReadFault, object, read_json};
use serde_json::Value;
use std::alloc::Global;

/// What an element stands beside: the name of the whole.
#[derive(Debug, Drop)]
struct Outer {
    name: String,
}

/// An element, whose name is empty or that of the whole.
#[derive(Debug, Drop)]
struct Inner;

impl FormBeside<Outer> for Inner {
    ghost use Rattle.std.specs.Prelude.{⊤, ◌∷◌, [], codes, string_bytes};
    ghost use Rattle.json_fields.specs.Names.{word};
    ghost use Rattle.json_fields.specs.Fields.{fault_of, optional};
    ghost use Rattle.json_fields.specs.Kinds.{an_object};
    ghost use Rattle.field_kinds.specs.Beside.{a_same_text};

    ghost fault = { λ outer d. fault_of
        (an_object ∷ optional (word (codes "name")) (a_same_text (string_bytes outer.name)) ∷ []) d };

    ghost means = { λ _ _ _. ⊤ };

    fn read_beside(alloc: Global, context: &Outer, value: &Value) -> Result<Inner, ReadFault> {
        object(alloc, value)?;
        match same_text(alloc, context.name.as_str(), value, Name::word("name")) {
            Ok(()) => Ok(Inner),
            Err(fault) => Err(fault),
        }
    }
}

/// What such a word makes of a body, none for another word.
pub(crate) fn told(alloc: Global, word: &str, body: &[u8]) -> Result<Option<Vec<u8>>, Fault> {
    match word {
        "beside-a" => Ok(Some(told_beside(alloc, body)?)),
        _ => Ok(None),
    }
}

/// The word `read`, where the elements are.
fn told_beside(alloc: Global, body: &[u8]) -> Result<Vec<u8>, Fault> {
    let value = read_json(alloc, body)?;
    let outer = Outer {
        name: String::from_str(alloc, "a")?,
    };
    required_list_beside::<Outer, Inner>(alloc, &outer, &value, Name::word("must"))?;
    optional_beside::<Outer, Inner>(alloc, &outer, &value, Name::word("one"))?;
    Ok(told_word(alloc, "read")?)
}
