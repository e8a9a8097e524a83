//! What is wrong with a field, and where the field stands.
ghost use Rattle.std.specs.Prelude.{◌≡◌, ◌∷◌, ◌++◌, Option, Some, IfOk, OnOk, string_bytes};
ghost use Rattle.json_fields.specs.Faults.{here, moved, path_text, first_text, step_text, steps_text, Says};
ghost use Rattle.json_fields.specs.declared.faults.FieldFault.{FieldFault};
ghost use Rattle.json_fields.specs.declared.faults.ReadFault.{ReadFault};
ghost use Rattle.json_fields.specs.declared.names.Step.{Step};

use crate::names::{Name, Step};
use crate::whys::Why;
use names_realms::Listed;
use std::alloc::{AllocError, Global};

/// What is wrong with a field.
#[derive(Clone, Copy, Debug, PartialEq, Eq)]
pub enum FaultKind {
    /// Its value is of another JSON type.
    WrongKind,
    /// It must be set, and isn't.
    Missing,
    /// Its value is refused.
    BadValue(Why),
}

/// What is wrong with a value, and the steps from the value to where it is wrong, the outermost
/// first.
#[derive(Debug, Drop)]
pub struct FieldFault {
    pub kind: FaultKind,
    pub path: Listed<Step>,
}

/// Why a value isn't read.
#[derive(Debug, Drop)]
pub enum ReadFault {
    /// A field is at fault.
    Field(FieldFault),
    /// There was no memory. Of the value nothing is said.
    Memory,
}

impl From<AllocError> for ReadFault {
    ghost use Rattle.json_fields.specs.declared.faults.ReadFault.TheVariants.{Memory};

    ghost from_gives = { λ _ e. e ≡ Memory };

    fn from(_e: AllocError) -> ReadFault {
        ReadFault::Memory
    }
}

impl ReadFault {
    /// A fault of the value itself.
    pub fn here(alloc: Global, kind: FaultKind) -> ReadFault
        ensures told { result ≡ ReadFault.Field (here kind) }
        ensures says { Says result (Some (here kind)) }
    {
        let path = Listed::new(Vec::new(alloc));
        ReadFault::Field(FieldFault { kind, path })
    }

    /// The fault of a part, as one of the whole.
    pub fn under(self, step: Step) -> ReadFault
        ensures { (o : Option FieldFault) → Says self o → Says result (moved step o) }
    {
        match self {
            ReadFault::Memory => ReadFault::Memory,
            ReadFault::Field(FieldFault { kind, path }) => ReadFault::longer(kind, path, step),
        }
    }

    fn longer(kind: FaultKind, path: Listed<Step>, step: Step) -> ReadFault
        ensures { Says result (Some (record { kind = kind; path = step ∷ path })) }
    {
        let mut steps = path.into_vec();
        match steps.insert(0, step) {
            Ok(()) => ReadFault::Field(FieldFault {
                kind,
                path: Listed::new(steps),
            }),
            Err(_) => ReadFault::Memory,
        }
    }
}

/// Appends one step: a name behind a point, or a place in brackets.
fn push_step(alloc: Global, text: &mut String, step: &Step) -> Result<(), AllocError>
    ensures { OnOk result (string_bytes text.new ≡ string_bytes text.old ++ step_text step.now) }
{
    let part = match step {
        Step::Member(name) => format!(in alloc; ".{}", name.camel())?,
        Step::Place(place) => format!(in alloc; "[{place}]")?,
    };
    text.push_str(part.as_str())
}

/// Appends steps in turn.
fn push_steps(alloc: Global, text: &mut String, steps: &[Step]) -> Result<(), AllocError>
    ensures { OnOk result (string_bytes text.new ≡ string_bytes text.old ++ steps_text steps.now) }
{
    let mut left = steps;
    while let Some((step, rest)) = left.split_first() {
        push_step(alloc, text, step)?;
        left = rest;
    }
    Ok(())
}

/// The first step: a name, or a place in brackets.
fn first_text(alloc: Global, step: &Step) -> Result<String, AllocError>
    ensures { IfOk result (λ text. string_bytes text ≡ first_text step.now) }
{
    match step {
        Step::Member(name) => String::from_str(alloc, name.camel()),
        Step::Place(place) => format!(in alloc; "[{place}]"),
    }
}

/// The text of a path, as `invocation.tags[0].key`, or `body` where it has no steps. `Err` where
/// there is no memory for it.
pub fn path_text(alloc: Global, path: &[Step]) -> Result<String, AllocError>
    ensures { IfOk result (λ text. string_bytes text ≡ path_text path.now) }
{
    let Some((first, rest)) = path.split_first() else {
        return String::from_str(alloc, "body");
    };
    let mut text = first_text(alloc, first)?;
    push_steps(alloc, &mut text, rest)?;
    Ok(text)
}
