//! The refusal that a fault of a request's form is.
ghost use Rattle.std.specs.Prelude.{◌≡◌, Some, IfOk};
ghost use Rattle.message_forms.specs.Refusals.{refusal_of, value_subject};
ghost use Rattle.json_fields.specs.Faults.{path_text};

use crate::reading::FormFault;
use call_forms::Refusal;
use json_fields::{Step, Why, path_text};
use lists::Bytes;
use std::alloc::{AllocError, Global};

/// The refusal of a fault of the form, by rules 1 and 3 to 6. `target` is what the caller asked
/// for, which rule 1 names. `Err` where there is no memory for its subject, and for the fault
/// `Memory`, which is no refusal.
pub fn refusal_of(alloc: Global, target: &[u8], fault: &FormFault) -> Result<Refusal, AllocError>
    ensures { IfOk result (λ r. refusal_of target.now fault.now ≡ Some r) }
{
    match fault {
        FormFault::NoMethod => Ok(refusal(1, Vec::from_slice(alloc, target)?)),
        FormFault::NotJson => Ok(refusal(3, Vec::new(alloc))),
        FormFault::WrongKind { field } => Ok(refusal(4, field_subject(alloc, field.as_slice())?)),
        FormFault::Missing { field } => Ok(refusal(5, field_subject(alloc, field.as_slice())?)),
        FormFault::BadValue { field, why } => {
            Ok(refusal(6, value_subject(alloc, field.as_slice(), *why)?))
        }
        FormFault::Memory => Err(AllocError),
    }
}

/// The refusal of the rule with this subject.
fn refusal(rule: u8, subject: Vec<u8>) -> Refusal
    ensures { result ≡ record { rule = rule; subject = subject.items } }
{
    Refusal {
        rule,
        subject: Bytes::new(subject),
    }
}

fn field_subject(alloc: Global, field: &[Step]) -> Result<Vec<u8>, AllocError>
    ensures { IfOk result (λ s. s.items ≡ path_text field.now) }
{
    Ok(path_text(alloc, field)?.into_bytes())
}

/// The field, a space, and why its value is refused.
fn value_subject(alloc: Global, field: &[Step], why: Why) -> Result<Vec<u8>, AllocError>
    ensures { IfOk result (λ s. s.items ≡ value_subject field.now why) }
{
    let mut text = path_text(alloc, field)?;
    text.push(' ')?;
    text.push_str(why.to_text(alloc)?.as_str())?;
    Ok(text.into_bytes())
}
