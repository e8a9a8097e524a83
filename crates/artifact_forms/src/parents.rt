//! Parents of the artifacts of one request, all of which stand in one invocation.
ghost use Rattle.std.specs.Prelude.{◌≡◌, None, IfOk, IfErr, bytes_eq, option_map};
ghost use Rattle.serde_json.specs.View.{view};
ghost use Rattle.json_fields.specs.Faults.{Says};
ghost use Rattle.json_fields.specs.Fields.{required, filled_at, set_at, Holds};
ghost use Rattle.json_fields.specs.Kinds.{empty_text};
ghost use Rattle.result_forms.specs.Fields.{text_in};
ghost use Rattle.artifact_forms.specs.Names.{parent};
ghost use Rattle.artifact_forms.specs.Parents.{IsParentOf, behind_front, invocation_part, a_same_invocation};
ghost use Rattle.artifact_forms.specs.Parents.{a_parent_beside, first_in, leader_of};

use crate::names::{parent, requests};
use json_fields::{FaultKind, ReadFault, Step, Why, filled_at, read_text, set_at};
use name_parts::len_before;
use names_realms::Parent;
use serde_json::Value;
use std::alloc::Global;

/// The text of a field, the empty one where it has none.
pub(crate) fn text_of(value: Option<&Value>) -> &str
    ensures { result.now ≡ text_in (option_map (λ v. view v.now) value.entry) }
{
    match value {
        Some(Value::String(text)) => text.as_str(),
        _ => "",
    }
}

/// The first element of a list.
fn first_in(value: &Value) -> Option<&Value>
    ensures { option_map (λ v. view v.now) result ≡ first_in (view value.now) }
{
    match value {
        Value::Array(list) => list.as_slice().first(),
        _ => None,
    }
}

/// The parent that the first request of a batch names, as it is written.
pub(crate) fn leader_of(batch: &Value) -> &str
    ensures { result.now ≡ leader_of (view batch.now) }
{
    match set_at(batch, &requests()) {
        Some(list) => match first_in(list) {
            Some(first) => text_of(set_at(first, &parent())),
            None => "",
        },
        None => "",
    }
}

/// What stands behind `invocations/`.
fn behind_front(text: &[u8]) -> &[u8]
    ensures { result.now ≡ behind_front text.now }
{
    if text.len() < 12 {
        return &[];
    }
    &text[12..]
}

/// The part of a parent's name that is an invocation's id.
fn invocation_part(text: &[u8]) -> &[u8]
    ensures { result.now ≡ invocation_part text.now }
{
    let rest = behind_front(text);
    &rest[..len_before(rest, b'/')]
}

/// Whether two parents' names name one invocation.
fn is_same_invocation(text: &[u8], leader: &[u8]) -> bool
    ensures { result ≡ bytes_eq (invocation_part text.now) (invocation_part leader.now) }
{
    invocation_part(text) == invocation_part(leader)
}

/// Judges the invocation of a parent's name.
fn judge_invocation(alloc: Global, leader: &str, value: &Value) -> Result<(), ReadFault>
    ensures ok { IfOk result (λ _. a_same_invocation leader.now (view value.now) ≡ None) }
    ensures err { IfErr result (λ e. Says e (a_same_invocation leader.now (view value.now))) }
{
    match value {
        Value::String(text) => if is_same_invocation(text.as_bytes(), leader.as_bytes()) {
            Ok(())
        } else {
            Err(ReadFault::here(alloc, FaultKind::BadValue(Why::Differs)))
        },
        _ => Ok(()),
    }
}

/// A parent that stands in the leader's invocation.
#[tactic(auto, unfolding(crate::specs::Parents::a_parent_beside))]
fn judge_parent(alloc: Global, leader: &str, value: &Value) -> Result<Parent, ReadFault>
    ensures ok { IfOk result (λ p. (a_parent_beside leader.now (view value.now) ≡ None)
        × IsParentOf (view value.now) p) }
    ensures err { IfErr result (λ e. Says e (a_parent_beside leader.now (view value.now))) }
{
    let parent: Parent = read_text(alloc, value)?;
    match judge_invocation(alloc, leader, value) {
        Ok(()) => Ok(parent),
        Err(fault) => Err(fault),
    }
}

/// The parent of an element, in the leader's invocation.
#[tactic(auto, unfolding(json_fields::specs::Fields::required))]
pub(crate) fn read_parent(alloc: Global, leader: &str, value: &Value) -> Result<Parent, ReadFault>
    ensures ok { IfOk result (λ p.
        (required parent empty_text (a_parent_beside leader.now) (view value.now) ≡ None)
        × Holds IsParentOf (filled_at parent empty_text (view value.now)) p) }
    ensures err { IfErr result (λ e.
        Says e (required parent empty_text (a_parent_beside leader.now) (view value.now))) }
{
    match filled_at::<Parent>(value, &parent()) {
        None => Err(ReadFault::here(alloc, FaultKind::Missing).under(Step::Member(parent()))),
        Some(found) => match judge_parent(alloc, leader, found) {
            Ok(x) => Ok(x),
            Err(fault) => Err(fault.under(Step::Member(parent()))),
        },
    }
}
