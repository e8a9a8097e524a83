//! Requests to give an invocation another deadline or other tags, each where a mask names it.
ghost use Rattle.std.specs.Prelude.{◌≡◌, [], None, IfOk, IfErr, OnOk, unwrap_or};
ghost use Rattle.serde_json.specs.View.{view};
ghost use Rattle.moments_spans.specs.MomentGrammar.{IsMomentText};
ghost use Rattle.json_fields.specs.Faults.{Says};
ghost use Rattle.json_fields.specs.Fields.{required, optional, filled_at, set_at, Holds};
ghost use Rattle.json_fields.specs.Kinds.{a_list, empty_text, never_empty, HoldsList};
ghost use Rattle.field_kinds.specs.PairKinds.Tags.{a_tag, IsTag};
ghost use Rattle.json_fields.specs.Texts.{a_text, moment_fault, IsText};
ghost use Rattle.invocation_forms.specs.Masks.{only_where, mask_in, HoldsWhere, IsMask};
ghost use Rattle.invocation_forms.specs.Names.{invocation, update_mask, deadline, tags};
ghost use Rattle.invocation_forms.specs.Updates.{a_changed, IsChanged, HoldsChanged, some_changes, an_update_request};
ghost use Rattle.invocation_forms.specs.Updates.{IsUpdate, mask_written, changed_data, update_members, update_data};
ghost use Rattle.invocation_forms.specs.Updates.{ChangesSomething, IsReadAsChanged};

use crate::masks::UpdateMask;
use crate::named::{Named, put_name};
use crate::names::{deadline, invocation, name, tags, update_mask};
use field_kinds::Tag;
use json_fields::{
    FaultKind, Form, ReadFault, Step, filled_at, object, optional_list, put, required, write_list,
    write_optional,
};
use lists::Listed;
use names_realms::{InvocationId, Moment};
use serde_json::{Map, Value};
use std::alloc::{AllocError, Global};

/// Reads the deadline, where the mask names it.
fn read_deadline(alloc: Global, named: bool, value: &Value) -> Result<Option<Moment>, ReadFault>
    ensures ok { IfOk result (λ o. (only_where named
        (required deadline empty_text (a_text moment_fault) (view value.now)) ≡ None)
        × HoldsWhere named (Holds (IsText IsMomentText)
        (filled_at deadline empty_text (view value.now))) o) }
    ensures err { IfErr result (λ e. Says e (only_where named
        (required deadline empty_text (a_text moment_fault) (view value.now)))) }
{
    if !named {
        return Ok(None);
    }
    match required(alloc, value, deadline()) {
        Ok(said) => Ok(Some(said)),
        Err(fault) => Err(fault),
    }
}

/// Reads the tags, where the mask names them: none, where they are unset.
fn read_tags(alloc: Global, named: bool, value: &Value) -> Result<Option<Listed<Tag>>, ReadFault>
    ensures ok { IfOk result (λ o. (only_where named
        (optional tags (a_list a_tag) (view value.now)) ≡ None)
        × HoldsWhere named (HoldsList IsTag (set_at tags (view value.now))) o) }
    ensures err { IfErr result (λ e. Says e (only_where named
        (optional tags (a_list a_tag) (view value.now)))) }
{
    if !named {
        return Ok(None);
    }
    match optional_list(alloc, value, tags()) {
        Ok(said) => Ok(Some(said)),
        Err(fault) => Err(fault),
    }
}

/// What an update gives to its invocation.
#[derive(Debug, Drop)]
pub struct Changed {
    deadline: Option<Moment>,
    tags: Option<Listed<Tag>>,
}

/// Reads what an update gives, beside its mask.
#[tactic(auto, unfolding(crate::specs::Updates::a_changed))]
fn read_changed(alloc: Global, mask: UpdateMask, value: &Value) -> Result<Changed, ReadFault>
    ensures ok { IfOk result (λ c. (a_changed mask (view value.now) ≡ None)
        × IsChanged mask (view value.now) c.deadline c.tags) }
    ensures err { IfErr result (λ e. Says e (a_changed mask (view value.now))) }
{
    let deadline = read_deadline(alloc, mask.deadline, value)?;
    let tags = read_tags(alloc, mask.tags, value)?;
    Ok(Changed { deadline, tags })
}

/// Reads what a request says of its invocation, beside its mask.
#[tactic(auto, unfolding(json_fields::specs::Fields::required))]
fn read_beside(alloc: Global, mask: UpdateMask, value: &Value) -> Result<Changed, ReadFault>
    ensures ok { IfOk result (λ c.
        (required invocation never_empty (a_changed mask) (view value.now) ≡ None)
        × HoldsChanged mask (filled_at invocation never_empty (view value.now))
        c.deadline c.tags) }
    ensures err { IfErr result (λ e. Says e
        (required invocation never_empty (a_changed mask) (view value.now))) }
{
    match filled_at::<Named>(value, &invocation()) {
        None => Err(ReadFault::here(alloc, FaultKind::Missing).under(Step::Member(invocation()))),
        Some(found) => match read_changed(alloc, mask, found) {
            Ok(changed) => Ok(changed),
            Err(fault) => Err(fault.under(Step::Member(invocation()))),
        },
    }
}

/// The same, by the mask that the request has.
fn read_changes(alloc: Global, mask: UpdateMask, value: &Value) -> Result<Changed, ReadFault>
    requires { Holds (IsText IsMask) (filled_at update_mask empty_text (view value.now)) mask }
    ensures ok { IfOk result (λ c. (some_changes (view value.now) ≡ None)
        × HoldsChanged (mask_in (view value.now))
        (filled_at invocation never_empty (view value.now)) c.deadline c.tags) }
    ensures err { IfErr result (λ e. Says e (some_changes (view value.now))) }
{
    read_beside(alloc, mask, value)
}

/// A request to give the invocation with this id another deadline or other tags, each where the
/// request's mask names it.
#[derive(Debug, Drop)]
pub struct UpdateInvocation {
    pub id: InvocationId,
    pub deadline: Option<Moment>,
    pub tags: Option<Listed<Tag>>,
}

impl Form for UpdateInvocation {
    ghost fault = { an_update_request };

    ghost means = { IsUpdate };

    ghost empty = { never_empty };

    fn is_empty(_value: &Value) -> bool {
        false
    }

    #[tactic(auto, unfolding(crate::specs::Updates::an_update_request))]
    fn read(alloc: Global, value: &Value) -> Result<UpdateInvocation, ReadFault> {
        object(alloc, value)?;
        let named: Named = required(alloc, value, invocation())?;
        let mask: UpdateMask = required(alloc, value, update_mask())?;
        let Changed { deadline, tags } = read_changes(alloc, mask, value)?;
        Ok(UpdateInvocation {
            id: named.into_id(),
            deadline,
            tags,
        })
    }
}

fn listed(tags: &Option<Listed<Tag>>) -> &[Tag]
    ensures { result.now ≡ unwrap_or tags.now [] }
{
    match tags {
        Some(tags) => tags.as_slice(),
        None => &[],
    }
}

/// What is written of the invocation in an update.
fn changed_value(
    alloc: Global,
    id: &InvocationId,
    new_deadline: &Option<Moment>,
    new_tags: &Option<Listed<Tag>>,
) -> Result<Value, AllocError>
    ensures value { IfOk result (λ v. view v ≡ changed_data id.now new_deadline.now new_tags.now) }
    ensures again { OnOk result (IsReadAsChanged
        (changed_data id.now new_deadline.now new_tags.now)
        id.now new_deadline.now new_tags.now) }
{
    let mut map = Map::new(alloc);
    write_list(alloc, &mut map, tags(), listed(new_tags))?;
    put_name(alloc, &mut map, name(), id)?;
    write_optional(alloc, &mut map, deadline(), new_deadline)?;
    Ok(Value::Object(map))
}

/// The mask that names what an update gives.
fn mask_text(new_deadline: &Option<Moment>, new_tags: &Option<Listed<Tag>>) -> &'static str
    ensures { result.now ≡ mask_written new_deadline.now new_tags.now }
{
    match (new_deadline, new_tags) {
        (Some(_), Some(_)) => "deadline,tags",
        (Some(_), None) => "deadline",
        (None, Some(_)) => "tags",
        (None, None) => "",
    }
}

/// What is written of an update by this mask.
fn update_value(alloc: Global, mask: &str, changed: Value) -> Result<Value, AllocError>
    ensures { IfOk result (λ v. view v ≡ update_members mask.now (view changed)) }
{
    let mut map = Map::new(alloc);
    put(alloc, &mut map, &invocation(), changed)?;
    let text = Value::try_from_str(alloc, mask)?;
    put(alloc, &mut map, &update_mask(), text)?;
    Ok(Value::Object(map))
}

impl UpdateInvocation {
    /// What is written of the request.
    pub fn write(&self, alloc: Global) -> Result<Value, AllocError>
        ensures value { IfOk result (λ v. view v ≡ update_data self.now) }
        ensures again { OnOk result (ChangesSomething self.now.deadline self.now.tags
            → (an_update_request (update_data self.now) ≡ None)
            × IsUpdate (update_data self.now) self.now) }
    {
        let changed = changed_value(alloc, &self.id, &self.deadline, &self.tags)?;
        update_value(alloc, mask_text(&self.deadline, &self.tags), changed)
    }
}
