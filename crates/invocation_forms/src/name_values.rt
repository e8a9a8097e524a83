//! The names of invocations, as JSON.
ghost use Rattle.std.specs.Prelude.{◌≡◌, ◌++◌, ◌∷◌, [], IfOk, OnOk, false, map};
ghost use Rattle.serde_json.specs.Data.{array};
ghost use Rattle.serde_json.specs.View.{view, members_view, items_of};
ghost use Rattle.json_fields.specs.Kinds.{empty_text};
ghost use Rattle.json_fields.specs.Writing.{IsWritten, AllWritten, put_list};
ghost use Rattle.invocation_forms.specs.Named.{an_invocation_name, IsNameOf, name_data};

use json_fields::{Name, put};
use names_realms::InvocationId;
use serde_json::{Map, Value};
use std::alloc::{AllocError, Global};

/// The value that names an invocation.
pub(crate) fn name_value(alloc: Global, id: &InvocationId) -> Result<Value, AllocError>
    ensures value { IfOk result (λ v. view v ≡ name_data id.now) }
    ensures again { OnOk result (IsWritten an_invocation_name IsNameOf empty_text
        (λ _. false) id.now (name_data id.now)) }
{
    let id = id.as_str();
    let text = format!(in alloc; "invocations/{id}")?;
    Ok(Value::String(text))
}

/// Appends the value that names an invocation.
fn add_name(alloc: Global, list: &mut Vec<Value>, id: &InvocationId) -> Result<(), AllocError>
    ensures values { OnOk result (map view list.new.items
        ≡ map view list.old.items ++ name_data id.now ∷ []) }
    ensures again { OnOk result (IsWritten an_invocation_name IsNameOf empty_text
        (λ _. false) id.now (name_data id.now)) }
{
    let value = name_value(alloc, id)?;
    list.push(value)?;
    Ok(())
}

/// The list that names invocations.
fn names_value(alloc: Global, ids: &[InvocationId]) -> Result<Value, AllocError>
    ensures value { IfOk result (λ v. view v ≡ array (items_of (map name_data ids.now))) }
    ensures again { OnOk result (AllWritten an_invocation_name IsNameOf empty_text
        (λ _. false) name_data ids.now) }
{
    let mut list = Vec::with_capacity(alloc, ids.len())?;
    for id in ids {
        add_name(alloc, &mut list, id)?;
    }
    Ok(Value::Array(list))
}

/// Puts the names of invocations, where there are any.
pub(crate) fn put_names(
    alloc: Global,
    members: &mut Map<String, Value>,
    name: Name,
    ids: &[InvocationId],
) -> Result<(), AllocError>
    ensures members { OnOk result (members_view members.new.entries
        ≡ put_list name name_data ids.now (members_view members.old.entries)) }
    ensures again { OnOk result (AllWritten an_invocation_name IsNameOf empty_text
        (λ _. false) name_data ids.now) }
{
    if ids.is_empty() {
        return Ok(());
    }
    let value = names_value(alloc, ids)?;
    put(alloc, members, &name, value)?;
    Ok(())
}
