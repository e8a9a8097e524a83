//! What names an invocation: an object with its name, which several requests are, as the one to end
//! it and the one to show it.
ghost use Rattle.std.specs.Prelude.{◌≡◌, ℕ, List, IfOk, OnOk, false, None};
ghost use Rattle.serde_json.specs.View.{view, members_view};
ghost use Rattle.json_fields.specs.Kinds.{empty_text, never_empty};
ghost use Rattle.json_fields.specs.Writing.{IsWritten, put_required};
ghost use Rattle.invocation_forms.specs.Named.{an_invocation_name, IsNameOf, a_named, IsNamed, name_data, named_data};

use crate::name_values::name_value;
use crate::names::name;
use field_kinds::InvocationName;
use json_fields::{Form, Name, ReadFault, object, put, required};
use names_realms::InvocationId;
use serde_json::{Map, Value};
use std::alloc::{AllocError, Global};
use std::marker::Model;

/// What names an invocation. Contracts see it as the id.
#[derive(Debug, Drop)]
pub struct Named {
    id: InvocationId,
}

impl Model for Named {
    ghost Value = { List ℕ };

    ghost view = { λ n. n.id };
}

impl Named {
    pub(crate) fn into_id(self) -> InvocationId
        ensures { result ≡ self }
    {
        self.id
    }
}

impl Form for Named {
    ghost fault = { a_named };

    ghost means = { IsNamed };

    ghost empty = { never_empty };

    fn is_empty(_value: &Value) -> bool {
        false
    }

    #[tactic(auto, unfolding(crate::specs::Named::a_named))]
    fn read(alloc: Global, value: &Value) -> Result<Named, ReadFault> {
        object(alloc, value)?;
        match required::<InvocationName>(alloc, value, name()) {
            Ok(named) => Ok(Named {
                id: named.into_id(),
            }),
            Err(fault) => Err(fault),
        }
    }
}

/// A request that says of an invocation nothing but its name.
#[derive(Debug, Drop)]
pub struct NamedInvocation {
    pub id: InvocationId,
}

impl Form for NamedInvocation {
    ghost fault = { a_named };

    ghost means = { λ d q. IsNamed d q.id };

    ghost empty = { never_empty };

    fn is_empty(_value: &Value) -> bool {
        false
    }

    fn read(alloc: Global, value: &Value) -> Result<NamedInvocation, ReadFault> {
        let id = Named::read(alloc, value)?.into_id();
        Ok(NamedInvocation { id })
    }
}

/// Puts an invocation's name under the name of a member.
pub(crate) fn put_name(
    alloc: Global,
    map: &mut Map<String, Value>,
    name: Name,
    id: &InvocationId,
) -> Result<(), AllocError>
    ensures members { OnOk result (members_view map.new.entries
        ≡ put_required name name_data id.now (members_view map.old.entries)) }
    ensures again { OnOk result (IsWritten an_invocation_name IsNameOf empty_text
        (λ _. false) id.now (name_data id.now)) }
{
    let value = name_value(alloc, id)?;
    put(alloc, map, &name, value)?;
    Ok(())
}

impl NamedInvocation {
    /// What is written of the request.
    pub fn write(&self, alloc: Global) -> Result<Value, AllocError>
        ensures value { IfOk result (λ v. view v ≡ named_data self.now.id) }
        ensures again { OnOk result ((a_named (named_data self.now.id) ≡ None)
            × IsNamed (named_data self.now.id) self.now.id) }
    {
        let mut map = Map::new(alloc);
        put_name(alloc, &mut map, name(), &self.id)?;
        Ok(Value::Object(map))
    }
}
