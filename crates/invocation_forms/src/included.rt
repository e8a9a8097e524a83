//! Requests that an invocation include others.
ghost use Rattle.std.specs.Prelude.{◌≡◌, None, IfOk, IfErr, OnOk};
ghost use Rattle.serde_json.specs.View.{view};
ghost use Rattle.json_fields.specs.Faults.{Says};
ghost use Rattle.json_fields.specs.Fields.{optional, set_at};
ghost use Rattle.json_fields.specs.Kinds.{a_list, never_empty, HoldsList};
ghost use Rattle.invocation_forms.specs.Names.{add_invocations};
ghost use Rattle.invocation_forms.specs.Named.{an_invocation_name, IsNameOf};
ghost use Rattle.invocation_forms.specs.Included.{an_include_request, IsInclude, include_data};

use crate::name_values::put_names;
use crate::named::put_name;
use crate::names::{add_invocations, including_invocation, remove_invocations};
use field_kinds::{InvocationName, ids_from};
use json_fields::{Form, ReadFault, UnbuiltList, object, optional, optional_list, required};
use lists::Listed;
use names_realms::InvocationId;
use serde_json::{Map, Value};
use std::alloc::{AllocError, Global};

/// A request that the invocation with this id include others.
#[derive(Debug, Drop)]
pub struct IncludingInvocation {
    pub including: InvocationId,
    pub add: Listed<InvocationId>,
}

/// Reads the ids of the invocations to add.
fn read_added(alloc: Global, value: &Value) -> Result<Listed<InvocationId>, ReadFault>
    ensures ok { IfOk result (λ add. (optional add_invocations
        (a_list an_invocation_name) (view value.now) ≡ None)
        × HoldsList IsNameOf (set_at add_invocations (view value.now)) add) }
    ensures err { IfErr result (λ e. Says e (optional add_invocations
        (a_list an_invocation_name) (view value.now))) }
{
    match optional_list::<InvocationName>(alloc, value, add_invocations()) {
        Ok(names) => Ok(ids_from(alloc, names)?),
        Err(fault) => Err(fault),
    }
}

impl Form for IncludingInvocation {
    ghost fault = { an_include_request };

    ghost means = { λ d q. IsInclude d q.including q.add };

    ghost empty = { never_empty };

    fn is_empty(_value: &Value) -> bool {
        false
    }

    #[tactic(auto, unfolding(crate::proofs::Opened::request_fields))]
    fn read(alloc: Global, value: &Value) -> Result<IncludingInvocation, ReadFault> {
        object(alloc, value)?;
        let including: InvocationName = required(alloc, value, including_invocation())?;
        let add = read_added(alloc, value)?;
        optional::<UnbuiltList>(alloc, value, remove_invocations())?;
        Ok(IncludingInvocation {
            including: including.into_id(),
            add,
        })
    }
}

impl IncludingInvocation {
    /// What is written of the request.
    pub fn write(&self, alloc: Global) -> Result<Value, AllocError>
        ensures value { IfOk result (λ v. view v
            ≡ include_data self.now.including self.now.add) }
        ensures again { OnOk result (
            (an_include_request (include_data self.now.including self.now.add) ≡ None)
            × IsInclude (include_data self.now.including self.now.add)
            self.now.including self.now.add) }
    {
        let mut map = Map::new(alloc);
        put_names(alloc, &mut map, add_invocations(), self.add.as_slice())?;
        put_name(alloc, &mut map, including_invocation(), &self.including)?;
        Ok(Value::Object(map))
    }
}
