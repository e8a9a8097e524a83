//! Requests for a new invocation.
ghost use Rattle.std.specs.Prelude.{◌≡◌, IfOk, IfSome, OnOk, None, false};
ghost use Rattle.serde_json.specs.Data.{string};
ghost use Rattle.serde_json.specs.View.{view};
ghost use Rattle.names_realms.specs.Names.{invocation_id_fault};
ghost use Rattle.json_fields.specs.Kinds.{empty_text, never_empty};
ghost use Rattle.json_fields.specs.Texts.{a_text, IsText, IsSame};
ghost use Rattle.json_fields.specs.Writing.{IsWritten};
ghost use Rattle.field_kinds.specs.TextKinds.Texts.{a_request_id, is_blank};
ghost use Rattle.invocation_forms.specs.Create.{a_new_invocation, IsNewInvocation, new_invocation_data};
ghost use Rattle.invocation_forms.specs.Create.{a_create_request, IsCreate, create_members, create_data};

use crate::names::{deadline, invocation, invocation_id, realm, request_id, tags};
use field_kinds::{LimitedText, RequestId, Tag, optional_filled};
use json_fields::{
    Form, ReadFault, object, optional, optional_list, put, required, write_list, write_optional,
    write_required,
};
use lists::Listed;
use names_realms::{InvocationId, Moment, Realm};
use serde_json::{Map, Value};
use std::alloc::{AllocError, Global};

/// What a request says of the invocation that it makes.
#[derive(Debug, Drop)]
pub struct NewInvocation {
    pub realm: Realm,
    /// When it ends by itself, where the request says it.
    pub deadline: Option<Moment>,
    pub tags: Listed<Tag>,
}

impl Form for NewInvocation {
    ghost fault = { a_new_invocation };

    ghost means = { IsNewInvocation };

    ghost empty = { never_empty };

    fn is_empty(_value: &Value) -> bool {
        false
    }

    #[tactic(auto, unfolding(crate::proofs::Opened::request_fields))]
    fn read(alloc: Global, value: &Value) -> Result<NewInvocation, ReadFault> {
        object(alloc, value)?;
        let realm = required(alloc, value, realm())?;
        let deadline = optional(alloc, value, deadline())?;
        let tags = optional_list(alloc, value, tags())?;
        Ok(NewInvocation {
            realm,
            deadline,
            tags,
        })
    }
}

impl NewInvocation {
    /// What is written of the invocation.
    fn write(&self, alloc: Global) -> Result<Value, AllocError>
        ensures value { IfOk result (λ v. view v ≡ new_invocation_data self.now) }
        ensures again { OnOk result (IsWritten a_new_invocation IsNewInvocation never_empty
            (λ _. false) self.now (new_invocation_data self.now)) }
    {
        let mut map = Map::new(alloc);
        write_list(alloc, &mut map, tags(), self.tags.as_slice())?;
        write_optional(alloc, &mut map, deadline(), &self.deadline)?;
        write_required(alloc, &mut map, realm(), &self.realm)?;
        Ok(Value::Object(map))
    }
}

/// A request for a new invocation with this id.
#[derive(Debug, Drop)]
pub struct CreateInvocation {
    /// The number of the request, where it has one.
    pub request_id: Option<LimitedText<RequestId>>,
    pub id: InvocationId,
    pub invocation: NewInvocation,
}

impl Form for CreateInvocation {
    ghost fault = { a_create_request };

    ghost means = { IsCreate };

    ghost empty = { never_empty };

    fn is_empty(_value: &Value) -> bool {
        false
    }

    #[tactic(auto, unfolding(crate::proofs::Opened::request_fields))]
    fn read(alloc: Global, value: &Value) -> Result<CreateInvocation, ReadFault> {
        object(alloc, value)?;
        let request_id = optional_filled(alloc, value, request_id())?;
        let id = required(alloc, value, invocation_id())?;
        let invocation = required(alloc, value, invocation())?;
        Ok(CreateInvocation {
            request_id,
            id,
            invocation,
        })
    }
}

/// What is written of a request for a new invocation with this id.
fn create_value(
    alloc: Global,
    number: &Option<LimitedText<RequestId>>,
    id: &InvocationId,
    new: Value,
) -> Result<Value, AllocError>
    ensures value { IfOk result (λ v. view v ≡ create_members number.now id.now (view new)) }
    ensures number { OnOk result (IfSome number.now (λ text. IsWritten a_request_id (IsText IsSame)
        empty_text is_blank text (string text))) }
    ensures id { OnOk result (IsWritten (a_text invocation_id_fault) (IsText IsSame) empty_text
        (λ _. false) id.now (string id.now)) }
{
    let mut map = Map::new(alloc);
    put(alloc, &mut map, &invocation(), new)?;
    write_required(alloc, &mut map, invocation_id(), id)?;
    write_optional(alloc, &mut map, request_id(), number)?;
    Ok(Value::Object(map))
}

impl CreateInvocation {
    /// What is written of the request.
    pub fn write(&self, alloc: Global) -> Result<Value, AllocError>
        ensures value { IfOk result (λ v. view v ≡ create_data self.now) }
        ensures again { OnOk result ((a_create_request (create_data self.now) ≡ None)
            × IsCreate (create_data self.now) self.now) }
    {
        let new = self.invocation.write(alloc)?;
        create_value(alloc, &self.request_id, &self.id, new)
    }
}
