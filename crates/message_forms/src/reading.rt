//! Reading the body of a request.
ghost use Rattle.std.specs.Prelude.{◌≡◌, ◌≢◌, None, IfOk, IfErr};
ghost use Rattle.serde_json.specs.Data.{Data};
ghost use Rattle.serde_json.specs.View.{view};
ghost use Rattle.json_fields.specs.Fields.{IsJson};
ghost use Rattle.message_forms.specs.Methods.{request_fault, Means};
ghost use Rattle.message_forms.specs.Reading.{Asks, HasFault, IsFieldFault};
ghost use Rattle.message_forms.specs.declared.reading.FormFault.{FormFault};

use crate::requests::{Method, Request};
use json_fields::{BodyFault, FaultKind, FieldFault, ReadFault, Step, Why, read_json};
use lists::Listed;
use serde_json::Value;
use std::alloc::Global;

/// Why a request isn't read.
#[derive(Debug, Drop)]
pub enum FormFault {
    /// There is no such method.
    NoMethod,
    /// The body is no JSON (RFC 8259).
    NotJson,
    /// The value of the field is of another JSON type.
    WrongKind { field: Listed<Step> },
    /// The field must be set, and isn't.
    Missing { field: Listed<Step> },
    /// The value of the field is refused.
    BadValue { field: Listed<Step>, why: Why },
    /// There was no memory. Of the request nothing is said.
    Memory,
}

impl From<ReadFault> for FormFault {
    ghost use Rattle.std.specs.Prelude.{◌≡◌};
    ghost use Rattle.message_forms.specs.Reading.{told_of};

    ghost from_gives = { λ fault told. told ≡ told_of fault };

    fn from(fault: ReadFault) -> FormFault {
        match fault {
            ReadFault::Memory => FormFault::Memory,
            ReadFault::Field(FieldFault { kind, path }) => match kind {
                FaultKind::WrongKind => FormFault::WrongKind { field: path },
                FaultKind::Missing => FormFault::Missing { field: path },
                FaultKind::BadValue(why) => FormFault::BadValue { field: path, why },
            },
        }
    }
}

/// The JSON value of a body.
fn json_of(alloc: Global, body: &[u8]) -> Result<Value, FormFault>
    ensures ok { IfOk result (λ v. IsJson body.now (view v)) }
    ensures err { IfErr result
        (λ f. f ≢ FormFault.Memory → (f ≡ FormFault.NotJson) × ((d : Data) → ¬ IsJson body.now d)) }
{
    match read_json(alloc, body) {
        Ok(value) => Ok(value),
        Err(BodyFault::NotJson) => Err(FormFault::NotJson),
        Err(BodyFault::In(_)) => Err(FormFault::Memory),
    }
}

/// Reads a value by the fields of the method.
fn read_value(alloc: Global, method: Method, value: &Value) -> Result<Request, FormFault>
    ensures ok { IfOk result
        (λ q. (request_fault method (view value.now) ≡ None) × Means method (view value.now) q) }
    ensures err { IfErr result
        (λ f. f ≢ FormFault.Memory → IsFieldFault method (view value.now) f) }
{
    match method.read(alloc, value) {
        Ok(request) => Ok(request),
        Err(fault) => Err(FormFault::from(fault)),
    }
}

/// Reads a request: by this service and this method, from this body. The first fault where it has
/// one: of the method, then of the body as JSON, then of its fields in the method's order; and
/// `Memory`.
pub fn read_request(
    alloc: Global,
    service: &[u8],
    method: &[u8],
    body: &[u8],
) -> Result<Request, FormFault>
    ensures ok { IfOk result (Asks service.now method.now body.now) }
    ensures err { IfErr result
        (λ f. f ≢ FormFault.Memory → HasFault service.now method.now body.now f) }
{
    let Some(method) = Method::of(service, method) else {
        return Err(FormFault::NoMethod);
    };
    let value = match json_of(alloc, body) {
        Ok(value) => value,
        Err(fault) => return Err(fault),
    };
    match read_value(alloc, method, &value) {
        Ok(request) => Ok(request),
        Err(fault) => Err(fault),
    }
}
