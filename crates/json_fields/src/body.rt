//! What is read from the bytes of a body.
ghost use Rattle.std.specs.Prelude.{◌≡◌, ◌≢◌, None, Err, IfOk};
ghost use Rattle.serde_json.specs.View.{view};
ghost use Rattle.serde_json.specs.Data.{Data};
ghost use Rattle.json_fields.specs.Faults.{Says};
ghost use Rattle.json_fields.specs.Fields.{IsJson};

use crate::faults::ReadFault;
use crate::fields::Form;
use serde_json::Value;
use std::alloc::Global;

/// Why a body isn't read.
#[derive(Debug, Drop)]
pub enum BodyFault {
    /// It is no JSON (RFC 8259) that is read: not UTF-8, not one value, or deeper than 127 levels.
    NotJson,
    /// Its value isn't read.
    In(ReadFault),
}

/// The JSON value of a body. `In(Memory)` where there is no memory for it, and no other `In`.
pub fn read_json(alloc: Global, body: &[u8]) -> Result<Value, BodyFault>
    ensures ok { IfOk result (λ v. IsJson body.now (view v)) }
    ensures not_json { result ≡ Err BodyFault.NotJson → (d : Data) → ¬ IsJson body.now d }
    ensures others { (e : ReadFault) → result ≡ Err (BodyFault.In e) → e ≡ ReadFault.Memory }
{
    match Value::from_slice(alloc, body) {
        Ok(value) => Ok(value),
        Err(error) => {
            if error.is_memory() {
                Err(BodyFault::In(ReadFault::Memory))
            } else {
                Err(BodyFault::NotJson)
            }
        }
    }
}

/// What a body is, by the form: its value where it has no fault, else the first fault of its value,
/// or `NotJson` where it has none.
pub fn read_body<T: Form>(alloc: Global, body: &[u8]) -> Result<T, BodyFault>
    ensures ok { IfOk result (λ x. (d : Data) × IsJson body.now d × (T.fault d ≡ None)
        × T.means d x) }
    ensures not_json { result ≡ Err BodyFault.NotJson → (d : Data) → ¬ IsJson body.now d }
    ensures fault { (e : ReadFault) → e ≢ ReadFault.Memory → result ≡ Err (BodyFault.In e)
        → (d : Data) × IsJson body.now d × Says e (T.fault d) }
{
    let value = read_json(alloc, body)?;
    match T::read(alloc, &value) {
        Ok(x) => Ok(x),
        Err(fault) => Err(BodyFault::In(fault)),
    }
}
