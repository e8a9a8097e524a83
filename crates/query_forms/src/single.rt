//! Requests to show one result.
ghost use Rattle.std.specs.Prelude.{◌≡◌, IfOk, OnOk};
ghost use Rattle.serde_json.specs.View.{view};
ghost use Rattle.result_forms.specs.Laws.{IsReadAgain};
ghost use Rattle.query_forms.specs.Single.{single_form};

use crate::names::name;
use json_fields::{Form, ReadFault, object, required, write_required};
use names_realms::ResultName;
use serde_json::{Map, Value};
use std::alloc::{AllocError, Global};

/// A request to show the result with this name.
#[derive(Debug, Drop)]
pub struct GetTestResult {
    pub name: ResultName,
}

impl Form for GetTestResult {
    ghost use Rattle.json_fields.specs.Kinds.{never_empty};
    ghost use Rattle.query_forms.specs.Single.{a_single, IsSingle};

    ghost fault = { a_single };

    ghost means = { IsSingle };

    ghost empty = { never_empty };

    fn is_empty(_value: &Value) -> bool {
        false
    }

    #[tactic(auto, unfolding(crate::proofs::Opened::request_fields))]
    fn read(alloc: Global, value: &Value) -> Result<GetTestResult, ReadFault> {
        object(alloc, value)?;
        match required::<ResultName>(alloc, value, name()) {
            Ok(name) => Ok(GetTestResult { name }),
            Err(fault) => Err(fault),
        }
    }
}

impl GetTestResult {
    /// What is written of the request, which is read again. `Err` where there is no memory for it.
    pub fn write(&self, alloc: Global) -> Result<Value, AllocError>
        ensures value { IfOk result (λ v. view v ≡ single_form.json self.now) }
        ensures again { single_form.CanBeAsked self.now → IsReadAgain single_form self.now }
    {
        let mut map = Map::new(alloc);
        write_required(alloc, &mut map, name(), &self.name)?;
        Ok(Value::Object(map))
    }
}
