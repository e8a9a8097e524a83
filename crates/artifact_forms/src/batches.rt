//! Requests that add artifacts.
ghost use Rattle.std.specs.Prelude.{◌≡◌, IfOk};
ghost use Rattle.serde_json.specs.View.{view};
ghost use Rattle.result_forms.specs.Laws.{IsReadAgain};
ghost use Rattle.artifact_forms.specs.Methods.{artifacts_form};

use crate::elements::Leader;
use crate::names::{request_id, requests};
use crate::parents::leader_of;
use crate::written::batch_value;
use artifacts::NewArtifact;
use field_kinds::{LimitedText, RequestId, optional_filled, required_list_beside};
use json_fields::{Form, ReadFault, object};
use lists::Listed;
use serde_json::Value;
use std::alloc::{AllocError, Global};

/// A request that these artifacts be added to an invocation.
#[derive(Drop)]
pub struct BatchCreateArtifacts {
    /// The number of the request, where it has one.
    pub request_id: Option<LimitedText<RequestId>>,
    /// The artifacts, whose parents stand in one invocation.
    pub requests: Listed<NewArtifact>,
}

impl Form for BatchCreateArtifacts {
    ghost use Rattle.json_fields.specs.Kinds.{never_empty};
    ghost use Rattle.artifact_forms.specs.Batches.{a_batch, IsBatch};

    ghost fault = { a_batch };

    ghost means = { IsBatch };

    ghost empty = { never_empty };

    fn is_empty(_value: &Value) -> bool {
        false
    }

    #[tactic(auto, unfolding(crate::proofs::Opened::fields))]
    fn read(alloc: Global, value: &Value) -> Result<BatchCreateArtifacts, ReadFault> {
        object(alloc, value)?;
        let request_id = optional_filled(alloc, value, request_id())?;
        let leader = Leader {
            parent: leader_of(value),
        };
        match required_list_beside::<Leader<'_>, NewArtifact>(alloc, &leader, value, requests()) {
            Ok(requests) => Ok(BatchCreateArtifacts {
                request_id,
                requests,
            }),
            Err(fault) => Err(fault),
        }
    }
}

impl BatchCreateArtifacts {
    /// What is written of the request, which is read again where it is of its form. `Err` where
    /// there is no memory for it.
    pub fn write(&self, alloc: Global) -> Result<Value, AllocError>
        ensures value { IfOk result (λ v. view v ≡ artifacts_form.json self.now) }
        ensures again { artifacts_form.CanBeAsked self.now → IsReadAgain artifacts_form self.now }
    {
        batch_value(alloc, &self.request_id, self.requests.as_slice())
    }
}
