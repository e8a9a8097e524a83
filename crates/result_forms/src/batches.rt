//! Requests with a batch of rows.
ghost use Rattle.std.specs.Prelude.{◌≡◌, IfOk};
ghost use Rattle.serde_json.specs.View.{view};
ghost use Rattle.result_forms.specs.Laws.{IsReadAgain};
ghost use Rattle.result_forms.specs.Methods.{results_form, exonerations_form};

use crate::elements::{Outer, outer_of};
use crate::names::{invocation, request_id, requests};
use crate::written::batch_value;
use field_kinds::{InvocationName, LimitedText, RequestId, optional_filled, required_list_beside};
use json_fields::{Form, ReadFault, object, required};
use lists::Listed;
use names_realms::InvocationId;
use serde_json::Value;
use std::alloc::{AllocError, Global};
use test_results::{TestExoneration, TestResult};

/// A request that these results be added to an invocation.
#[derive(Drop)]
pub struct BatchCreateTestResults {
    pub invocation: InvocationId,
    /// The number of the request, where it has one.
    pub request_id: Option<LimitedText<RequestId>>,
    /// The results, which have no holder yet.
    pub requests: Listed<TestResult>,
}

impl Form for BatchCreateTestResults {
    ghost use Rattle.json_fields.specs.Kinds.{never_empty};
    ghost use Rattle.result_forms.specs.Batches.{a_batch, IsBatch};
    ghost use Rattle.result_forms.specs.Methods.{result_row, results_of};

    ghost fault = { a_batch result_row };

    ghost means = { λ d q. IsBatch result_row d (results_of q) };

    ghost empty = { never_empty };

    fn is_empty(_value: &Value) -> bool {
        false
    }

    #[tactic(auto, unfolding(crate::proofs::Opened::fields))]
    fn read(alloc: Global, value: &Value) -> Result<BatchCreateTestResults, ReadFault> {
        object(alloc, value)?;
        let named: InvocationName = required(alloc, value, invocation())?;
        let request_id = optional_filled(alloc, value, request_id())?;
        let outer = outer_of(value);
        match required_list_beside::<Outer<'_>, TestResult>(alloc, &outer, value, requests()) {
            Ok(requests) => Ok(BatchCreateTestResults {
                invocation: named.into_id(),
                request_id,
                requests,
            }),
            Err(fault) => Err(fault),
        }
    }
}

impl BatchCreateTestResults {
    /// What is written of the request, which is read again where it is of its form. `Err` where
    /// there is no memory for it.
    pub fn write(&self, alloc: Global) -> Result<Value, AllocError>
        ensures value { IfOk result (λ v. view v ≡ results_form.json self.now) }
        ensures again { results_form.CanBeAsked self.now → IsReadAgain results_form self.now }
    {
        batch_value(
            alloc,
            &self.invocation,
            &self.request_id,
            self.requests.as_slice(),
        )
    }
}

/// A request that these exonerations be added to an invocation.
#[derive(Drop)]
pub struct BatchCreateTestExonerations {
    pub invocation: InvocationId,
    /// The number of the request, where it has one.
    pub request_id: Option<LimitedText<RequestId>>,
    /// The exonerations, which have no holder and no place yet.
    pub requests: Listed<TestExoneration>,
}

impl Form for BatchCreateTestExonerations {
    ghost use Rattle.json_fields.specs.Kinds.{never_empty};
    ghost use Rattle.result_forms.specs.Batches.{a_batch, IsBatch};
    ghost use Rattle.result_forms.specs.Methods.{exoneration_row, exonerations_of};

    ghost fault = { a_batch exoneration_row };

    ghost means = { λ d q. IsBatch exoneration_row d (exonerations_of q) };

    ghost empty = { never_empty };

    fn is_empty(_value: &Value) -> bool {
        false
    }

    #[tactic(auto, unfolding(crate::proofs::Opened::fields))]
    fn read(alloc: Global, value: &Value) -> Result<BatchCreateTestExonerations, ReadFault> {
        object(alloc, value)?;
        let named: InvocationName = required(alloc, value, invocation())?;
        let request_id = optional_filled(alloc, value, request_id())?;
        let outer = outer_of(value);
        match required_list_beside::<Outer<'_>, TestExoneration>(alloc, &outer, value, requests()) {
            Ok(requests) => Ok(BatchCreateTestExonerations {
                invocation: named.into_id(),
                request_id,
                requests,
            }),
            Err(fault) => Err(fault),
        }
    }
}

impl BatchCreateTestExonerations {
    /// What is written of the request, which is read again where it is of its form. `Err` where
    /// there is no memory for it.
    pub fn write(&self, alloc: Global) -> Result<Value, AllocError>
        ensures value { IfOk result (λ v. view v ≡ exonerations_form.json self.now) }
        ensures again { exonerations_form.CanBeAsked self.now
            → IsReadAgain exonerations_form self.now }
    {
        batch_value(
            alloc,
            &self.invocation,
            &self.request_id,
            self.requests.as_slice(),
        )
    }
}
