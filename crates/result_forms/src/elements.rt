//! The elements of a batch: each a row, beside the invocation and the request id of the batch.
ghost use Rattle.std.specs.Prelude.{◌≡◌};
ghost use Rattle.serde_json.specs.View.{view};
ghost use Rattle.json_fields.specs.Fields.{set_at};
ghost use Rattle.result_forms.specs.Fields.{text_in};
ghost use Rattle.result_forms.specs.Names.{invocation, request_id};

use crate::exonerations::NewExoneration;
use crate::names::{invocation, request_id, test_exoneration, test_result};
use crate::results::NewResult;
use field_kinds::{FormBeside, same_text};
use json_fields::{Name, ReadFault, object, required, set_at};
use serde_json::Value;
use std::alloc::Global;
use test_results::{TestExoneration, TestResult};

/// The invocation and the request id of a batch, as its body writes them; empty where it has none.
#[derive(Drop)]
pub(crate) struct Outer<'v> {
    pub(crate) invocation: &'v str,
    pub(crate) request_id: &'v str,
}

/// The text of a field, the empty one where it has none.
fn text_in<'v>(value: &'v Value, name: &Name) -> &'v str
    ensures { result.now ≡ text_in (set_at name.now (view value.now)) }
{
    match set_at(value, name) {
        Some(Value::String(text)) => text.as_str(),
        _ => "",
    }
}

/// What the elements of a batch stand beside.
pub(crate) fn outer_of(value: &Value) -> Outer<'_>
    ensures invocation { result.invocation.now
        ≡ text_in (set_at invocation (view value.now)) }
    ensures request_id { result.request_id.now
        ≡ text_in (set_at request_id (view value.now)) }
{
    Outer {
        invocation: text_in(value, &invocation()),
        request_id: text_in(value, &request_id()),
    }
}

impl<'v> FormBeside<Outer<'v>> for TestResult {
    ghost use Rattle.result_forms.specs.Batches.{an_element, IsElement};
    ghost use Rattle.result_forms.specs.Methods.{result_row};

    ghost fault = { λ outer. an_element result_row outer.invocation.now outer.request_id.now };

    ghost means = { λ _ d row. IsElement result_row d row };

    #[tactic(auto, unfolding(crate::proofs::Opened::fields))]
    fn read_beside(
        alloc: Global,
        context: &Outer<'v>,
        value: &Value,
    ) -> Result<TestResult, ReadFault> {
        object(alloc, value)?;
        same_text(alloc, context.invocation, value, invocation())?;
        same_text(alloc, context.request_id, value, request_id())?;
        match required::<NewResult>(alloc, value, test_result()) {
            Ok(new) => Ok(new.into_row()),
            Err(fault) => Err(fault),
        }
    }

    fn take_over(&mut self, before: Option<&TestResult>)
        ensures { self.new ≡ self.old }
    {
        let before = match before {
            Some(row) => Some(&row.variant),
            None => None,
        };
        self.variant.keep_label(before);
    }
}

impl<'v> FormBeside<Outer<'v>> for TestExoneration {
    ghost use Rattle.result_forms.specs.Batches.{an_element, IsElement};
    ghost use Rattle.result_forms.specs.Methods.{exoneration_row};

    ghost fault = { λ outer. an_element exoneration_row outer.invocation.now outer.request_id.now };

    ghost means = { λ _ d row. IsElement exoneration_row d row };

    #[tactic(auto, unfolding(crate::proofs::Opened::fields))]
    fn read_beside(
        alloc: Global,
        context: &Outer<'v>,
        value: &Value,
    ) -> Result<TestExoneration, ReadFault> {
        object(alloc, value)?;
        same_text(alloc, context.invocation, value, invocation())?;
        same_text(alloc, context.request_id, value, request_id())?;
        match required::<NewExoneration>(alloc, value, test_exoneration()) {
            Ok(new) => Ok(new.into_row()),
            Err(fault) => Err(fault),
        }
    }

    fn take_over(&mut self, before: Option<&TestExoneration>)
        ensures { self.new ≡ self.old }
    {
        let before = match before {
            Some(row) => Some(&row.variant),
            None => None,
        };
        self.variant.keep_label(before);
    }
}
