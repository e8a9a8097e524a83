//! A test result as a request says it.
ghost use Rattle.std.specs.Prelude.{◌≡◌, None, IfOk, IfErr};
ghost use Rattle.serde_json.specs.View.{view};
ghost use Rattle.json_fields.specs.Faults.{Says};
ghost use Rattle.result_forms.specs.Results.{a_what, a_more, IsWhat, IsMore, what_of, more_of};

use crate::names::{
    duration, expected, failure_reason, properties, result_id, start_time, status, summary_html,
    tags, test_id, variant,
};
use crate::values::{read_flag, read_html, read_message, read_properties, read_tags, read_variant};
use field_kinds::StatusName;
use json_fields::{Form, ReadFault, object, optional, required};
use lists::{Bytes, Listed};
use names_realms::{Moment, Pair, ResultId, Span, Status, TestId, Variant};
use serde_json::Value;
use std::alloc::Global;
use std::marker::Model;
use test_results::TestResult;

/// What a result is.
#[derive(Drop)]
pub(crate) struct What {
    test: TestId,
    result: ResultId,
    variant: Variant,
    expected: bool,
    status: Status,
    summary: Bytes,
}

/// What else is said of it.
#[derive(Drop)]
pub(crate) struct More {
    start: Option<Moment>,
    duration: Option<Span>,
    tags: Listed<Pair>,
    message: Bytes,
    properties: Bytes,
}

/// A result that a request says. Contracts see it as the row.
#[derive(Drop)]
pub(crate) struct NewResult {
    row: TestResult,
}

impl Model for NewResult {
    ghost use Rattle.test_results.specs.declared.result.TestResult.{TestResult};

    ghost Value = { TestResult };

    ghost view = { λ n. n.row };
}

impl NewResult {
    /// The row, moved out.
    pub(crate) fn into_row(self) -> TestResult
        ensures { result ≡ self }
    {
        self.row
    }
}

/// What a value says that the result is.
#[tactic(auto, unfolding(crate::proofs::Opened::fields))]
fn read_what(alloc: Global, value: &Value) -> Result<What, ReadFault>
    ensures ok { IfOk result (λ x. (a_what (view value.now) ≡ None) × IsWhat (view value.now) x) }
    ensures err { IfErr result (λ e. Says e (a_what (view value.now))) }
{
    object(alloc, value)?;
    let test = required(alloc, value, test_id())?;
    let result = required(alloc, value, result_id())?;
    let variant = read_variant(alloc, value, variant())?;
    let expected = read_flag(alloc, value, expected())?;
    let named: StatusName = required(alloc, value, status())?;
    match read_html(alloc, value, summary_html()) {
        Ok(summary) => Ok(What {
            test,
            result,
            variant,
            expected,
            status: named.status,
            summary,
        }),
        Err(fault) => Err(fault),
    }
}

/// What else a value says of the result.
#[tactic(auto, unfolding(crate::proofs::Opened::fields))]
fn read_more(alloc: Global, value: &Value) -> Result<More, ReadFault>
    ensures ok { IfOk result (λ x. (a_more (view value.now) ≡ None) × IsMore (view value.now) x) }
    ensures err { IfErr result (λ e. Says e (a_more (view value.now))) }
{
    let start = optional(alloc, value, start_time())?;
    let duration = optional(alloc, value, duration())?;
    let tags = read_tags(alloc, value, tags())?;
    let message = read_message(alloc, value, failure_reason())?;
    match read_properties(alloc, value, properties()) {
        Ok(properties) => Ok(More {
            start,
            duration,
            tags,
            message,
            properties,
        }),
        Err(fault) => Err(fault),
    }
}

/// The row of both parts, which has no holder yet.
fn row_of(what: What, more: More) -> TestResult
    ensures holder { result.holder ≡ 0 }
    ensures what { what_of result ≡ what }
    ensures more { more_of result ≡ more }
{
    TestResult {
        holder: 0,
        test: what.test,
        result: what.result,
        variant: what.variant,
        expected: what.expected,
        status: what.status,
        summary: what.summary,
        start: more.start,
        duration: more.duration,
        tags: more.tags,
        message: more.message,
        properties: more.properties,
    }
}

impl Form for NewResult {
    ghost use Rattle.json_fields.specs.Kinds.{never_empty};
    ghost use Rattle.result_forms.specs.Results.{a_result, IsResult};

    ghost fault = { a_result };

    ghost means = { IsResult };

    ghost empty = { never_empty };

    fn is_empty(_value: &Value) -> bool {
        false
    }

    #[tactic(auto, unfolding(crate::specs::Results::a_result))]
    fn read(alloc: Global, value: &Value) -> Result<NewResult, ReadFault> {
        let what = read_what(alloc, value)?;
        match read_more(alloc, value) {
            Ok(more) => Ok(NewResult {
                row: row_of(what, more),
            }),
            Err(fault) => Err(fault),
        }
    }
}
