//! What is written of rows, and of batches of them.
ghost use Rattle.std.specs.Prelude.{◌≡◌, ◌∷◌, [], Some, IfOk, OnOk, option_map, string_bytes};
ghost use Rattle.serde_json.specs.Data.{string};
ghost use Rattle.serde_json.specs.View.{view, members_view};
ghost use Rattle.names_realms.specs.Names.{invocation_name};
ghost use Rattle.json_fields.specs.Writing.{list_data};
ghost use Rattle.form_fields.specs.Members.{put_all, object_of};
ghost use Rattle.result_forms.specs.Names.{invocation, request_id, requests};
ghost use Rattle.result_forms.specs.Results.{what_members, more_members, new_result_data};
ghost use Rattle.result_forms.specs.Exonerations.{exoneration_members, new_exoneration_data};

use crate::members::{Shown, list_value};
use crate::names::{
    duration, expected, explanation_html, failure_reason, invocation, properties, request_id,
    requests, result_id, start_time, status, summary_html, tags, test_exoneration, test_id,
    test_result, variant,
};
use crate::shown::{
    bytes_value, flag_value, properties_value, reason_value, spelled_value, status_value,
    tags_value, text_value, variant_value,
};
use field_kinds::{LimitedText, RequestId};
use form_fields::put_some;
use json_fields::Written;
use names_realms::InvocationId;
use serde_json::{Map, Value};
use std::alloc::{AllocError, Global};
use test_results::{TestExoneration, TestResult};

/// Puts what a result is.
fn put_what(alloc: Global, map: &mut Map<String, Value>, row: &TestResult) -> Result<(), AllocError>
    ensures { OnOk result (members_view map.new.entries
        ≡ put_all (what_members row.now) (members_view map.old.entries)) }
{
    let summary = bytes_value(alloc, row.summary.as_slice())?;
    put_some(alloc, map, summary_html(), summary)?;
    put_some(alloc, map, status(), status_value(alloc, row.status)?)?;
    put_some(alloc, map, expected(), flag_value(row.expected))?;
    let pairs = variant_value(alloc, row.variant.as_slice())?;
    put_some(alloc, map, variant(), pairs)?;
    put_some(
        alloc,
        map,
        result_id(),
        text_value(alloc, row.result.as_str())?,
    )?;
    put_some(alloc, map, test_id(), text_value(alloc, row.test.as_str())?)
}

/// Puts what else is said of a result.
fn put_more(alloc: Global, map: &mut Map<String, Value>, row: &TestResult) -> Result<(), AllocError>
    ensures { OnOk result (members_view map.new.entries
        ≡ put_all (more_members row.now) (members_view map.old.entries)) }
{
    let kept = properties_value(alloc, row.properties.as_slice())?;
    put_some(alloc, map, properties(), kept)?;
    let reason = reason_value(alloc, row.message.as_slice())?;
    put_some(alloc, map, failure_reason(), reason)?;
    put_some(alloc, map, tags(), tags_value(alloc, row.tags.as_slice())?)?;
    put_some(alloc, map, duration(), spelled_value(alloc, &row.duration)?)?;
    put_some(alloc, map, start_time(), spelled_value(alloc, &row.start)?)
}

/// What is written of a result in a request.
fn new_result_value(alloc: Global, row: &TestResult) -> Result<Value, AllocError>
    ensures { IfOk result (λ v. view v ≡ new_result_data row.now) }
{
    let mut map = Map::new(alloc);
    put_more(alloc, &mut map, row)?;
    put_what(alloc, &mut map, row)?;
    Ok(Value::Object(map))
}

/// Puts what an exoneration is.
fn put_exoneration(
    alloc: Global,
    map: &mut Map<String, Value>,
    row: &TestExoneration,
) -> Result<(), AllocError>
    ensures { OnOk result (members_view map.new.entries
        ≡ put_all (exoneration_members row.now) (members_view map.old.entries)) }
{
    let explanation = bytes_value(alloc, row.explanation.as_slice())?;
    put_some(alloc, map, explanation_html(), explanation)?;
    let pairs = variant_value(alloc, row.variant.as_slice())?;
    put_some(alloc, map, variant(), pairs)?;
    put_some(alloc, map, test_id(), text_value(alloc, row.test.as_str())?)
}

/// What is written of an exoneration in a request.
fn new_exoneration_value(alloc: Global, row: &TestExoneration) -> Result<Value, AllocError>
    ensures { IfOk result (λ v. view v ≡ new_exoneration_data row.now) }
{
    let mut map = Map::new(alloc);
    put_exoneration(alloc, &mut map, row)?;
    Ok(Value::Object(map))
}

impl Shown for TestResult {
    ghost use Rattle.result_forms.specs.Batches.{element_data};
    ghost use Rattle.result_forms.specs.Methods.{result_row};

    ghost shows = { element_data result_row };

    fn value(&self, alloc: Global) -> Result<Value, AllocError> {
        let row = new_result_value(alloc, self)?;
        let mut map = Map::new(alloc);
        put_some(alloc, &mut map, test_result(), Some(row))?;
        Ok(Value::Object(map))
    }
}

impl Shown for TestExoneration {
    ghost use Rattle.result_forms.specs.Batches.{element_data};
    ghost use Rattle.result_forms.specs.Methods.{exoneration_row};

    ghost shows = { element_data exoneration_row };

    fn value(&self, alloc: Global) -> Result<Value, AllocError> {
        let row = new_exoneration_value(alloc, self)?;
        let mut map = Map::new(alloc);
        put_some(alloc, &mut map, test_exoneration(), Some(row))?;
        Ok(Value::Object(map))
    }
}

/// The number of a request, where it has one.
fn number_value(
    alloc: Global,
    number: &Option<LimitedText<RequestId>>,
) -> Result<Option<Value>, AllocError>
    ensures { IfOk result (λ o. option_map view o ≡ option_map string number.now) }
{
    match number {
        Some(text) => {
            let value = text.write(alloc)?;
            Ok(Some(value))
        }
        None => Ok(None),
    }
}

/// The name of an invocation.
fn invocation_text(alloc: Global, id: &InvocationId) -> Result<String, AllocError>
    ensures { IfOk result (λ text. string_bytes text ≡ invocation_name id.now) }
{
    let id = id.as_str();
    format!(in alloc; "invocations/{id}")
}

/// What is written of a batch of rows.
pub(crate) fn batch_value<T: Shown>(
    alloc: Global,
    id: &InvocationId,
    number: &Option<LimitedText<RequestId>>,
    rows: &[T],
) -> Result<Value, AllocError>
    ensures { IfOk result (λ v. view v ≡ object_of (
        (invocation, Some (string (invocation_name id.now)))
        ∷ (request_id, option_map string number.now)
        ∷ (requests, Some (list_data T.shows rows.now)) ∷ [])) }
{
    let mut map = Map::new(alloc);
    let rows = list_value(alloc, rows)?;
    put_some(alloc, &mut map, requests(), Some(rows))?;
    put_some(alloc, &mut map, request_id(), number_value(alloc, number)?)?;
    let text = invocation_text(alloc, id)?;
    put_some(alloc, &mut map, invocation(), Some(Value::String(text)))?;
    Ok(Value::Object(map))
}
