//! A verdict that is shown, as JSON.
ghost use Rattle.std.specs.Prelude.{◌≡◌, IfOk, OnOk, Option, option_and_then, option_map};
ghost use Rattle.std.specs.Option.{option_copied};
ghost use Rattle.serde_json.specs.View.{view, members_view};
ghost use Rattle.result_forms.specs.Shown.{variant_shown};
ghost use Rattle.query_pages.specs.Seen.{seen_verdict};
ghost use Rattle.query_replies.specs.Verdicts.{verdict_data, verdict_status};

use crate::listed::{exonerations_value, outcomes_value};
use crate::names::{exonerations, is_masked, results};
use form_fields::put_some;
use names_realms::Variant;
use query_pages::{ShownVerdict, VerdictStatus};
use result_forms::names::{status, test_id, variant, variant_hash};
use result_forms::{bytes_value, flag_value, text_value, variant_value};
use serde_json::{Map, Value};
use std::alloc::{AllocError, Global};

/// The name of a verdict's status.
fn status_name(status: VerdictStatus) -> &'static str
    ensures { result.now ≡ verdict_status status }
{
    match status {
        VerdictStatus::Unexpected => "UNEXPECTED",
        VerdictStatus::UnexpectedlySkipped => "UNEXPECTEDLY_SKIPPED",
        VerdictStatus::Flaky => "FLAKY",
        VerdictStatus::Exonerated => "EXONERATED",
        VerdictStatus::Expected => "EXPECTED",
    }
}

/// The object of a variant, none where it may not be seen or has no pairs.
fn pairs_value(alloc: Global, variant: Option<&Variant>) -> Result<Option<Value>, AllocError>
    ensures { IfOk result (λ o. option_map view o
        ≡ option_and_then variant_shown (option_copied variant.entry)) }
{
    match variant {
        Some(variant) => variant_value(alloc, variant.as_slice()),
        None => Ok(None),
    }
}

/// The JSON object of a verdict that is shown.
pub(crate) fn verdict_value(alloc: Global, verdict: &ShownVerdict) -> Result<Value, AllocError>
    ensures { IfOk result (λ v. view v ≡ verdict_data (seen_verdict verdict.now)) }
{
    let mut map = Map::new(alloc);
    let told = exonerations_value(alloc, verdict.exonerations.as_slice())?;
    put_some(alloc, &mut map, exonerations(), told)?;
    let rows = outcomes_value(alloc, verdict.results.as_slice())?;
    put_some(alloc, &mut map, results(), rows)?;
    let masked = flag_value(verdict.variant.is_none());
    put_some(alloc, &mut map, is_masked(), masked)?;
    let named = text_value(alloc, status_name(verdict.status))?;
    put_some(alloc, &mut map, status(), named)?;
    let label = bytes_value(alloc, verdict.label.as_slice())?;
    put_some(alloc, &mut map, variant_hash(), label)?;
    let pairs = pairs_value(alloc, verdict.variant)?;
    put_some(alloc, &mut map, variant(), pairs)?;
    let test = text_value(alloc, verdict.test.as_str())?;
    put_some(alloc, &mut map, test_id(), test)?;
    Ok(Value::Object(map))
}
