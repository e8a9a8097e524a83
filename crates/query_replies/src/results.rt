//! A result that is shown, as JSON.
ghost use Rattle.std.specs.Prelude.{◌≡◌, IfOk, OnOk, option_map, string_bytes};
ghost use Rattle.serde_json.specs.View.{view, members_view};
ghost use Rattle.form_fields.specs.Members.{put_all};
ghost use Rattle.result_forms.specs.Shown.{properties_shown, tags_shown, text_shown, variant_shown};
ghost use Rattle.query_pages.specs.VerdictMasks.Masks.{seen};
ghost use Rattle.query_pages.specs.Seen.{seen_held};
ghost use Rattle.query_replies.specs.Results.{more_seen, name_of_seen, seen_data, unless_hidden, what_seen};

use crate::names::is_masked;
use form_fields::put_some;
use query_pages::{HeldResult, ShownResult};
use result_forms::names::{
    duration, expected, failure_reason, name, properties, result_id, start_time, status,
    summary_html, tags, test_id, variant, variant_hash,
};
use result_forms::{
    bytes_value, flag_value, name_of_result, properties_value, reason_value, spelled_value,
    status_value, tags_value, text_value, variant_value,
};
use serde_json::{Map, Value};
use std::alloc::{AllocError, Global};

/// The pairs of a result's variant, none where they are hidden.
fn pairs_of(alloc: Global, shown: &ShownResult) -> Result<Option<Value>, AllocError>
    ensures { IfOk result (λ o. option_map view o
        ≡ unless_hidden (λ h. variant_shown h.pairs) (seen shown.now)) }
{
    if shown.masked {
        return Ok(None);
    }
    variant_value(alloc, shown.row.variant.as_slice())
}

/// A result's summary, none where it is hidden.
fn summary_of(alloc: Global, shown: &ShownResult) -> Result<Option<Value>, AllocError>
    ensures { IfOk result (λ o. option_map view o
        ≡ unless_hidden (λ h. text_shown h.summary) (seen shown.now)) }
{
    if shown.masked {
        return Ok(None);
    }
    bytes_value(alloc, shown.row.summary.as_slice())
}

/// A result's tags, none where they are hidden.
fn tags_of(alloc: Global, shown: &ShownResult) -> Result<Option<Value>, AllocError>
    ensures { IfOk result (λ o. option_map view o
        ≡ unless_hidden (λ h. tags_shown h.tags) (seen shown.now)) }
{
    if shown.masked {
        return Ok(None);
    }
    tags_value(alloc, shown.row.tags.as_slice())
}

/// A result's properties, none where they are hidden.
fn properties_of(alloc: Global, shown: &ShownResult) -> Result<Option<Value>, AllocError>
    ensures { IfOk result (λ o. option_map view o
        ≡ unless_hidden (λ h. properties_shown h.properties) (seen shown.now)) }
{
    if shown.masked {
        return Ok(None);
    }
    properties_value(alloc, shown.row.properties.as_slice())
}

/// Puts what a result is.
fn put_what(
    alloc: Global,
    map: &mut Map<String, Value>,
    shown: &ShownResult,
) -> Result<(), AllocError>
    ensures { OnOk result (members_view map.new.entries
        ≡ put_all (what_seen (seen shown.now)) (members_view map.old.entries)) }
{
    put_some(alloc, map, summary_html(), summary_of(alloc, shown)?)?;
    put_some(alloc, map, status(), status_value(alloc, shown.row.status)?)?;
    put_some(alloc, map, expected(), flag_value(shown.row.expected))?;
    put_some(alloc, map, variant(), pairs_of(alloc, shown)?)?;
    let own = text_value(alloc, shown.row.result.as_str())?;
    put_some(alloc, map, result_id(), own)?;
    let test = text_value(alloc, shown.row.test.as_str())?;
    put_some(alloc, map, test_id(), test)
}

/// Puts what else is shown of a result.
fn put_more(
    alloc: Global,
    map: &mut Map<String, Value>,
    shown: &ShownResult,
) -> Result<(), AllocError>
    ensures { OnOk result (members_view map.new.entries
        ≡ put_all (more_seen (seen shown.now)) (members_view map.old.entries)) }
{
    put_some(alloc, map, is_masked(), flag_value(shown.masked))?;
    put_some(alloc, map, properties(), properties_of(alloc, shown)?)?;
    put_some(
        alloc,
        map,
        failure_reason(),
        reason_value(alloc, shown.message)?,
    )?;
    put_some(alloc, map, tags(), tags_of(alloc, shown)?)?;
    let span = spelled_value(alloc, &shown.row.duration)?;
    put_some(alloc, map, duration(), span)?;
    let start = spelled_value(alloc, &shown.row.start)?;
    put_some(alloc, map, start_time(), start)
}

/// The JSON object of a result that is shown.
pub(crate) fn held_value(alloc: Global, held: &HeldResult) -> Result<Value, AllocError>
    ensures { IfOk result (λ v. view v ≡ seen_data (seen_held held.now)) }
{
    let mut map = Map::new(alloc);
    put_more(alloc, &mut map, &held.shown)?;
    put_what(alloc, &mut map, &held.shown)?;
    let label = bytes_value(alloc, held.shown.label.as_slice())?;
    put_some(alloc, &mut map, variant_hash(), label)?;
    let text = name_of_result(alloc, held.invocation, held.shown.row)?;
    put_some(alloc, &mut map, name(), Some(Value::String(text)))?;
    Ok(Value::Object(map))
}
