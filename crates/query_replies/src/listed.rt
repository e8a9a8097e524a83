//! The lists of a verdict: its results, and its exonerations.
ghost use Rattle.std.specs.Prelude.{◌≡◌, ◌++◌, ◌∷◌, [], IfOk, OnOk, map, option_and_then, option_map};
ghost use Rattle.std.specs.Option.{option_copied};
ghost use Rattle.serde_json.specs.View.{view};
ghost use Rattle.json_fields.specs.Writing.{list_data};
ghost use Rattle.result_forms.specs.Shown.{text_shown};
ghost use Rattle.query_pages.specs.Seen.{seen_held};
ghost use Rattle.query_replies.specs.Verdicts.{exoneration_data, list_shown, outcome_data};

use crate::names::outcome;
use crate::results::held_value;
use form_fields::put_some;
use lists::Bytes;
use query_pages::HeldResult;
use result_forms::bytes_value;
use result_forms::names::explanation_html;
use serde_json::{Map, Value};
use std::alloc::{AllocError, Global};

/// The object with a result of a verdict.
fn outcome_value(alloc: Global, held: &HeldResult) -> Result<Value, AllocError>
    ensures { IfOk result (λ v. view v ≡ outcome_data (seen_held held.now)) }
{
    let value = held_value(alloc, held)?;
    let mut map = Map::new(alloc);
    put_some(alloc, &mut map, outcome(), Some(value))?;
    Ok(Value::Object(map))
}

/// Appends the object with a result of a verdict.
fn add_outcome(alloc: Global, list: &mut Vec<Value>, held: &HeldResult) -> Result<(), AllocError>
    ensures { OnOk result (map view list.new.items
        ≡ map view list.old.items ++ outcome_data (seen_held held.now) ∷ []) }
{
    let value = outcome_value(alloc, held)?;
    list.push(value)?;
    Ok(())
}

/// The list of a verdict's results.
fn outcome_list(alloc: Global, results: &[HeldResult]) -> Result<Value, AllocError>
    ensures { IfOk result (λ v. view v ≡ list_data outcome_data (map seen_held results.now)) }
{
    let mut list = Vec::with_capacity(alloc, results.len())?;
    for held in results {
        add_outcome(alloc, &mut list, held)?;
    }
    Ok(Value::Array(list))
}

/// The list of a verdict's results, none where it is empty.
pub(crate) fn outcomes_value(
    alloc: Global,
    results: &[HeldResult],
) -> Result<Option<Value>, AllocError>
    ensures { IfOk result (λ o. option_map view o
        ≡ list_shown outcome_data (map seen_held results.now)) }
{
    if results.is_empty() {
        return Ok(None);
    }
    let value = outcome_list(alloc, results)?;
    Ok(Some(value))
}

/// An explanation, none where it isn't shown or is empty.
fn told(alloc: Global, explanation: Option<&Bytes>) -> Result<Option<Value>, AllocError>
    ensures { IfOk result (λ o. option_map view o
        ≡ option_and_then text_shown (option_copied explanation.entry)) }
{
    match explanation {
        Some(text) => bytes_value(alloc, text.as_slice()),
        None => Ok(None),
    }
}

/// Appends the object of an exoneration.
fn add_exoneration(
    alloc: Global,
    list: &mut Vec<Value>,
    explanation: Option<&Bytes>,
) -> Result<(), AllocError>
    ensures { OnOk result (map view list.new.items
        ≡ map view list.old.items ++ exoneration_data (option_copied explanation.entry) ∷ []) }
{
    let value = told(alloc, explanation)?;
    let mut map = Map::new(alloc);
    put_some(alloc, &mut map, explanation_html(), value)?;
    list.push(Value::Object(map))?;
    Ok(())
}

/// The list of a verdict's exonerations.
fn exoneration_list(alloc: Global, explanations: &[Option<&Bytes>]) -> Result<Value, AllocError>
    ensures { IfOk result (λ v. view v
        ≡ list_data exoneration_data (map option_copied explanations.now)) }
{
    let mut list = Vec::with_capacity(alloc, explanations.len())?;
    for explanation in explanations {
        add_exoneration(alloc, &mut list, *explanation)?;
    }
    Ok(Value::Array(list))
}

/// The list of a verdict's exonerations, none where it is empty.
pub(crate) fn exonerations_value(
    alloc: Global,
    explanations: &[Option<&Bytes>],
) -> Result<Option<Value>, AllocError>
    ensures { IfOk result (λ o. option_map view o
        ≡ list_shown exoneration_data (map option_copied explanations.now)) }
{
    if explanations.is_empty() {
        return Ok(None);
    }
    let value = exoneration_list(alloc, explanations)?;
    Ok(Some(value))
}
