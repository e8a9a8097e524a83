//! Results, exonerations and verdicts, as they are shown.
ghost use Rattle.std.specs.Prelude.{◌≡◌, ◌<◌, All, IfOk, MatchOption, length, map, take};
ghost use Rattle.std.specs.List.{AllZip};
ghost use Rattle.std.specs.Option.{option_copied};
ghost use Rattle.query_pages.specs.Inside.{AreRights, HasVerdict, IsHeld};
ghost use Rattle.query_pages.specs.Seen.{seen_held, seen_verdict};
ghost use Rattle.query_pages.specs.Shown.{HasResult, IsExplained, IsShownResult, IsShownVerdict};
ghost use Rattle.verdict_lists.specs.World.{world_of};
ghost use Rattle.verdict_masks.specs.Masks.{ShowsVariant};

use crate::pages::{HeldResult, ShownVerdict};
use crate::queries::Asker;
use crate::rights::Rights;
use lists::Bytes;
use names_realms::Variant;
use permissions::{Granted, Permission};
use std::alloc::{AllocError, Global};
use test_results::TestResult;
use verdict_lists::{Verdict, View};
use verdict_masks::{may_see, show, shows_variant};

/// The result at a place, whole or masked, with the id of the invocation that holds it.
fn held<'a>(view: &View<'a>, place: u32, whole: bool) -> HeldResult<'a>
    requires { HasResult (world_of view.now) place }
    ensures { IsHeld (world_of view.now) place whole (seen_held result) }
{
    let table = view.table;
    let rows = view.results;
    let row = rows.row(place);
    let holder = table.row(row.holder);
    HeldResult {
        invocation: &holder.id,
        shown: show(row, whole),
    }
}

/// The result at a place, by what is granted to see results.
fn shown_result<'a>(view: &View<'a>, place: u32, granted: &Granted) -> HeldResult<'a>
    requires there { HasResult (world_of view.now) place }
    requires permission { granted.now.permission ≡ Permission.GetTestResult }
    ensures { IsShownResult (world_of view.now) granted.now.policy granted.now.caller place
        (seen_held result) }
{
    held(view, place, may_see(view, place, granted))
}

/// One result as it is shown to a caller: whole where the caller may see results in the realm of
/// the invocation that holds it, else masked. It takes no memory.
pub fn show_result<'a>(view: &View<'a>, asker: &Asker, place: u32) -> HeldResult<'a>
    requires there { HasResult (world_of view.now) place }
    requires caller { asker.now.caller < length asker.now.policy.now.users }
    ensures { IsShownResult (world_of view.now) asker.now.policy.now asker.now.caller place
        (seen_held result) }
{
    let row = view.results.row(place);
    let realm = &view.table.row(row.holder).realm;
    let whole = asker
        .policy
        .allows(asker.caller, Permission::GetTestResult, realm);
    held(view, place, whole)
}

/// The results at these places, by what is granted to see results.
pub(crate) fn shown_results<'a>(
    alloc: Global,
    view: &View<'a>,
    places: &[u32],
    granted: &Granted,
) -> Result<Vec<HeldResult<'a>>, AllocError>
    requires there { All (HasResult (world_of view.now)) places.now }
    requires permission { granted.now.permission ≡ Permission.GetTestResult }
    ensures { IfOk result (λ shown.
        AllZip (IsShownResult (world_of view.now) granted.now.policy granted.now.caller)
        places.now (map seen_held shown.items)) }
{
    let mut shown = Vec::with_capacity(alloc, places.len())?;
    for place in places {
        shown.push(shown_result(view, *place, granted))?;
    }
    Ok(shown)
}

/// The explanation of the exoneration at a place, where seeing it is granted in the realm of the
/// invocation that holds it.
fn explanation<'a>(view: &View<'a>, place: u32, granted: &Granted) -> Option<&'a Bytes>
    requires { granted.now.permission ≡ Permission.GetTestExoneration }
    ensures { IsExplained (world_of view.now) granted.now.policy granted.now.caller place
        (option_copied result) }
{
    let rows = view.exonerations;
    let Some(row) = rows.rows().get(place as usize) else {
        return None;
    };
    let Some(holder) = view.table.rows().get(row.holder as usize) else {
        return None;
    };
    if granted.in_realm(&holder.realm) {
        Some(&row.explanation)
    } else {
        None
    }
}

/// The explanations of the exonerations at these places.
fn explanations<'a>(
    alloc: Global,
    view: &View<'a>,
    places: &[u32],
    granted: &Granted,
) -> Result<Vec<Option<&'a Bytes>>, AllocError>
    requires { granted.now.permission ≡ Permission.GetTestExoneration }
    ensures { IfOk result (λ told.
        AllZip (IsExplained (world_of view.now) granted.now.policy granted.now.caller)
        places.now (map option_copied told.items)) }
{
    let mut told = Vec::with_capacity(alloc, places.len())?;
    for place in places {
        told.push(explanation(view, *place, granted))?;
    }
    Ok(told)
}

/// So many first ones.
fn first_of(places: &[u32], count: usize) -> &[u32]
    ensures { result.now ≡ take count places.now }
{
    if count < places.len() {
        &places[..count]
    } else {
        places
    }
}

/// The variant of a verdict, which is that of this result of it, where the verdict shows it.
fn variant_of<'a>(
    view: &View,
    verdict: &Verdict,
    row: &'a TestResult,
    granted: &Granted,
) -> Option<&'a Variant>
    requires { granted.now.permission ≡ Permission.GetTestResult }
    ensures { MatchOption (option_copied result)
        (¬ ShowsVariant (world_of view.now) granted.now.policy granted.now.caller verdict.now)
        (λ pairs.
        ShowsVariant (world_of view.now) granted.now.policy granted.now.caller verdict.now
        × (pairs ≡ row.now.variant)) }
{
    if shows_variant(view, verdict, granted) {
        Some(&row.variant)
    } else {
        None
    }
}

/// A verdict, with so many first results.
fn shown_verdict<'a>(
    alloc: Global,
    view: &View<'a>,
    rights: &Rights,
    verdict: &Verdict,
    count: u32,
) -> Result<ShownVerdict<'a>, AllocError>
    requires there { HasVerdict (world_of view.now) verdict.now }
    requires rights { AreRights rights.now.results.policy rights.now.results.caller rights.now }
    ensures { IfOk result (λ shown.
        IsShownVerdict (world_of view.now) rights.now.results.policy rights.now.results.caller
        count verdict.now (seen_verdict shown)) }
{
    let rows = view.results;
    let places = verdict.results.as_slice();
    let first = rows.row(places[0]);
    let variant = variant_of(view, verdict, first, &rights.results);
    let few = first_of(places, count as usize);
    let results = shown_results(alloc, view, few, &rights.results)?;
    let others = verdict.exonerations.as_slice();
    let exonerations = explanations(alloc, view, others, &rights.exonerations)?;
    Ok(ShownVerdict {
        test: &first.test,
        variant,
        label: verdict.label,
        status: verdict.status,
        results,
        exonerations,
    })
}

/// Verdicts, each with so many first results.
pub(crate) fn shown_verdicts<'a>(
    alloc: Global,
    view: &View<'a>,
    rights: &Rights,
    verdicts: &[Verdict],
    count: u32,
) -> Result<Vec<ShownVerdict<'a>>, AllocError>
    requires there { All (HasVerdict (world_of view.now)) verdicts.now }
    requires rights { AreRights rights.now.results.policy rights.now.results.caller rights.now }
    ensures { IfOk result (λ shown.
        AllZip (IsShownVerdict (world_of view.now) rights.now.results.policy
        rights.now.results.caller count) verdicts.now (map seen_verdict shown.items)) }
{
    let mut shown = Vec::with_capacity(alloc, verdicts.len())?;
    for verdict in verdicts {
        shown.push(shown_verdict(alloc, view, rights, verdict, count)?)?;
    }
    Ok(shown)
}
