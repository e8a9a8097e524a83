//! Pages of what a caller may see.
ghost use Rattle.std.specs.Prelude.{◌≡◌, ◌<◌, IfOk, length, option_map};
ghost use Rattle.query_pages.specs.Pages.{IsResultPage, IsVerdictPage, ResultsGoOn, VerdictsGoOn, after_result};
ghost use Rattle.query_pages.specs.Pages.{after_verdict};
ghost use Rattle.query_pages.specs.Seen.{seen_rows, seen_verdicts};
ghost use Rattle.verdict_lists.specs.World.{AreRoots, IsWhole, world_of};
ghost use Rattle.verdict_pages.specs.Keys.{place_seen, result_seen};

use crate::pages::{ShownRows, ShownVerdicts};
use crate::queries::{Asker, ResultQuery, VerdictQuery};
use crate::rights::Rights;
use crate::showing::{shown_results, shown_verdicts};
use crate::tokens::{after_results, after_verdicts};
use permissions::Permission;
use std::alloc::{AllocError, Global};
use verdict_lists::{View, gather, list_results, rows_are_kept};
use verdict_pages::{ResultKey, VerdictKey, result_page, verdict_page};

/// The key behind which a page begins.
fn after_verdict(query: &VerdictQuery) -> Option<VerdictKey<'_>>
    ensures { option_map place_seen result ≡ after_verdict query.now }
{
    match &query.after {
        Some(cursor) => Some(VerdictKey {
            status: cursor.status,
            test: cursor.test.as_str(),
            label: cursor.label,
            ordinal: cursor.ordinal,
        }),
        None => None,
    }
}

/// The key behind which a page begins.
fn after_result(query: &ResultQuery) -> Option<ResultKey<'_>>
    ensures { option_map result_seen result ≡ after_result query.now }
{
    match &query.after {
        Some(cursor) => Some(ResultKey {
            invocation: cursor.invocation.as_str(),
            test: cursor.test.as_str(),
            result: cursor.result.as_str(),
        }),
        None => None,
    }
}

/// The page of a query over the verdicts of all results that are reached from its roots, as the
/// caller may see it. `Err` where there is no memory.
pub fn show_verdicts<'a>(
    alloc: Global,
    view: &View<'a>,
    asker: &Asker,
    query: &VerdictQuery,
) -> Result<ShownVerdicts<'a>, AllocError>
    requires whole { IsWhole view.now }
    requires roots { AreRoots (world_of view.now) query.now.roots }
    requires caller { asker.now.caller < length asker.now.policy.now.users }
    requires size { 0 < query.now.size }
    ensures page { IfOk result (λ page.
        IsVerdictPage (world_of view.now) asker.now.policy.now asker.now.caller query.now
        (seen_verdicts page)) }
    ensures token { IfOk result (λ page.
        VerdictsGoOn (world_of view.now) query.now (seen_verdicts page)) }
{
    rows_are_kept(view);
    let list = gather(alloc, view, query.roots.as_slice())?;
    let rights = Rights::of(alloc, asker)?;
    let after = after_verdict(query);
    let page = verdict_page(view, list.as_slice(), after.as_ref(), query.size as usize);
    let verdicts = shown_verdicts(alloc, view, &rights, page.rows, query.results)?;
    let next = after_verdicts(alloc, view, &page, &query.query)?;
    Ok(ShownVerdicts { verdicts, next })
}

/// The page of a query over all results that are reached from its roots, as the caller may see it.
/// `Err` where there is no memory.
pub fn show_results<'a>(
    alloc: Global,
    view: &View<'a>,
    asker: &Asker,
    query: &ResultQuery,
) -> Result<ShownRows<'a>, AllocError>
    requires whole { IsWhole view.now }
    requires roots { AreRoots (world_of view.now) query.now.roots }
    requires caller { asker.now.caller < length asker.now.policy.now.users }
    requires size { 0 < query.now.size }
    ensures page { IfOk result (λ page.
        IsResultPage (world_of view.now) asker.now.policy.now asker.now.caller query.now
        (seen_rows page)) }
    ensures token { IfOk result (λ page.
        ResultsGoOn (world_of view.now) query.now (seen_rows page)) }
{
    rows_are_kept(view);
    let list = list_results(alloc, view, query.roots.as_slice())?;
    let granted = asker
        .policy
        .granted(alloc, asker.caller, Permission::GetTestResult)?;
    let after = after_result(query);
    let page = result_page(view, list.as_slice(), after.as_ref(), query.size as usize);
    let rows = shown_results(alloc, view, page.rows, &granted)?;
    let next = after_results(alloc, view, &page, &query.query)?;
    Ok(ShownRows { rows, next })
}
