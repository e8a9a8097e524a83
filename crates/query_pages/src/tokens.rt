//! The tokens of pages.
ghost use Rattle.std.specs.Prelude.{◌≡◌, ◌<◌, ℕ, true, All, IfOk, List, Option, Some, None, if◌then◌else◌, length, map};
ghost use Rattle.std.specs.Prelude.{option_map};
ghost use Rattle.page_tokens.specs.Keys.{AreContents};
ghost use Rattle.query_pages.specs.Inside.{HasVerdict};
ghost use Rattle.query_pages.specs.Shown.{HasResult};
ghost use Rattle.page_tokens.specs.Tokens.{IsToken};
ghost use Rattle.query_pages.specs.Tokens.{IsReadAs, IsResultReadAs, result_token, token_text, verdict_token};
ghost use Rattle.verdict_lists.specs.World.{world_of};
ghost use Rattle.verdict_pages.specs.Keys.{ResultPlace, VerdictPlace, by_result, by_verdict, result_place};
ghost use Rattle.verdict_pages.specs.Keys.{verdict_place};
ghost use Rattle.verdict_pages.specs.Pages.{last_key};

use lists::Bytes;
use page_tokens::laws::{one_key_told, one_result_held, one_verdict_held};
use page_tokens::{Cursor, Query, ResultCursor, VerdictCursor, write_token};
use std::alloc::{AllocError, Global};
use verdict_lists::{Verdict, View};
use verdict_pages::Page;

/// The text of the token of a query whose key has these contents.
fn token<C: Cursor>(alloc: Global, contents: &[&[u8]], query: &Query) -> Result<Bytes, AllocError>
    requires { AreContents C.form (map (λ c. c.now) contents.now) }
    ensures text { IfOk result (λ text.
        text ≡ token_text query.now C.number C.form (map (λ c. c.now) contents.now)) }
    ensures token { IfOk result
        (λ text. IsToken query.now C.number C.form (map (λ c. c.now) contents.now) text) }
{
    let cursor = C::of_contents(alloc, contents)?;
    let text = write_token(alloc, &cursor, query)?;
    Ok(Bytes::new(text.into_bytes()))
}

/// The bytes of a label, which are 16.
fn label_bytes(label: &[u8; 16]) -> &[u8]
    ensures bytes { result.now ≡ label.now }
    ensures len { length result.now ≡ 16 }
{
    label.as_slice()
}

/// The text of the token of a verdict.
fn verdict_token(
    alloc: Global,
    view: &View,
    verdict: &Verdict,
    query: &Query,
) -> Result<Bytes, AllocError>
    requires { HasVerdict (world_of view.now) verdict.now }
    ensures text { IfOk result (λ text.
        text ≡ verdict_token query.now (verdict_place (world_of view.now) verdict.now)) }
    ensures read { IfOk result
        (IsReadAs query.now (verdict_place (world_of view.now) verdict.now)) }
{
    one_key_told();
    one_verdict_held();
    let first = view.results.row(verdict.results.as_slice()[0]);
    let status = [verdict.status.number()];
    let ordinal = verdict.ordinal.to_le_bytes();
    let contents = [
        status.as_slice(),
        first.test.as_slice(),
        label_bytes(&verdict.label),
        ordinal.as_slice(),
    ];
    token::<VerdictCursor>(alloc, &contents, query)
}

/// The text of the token of the result at a place.
fn result_token(alloc: Global, view: &View, place: u32, query: &Query) -> Result<Bytes, AllocError>
    requires { HasResult (world_of view.now) place }
    ensures text { IfOk result (λ text.
        text ≡ result_token query.now (result_place (world_of view.now) place)) }
    ensures read { IfOk result
        (IsResultReadAs query.now (result_place (world_of view.now) place)) }
{
    one_key_told();
    one_result_held();
    let row = view.results.row(place);
    let holder = view.table.row(row.holder);
    let contents = [
        holder.id.as_slice(),
        row.test.as_slice(),
        row.result.as_slice(),
    ];
    token::<ResultCursor>(alloc, &contents, query)
}

/// The token for the page behind one of verdicts, where more are left.
pub(crate) fn after_verdicts(
    alloc: Global,
    view: &View,
    page: &Page<Verdict>,
    query: &Query,
) -> Result<Option<Bytes>, AllocError>
    requires there { All (HasVerdict (world_of view.now)) page.now.rows.now }
    requires some { page.now.more ≡ true → 0 < length page.now.rows.now }
    ensures next { IfOk result (λ next. (after : Option VerdictPlace) → next
        ≡ (if page.now.more then option_map (verdict_token query.now)
        (last_key by_verdict (verdict_place (world_of view.now)) after page.now.rows.now)
        else None)) }
    ensures read { IfOk result (λ next.
        (after : Option VerdictPlace) (place : VerdictPlace) (text : List ℕ) → next ≡ Some text
        → last_key by_verdict (verdict_place (world_of view.now)) after page.now.rows.now
        ≡ Some place → IsReadAs query.now place text) }
{
    match page.rows.last() {
        Some(verdict) if page.more => Ok(Some(verdict_token(alloc, view, verdict, query)?)),
        _ => Ok(None),
    }
}

/// The token for the page behind one of results, where more are left.
pub(crate) fn after_results(
    alloc: Global,
    view: &View,
    page: &Page<u32>,
    query: &Query,
) -> Result<Option<Bytes>, AllocError>
    requires there { All (HasResult (world_of view.now)) page.now.rows.now }
    requires some { page.now.more ≡ true → 0 < length page.now.rows.now }
    ensures next { IfOk result (λ next. (after : Option ResultPlace) → next
        ≡ (if page.now.more then option_map (result_token query.now)
        (last_key by_result (result_place (world_of view.now)) after page.now.rows.now)
        else None)) }
    ensures read { IfOk result (λ next.
        (after : Option ResultPlace) (place : ResultPlace) (text : List ℕ) → next ≡ Some text
        → last_key by_result (result_place (world_of view.now)) after page.now.rows.now
        ≡ Some place → IsResultReadAs query.now place text) }
{
    match page.rows.last() {
        Some(place) if page.more => Ok(Some(result_token(alloc, view, *place, query)?)),
        _ => Ok(None),
    }
}
