//! The texts of replies to queries.
ghost use Rattle.std.specs.Prelude.{◌≡◌, IfOk};
ghost use Rattle.std.specs.Ordering.{nat_cmp};
ghost use Rattle.std.specs.Cmp.Lexicographic.{slice_cmp};
ghost use Rattle.std.specs.declared.cmp.Ordering.TheVariants.{Greater};
ghost use Rattle.query_pages.specs.Seen.{seen_held, seen_rows, seen_verdicts};
ghost use Rattle.query_replies.specs.Names.{next_page_token};
ghost use Rattle.query_replies.specs.Pages.{page_data, reply_of, results_page, verdicts_page};
ghost use Rattle.query_replies.specs.Results.{seen_data};

use crate::names::{test_results, test_variants};
use crate::results::held_value;
use crate::verdicts::verdict_value;
use crate::writing::{Row, append_list, append_token, append_value};
use json_fields::Name;
use lists::Bytes;
use query_pages::{HeldResult, ShownRows, ShownVerdict, ShownVerdicts};
use serde_json::Value;
use std::alloc::{AllocError, Global};

impl<'a> Row for HeldResult<'a> {
    ghost use Rattle.query_pages.specs.Seen.{seen_held};
    ghost use Rattle.query_replies.specs.Results.{seen_data};

    ghost shows = { λ held. seen_data (seen_held held) };

    #[tactic(auto, using(crate::proofs::PlainLaws::seen_no_float))]
    fn row_value(&self, alloc: Global) -> Result<Value, AllocError> {
        held_value(alloc, self)
    }
}

impl<'a> Row for ShownVerdict<'a> {
    ghost use Rattle.query_pages.specs.Seen.{seen_verdict};
    ghost use Rattle.query_replies.specs.Verdicts.{verdict_data};

    ghost shows = { λ verdict. verdict_data (seen_verdict verdict) };

    #[tactic(auto, using(crate::proofs::PlainLaws::verdict_no_float))]
    fn row_value(&self, alloc: Global) -> Result<Value, AllocError> {
        verdict_value(alloc, self)
    }
}

/// The text of a page of rows under a name, which stands behind the token's.
fn page_text<T: Row>(
    alloc: Global,
    name: &Name,
    rows: &[T],
    next: &Option<Bytes>,
) -> Result<Bytes, AllocError>
    requires { slice_cmp nat_cmp name.now.camel next_page_token.camel ≡ Greater }
    ensures { IfOk result (λ text.
        text ≡ reply_of (page_data name.now T.shows rows.now next.now)) }
{
    let mut out = Vec::from_slice(alloc, b")]}'\n{")?;
    let later = append_token(alloc, &mut out, next)?;
    append_list(alloc, &mut out, later, name, rows)?;
    out.push(b'}')?;
    Ok(Bytes::new(out))
}

/// The text of a reply that shows one result. `Err` where there is no memory for it.
pub fn write_result(alloc: Global, held: &HeldResult) -> Result<Bytes, AllocError>
    ensures { IfOk result (λ text. text ≡ reply_of (seen_data (seen_held held.now))) }
{
    let value = held_value(alloc, held)?;
    let mut out = Vec::from_slice(alloc, b")]}'\n")?;
    append_value(alloc, &mut out, &value)?;
    Ok(Bytes::new(out))
}

/// The text of a reply that shows a page of results. `Err` where there is no memory for it.
pub fn write_results_page(alloc: Global, page: &ShownRows) -> Result<Bytes, AllocError>
    ensures { IfOk result (λ text. text ≡ reply_of (results_page (seen_rows page.now))) }
{
    page_text(alloc, &test_results(), page.rows.as_slice(), &page.next)
}

/// The text of a reply that shows a page of verdicts. `Err` where there is no memory for it.
pub fn write_verdicts_page(alloc: Global, page: &ShownVerdicts) -> Result<Bytes, AllocError>
    ensures { IfOk result (λ text. text ≡ reply_of (verdicts_page (seen_verdicts page.now))) }
{
    page_text(
        alloc,
        &test_variants(),
        page.verdicts.as_slice(),
        &page.next,
    )
}
