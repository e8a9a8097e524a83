//! The keys of verdicts and of results.
ghost use Rattle.std.specs.Prelude.{◌≡◌};
ghost use Rattle.verdict_lists.specs.Verdicts.{verdict_key as key_of_results};
ghost use Rattle.verdict_lists.specs.World.{world_of};
ghost use Rattle.verdict_pages.specs.Keys.{by_result, by_verdict, place_seen, result_place, result_seen, verdict_place};

use std::cmp::Ordering;
use verdict_lists::{Verdict, View};

/// Where a verdict stands in a list, as the cursor of a page tells it.
#[derive(Clone, Copy)]
pub struct VerdictKey<'a> {
    /// The number of its status.
    pub status: u8,
    /// The id of its test.
    pub test: &'a str,
    /// The label of its variant.
    pub label: [u8; 16],
    pub ordinal: u32,
}

/// The id of the test of a verdict.
fn test_of<'a>(view: &View<'a>, verdict: &Verdict) -> &'a str
    ensures { result.now ≡ (key_of_results (world_of view.now) verdict.now).test }
{
    let rows = view.results;
    match verdict.results.as_slice().first() {
        Some(place) => match rows.rows().get(*place as usize) {
            Some(row) => row.test.as_str(),
            None => "",
        },
        None => "",
    }
}

/// The key of a verdict.
pub fn verdict_key<'a>(view: &View<'a>, verdict: &Verdict) -> VerdictKey<'a>
    ensures { place_seen result ≡ verdict_place (world_of view.now) verdict.now }
{
    VerdictKey {
        status: verdict.status.number(),
        test: test_of(view, verdict),
        label: verdict.label,
        ordinal: verdict.ordinal,
    }
}

/// Two keys, by status, test, label and ordinal.
pub(crate) fn compare(a: &VerdictKey, b: &VerdictKey) -> Ordering
    ensures { result ≡ by_verdict (place_seen a.now) (place_seen b.now) }
{
    let ordinals = a.ordinal.cmp(&b.ordinal);
    let labels = a.label.as_slice().cmp(b.label.as_slice());
    let tests = a.test.cmp(b.test);
    a.status
        .cmp(&b.status)
        .then(tests.then(labels.then(ordinals)))
}

/// Where a result stands in a list, as the cursor of a page tells it.
#[derive(Clone, Copy)]
pub struct ResultKey<'a> {
    /// The id of the invocation that holds it.
    pub invocation: &'a str,
    /// The id of its test.
    pub test: &'a str,
    /// Its own id.
    pub result: &'a str,
}

/// The key of the result at a place.
pub fn result_key<'a>(view: &View<'a>, place: u32) -> ResultKey<'a>
    ensures { result_seen result ≡ result_place (world_of view.now) place }
{
    let rows = view.results;
    match rows.rows().get(place as usize) {
        Some(row) => ResultKey {
            invocation: view.invocation_id(row.holder),
            test: row.test.as_str(),
            result: row.result.as_str(),
        },
        None => ResultKey {
            invocation: "",
            test: "",
            result: "",
        },
    }
}

/// Two keys, by invocation, test and result.
pub(crate) fn compare_results(a: &ResultKey, b: &ResultKey) -> Ordering
    ensures { result ≡ by_result (result_seen a.now) (result_seen b.now) }
{
    let tests = a.test.cmp(b.test);
    let results = a.result.cmp(b.result);
    a.invocation.cmp(b.invocation).then(tests.then(results))
}
