//! The status of results.
ghost use Rattle.std.specs.Prelude.{◌≡◌, ◌&&◌, ◌∷◌, []};
ghost use Rattle.std.specs.List.{list_all};
ghost use Rattle.verdict_lists.specs.Statuses.{is_expected, is_skip, is_skipped, is_unexpected, status_of};
ghost use Rattle.verdict_lists.specs.World.{results_at};

use crate::verdict::VerdictStatus;
use names_realms::Status;
use test_results::TestResult;

/// What is so of all results.
#[derive(Clone, Copy)]
struct Tally {
    unexpected: bool,
    skipped: bool,
    expected: bool,
}

/// Whether a test was skipped.
fn is_skip(status: Status) -> bool
    ensures { result ≡ is_skip status }
{
    match status {
        Status::Skip => true,
        Status::Pass | Status::Fail | Status::Crash | Status::Abort => false,
    }
}

/// What is so of all results so far, and of the one at a place.
fn tally_with(tally: Tally, rows: &[TestResult], place: u32) -> Tally
    ensures unexpected { result.unexpected
        ≡ (tally.unexpected && list_all is_unexpected (results_at rows.now (place ∷ []))) }
    ensures skipped { result.skipped
        ≡ (tally.skipped && list_all is_skipped (results_at rows.now (place ∷ []))) }
    ensures expected { result.expected
        ≡ (tally.expected && list_all is_expected (results_at rows.now (place ∷ []))) }
{
    match rows.get(place as usize) {
        Some(row) => Tally {
            unexpected: tally.unexpected & !row.expected,
            skipped: tally.skipped & is_skip(row.status),
            expected: tally.expected & row.expected,
        },
        None => tally,
    }
}

/// What is so of all results at these places.
fn tally_of(rows: &[TestResult], places: &[u32]) -> Tally
    ensures unexpected { result.unexpected
        ≡ list_all is_unexpected (results_at rows.now places.now) }
    ensures skipped { result.skipped ≡ list_all is_skipped (results_at rows.now places.now) }
    ensures expected { result.expected ≡ list_all is_expected (results_at rows.now places.now) }
{
    let mut tally = Tally {
        unexpected: true,
        skipped: true,
        expected: true,
    };
    for place in places {
        tally = tally_with(tally, rows, *place);
    }
    tally
}

/// The status of the results at these places.
pub(crate) fn status_of(rows: &[TestResult], places: &[u32], exonerated: bool) -> VerdictStatus
    ensures { result ≡ status_of exonerated (results_at rows.now places.now) }
{
    let tally = tally_of(rows, places);
    if exonerated {
        VerdictStatus::Exonerated
    } else if tally.unexpected && tally.skipped {
        VerdictStatus::UnexpectedlySkipped
    } else if tally.unexpected {
        VerdictStatus::Unexpected
    } else if tally.expected {
        VerdictStatus::Expected
    } else {
        VerdictStatus::Flaky
    }
}
