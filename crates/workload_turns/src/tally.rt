//! What is counted.
ghost use Rattle.std.specs.Prelude.{◌≡◌, ◌+◌, ◌∷◌, ◌++◌, [], ℕ, List, map};
ghost use Rattle.serde_json.specs.View.{view};
ghost use Rattle.serde_json.specs.Data.{Data};
ghost use Rattle.workload_turns.specs.Tallies.{has_status, how_many, tally_of};

use serde_json::Value;

/// What a run counts, each number up to the greatest.
#[derive(Clone, Copy, Debug, PartialEq, Eq)]
pub struct Tally {
    /// The requests that were asked.
    pub requests: u64,
    /// The verdicts on all pages, and those of each status.
    pub verdicts: u64,
    pub unexpected: u64,
    pub skipped: u64,
    pub flaky: u64,
    pub exonerated: u64,
    pub expected: u64,
}

/// Whether the status of a verdict is this one.
fn has_status(verdict: &Value, name: &str) -> bool
    ensures { result ≡ has_status name.now (view verdict.now) }
{
    match verdict.get("status") {
        Some(Value::String(status)) => status.as_str() == name,
        _ => false,
    }
}

/// How many verdicts have this status, where one more is counted.
fn counted(number: u64, verdict: &Value, name: &str) -> u64
    ensures { (verdicts : List Data) → number ≡ how_many name.now verdicts
        → result ≡ how_many name.now (verdicts ++ view verdict.now ∷ []) }
{
    if has_status(verdict, name) {
        number.saturating_add(1)
    } else {
        number
    }
}

impl Tally {
    /// Nothing is counted yet.
    pub(crate) fn nothing() -> Tally
        ensures { result ≡ tally_of 0 [] }
    {
        Tally {
            requests: 0,
            verdicts: 0,
            unexpected: 0,
            skipped: 0,
            flaky: 0,
            exonerated: 0,
            expected: 0,
        }
    }

    /// With one request more.
    pub(crate) fn count_request(&mut self)
        ensures { (requests : ℕ) (verdicts : List Data) → self.old ≡ tally_of requests verdicts
            → self.new ≡ tally_of (requests + 1) verdicts }
    {
        self.requests = self.requests.saturating_add(1);
    }

    /// With one verdict more.
    fn count_verdict(&mut self, verdict: &Value)
        ensures { (requests : ℕ) (before : List Data) → self.old ≡ tally_of requests before
            → self.new ≡ tally_of requests (before ++ view verdict.now ∷ []) }
    {
        let before = *self;
        *self = Tally {
            requests: before.requests,
            verdicts: before.verdicts.saturating_add(1),
            unexpected: counted(before.unexpected, verdict, "UNEXPECTED"),
            skipped: counted(before.skipped, verdict, "UNEXPECTEDLY_SKIPPED"),
            flaky: counted(before.flaky, verdict, "FLAKY"),
            exonerated: counted(before.exonerated, verdict, "EXONERATED"),
            expected: counted(before.expected, verdict, "EXPECTED"),
        };
    }

    /// With the verdicts of a list more.
    pub(crate) fn count_verdicts(&mut self, verdicts: &[Value])
        ensures { (requests : ℕ) (before : List Data) → self.old ≡ tally_of requests before
            → self.new ≡ tally_of requests (before ++ map view verdicts.now) }
    {
        for verdict in verdicts {
            self.count_verdict(verdict);
        }
    }
}
