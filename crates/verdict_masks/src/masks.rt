//! What a caller is shown.
ghost use Rattle.std.specs.Prelude.{◌≡◌, ◌↔◌, IsTrue, MatchBool};
ghost use Rattle.verdict_lists.specs.World.{world_of};
ghost use Rattle.verdict_masks.specs.Masks.{IsMasked, IsWhole, MaySeeResult, ShowsVariant};

use crate::cuts::cut;
use crate::shown::ShownResult;
use permissions::{Granted, Permission};
use test_results::TestResult;
use verdict_lists::{Verdict, View};

/// A result as it is shown: whole to one who may see it so, else masked.
pub fn show(row: &TestResult, whole: bool) -> ShownResult<'_>
    ensures { MatchBool whole (IsWhole row.now result) (IsMasked row.now result) }
{
    let label = row.variant.label();
    let message = row.message.as_slice();
    if whole {
        return ShownResult {
            row,
            label,
            masked: false,
            message,
        };
    }
    ShownResult {
        row,
        label,
        masked: true,
        message: cut(message),
    }
}

/// Whether the result at a place may be seen whole: where seeing results is granted in the realm of
/// the invocation that holds it.
pub fn may_see(view: &View, place: u32, granted: &Granted) -> bool
    requires { granted.now.permission ≡ Permission.GetTestResult }
    ensures { IsTrue result
        ↔ MaySeeResult (world_of view.now) granted.now.policy granted.now.caller place }
{
    let Some(row) = view.results.rows().get(place as usize) else {
        return false;
    };
    match view.table.rows().get(row.holder as usize) {
        Some(holder) => granted.in_realm(&holder.realm),
        None => false,
    }
}

/// Whether a verdict shows its variant to a caller: where one of all its results may be seen whole.
pub fn shows_variant(view: &View, verdict: &Verdict, granted: &Granted) -> bool
    requires { granted.now.permission ≡ Permission.GetTestResult }
    ensures { IsTrue result
        ↔ ShowsVariant (world_of view.now) granted.now.policy granted.now.caller verdict.now }
{
    for place in verdict.results.as_slice() {
        if may_see(view, *place, granted) {
            return true;
        }
    }
    false
}
