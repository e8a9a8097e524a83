//! The order of verdicts, and their ordinals.
ghost use Rattle.std.specs.Prelude.{◌≡◌, ◌<◌, ◌≤◌, [], Some, OnOk, IsPermutation, IsSorted, length, take, map};
ghost use Rattle.std.specs.Prelude.{slice_get, count_by};
ghost use Rattle.verdict_lists.specs.Groups.{plain};
ghost use Rattle.verdict_lists.specs.declared.verdict.Verdict.{Verdict};
ghost use Rattle.verdict_lists.specs.Verdicts.{AreNumbered, first_key, fronts_order, is_like, verdict_order};
ghost use Rattle.verdict_lists.specs.Entries.{seen};
ghost use Rattle.lists.specs.Orders.{IsRising};
ghost use Rattle.verdict_lists.specs.World.{world_of};

use crate::keys::{Key, compare_pairs, no_key};
use crate::verdict::Verdict;
use crate::view::View;
use std::alloc::AllocError;
use std::cmp::Ordering;

/// How many verdicts there may be: as many as there are ordinals.
const MOST_VERDICTS: usize = 4_294_967_295;

/// What the first of the results at these places is put in order by.
fn first_key<'a>(view: &View<'a>, places: &[u32]) -> Key<'a>
    ensures { seen result ≡ first_key (world_of view.now) places.now }
{
    match places.first() {
        Some(place) => view.result_key(*place),
        None => no_key(),
    }
}

/// Two verdicts with these keys, by status, test and label.
fn compare_fronts(a: &Verdict, a_test: &str, b: &Verdict, b_test: &str) -> Ordering
    ensures { result ≡ fronts_order a.now a_test.now b.now b_test.now }
{
    let labels = a.label.as_slice().cmp(b.label.as_slice());
    let tests = a_test.cmp(b_test);
    a.status
        .number()
        .cmp(&b.status.number())
        .then(tests.then(labels))
}

/// Two verdicts, by status, test, label and pairs.
fn compare(view: &View, a: &Verdict, b: &Verdict) -> Ordering
    ensures { result ≡ verdict_order (world_of view.now) a.now b.now }
{
    let a_key = first_key(view, a.results.as_slice());
    let b_key = first_key(view, b.results.as_slice());
    compare_fronts(a, a_key.test, b, b_key.test).then(compare_pairs(a_key.pairs, b_key.pairs))
}

/// Whether two verdicts have the same status, test and label.
fn is_like(view: &View, a: &Verdict, b: &Verdict) -> bool
    ensures { result ≡ is_like (world_of view.now) a.now b.now }
{
    let a_key = first_key(view, a.results.as_slice());
    let b_key = first_key(view, b.results.as_slice());
    compare_fronts(a, a_key.test, b, b_key.test) == Ordering::Equal
}

/// Puts verdicts in order.
pub(crate) fn put_in_order(view: &View, verdicts: &mut Vec<Verdict>)
    ensures permutation { IsPermutation verdicts.old.items verdicts.new.items }
    ensures sorted { IsSorted (verdict_order (world_of view.now)) verdicts.new.items }
{
    verdicts.sort_unstable_by(|a, b| compare(view, a, b));
}

/// The ordinal of the verdict at a place, where those before it have theirs.
fn ordinal_at(view: &View, verdicts: &[Verdict], at: usize) -> u32
    requires rise { IsRising (verdict_order (world_of view.now)) verdicts.now }
    requires within { at < length verdicts.now }
    requires few { length verdicts.now ≤ 4_294_967_295 }
    requires before { AreNumbered (world_of view.now) [] (take at verdicts.now) }
    ensures { (verdict : Verdict) → slice_get verdicts.now at ≡ Some verdict
        → result ≡ count_by (is_like (world_of view.now) verdict) (take at verdicts.now) }
{
    if at == 0 {
        return 0;
    }
    let last = &verdicts[at - 1];
    if is_like(view, last, &verdicts[at]) {
        last.ordinal + 1
    } else {
        0
    }
}

/// Numbers verdicts that are in order. `Err` where there are more than can be numbered.
pub(crate) fn number(view: &View, verdicts: &mut Vec<Verdict>) -> Result<(), AllocError>
    requires { IsRising (verdict_order (world_of view.now)) verdicts.old.items }
    ensures plain { OnOk result
        (map plain verdicts.new.items ≡ map plain verdicts.old.items) }
    ensures numbered { OnOk result
        (AreNumbered (world_of view.now) [] verdicts.new.items) }
{
    if verdicts.len() > MOST_VERDICTS {
        return Err(AllocError);
    }
    for at in 0..verdicts.len() {
        let ordinal = ordinal_at(view, verdicts.as_slice(), at);
        let verdict = &mut verdicts[at];
        verdict.ordinal = ordinal;
    }
    Ok(())
}
