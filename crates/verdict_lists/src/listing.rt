//! The list of reached results.
ghost use Rattle.std.specs.Prelude.{◌≡◌, IfOk, IsPermutation, IsSorted};
ghost use Rattle.verdict_lists.specs.Listing.{AreListed, listed_order};
ghost use Rattle.verdict_lists.specs.World.{AreRoots, IsWhole, world_of};

use crate::entries::reached;
use crate::groups::results_in;
use crate::view::View;
use std::alloc::{AllocError, Global};
use std::cmp::Ordering;

/// Two results, by the ids of invocation, test and result.
fn compare(view: &View, p: u32, q: u32) -> Ordering
    ensures { result ≡ listed_order (world_of view.now) p q }
{
    let a = view.result_key(p);
    let b = view.result_key(q);
    let ids = a.test.cmp(b.test).then(a.id.cmp(b.id));
    a.invocation.cmp(b.invocation).then(ids).then(p.cmp(&q))
}

/// Puts results in order.
fn put_in_order(view: &View, places: &mut Vec<u32>)
    ensures permutation { IsPermutation places.old.items places.new.items }
    ensures sorted { IsSorted (listed_order (world_of view.now)) places.new.items }
{
    places.sort_unstable_by(|p, q| compare(view, *p, *q));
}

/// The places of all results that are reached from some invocations, by the ids of invocation, test
/// and result. It goes over what is reached alone. `Err` where there is no memory.
pub fn list_results(alloc: Global, view: &View, roots: &[u32]) -> Result<Vec<u32>, AllocError>
    requires whole { IsWhole view.now }
    requires roots { AreRoots (world_of view.now) roots.now }
    ensures { IfOk result (λ places. AreListed (world_of view.now) roots.now places.items) }
{
    let entries = reached(alloc, view, roots)?;
    let mut places = results_in(alloc, entries.as_slice())?;
    put_in_order(view, &mut places);
    Ok(places)
}
