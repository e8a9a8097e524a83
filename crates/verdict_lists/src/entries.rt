//! The reached results and exonerations, in one list.
ghost use Rattle.std.specs.Prelude.{◌≡◌, ◌++◌, IfOk, OnOk, IsPermutation, IsSorted, map};
ghost use Rattle.verdict_lists.specs.Entries.{AreReached, entries_in, entries_of, entry_order, number_order};
ghost use Rattle.lists.specs.Orders.{IsRising};
ghost use Rattle.verdict_lists.specs.World.{AreRoots, IsWhole, world_of};

use crate::keys::compare_keys;
use crate::view::View;
use std::alloc::{AllocError, Global};
use std::cmp::Ordering;

/// The place of a result or of an exoneration.
#[derive(Clone, Copy)]
pub(crate) enum Entry {
    Result(u32),
    Exoneration(u32),
}

/// Two entries, results first and then by places.
fn compare_numbers(a: Entry, b: Entry) -> Ordering
    ensures { result ≡ number_order a b }
{
    match (a, b) {
        (Entry::Result(p), Entry::Result(q)) => p.cmp(&q),
        (Entry::Result(_), Entry::Exoneration(_)) => Ordering::Less,
        (Entry::Exoneration(_), Entry::Result(_)) => Ordering::Greater,
        (Entry::Exoneration(p), Entry::Exoneration(q)) => p.cmp(&q),
    }
}

/// Two entries, by their keys.
fn compare_entries(view: &View, a: Entry, b: Entry) -> Ordering
    ensures { result ≡ entry_order (world_of view.now) a b }
{
    compare_keys(&view.key(a), &view.key(b)).then(compare_numbers(a, b))
}

/// Appends results at these places.
fn add_results(entries: &mut Vec<Entry>, places: &[u32]) -> Result<(), AllocError>
    ensures { OnOk result (entries.new.items ≡ entries.old.items ++ map Entry.Result places.now) }
{
    entries.reserve(places.len())?;
    for place in places {
        entries.push(Entry::Result(*place))?;
    }
    Ok(())
}

/// Appends exonerations at these places.
fn add_exonerations(entries: &mut Vec<Entry>, places: &[u32]) -> Result<(), AllocError>
    ensures { OnOk result
        (entries.new.items ≡ entries.old.items ++ map Entry.Exoneration places.now) }
{
    entries.reserve(places.len())?;
    for place in places {
        entries.push(Entry::Exoneration(*place))?;
    }
    Ok(())
}

/// Appends what an invocation holds.
fn add_held(entries: &mut Vec<Entry>, view: &View, holder: u32) -> Result<(), AllocError>
    ensures { OnOk result
        (entries.new.items ≡ entries.old.items ++ entries_in (world_of view.now) holder) }
{
    add_results(entries, view.results.rows_of(holder))?;
    add_exonerations(entries, view.exonerations.rows_of(holder))
}

/// What these invocations hold.
fn held_by(alloc: Global, view: &View, holders: &[u32]) -> Result<Vec<Entry>, AllocError>
    ensures { IfOk result
        (λ entries. entries.items ≡ entries_of (world_of view.now) holders.now) }
{
    let mut entries = Vec::new(alloc);
    for holder in holders {
        add_held(&mut entries, view, *holder)?;
    }
    Ok(entries)
}

/// Puts entries in order.
fn put_in_order(view: &View, entries: &mut Vec<Entry>)
    ensures permutation { IsPermutation entries.old.items entries.new.items }
    ensures sorted { IsSorted (entry_order (world_of view.now)) entries.new.items }
{
    entries.sort_unstable_by(|a, b| compare_entries(view, *a, *b));
}

/// All that is reached from some invocations, in order, each result and exoneration once. It goes
/// over what they reach alone.
pub(crate) fn reached(alloc: Global, view: &View, roots: &[u32]) -> Result<Vec<Entry>, AllocError>
    requires whole { IsWhole view.now }
    requires roots { AreRoots (world_of view.now) roots.now }
    ensures { IfOk result
        (λ entries. AreReached (world_of view.now) roots.now entries.items) }
{
    let holders = view.graph.reach(alloc, roots)?;
    let mut entries = held_by(alloc, view, holders.as_slice())?;
    put_in_order(view, &mut entries);
    Ok(entries)
}
