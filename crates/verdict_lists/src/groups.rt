//! Entries of one test and variant, and their verdicts.
ghost use Rattle.std.specs.Prelude.{◌≡◌, ◌++◌, ◌∷◌, [], IfOk, OnOk};
ghost use Rattle.std.specs.List.{prefix_len};
ghost use Rattle.std.specs.Option.{option_to_list};
ghost use Rattle.verdict_lists.specs.Entries.{entry_order};
ghost use Rattle.verdict_lists.specs.Groups.{AreGrouped, exonerations_in, is_same, label_at, made_of, results_in};
ghost use Rattle.lists.specs.Orders.{IsRising};
ghost use Rattle.verdict_lists.specs.World.{world_of};

use crate::entries::Entry;
use crate::keys::compare_groups;
use crate::status::status_of;
use crate::verdict::Verdict;
use crate::view::View;
use lists::Numbers;
use std::alloc::{AllocError, Global};
use std::cmp::Ordering;
use test_results::TestResult;

/// Whether two entries are of one test and variant.
fn is_same(view: &View, a: Entry, b: Entry) -> bool
    ensures { result ≡ is_same (world_of view.now) a b }
{
    compare_groups(&view.key(a), &view.key(b)) == Ordering::Equal
}

/// How many entries in front are of the same test and variant as one.
fn run_len(view: &View, first: Entry, entries: &[Entry]) -> usize
    ensures { result ≡ prefix_len (is_same (world_of view.now) first) entries.now }
{
    for (at, entry) in entries.iter().enumerate() {
        if !is_same(view, first, *entry) {
            return at;
        }
    }
    entries.len()
}

/// Appends the place of a result.
fn add_result(places: &mut Vec<u32>, entry: Entry) -> Result<(), AllocError>
    ensures { OnOk result (places.new.items ≡ places.old.items ++ results_in (entry ∷ [])) }
{
    if let Entry::Result(place) = entry {
        places.push(place)?;
    }
    Ok(())
}

/// Appends the place of an exoneration.
fn add_exoneration(places: &mut Vec<u32>, entry: Entry) -> Result<(), AllocError>
    ensures { OnOk result (places.new.items ≡ places.old.items ++ exonerations_in (entry ∷ [])) }
{
    if let Entry::Exoneration(place) = entry {
        places.push(place)?;
    }
    Ok(())
}

/// The places of the results among entries.
pub(crate) fn results_in(alloc: Global, entries: &[Entry]) -> Result<Vec<u32>, AllocError>
    ensures { IfOk result (λ places. places.items ≡ results_in entries.now) }
{
    let mut places = Vec::with_capacity(alloc, entries.len())?;
    for entry in entries {
        add_result(&mut places, *entry)?;
    }
    Ok(places)
}

/// The places of the exonerations among entries, of which there are so many.
fn exonerations_in(alloc: Global, entries: &[Entry], count: usize) -> Result<Vec<u32>, AllocError>
    ensures { IfOk result (λ places. places.items ≡ exonerations_in entries.now) }
{
    let mut places = Vec::with_capacity(alloc, count)?;
    for entry in entries {
        add_exoneration(&mut places, *entry)?;
    }
    Ok(places)
}

/// The label of the first of the results at these places.
fn label_of(rows: &[TestResult], places: &[u32]) -> [u8; 16]
    ensures { result ≡ label_at rows.now places.now }
{
    match places.first() {
        Some(place) => match rows.get(*place as usize) {
            Some(row) => row.variant.label(),
            None => [0; 16],
        },
        None => [0; 16],
    }
}

/// The verdict of entries of one test and variant; none where no result is among them.
fn verdict_of(alloc: Global, view: &View, entries: &[Entry]) -> Result<Option<Verdict>, AllocError>
    ensures { IfOk result
        (λ verdict. option_to_list verdict ≡ made_of (world_of view.now) entries.now) }
{
    let results = results_in(alloc, entries)?;
    if results.is_empty() {
        return Ok(None);
    }
    let others = entries.len().saturating_sub(results.len());
    let exonerations = exonerations_in(alloc, entries, others)?;
    let rows = view.results.rows();
    Ok(Some(Verdict {
        status: status_of(rows, results.as_slice(), !exonerations.is_empty()),
        label: label_of(rows, results.as_slice()),
        results: Numbers::new(results),
        exonerations: Numbers::new(exonerations),
        ordinal: 0,
    }))
}

/// Appends the verdict of entries, if they have one.
fn add_verdict(
    alloc: Global,
    view: &View,
    entries: &[Entry],
    verdicts: &mut Vec<Verdict>,
) -> Result<(), AllocError>
    ensures { OnOk result (verdicts.new.items
        ≡ verdicts.old.items ++ made_of (world_of view.now) entries.now) }
{
    if let Some(verdict) = verdict_of(alloc, view, entries)? {
        verdicts.push(verdict)?;
    }
    Ok(())
}

/// A verdict for each test and variant of which a result is among the entries, which are in order.
pub(crate) fn verdicts_of(
    alloc: Global,
    view: &View,
    entries: &[Entry],
) -> Result<Vec<Verdict>, AllocError>
    requires { IsRising (entry_order (world_of view.now)) entries.now }
    ensures { IfOk result
        (λ verdicts. AreGrouped (world_of view.now) entries.now verdicts.items) }
{
    let mut verdicts = Vec::new(alloc);
    let mut left = entries;
    'groups: while let Some(first) = left.first() {
        let len = run_len(view, *first, left);
        let (run, rest) = left.split_at(len);
        add_verdict(alloc, view, run, &mut verdicts)?;
        left = rest;
    }
    Ok(verdicts)
}
