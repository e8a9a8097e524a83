//! The realm that reaches itself, of several the one with the least name.
ghost use Rattle.std.specs.Prelude.{◌≡◌, ◌↔◌, ◌<◌, ◌≤◌, ℕ, true, false, OnOk, IfOk, MatchOption, length};
ghost use Rattle.std.specs.Prelude.{slice_index_or, nat_le, nat_lt};
ghost use Rattle.std.specs.List.{list_all};
ghost use Rattle.permissions.specs.Graph.{IsGraph, ReachesOn, has, edges, graph_of};
ghost use Rattle.permissions.specs.Cycle.{IsLeastCycle, HasNoCycle};
ghost use Rattle.policy_reading.specs.CycleSearch.{IsStep, IsLeastBefore, label_at, AreFalling, IsRuledOut, name_at};
ghost use Rattle.policy_reading.specs.CycleSearch.{comes_first};

use crate::components::{label_places, number_at};
use crate::graph::reached_from;
use name_parts::Bytes;
use permissions::edges_of;
use policy_checks::Book;
use policy_tables::{Listed, RealmTable};
use std::alloc::{AllocError, Global};
use std::cmp::Ordering;

/// Whether a place is one of these.
fn is_among(places: &[usize], place: usize) -> bool
    ensures { result ≡ has place places.now }
{
    places.iter().any(|p| *p == place)
}

/// Whether a place is reached from itself.
fn leads_back(alloc: Global, graph: &[Listed<usize>], place: usize) -> Result<bool, AllocError>
    requires { IsGraph graph.now }
    ensures { IfOk result (λ b. (b ≡ true) ↔ ReachesOn graph.now place place) }
{
    let found = reached_from(alloc, graph, place)?;
    Ok(is_among(found.as_slice(), place))
}

/// Whether the labels of these places are at most this one.
fn all_at_most(labels: &[usize], places: &[usize], label: usize) -> bool
    ensures { result ≡ list_all (λ q. nat_le (label_at labels.now q) label) places.now }
{
    places
        .iter()
        .all(|place| number_at(labels, *place) <= label)
}

/// Whether the labels of these places are less than this one.
fn all_below(labels: &[usize], places: &[usize], label: usize) -> bool
    ensures { result ≡ list_all (λ q. nat_lt (label_at labels.now q) label) places.now }
{
    places.iter().all(|place| number_at(labels, *place) < label)
}

/// Whether no edge leads to a greater label.
fn are_falling(labels: &[usize], graph: &[Listed<usize>]) -> bool
    ensures { result ≡ true → AreFalling graph.now labels.now }
{
    for place in 0..graph.len() {
        if !all_at_most(labels, edges_of(graph, place), number_at(labels, place)) {
            return false;
        }
    }
    true
}

/// Marks places that aren't reached from themselves: those whose edges all lead to lesser labels,
/// where no edge leads to a greater one.
fn rule_out(alloc: Global, graph: &[Listed<usize>]) -> Result<Vec<bool>, AllocError>
    ensures len { IfOk result (λ out. length out.items ≡ length graph.now) }
    ensures out { IfOk result (λ out. IsRuledOut graph.now out.items) }
{
    let labels = label_places(alloc, graph)?;
    let labels = labels.as_slice();
    let falling = are_falling(labels, graph);
    let mut out = Vec::new(alloc);
    for place in 0..graph.len() {
        out.push(falling && all_below(labels, edges_of(graph, place), number_at(labels, place)))?;
    }
    Ok(out)
}

/// The name of the realm at a place.
fn name_of_place(realms: &[RealmTable], place: usize) -> &[u8]
    ensures { result.now ≡ name_at realms.now place }
{
    match realms.get(place) {
        Some(realm) => realm.name.as_slice(),
        None => &[],
    }
}

/// Whether the name at a place comes before that of the place that is kept.
fn is_first(realms: &[RealmTable], place: usize, kept: Option<usize>) -> bool
    ensures { result ≡ comes_first realms.now place kept }
{
    match kept {
        None => true,
        Some(kept) => {
            let name = name_of_place(realms, place);
            name.cmp(name_of_place(realms, kept)) == Ordering::Less
        }
    }
}

/// The place to keep of this one and the one before.
fn better_place(
    alloc: Global,
    graph: &[Listed<usize>],
    realms: &[RealmTable],
    place: usize,
    kept: Option<usize>,
) -> Result<Option<usize>, AllocError>
    requires { IsGraph graph.now }
    ensures { IfOk result (IsStep graph.now realms.now place kept) }
{
    if is_first(realms, place, kept) && leads_back(alloc, graph, place)? {
        return Ok(Some(place));
    }
    Ok(kept)
}

/// The place of the least name of those that are reached from themselves. Names come in their
/// order, and what isn't reached from itself is ruled out before, so that one place is tried.
fn least_back(
    alloc: Global,
    graph: &[Listed<usize>],
    realms: &[RealmTable],
) -> Result<Option<usize>, AllocError>
    requires graph { IsGraph graph.now }
    requires len { length realms.now ≡ length graph.now }
    ensures { IfOk result (IsLeastBefore graph.now realms.now (length realms.now)) }
{
    let out = rule_out(alloc, graph)?;
    let mut kept = None;
    for place in 0..realms.len() {
        if !out[place] {
            kept = better_place(alloc, graph, realms, place, kept)?;
        }
    }
    Ok(kept)
}

/// The name of the realm that reaches itself by `extends`, of several the least.
pub(crate) fn first_cycle(
    alloc: Global,
    book: &Book,
    graph: &[Listed<usize>],
) -> Result<Option<Bytes>, AllocError>
    requires { graph.now ≡ graph_of book.now }
    ensures { IfOk result
        (λ least. MatchOption least (HasNoCycle book.now) (λ name. IsLeastCycle book.now name)) }
{
    let realms = book.tables().realms.as_slice();
    match least_back(alloc, graph, realms)? {
        Some(place) => {
            let name = Bytes::from_slice(alloc, name_of_place(realms, place))?;
            Ok(Some(name))
        }
        None => Ok(None),
    }
}
