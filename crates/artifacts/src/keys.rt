//! The places of artifacts, kept in the order of their keys.
ghost use Rattle.std.specs.Prelude.{◌≡◌, ◌≤◌, ◌<◌, ◌+◌, MatchOption, length, vec_len, vec_capacity};
ghost use Rattle.std.specs.List.Sorted.{IsPartitionPoint};
ghost use Rattle.std.specs.declared.cmp.Ordering.TheVariants.{Less, Greater};
ghost use Rattle.artifacts.specs.Artifacts.{HasKey, IsPlaceOf, key_of, keys_of, named};
ghost use Rattle.artifacts.specs.Batches.{AreOnce, IsRepeat};
ghost use Rattle.lists.specs.Orders.{IsRising, IsSlot};
ghost use Rattle.artifacts.specs.Orders.{IsFrontIndex, IsKeyIndex, id_at, key_at, invocation_of};
ghost use Rattle.artifacts.specs.Orders.{order_at, parent_at, parent_order, parts_order, places_order, rank_of};
ghost use Rattle.artifacts.specs.Orders.{result_of, test_of};

use crate::artifact::Artifact;
use names_realms::{ArtifactName, Parent};
use std::cmp::Ordering;

/// Two rows of a request with the same key.
#[derive(Clone, Copy)]
pub(crate) struct Repeat {
    pub(crate) first: usize,
    pub(crate) second: usize,
}

/// What parents are put in order by.
#[derive(Clone, Copy)]
struct Parts<'a> {
    rank: u8,
    invocation: &'a str,
    test: &'a str,
    result: &'a str,
}

/// What a parent is put in order by: invocations stand before results.
fn parts_of(parent: &Parent) -> Parts<'_>
    ensures rank { result.rank ≡ rank_of parent.now }
    ensures invocation { result.invocation.now ≡ invocation_of parent.now }
    ensures test { result.test.now ≡ test_of parent.now }
    ensures id { result.result.now ≡ result_of parent.now }
{
    match parent {
        Parent::Invocation(id) => Parts {
            rank: 0,
            invocation: id.as_str(),
            test: "",
            result: "",
        },
        Parent::Result(name) => Parts {
            rank: 1,
            invocation: name.invocation.as_str(),
            test: name.test.as_str(),
            result: name.result.as_str(),
        },
    }
}

/// What a parent is put in order by, compared with another parent.
fn compare_parts(parts: Parts<'_>, parent: &Parent) -> Ordering
    ensures { result
        ≡ parts_order parts.entry.rank parts.entry.invocation.now parts.entry.test.now
        parts.entry.result.now parent.now }
{
    let other = parts_of(parent);
    parts
        .rank
        .cmp(&other.rank)
        .then(parts.invocation.cmp(other.invocation))
        .then(parts.test.cmp(other.test))
        .then(parts.result.cmp(other.result))
}

/// The parent of the row at a place, compared with a parent. Where there is no row it is an
/// invocation with an empty id.
pub(crate) fn compare_parent(rows: &[Artifact], place: u32, parent: &Parent) -> Ordering
    ensures { result ≡ parent_order (parent_at (keys_of rows.now) place) parent.now }
{
    match rows.get(place as usize) {
        Some(row) => compare_parts(parts_of(&row.name.parent), parent),
        None => compare_parts(
            Parts {
                rank: 0,
                invocation: "",
                test: "",
                result: "",
            },
            parent,
        ),
    }
}

/// The id of the row at a place; none where there is no row.
pub(crate) fn id_of(rows: &[Artifact], place: u32) -> &str
    ensures { result.now ≡ id_at (keys_of rows.now) place }
{
    match rows.get(place as usize) {
        Some(row) => row.name.artifact.as_str(),
        None => "",
    }
}

/// The holder of the row at a place; 0 where there is no row.
fn holder_of(rows: &[Artifact], place: u32) -> u32
    ensures { result ≡ (key_at (keys_of rows.now) place).holder }
{
    match rows.get(place as usize) {
        Some(row) => row.holder,
        None => 0,
    }
}

/// The key of the row at a place, compared with a key.
fn compare(rows: &[Artifact], place: u32, holder: u32, name: &ArtifactName) -> Ordering
    ensures { result ≡ order_at (keys_of rows.now) (named holder name.now) place }
{
    holder_of(rows, place)
        .cmp(&holder)
        .then(compare_parent(rows, place, &name.parent))
        .then(id_of(rows, place).cmp(name.artifact.as_str()))
}

/// Where the place of a key stands, or where it would go.
fn search(
    places: &[u32],
    rows: &[Artifact],
    holder: u32,
    name: &ArtifactName,
) -> Result<usize, usize>
    requires { IsRising (places_order (keys_of rows.now)) places.now }
    ensures { IsSlot (order_at (keys_of rows.now) (named holder name.now)) places.now
        result }
{
    places.binary_search_by(|place| compare(rows, *place, holder, name))
}

/// The place of the row with a key, among those of its holder.
pub(crate) fn place_of(
    places: &[u32],
    rows: &[Artifact],
    holder: u32,
    name: &ArtifactName,
) -> Option<u32>
    requires { IsKeyIndex (keys_of rows.now) holder places.now }
    ensures { MatchOption result (¬ HasKey rows.now (named holder name.now))
        (IsPlaceOf rows.now (named holder name.now)) }
{
    match search(places, rows, holder, name) {
        Ok(at) => Some(places[at]),
        Err(_) => None,
    }
}

/// Where the place of a row goes, among those of its holder. No row has its key.
pub(crate) fn slot_of(places: &[u32], rows: &[Artifact], row: &Artifact) -> usize
    requires index { IsKeyIndex (keys_of rows.now) row.now.holder places.now }
    requires free { ¬ HasKey rows.now (key_of row.now) }
    ensures within { result ≤ length places.now }
    ensures parts { IsPartitionPoint
        (λ place. order_at (keys_of rows.now) (key_of row.now) place ≡ Less)
        (λ place. order_at (keys_of rows.now) (key_of row.now) place ≡ Greater)
        places.now result }
{
    match search(places, rows, row.holder, &row.name) {
        Ok(at) => at,
        Err(at) => at,
    }
}

/// Adds the next place of a batch to those before it, or else gives the earlier one with its key.
fn add_next(order: &mut Vec<u32>, rows: &[Artifact], next: usize) -> Option<u32>
    requires index { IsFrontIndex (keys_of rows.now) next order.old.items }
    requires once { AreOnce rows.now next }
    requires within { next < length rows.now }
    requires few { length rows.now ≤ 500 }
    requires room { vec_len order.old < vec_capacity order.old }
    ensures index { MatchOption result
        (IsFrontIndex (keys_of rows.now) (next + 1) order.new.items)
        (λ first. IsRepeat rows.now first next) }
    ensures once { MatchOption result (AreOnce rows.now (next + 1)) (λ first. first < next) }
    ensures capacity { vec_capacity order.old ≤ vec_capacity order.new }
{
    let row = &rows[next];
    match search(order.as_slice(), rows, row.holder, &row.name) {
        Ok(at) => Some(order[at]),
        Err(at) => {
            let _ = order.insert(at, next as u32);
            None
        }
    }
}

/// The first two rows with the same key: the least second one, and the one before it that has its
/// key. `order` has room for as many places as there are rows.
pub(crate) fn first_repeat(order: &mut Vec<u32>, rows: &[Artifact]) -> Option<Repeat>
    requires few { length rows.now ≤ 500 }
    requires room { 500 ≤ vec_capacity order.old }
    ensures repeat { MatchOption result (AreOnce rows.now (length rows.now))
        (λ repeat. IsRepeat rows.now repeat.first repeat.second) }
    ensures capacity { vec_capacity order.old ≤ vec_capacity order.new }
{
    order.clear();
    for next in 0..rows.len() {
        if let Some(first) = add_next(order, rows, next) {
            return Some(Repeat {
                first: first as usize,
                second: next,
            });
        }
    }
    None
}
