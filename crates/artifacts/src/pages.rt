//! Pages of the artifacts of a parent.
ghost use Rattle.std.specs.Prelude.{◌≡◌, ◌≤◌, ◌<◌, ◌↔◌, true, false, length, take, option_map};
ghost use Rattle.std.specs.List.Sorted.{IsPartitionPoint};
ghost use Rattle.artifacts.specs.Artifacts.{keys_of};
ghost use Rattle.artifacts.specs.Cuts.{HaveOneHolder, before_at, every_id, is_shown, stands_before};
ghost use Rattle.lists.specs.Orders.{IsRising};
ghost use Rattle.artifacts.specs.Orders.{IsKeyIndex, places_order};
ghost use Rattle.artifacts.specs.Pages.{IsListing};

use crate::artifact::Artifact;
use crate::keys::{compare_parent, id_of};
use names_realms::{ArtifactId, Parent};
use std::cmp::Ordering;

/// Some of the artifacts of a parent, by id.
#[derive(Clone, Copy)]
pub struct ArtifactPage<'a> {
    /// Their places in the table.
    pub rows: &'a [u32],
    /// Whether there are more behind them.
    pub more: bool,
}

/// Whether an id was shown already: it is the last one that was, or comes before it.
fn was_shown(id: &str, after: Option<&ArtifactId>) -> bool
    ensures { result ≡ is_shown (option_map (λ a. a.now) after.entry) id.now }
{
    match after {
        Some(last) => id.cmp(last.as_str()).is_le(),
        None => false,
    }
}

/// By how a parent compares with another one; `same` where it is the same.
fn is_before(order: Ordering, same: bool) -> bool
    ensures { result ≡ before_at order same }
{
    match order {
        Ordering::Less => true,
        Ordering::Equal => same,
        Ordering::Greater => false,
    }
}

/// Whether the row at a place stands before the artifacts of a parent, or is one of them.
fn is_up_to(rows: &[Artifact], place: u32, parent: &Parent) -> bool
    ensures { result ≡ stands_before every_id (keys_of rows.now) parent.now place }
{
    is_before(compare_parent(rows, place, parent), true)
}

/// Whether the row at a place stands before the artifacts of a parent that are still to be shown.
fn is_in_front(rows: &[Artifact], place: u32, parent: &Parent, after: Option<&ArtifactId>) -> bool
    ensures { result ≡ stands_before (is_shown (option_map (λ a. a.now) after.entry))
        (keys_of rows.now) parent.now place }
{
    let order = compare_parent(rows, place, parent);
    is_before(order, was_shown(id_of(rows, place), after))
}

/// How many of the places stand before the artifacts of a parent, or are among them.
fn end_of(places: &[u32], rows: &[Artifact], parent: &Parent) -> usize
    requires held { HaveOneHolder (keys_of rows.now) places.now }
    requires rising { IsRising (places_order (keys_of rows.now)) places.now }
    ensures within { result ≤ length places.now }
    ensures parts { IsPartitionPoint
        (λ place. stands_before every_id (keys_of rows.now) parent.now place ≡ true)
        (λ place. stands_before every_id (keys_of rows.now) parent.now place ≡ false)
        places.now result }
{
    places.partition_point(|place| is_up_to(rows, *place, parent))
}

/// How many of the places stand before the artifacts of a parent that are still to be shown.
fn start_of(places: &[u32], rows: &[Artifact], parent: &Parent, after: Option<&ArtifactId>) -> usize
    requires held { HaveOneHolder (keys_of rows.now) places.now }
    requires rising { IsRising (places_order (keys_of rows.now)) places.now }
    ensures within { result ≤ length places.now }
    ensures parts { IsPartitionPoint
        (λ place. stands_before (is_shown (option_map (λ a. a.now) after.entry)) (keys_of rows.now)
        parent.now place ≡ true)
        (λ place. stands_before (is_shown (option_map (λ a. a.now) after.entry)) (keys_of rows.now)
        parent.now place ≡ false)
        places.now result }
{
    places.partition_point(|place| is_in_front(rows, *place, parent, after))
}

/// The places of the artifacts of a parent that are still to be shown, among those of its holder.
pub(crate) fn listing<'a>(
    places: &'a [u32],
    rows: &[Artifact],
    holder: u32,
    parent: &Parent,
    after: Option<&ArtifactId>,
) -> &'a [u32]
    requires { IsKeyIndex (keys_of rows.now) holder places.now }
    ensures { IsListing rows.now holder parent.now (option_map (λ a. a.now) after.entry)
        result.now }
{
    let (front, _) = places.split_at(end_of(places, rows, parent));
    let (_, listed) = front.split_at(start_of(front, rows, parent, after));
    listed
}

/// The first ones of what is to be shown, so many.
pub(crate) fn page_of(all: &[u32], size: u32) -> ArtifactPage<'_>
    ensures rows { result.rows.now ≡ take size all.now }
    ensures more { (result.more ≡ true) ↔ (size < length all.now) }
{
    let size = size as usize;
    if all.len() <= size {
        return ArtifactPage {
            rows: all,
            more: false,
        };
    }
    let (rows, _) = all.split_at(size);
    ArtifactPage { rows, more: true }
}
