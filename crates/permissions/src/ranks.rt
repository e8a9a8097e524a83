//! The realms by their ranks: in an order that has each behind those that it extends, so that one
//! pass over the ranks goes over the realms that are extended before those that extend them.
ghost use Rattle.std.specs.Prelude.{◌≡◌, ◌<◌, ◌==◌, ◌||◌, ℕ, true, IfOk, OnOk, length, map, unwrap_or, is_some};
ghost use Rattle.permissions.specs.Graph.{has, edges};
ghost use Rattle.permissions.specs.Order.{IsOrder};
ghost use Rattle.permissions.specs.Ranks.{AreRanked, rank_at};

use crate::graph::edges_of;
use policy_tables::Listed;
use std::alloc::{AllocError, Global};

/// The ranks of places, the places by their ranks, and by rank the ranks of what a place leads to.
#[derive(Drop)]
pub(crate) struct Ranking {
    pub(crate) ranks: Vec<Option<usize>>,
    pub(crate) places: Vec<usize>,
    pub(crate) rows: Vec<Listed<usize>>,
}

/// The rank of a place.
pub(crate) fn rank_of(ranks: &[Option<usize>], place: usize) -> Option<usize>
    ensures { result ≡ rank_at ranks.now place }
{
    match ranks.get(place) {
        Some(rank) => *rank,
        None => None,
    }
}

/// The ranks of places, each of which has one.
fn ranks_of(
    alloc: Global,
    ranks: &[Option<usize>],
    places: &[usize],
) -> Result<Listed<usize>, AllocError>
    ensures { IfOk result
        (λ row. row ≡ map (λ q. unwrap_or (rank_at ranks.now q) 0) places.now) }
{
    let mut row = Vec::new(alloc);
    for place in places {
        row.push(rank_of(ranks, *place).unwrap_or(0))?;
    }
    Ok(Listed::new(row))
}

/// No ranks.
fn no_ranks(alloc: Global, graph: &[Listed<usize>]) -> Result<Ranking, AllocError>
    ensures { IfOk result
        (λ r. AreRanked graph.now r.ranks.items r.places.items r.rows.items) }
{
    Ok(Ranking {
        ranks: vec![in alloc; None; graph.len()]?,
        places: Vec::new(alloc),
        rows: Vec::new(alloc),
    })
}

/// Gives the next rank to a place, unless it has one.
fn add_place(
    alloc: Global,
    graph: &[Listed<usize>],
    ranking: &mut Ranking,
    place: usize,
) -> Result<(), AllocError>
    requires within { place < length graph.now }
    requires ranked { AreRanked graph.now ranking.old.ranks.items ranking.old.places.items
        ranking.old.rows.items }
    requires known { (q : ℕ) → has q (edges graph.now place) ≡ true
        → is_some (rank_at ranking.old.ranks.items q) ≡ true }
    ensures ranked { OnOk result (AreRanked graph.now ranking.new.ranks.items
        ranking.new.places.items ranking.new.rows.items) }
    ensures known { OnOk result ((q : ℕ)
        → (is_some (rank_at ranking.old.ranks.items q) || (place == q)) ≡ true
        → is_some (rank_at ranking.new.ranks.items q) ≡ true) }
{
    if rank_of(ranking.ranks.as_slice(), place).is_some() {
        return Ok(());
    }
    let row = ranks_of(alloc, ranking.ranks.as_slice(), edges_of(graph, place))?;
    let rank = ranking.places.len();
    ranking.rows.push(row)?;
    ranking.places.push(place)?;
    ranking.ranks[place] = Some(rank);
    Ok(())
}

/// Ranks the places in an order.
pub(crate) fn rank_places(
    alloc: Global,
    graph: &[Listed<usize>],
    order: &[usize],
) -> Result<Ranking, AllocError>
    requires { IsOrder graph.now order.now }
    ensures ranked { IfOk result
        (λ r. AreRanked graph.now r.ranks.items r.places.items r.rows.items) }
    ensures all { IfOk result
        (λ r. (q : ℕ) → q < length graph.now → is_some (rank_at r.ranks.items q) ≡ true) }
{
    let mut ranking = no_ranks(alloc, graph)?;
    for place in order {
        add_place(alloc, graph, &mut ranking, *place)?;
    }
    Ok(ranking)
}
