//! Which realms are reached from which, by places.
ghost use Rattle.std.specs.Prelude.{◌≡◌, ◌↔◌, ◌<◌, ◌||◌, ◌==◌, ℕ, true, false, [], IfOk, OnOk, length, take};
ghost use Rattle.permissions.specs.Graph.{has, edges, IsGraph, ReachesOn};
ghost use Rattle.policy_reading.specs.CycleSearch.{IsMarked};

use permissions::edges_of;
use policy_tables::Listed;
use std::alloc::{AllocError, Global};

/// Finds a place, unless it was found before.
fn find_place(marks: &mut [bool], found: &mut Vec<usize>, place: usize) -> Result<(), AllocError>
    requires within { place < length marks.old }
    requires marked { IsMarked marks.old found.old.items }
    ensures len { length marks.new ≡ length marks.old }
    ensures marked { OnOk result (IsMarked marks.new found.new.items) }
    ensures found { OnOk result
        ((q : ℕ) → has q found.new.items ≡ (has q found.old.items || (place == q))) }
    ensures kept { OnOk result (take (length found.old.items) found.new.items ≡ found.old.items) }
{
    if marks[place] {
        return Ok(());
    }
    marks[place] = true;
    found.push(place)?;
    Ok(())
}

/// Finds each of these places.
fn find_places(
    marks: &mut [bool],
    found: &mut Vec<usize>,
    places: &[usize],
) -> Result<(), AllocError>
    requires within { (q : ℕ) → has q places.now ≡ true → q < length marks.old }
    requires marked { IsMarked marks.old found.old.items }
    ensures len { length marks.new ≡ length marks.old }
    ensures marked { OnOk result (IsMarked marks.new found.new.items) }
    ensures found { OnOk result
        ((q : ℕ) → has q found.new.items ≡ (has q found.old.items || has q places.now)) }
    ensures kept { OnOk result (take (length found.old.items) found.new.items ≡ found.old.items) }
{
    for i in 0..places.len() {
        find_place(marks, found, places[i])?;
    }
    Ok(())
}

/// Finds where each found place leads, until nothing new is found.
fn find_others(
    graph: &[Listed<usize>],
    marks: &mut [bool],
    found: &mut Vec<usize>,
    start: usize,
) -> Result<(), AllocError>
    requires graph { IsGraph graph.now }
    requires len { length marks.old ≡ length graph.now }
    requires marked { IsMarked marks.old found.old.items }
    requires begun { (q : ℕ) → has q found.old.items ≡ has q (edges graph.now start) }
    ensures { OnOk result ((q : ℕ) → (has q found.new.items ≡ true) ↔ ReachesOn graph.now start q) }
{
    let mut at = 0;
    while at < found.len() {
        let place = found[at];
        find_places(marks, found, edges_of(graph, place))?;
        at += 1;
    }
    Ok(())
}

/// The places that are reached from this one in one step or more.
pub(crate) fn reached_from(
    alloc: Global,
    graph: &[Listed<usize>],
    start: usize,
) -> Result<Vec<usize>, AllocError>
    requires { IsGraph graph.now }
    ensures { IfOk result
        (λ found. (q : ℕ) → (has q found.items ≡ true) ↔ ReachesOn graph.now start q) }
{
    let mut marks = vec![in alloc; false; graph.len()]?;
    let mut found = Vec::new(alloc);
    find_places(marks.as_mut_slice(), &mut found, edges_of(graph, start))?;
    find_others(graph, marks.as_mut_slice(), &mut found, start)?;
    Ok(found)
}
