//! An order in which each place stands behind those that it leads to, where no place leads back to
//! itself.
ghost use Rattle.std.specs.Prelude.{◌≡◌, ◌<◌, ◌+◌, ◌^◌, ◌++◌, ◌∷◌, [], false, length, slice_set, IfOk, OnOk};
ghost use Rattle.std.specs.Prelude.{MatchOption};
ghost use Rattle.std.specs.Bool.{MatchBool};
ghost use Rattle.permissions.specs.Graph.{IsGraph};
ghost use Rattle.permissions.specs.Order.{IsOrder};
ghost use Rattle.policy_reading.specs.Walked.{IsWalked, LeadsBack, StaysSeen, is_unseen, mark_at, steps_left};

use permissions::edges_of;
use policy_tables::Listed;
use std::alloc::{AllocError, Global};

/// How far the walk has come with a place.
#[derive(Clone, Copy, Debug, PartialEq, Eq)]
enum Mark {
    /// It wasn't met yet.
    Unseen,
    /// It stands on the path.
    Open,
    /// It stands in the order.
    Done,
}

/// A place on the path, and how many of its edges were followed.
#[derive(Clone, Copy, Debug)]
struct Frame {
    place: usize,
    followed: usize,
}

impl Frame {
    /// With one edge more followed.
    fn next(self) -> Frame
        requires { self.followed < 2 ^ 63 }
        ensures { result ≡ record { place = self.place; followed = self.followed + 1 } }
    {
        Frame {
            place: self.place,
            followed: self.followed + 1,
        }
    }
}

/// Enters a place: it stands at the end of the path, and none of its edges was followed.
fn enter(marks: &mut [Mark], path: &mut Vec<Frame>, place: usize) -> Result<(), AllocError>
    requires { place < length marks.old }
    ensures marks { marks.new ≡ slice_set marks.old place Mark.Open }
    ensures path { OnOk result
        (path.new.items ≡ path.old.items ++ (record { place = place; followed = 0 }) ∷ []) }
{
    marks[place] = Mark::Open;
    path.push(Frame { place, followed: 0 })?;
    Ok(())
}

/// Leaves a place: it stands at the end of the order.
fn leave(marks: &mut [Mark], order: &mut Vec<usize>, place: usize) -> Result<(), AllocError>
    requires { place < length marks.old }
    ensures marks { marks.new ≡ slice_set marks.old place Mark.Done }
    ensures order { OnOk result (order.new.items ≡ order.old.items ++ place ∷ []) }
{
    marks[place] = Mark::Done;
    order.push(place)?;
    Ok(())
}

/// Takes a step from the last place of the path: along its next edge, or back from it, where none
/// is left. False where the edge leads to a place of the path.
fn step(
    graph: &[Listed<usize>],
    marks: &mut [Mark],
    path: &mut Vec<Frame>,
    order: &mut Vec<usize>,
    last: Frame,
) -> Result<bool, AllocError>
    requires graph { IsGraph graph.now }
    requires walked { IsWalked graph.now marks.old (path.old.items ++ last ∷ []) order.old.items }
    ensures walked { IfOk result
        (λ on. MatchBool on (IsWalked graph.now marks.new path.new.items order.new.items)
        (LeadsBack graph.now)) }
    ensures less { IfOk result
        (λ on. MatchBool on (steps_left graph.now marks.new path.new.items < steps_left graph.now
        marks.old (path.old.items ++ last ∷ [])) (LeadsBack graph.now)) }
    ensures seen { OnOk result (StaysSeen marks.old marks.new) }
{
    let Some(to) = edges_of(graph, last.place).get(last.followed) else {
        leave(marks, order, last.place)?;
        return Ok(true);
    };
    match marks[*to] {
        Mark::Unseen => {
            path.push(last.next())?;
            enter(marks, path, *to)?;
            Ok(true)
        }
        Mark::Open => Ok(false),
        Mark::Done => {
            path.push(last.next())?;
            Ok(true)
        }
    }
}

/// Walks on until nothing is left on the path. False where some place leads back to itself.
fn walk(
    graph: &[Listed<usize>],
    marks: &mut [Mark],
    path: &mut Vec<Frame>,
    order: &mut Vec<usize>,
) -> Result<bool, AllocError>
    requires graph { IsGraph graph.now }
    requires walked { IsWalked graph.now marks.old path.old.items order.old.items }
    ensures walked { IfOk result
        (λ on. MatchBool on (IsWalked graph.now marks.new [] order.new.items)
        (LeadsBack graph.now)) }
    ensures path { IfOk result (λ on. MatchBool on (path.new.items ≡ []) (LeadsBack graph.now)) }
    ensures seen { OnOk result (StaysSeen marks.old marks.new) }
{
    while let Some(last) = path.pop() {
        if !step(graph, marks, path, order, last)? {
            return Ok(false);
        }
    }
    Ok(true)
}

/// Walks from a place, unless it was met before. False where some place leads back to itself.
fn walk_from(
    graph: &[Listed<usize>],
    marks: &mut [Mark],
    path: &mut Vec<Frame>,
    order: &mut Vec<usize>,
    place: usize,
) -> Result<bool, AllocError>
    requires graph { IsGraph graph.now }
    requires place { place < length graph.now }
    requires path { path.old.items ≡ [] }
    requires walked { IsWalked graph.now marks.old [] order.old.items }
    ensures walked { IfOk result
        (λ on. MatchBool on (IsWalked graph.now marks.new [] order.new.items)
        (LeadsBack graph.now)) }
    ensures path { IfOk result (λ on. MatchBool on (path.new.items ≡ []) (LeadsBack graph.now)) }
    ensures met { IfOk result
        (λ on. MatchBool on (is_unseen (mark_at marks.new place) ≡ false) (LeadsBack graph.now)) }
    ensures seen { OnOk result (StaysSeen marks.old marks.new) }
{
    if marks[place] != Mark::Unseen {
        return Ok(true);
    }
    enter(marks, path, place)?;
    walk(graph, marks, path, order)
}

/// The places, each behind those that it leads to. None where some place leads back to itself.
pub(crate) fn order_of(
    alloc: Global,
    graph: &[Listed<usize>],
) -> Result<Option<Vec<usize>>, AllocError>
    requires { IsGraph graph.now }
    ensures { IfOk result
        (λ found. MatchOption found (LeadsBack graph.now)
        (λ order. IsOrder graph.now order.items)) }
{
    let mut marks = vec![in alloc; Mark::Unseen; graph.len()]?;
    let mut path = Vec::new(alloc);
    let mut order = Vec::new(alloc);
    for place in 0..graph.len() {
        if !walk_from(graph, marks.as_mut_slice(), &mut path, &mut order, place)? {
            return Ok(None);
        }
    }
    Ok(Some(order))
}
