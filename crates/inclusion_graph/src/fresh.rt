//! The targets that a node hasn't yet, found by the edges at the node and at the targets alone.
ghost use Rattle.std.specs.Prelude.{◌≡◌, ◌+◌, ◌<◌, ◌≤◌, ◌↔◌, ◌⊎◌, ◌++◌, ◌∷◌, [], true, false, IsTrue, IfSome, All};
ghost use Rattle.std.specs.Prelude.{Contains, length, slice_index_or, slice_set, vec_len, vec_capacity};
ghost use Rattle.inclusion_graph.specs.Edges.{HasEdge, fresh, targets_of};
ghost use Rattle.inclusion_graph.specs.Searches.{HasMarks};

use crate::edge_list::EdgeList;

/// How many targets are few.
const FEW: usize = 8;

/// Whether an edge leads from a node to another. It goes over the edges to the other one, at most
/// so many; none where that doesn't tell.
fn leads(edges: &EdgeList, from: u32, to: u32, most: usize) -> Option<bool>
    requires { to < edges.now.nodes }
    ensures { IfSome result (λ leads. IsTrue leads ↔ HasEdge edges.now.edges from to) }
{
    let list = edges.as_slice();
    let mut next = edges.first_to(to);
    'sources: for _ in 0..most {
        let Some(place) = next else {
            return Some(false);
        };
        if list[place as usize].from == from {
            return Some(true);
        }
        next = edges.next_to(place);
    }
    None
}

/// Whether a list has a target, which it has just where an edge leads there from the node. It goes
/// over the edges to the target, and over the list only where these are more.
fn is_among(edges: &EdgeList, from: u32, target: u32, list: &[u32]) -> bool
    requires target { target < edges.now.nodes }
    requires edge { Contains list.now target ↔ HasEdge edges.now.edges from target }
    ensures { IsTrue result ↔ Contains list.now target }
{
    match leads(edges, from, target, list.len()) {
        Some(leads) => leads,
        None => list.contains(&target),
    }
}

/// Whether a target isn't in the list, which has those that are marked, and of the others just
/// those to which an edge leads from the node.
fn is_new(edges: &EdgeList, from: u32, target: u32, marks: &[bool], list: &[u32]) -> bool
    requires target { target < edges.now.nodes }
    requires count { length marks.now ≡ edges.now.nodes }
    requires marked { slice_index_or marks.now target false ≡ true → Contains list.now target }
    requires unmarked { slice_index_or marks.now target false ≡ false →
        (Contains list.now target ↔ HasEdge edges.now.edges from target) }
    ensures { IsTrue result ↔ (¬ Contains list.now target) }
{
    !marks[target as usize] && !is_among(edges, from, target, list)
}

/// Appends a target, if it is new, and marks it.
fn join(edges: &EdgeList, from: u32, target: u32, marks: &mut Vec<bool>, all: &mut Vec<u32>)
    requires target { target < edges.now.nodes }
    requires count { length marks.old.items ≡ edges.now.nodes }
    requires marked { slice_index_or marks.old.items target false ≡ true →
        Contains all.old.items target }
    requires unmarked { slice_index_or marks.old.items target false ≡ false →
        (Contains all.old.items target ↔ HasEdge edges.now.edges from target) }
    requires room { vec_len all.old < vec_capacity all.old }
    ensures all { all.new.items ≡ all.old.items ++ fresh all.old.items (target ∷ []) }
    ensures marks { marks.new.items ≡ slice_set marks.old.items target true }
    ensures room { vec_capacity all.new ≡ vec_capacity all.old }
    ensures capacity { vec_capacity marks.new ≡ vec_capacity marks.old }
{
    if is_new(edges, from, target, marks.as_slice(), all.as_slice()) {
        all.push_reserved(target);
    }
    marks[target as usize] = true;
}

/// Marks these nodes, where none is marked.
fn mark(marks: &mut Vec<bool>, nodes: &[u32])
    requires none { HasMarks marks.old.items (length marks.old.items) [] }
    requires low { All (λ node. node < length marks.old.items) nodes.now }
    ensures says { HasMarks marks.new.items (length marks.old.items) nodes.now }
    ensures capacity { vec_capacity marks.new ≡ vec_capacity marks.old }
{
    for node in nodes {
        marks[*node as usize] = true;
    }
}

/// Takes back the marks of these nodes, which are all that there are.
fn unmark(marks: &mut Vec<bool>, nodes: &[u32])
    requires says { HasMarks marks.old.items (length marks.old.items) nodes.now }
    requires low { All (λ node. node < length marks.old.items) nodes.now }
    ensures says { HasMarks marks.new.items (length marks.old.items) [] }
    ensures capacity { vec_capacity marks.new ≡ vec_capacity marks.old }
{
    for node in nodes {
        marks[*node as usize] = false;
    }
}

/// Appends a target, unless it is marked, and marks it. Just those are marked that the list has.
fn append_unmarked(target: u32, marks: &mut Vec<bool>, all: &mut Vec<u32>)
    requires target { target < length marks.old.items }
    requires says { HasMarks marks.old.items (length marks.old.items) all.old.items }
    requires room { vec_len all.old < vec_capacity all.old }
    ensures all { all.new.items ≡ all.old.items ++ fresh all.old.items (target ∷ []) }
    ensures says { HasMarks marks.new.items (length marks.old.items) all.new.items }
    ensures room { vec_capacity all.new ≡ vec_capacity all.old }
    ensures capacity { vec_capacity marks.new ≡ vec_capacity marks.old }
{
    if marks[target as usize] {
        return;
    }
    marks[target as usize] = true;
    all.push_reserved(target);
}

/// Appends those of the targets that a list doesn't have, as `append_new`, by marks of all that it
/// has.
fn append_by_marks(targets: &[u32], marks: &mut Vec<bool>, all: &mut Vec<u32>)
    requires targets { All (λ target. target < length marks.old.items) targets.now }
    requires within { All (λ target. target < length marks.old.items) all.old.items }
    requires marks { HasMarks marks.old.items (length marks.old.items) [] }
    requires room { vec_len all.old + length targets.now ≤ vec_capacity all.old }
    ensures all { all.new.items ≡ all.old.items ++ fresh all.old.items targets.now }
    ensures marks { HasMarks marks.new.items (length marks.old.items) [] }
    ensures capacity { vec_capacity marks.new ≡ vec_capacity marks.old }
{
    mark(marks, all.as_slice());
    for target in targets {
        append_unmarked(*target, marks, all);
    }
    unmark(marks, all.as_slice());
}

/// Appends to the targets of a node those of the given ones that it hasn't yet, each once, in
/// order. There is room for them. No node is marked before, and none afterwards. A few targets are
/// sought by the edges at them; more by marks of all that the node has.
pub(crate) fn append_new(
    edges: &EdgeList,
    from: u32,
    targets: &[u32],
    marks: &mut Vec<bool>,
    all: &mut Vec<u32>,
)
    requires held { all.old.items ≡ targets_of edges.now.edges from }
    requires within { All (λ target. target < edges.now.nodes) all.old.items }
    requires targets { All (λ target. target < edges.now.nodes) targets.now }
    requires marks { HasMarks marks.old.items edges.now.nodes [] }
    requires room { vec_len all.old + length targets.now ≤ vec_capacity all.old }
    ensures all { all.new.items ≡ all.old.items ++ fresh all.old.items targets.now }
    ensures marks { HasMarks marks.new.items edges.now.nodes [] }
    ensures capacity { vec_capacity marks.new ≡ vec_capacity marks.old }
{
    if targets.len() > FEW {
        append_by_marks(targets, marks, all);
        return;
    }
    for target in targets {
        join(edges, from, *target, marks, all);
    }
    unmark(marks, targets);
}

/// Marks a target. One, where it wasn't marked, else none.
fn mark_one(target: u32, marks: &mut Vec<bool>) -> usize
    requires { target < length marks.old.items }
    ensures marks { ((result ≡ 1) × (slice_index_or marks.old.items target false ≡ false)
        × (marks.new.items ≡ slice_set marks.old.items target true))
        ⊎ ((result ≡ 0) × (slice_index_or marks.old.items target false ≡ true)
        × (marks.new.items ≡ marks.old.items)) }
    ensures capacity { vec_capacity marks.new ≡ vec_capacity marks.old }
{
    if marks[target as usize] {
        return 0;
    }
    marks[target as usize] = true;
    1
}

/// Takes back all marks.
fn unmark_all(marks: &mut Vec<bool>)
    ensures says { HasMarks marks.new.items (length marks.old.items) [] }
    ensures capacity { vec_capacity marks.new ≡ vec_capacity marks.old }
{
    for node in 0..marks.len() {
        marks[node] = false;
    }
}

/// How many of the targets a list doesn't have, each counted once. No node is marked before, and
/// none afterwards.
pub(crate) fn count_new(held: &[u32], targets: &[u32], marks: &mut Vec<bool>) -> usize
    requires within { All (λ target. target < length marks.old.items) held.now }
    requires targets { All (λ target. target < length marks.old.items) targets.now }
    requires marks { HasMarks marks.old.items (length marks.old.items) [] }
    ensures count { result ≡ length (fresh held.now targets.now) }
    ensures marks { HasMarks marks.new.items (length marks.old.items) [] }
    ensures capacity { vec_capacity marks.new ≡ vec_capacity marks.old }
{
    mark(marks, held);
    let mut count = 0;
    for target in targets {
        count += mark_one(*target, marks);
    }
    unmark_all(marks);
    count
}
