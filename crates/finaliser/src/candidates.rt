//! The nodes that may become final with one that is retired, and those of them that are held up.
ghost use Rattle.std.specs.Prelude.{◌≡◌, ◌≤◌, ◌<◌, ◌+◌, ◌++◌, ◌⊎◌, ◌↔◌, ◌∷◌, [], ℕ, true, false, IsTrue, List, All};
ghost use Rattle.std.specs.Prelude.{Contains, length, slice_set, vec_len, vec_capacity};
ghost use Rattle.std.specs.List.Sorted.{IsStrictlyIncreasing};
ghost use Rattle.std.specs.List.{filter};
ghost use Rattle.inclusion_graph.specs.Edges.{HasEdge, has};
ghost use Rattle.finaliser.specs.Holding.{AreFound, AreFreed, AreHeld, Comes, Holds, IsClosed, IsGrown, IsHeldUp};
ghost use Rattle.finaliser.specs.Holding.{IsOutOfSame, IsSource, is_free};
ghost use Rattle.finaliser.specs.Marks.{unfinal};
ghost use Rattle.finaliser.specs.Settling.{IsIn, ReachesActive};
ghost use Rattle.finaliser.specs.Watching.{AreWatched};

use crate::node_set::NodeSet;
use crate::watches::{Watch, is_active, waits};
use inclusion_graph::Graph;
use names_realms::State;

/// Adds a node to a set, if it is finalizing, unless it is known to reach an active one.
fn add_candidate(
    graph: &Graph,
    states: &[State],
    watches: &mut Vec<Watch>,
    node: u32,
    set: &mut NodeSet,
)
    requires count { graph.now.nodes ≡ length states.now }
    requires node { node < length states.now }
    requires below { set.old.below ≡ length states.now }
    requires watched { AreWatched graph.now.edges states.now watches.old.items }
    ensures grown { IsGrown (λ n. IsIn State.Finalizing states.now n × (n ≡ node)) set.old set.new }
    ensures there { IsIn State.Finalizing states.now node → Contains set.new.nodes node
        ⊎ ReachesActive graph.now.edges states.now node }
    ensures watched { AreWatched graph.now.edges states.now watches.new.items }
    ensures capacity { vec_capacity watches.new ≡ vec_capacity watches.old }
{
    if !is_finalizing(states, node) {
        return;
    }
    if set.has(node) {
        return;
    }
    if waits(graph, states, watches, node) {
        return;
    }
    set.add(node);
}

/// Whether a node is finalizing.
fn is_finalizing(states: &[State], node: u32) -> bool
    requires { node < length states.now }
    ensures { IsTrue result ↔ IsIn State.Finalizing states.now node }
{
    states[node as usize] == State::Finalizing
}

/// Adds the sources of a node that are finalizing, but those that are known to reach an active one.
fn add_sources(
    graph: &Graph,
    states: &[State],
    watches: &mut Vec<Watch>,
    node: u32,
    set: &mut NodeSet,
)
    requires count { graph.now.nodes ≡ length states.now }
    requires below { set.old.below ≡ length states.now }
    requires node { node < length states.now }
    requires watched { AreWatched graph.now.edges states.now watches.old.items }
    ensures grown { IsGrown (IsSource graph.now.edges (IsIn State.Finalizing states.now) node)
        set.old set.new }
    ensures there { (source : ℕ) → HasEdge graph.now.edges source node →
        IsIn State.Finalizing states.now source → Contains set.new.nodes source
        ⊎ ReachesActive graph.now.edges states.now source }
    ensures watched { AreWatched graph.now.edges states.now watches.new.items }
    ensures capacity { vec_capacity watches.new ≡ vec_capacity watches.old }
{
    let edges = graph.edges();
    let mut next = graph.first_edge_to(node);
    'sources: while let Some(place) = next {
        let source = edges[place as usize].from;
        add_candidate(graph, states, watches, source, set);
        next = graph.next_edge_to(place);
    }
}

/// Adds the finalizing nodes that reach the set along finalizing ones, as far as none of these is
/// known to reach an active one.
fn close(graph: &Graph, states: &[State], watches: &mut Vec<Watch>, set: &mut NodeSet)
    requires count { graph.now.nodes ≡ length states.now }
    requires below { set.old.below ≡ length states.now }
    requires watched { AreWatched graph.now.edges states.now watches.old.items }
    ensures grown { IsGrown
        (Comes graph.now.edges (IsIn State.Finalizing states.now) set.old.nodes) set.old set.new }
    ensures closed { IsClosed graph.now.edges (IsIn State.Finalizing states.now)
        (ReachesActive graph.now.edges states.now) set.new.nodes }
    ensures watched { AreWatched graph.now.edges states.now watches.new.items }
    ensures capacity { vec_capacity watches.new ≡ vec_capacity watches.old }
{
    let mut at = 0;
    'nodes: while at < set.len() {
        let node = set.at(at);
        add_sources(graph, states, watches, node, set);
        at += 1;
    }
}

/// Finds the nodes that may become final with one that begins. The set is empty before.
pub(crate) fn find(
    graph: &Graph,
    states: &[State],
    watches: &mut Vec<Watch>,
    node: u32,
    found: &mut NodeSet,
)
    requires count { graph.now.nodes ≡ length states.now }
    requires node { IsIn State.Finalizing states.now node }
    requires below { found.old.below ≡ length states.now }
    requires none { found.old.nodes ≡ [] }
    requires watched { AreWatched graph.now.edges states.now watches.old.items }
    ensures found { AreFound graph.now.edges states.now node found.new.nodes }
    ensures same { IsOutOfSame found.old found.new }
    ensures watched { AreWatched graph.now.edges states.now watches.new.items }
    ensures capacity { vec_capacity watches.new ≡ vec_capacity watches.old }
{
    found.add(node);
    close(graph, states, watches, found);
}

/// Whether a node holds up those that include it: it is active, or finalizing and not found.
fn holds(states: &[State], found: &NodeSet, node: u32) -> bool
    requires node { node < length states.now }
    requires below { found.now.below ≡ length states.now }
    ensures { IsTrue result ↔ Holds states.now found.now.nodes node }
{
    match states[node as usize] {
        State::Active => true,
        State::Finalizing => !found.has(node),
        State::Finalized => false,
    }
}

/// Whether a node includes one that holds it up. Those that are known to be final aren't asked.
fn is_held_up(
    graph: &Graph,
    states: &[State],
    watches: &[Watch],
    found: &NodeSet,
    node: u32,
) -> bool
    requires count { graph.now.nodes ≡ length states.now }
    requires below { found.now.below ≡ length states.now }
    requires node { node < length states.now }
    requires watched { AreWatched graph.now.edges states.now watches.now }
    ensures { IsTrue result ↔ IsHeldUp graph.now.edges states.now found.now.nodes node }
{
    let targets = graph.targets(node);
    for place in watches[node as usize].passed..targets.len() {
        if holds(states, found, targets[place]) {
            return true;
        }
    }
    false
}

/// Adds a node, if this is so.
fn add_if(is_so: bool, node: u32, set: &mut NodeSet)
    requires { node < set.old.below }
    ensures grown { IsGrown (λ n. IsTrue is_so × (n ≡ node)) set.old set.new }
    ensures there { IsTrue is_so → Contains set.new.nodes node }
{
    if is_so {
        set.add(node);
    }
}

/// Adds the found nodes that include one that holds them up.
fn add_held_up(
    graph: &Graph,
    states: &[State],
    watches: &[Watch],
    found: &NodeSet,
    held: &mut NodeSet,
)
    requires count { graph.now.nodes ≡ length states.now }
    requires below { found.now.below ≡ length states.now }
    requires below_held { held.old.below ≡ length states.now }
    requires watched { AreWatched graph.now.edges states.now watches.now }
    ensures grown { IsGrown (IsHeldUp graph.now.edges states.now found.now.nodes)
        held.old held.new }
    ensures there { (node : ℕ) → Contains found.now.nodes node →
        IsHeldUp graph.now.edges states.now found.now.nodes node → Contains held.new.nodes node }
{
    for node in found.as_slice() {
        let is_held = is_held_up(graph, states, watches, found, *node);
        add_if(is_held, *node, held);
    }
}

/// Adds the sources of a node that are found.
fn hold_sources(graph: &Graph, found: &NodeSet, node: u32, held: &mut NodeSet)
    requires count { graph.now.nodes ≡ found.now.below }
    requires below { held.old.below ≡ found.now.below }
    requires node { node < found.now.below }
    ensures grown { IsGrown (IsSource graph.now.edges (Contains found.now.nodes) node)
        held.old held.new }
    ensures there { (source : ℕ) → HasEdge graph.now.edges source node →
        Contains found.now.nodes source → Contains held.new.nodes source }
{
    let edges = graph.edges();
    let mut next = graph.first_edge_to(node);
    'sources: while let Some(place) = next {
        let source = edges[place as usize].from;
        add_if(found.has(source), source, held);
        next = graph.next_edge_to(place);
    }
}

/// Adds all found nodes that reach those that are held up along found ones.
fn hold_all(graph: &Graph, found: &NodeSet, held: &mut NodeSet)
    requires count { graph.now.nodes ≡ found.now.below }
    requires below { held.old.below ≡ found.now.below }
    ensures grown { IsGrown (Comes graph.now.edges (Contains found.now.nodes) held.old.nodes)
        held.old held.new }
    ensures closed { IsClosed graph.now.edges (Contains found.now.nodes) (λ n. ⊥)
        held.new.nodes }
{
    let mut at = 0;
    'nodes: while at < held.len() {
        let node = held.at(at);
        hold_sources(graph, found, node, held);
        at += 1;
    }
}

/// Finds those of the found nodes that are held up. The set is empty before.
pub(crate) fn hold(
    graph: &Graph,
    states: &[State],
    watches: &[Watch],
    found: &NodeSet,
    held: &mut NodeSet,
)
    requires count { graph.now.nodes ≡ length states.now }
    requires below { found.now.below ≡ length states.now }
    requires below_held { held.old.below ≡ length states.now }
    requires none { held.old.nodes ≡ [] }
    requires watched { AreWatched graph.now.edges states.now watches.now }
    ensures held { AreHeld graph.now.edges states.now found.now.nodes held.new.nodes }
    ensures same { IsOutOfSame held.old held.new }
{
    add_held_up(graph, states, watches, found, held);
    hold_all(graph, found, held);
}

/// Whether a node includes an active one.
fn includes_active(graph: &Graph, states: &[State], node: u32) -> bool
    requires count { graph.now.nodes ≡ length states.now }
    requires node { node < length states.now }
    ensures { IsTrue result → ReachesActive graph.now.edges states.now node }
{
    for target in graph.targets(node) {
        if is_active(states, *target) {
            return true;
        }
    }
    false
}

/// Whether a node that begins is seen to reach an active one at once, so that nothing becomes final
/// with it.
pub(crate) fn begins_waiting(
    graph: &Graph,
    states: &[State],
    watches: &mut Vec<Watch>,
    node: u32,
) -> bool
    requires count { graph.now.nodes ≡ length states.now }
    requires node { node < length states.now }
    requires watched { AreWatched graph.now.edges states.now watches.old.items }
    ensures watched { AreWatched graph.now.edges states.now watches.new.items }
    ensures capacity { vec_capacity watches.new ≡ vec_capacity watches.old }
    ensures reaches { IsTrue result → ReachesActive graph.now.edges states.now node }
{
    if waits(graph, states, watches, node) {
        return true;
    }
    includes_active(graph, states, node)
}

/// Makes a node final and lists it, unless it is held up.
fn settle_node(held: &NodeSet, node: u32, states: &mut Vec<State>, finals: &mut Vec<u32>)
    requires below { held.now.below ≡ length states.old.items }
    requires node { IsIn State.Finalizing states.old.items node }
    requires room { vec_len finals.old + unfinal states.old.items ≤ vec_capacity finals.old }
    ensures settled { ((is_free held.now.nodes node ≡ true)
        × (finals.new.items ≡ finals.old.items ++ node ∷ [])
        × (states.new.items ≡ slice_set states.old.items node State.Finalized))
        ⊎ ((is_free held.now.nodes node ≡ false)
        × (finals.new.items ≡ finals.old.items)
        × (states.new.items ≡ states.old.items)) }
    ensures capacity { vec_capacity finals.new ≡ vec_capacity finals.old }
    ensures states_capacity { vec_capacity states.new ≡ vec_capacity states.old }
{
    if !held.has(node) {
        finals.push_reserved(node);
        states[node as usize] = State::Finalized;
    }
}

/// Makes the found nodes final that aren't held up, and lists them behind the others, for which
/// there is room. The found nodes are in ascending order.
pub(crate) fn settle_free(
    found: &NodeSet,
    held: &NodeSet,
    states: &mut Vec<State>,
    finals: &mut Vec<u32>,
)
    requires below { held.now.below ≡ length states.old.items }
    requires rising { IsStrictlyIncreasing found.now.nodes }
    requires finalizing { All (IsIn State.Finalizing states.old.items) found.now.nodes }
    requires room { vec_len finals.old + unfinal states.old.items ≤ vec_capacity finals.old }
    ensures finals { finals.new.items ≡
        finals.old.items ++ filter (is_free held.now.nodes) found.now.nodes }
    ensures freed { AreFreed (filter (is_free held.now.nodes) found.now.nodes)
        states.old.items states.new.items }
    ensures capacity { vec_capacity finals.new ≡ vec_capacity finals.old }
    ensures states_capacity { vec_capacity states.new ≡ vec_capacity states.old }
{
    for node in found.as_slice() {
        settle_node(held, *node, states, finals);
    }
}
