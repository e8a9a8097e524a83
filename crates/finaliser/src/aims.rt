//! Aims for all nodes that reach a node, so that those that wait for it are known to wait.
ghost use Rattle.std.specs.Prelude.{◌≡◌, ◌≤◌, ◌<◌, length, vec_capacity};
ghost use Rattle.finaliser.specs.Holding.{IsOutOfSame};
ghost use Rattle.finaliser.specs.Watching.{AreWatched, IsAimed};

use crate::node_set::NodeSet;
use crate::watches::{Watch, is_final};
use inclusion_graph::Graph;
use names_realms::State;

/// Gives a node that isn't final the aim of another one, to which it has an edge, unless it is seen
/// already.
fn aim_source(states: &[State], source: u32, aim: u32, watches: &mut Vec<Watch>, seen: &mut NodeSet)
    requires source { source < length states.now }
    requires below { seen.old.below ≡ length states.now }
    requires count { length watches.old.items ≡ length states.now }
    ensures same { IsOutOfSame seen.old seen.new }
    ensures watches { IsAimed watches.old.items watches.new.items source aim }
    ensures capacity { vec_capacity watches.new ≡ vec_capacity watches.old }
{
    if is_final(states, source) {
        return;
    }
    if seen.has(source) {
        return;
    }
    seen.add(source);
    let passed = watches[source as usize].passed;
    watches[source as usize] = Watch { passed, aim };
}

/// Gives the sources of a node its aim, those that aren't final and aren't seen yet.
fn aim_sources(
    graph: &Graph,
    states: &[State],
    node: u32,
    watches: &mut Vec<Watch>,
    seen: &mut NodeSet,
)
    requires count { graph.now.nodes ≡ length states.now }
    requires below { seen.old.below ≡ length states.now }
    requires node { node < length states.now }
    requires watched { AreWatched graph.now.edges states.now watches.old.items }
    ensures same { IsOutOfSame seen.old seen.new }
    ensures watched { AreWatched graph.now.edges states.now watches.new.items }
    ensures capacity { vec_capacity watches.new ≡ vec_capacity watches.old }
{
    let aim = watches[node as usize].aim;
    let edges = graph.edges();
    let mut next = graph.first_edge_to(node);
    'sources: while let Some(place) = next {
        aim_source(states, edges[place as usize].from, aim, watches, seen);
        next = graph.next_edge_to(place);
    }
}

/// Gives a node that isn't seen yet itself as its aim, and all that reach it along nodes that are
/// neither final nor seen.
pub(crate) fn aim_at(
    graph: &Graph,
    states: &[State],
    node: u32,
    watches: &mut Vec<Watch>,
    seen: &mut NodeSet,
)
    requires count { graph.now.nodes ≡ length states.now }
    requires below { seen.old.below ≡ length states.now }
    requires node { node < length states.now }
    requires watched { AreWatched graph.now.edges states.now watches.old.items }
    ensures same { IsOutOfSame seen.old seen.new }
    ensures watched { AreWatched graph.now.edges states.now watches.new.items }
    ensures capacity { vec_capacity watches.new ≡ vec_capacity watches.old }
{
    let mut at = seen.len();
    aim_source(states, node, node, watches, seen);
    'nodes: while at < seen.len() {
        let next = seen.at(at);
        aim_sources(graph, states, next, watches, seen);
        at += 1;
    }
}
