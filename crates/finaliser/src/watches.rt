//! What is known of the targets of each node, so that it isn't found out again.
ghost use Rattle.std.specs.Prelude.{◌≡◌, ◌≤◌, ◌<◌, ◌+◌, ◌↔◌, take, IsTrue, IfSome, All, Contains, length, vec_capacity};
ghost use Rattle.inclusion_graph.specs.Edges.{targets_of};
ghost use Rattle.finaliser.specs.Settling.{IsIn, ReachesActive};
ghost use Rattle.finaliser.specs.Watching.{AreWatched};

use inclusion_graph::Graph;
use names_realms::State;

/// At how many targets that aren't passed a look for an active one goes.
const FEW: usize = 8;

/// What is known of a node: so many of its first targets are final, and it reaches another one.
#[derive(Clone, Copy)]
pub(crate) struct Watch {
    pub(crate) passed: usize,
    pub(crate) aim: u32,
}

/// Whether a node is active.
pub(crate) fn is_active(states: &[State], node: u32) -> bool
    requires { node < length states.now }
    ensures { IsTrue result ↔ IsIn State.Active states.now node }
{
    states[node as usize] == State::Active
}

/// Whether a node is final.
pub(crate) fn is_final(states: &[State], node: u32) -> bool
    requires { node < length states.now }
    ensures { IsTrue result ↔ IsIn State.Finalized states.now node }
{
    states[node as usize] == State::Finalized
}

/// The place behind those targets, from a place on, that are final.
fn pass(targets: &[u32], states: &[State], from: usize) -> usize
    requires within { All (λ target. target < length states.now) targets.now }
    requires from { from ≤ length targets.now }
    requires passed { All (IsIn State.Finalized states.now) (take from targets.now) }
    ensures few { result ≤ length targets.now }
    ensures passed { All (IsIn State.Finalized states.now) (take result targets.now) }
{
    let mut place = from;
    'passed: while place < targets.len() {
        if !is_final(states, targets[place]) {
            break;
        }
        place += 1;
    }
    place
}

/// An active target among the few from a place on.
fn next_active(targets: &[u32], states: &[State], from: usize) -> Option<u32>
    requires within { All (λ target. target < length states.now) targets.now }
    ensures { IfSome result
        (λ target. Contains targets.now target × IsIn State.Active states.now target) }
{
    for place in from..targets.len().min(from.saturating_add(FEW)) {
        if is_active(states, targets[place]) {
            return Some(targets[place]);
        }
    }
    None
}

/// Goes past the targets of a node that are final, and looks for an active one behind them.
fn look(graph: &Graph, states: &[State], watches: &mut Vec<Watch>, node: u32) -> Option<u32>
    requires count { graph.now.nodes ≡ length states.now }
    requires node { node < length states.now }
    requires watched { AreWatched graph.now.edges states.now watches.old.items }
    ensures watched { AreWatched graph.now.edges states.now watches.new.items }
    ensures capacity { vec_capacity watches.new ≡ vec_capacity watches.old }
    ensures found { IfSome result (λ target. Contains (targets_of graph.now.edges node) target
        × IsIn State.Active states.now target) }
{
    let targets = graph.targets(node);
    let watch = watches[node as usize];
    let passed = pass(targets, states, watch.passed);
    watches[node as usize] = Watch {
        passed,
        aim: watch.aim,
    };
    next_active(targets, states, passed)
}

/// Whether a node is known to reach an active one: the one that it reached when it was looked at
/// last, or one of its next targets.
pub(crate) fn waits(graph: &Graph, states: &[State], watches: &mut Vec<Watch>, node: u32) -> bool
    requires count { graph.now.nodes ≡ length states.now }
    requires node { node < length states.now }
    requires watched { AreWatched graph.now.edges states.now watches.old.items }
    ensures watched { AreWatched graph.now.edges states.now watches.new.items }
    ensures capacity { vec_capacity watches.new ≡ vec_capacity watches.old }
    ensures reaches { IsTrue result → ReachesActive graph.now.edges states.now node }
{
    let watch = watches[node as usize];
    if is_active(states, watch.aim) {
        return true;
    }
    let Some(aim) = look(graph, states, watches, node) else {
        return false;
    };
    let passed = watches[node as usize].passed;
    watches[node as usize] = Watch { passed, aim };
    true
}
