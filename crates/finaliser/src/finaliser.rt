//! The finaliser.
ghost use Rattle.std.specs.Prelude.{◌≡◌, ◌≤◌, ◌<◌, ◌+◌, ◌++◌, ◌∷◌, ◌↔◌, [], ℕ, List, All, IsTrue, IfOk, IfErr, OnOk};
ghost use Rattle.std.specs.Prelude.{length, slice_set};
ghost use Rattle.inclusion_graph.specs.Plans.{Fits, IsEdgeFault, IsElsewhere, new_targets};
ghost use Rattle.finaliser.specs.Settling.{IsIn, IsRoomier, IsSettled, ReachesActive, Settles, Stays, with_edges};
ghost use Rattle.finaliser.specs.Settling.{with_node};

use crate::aims::aim_at;
use crate::candidates::{begins_waiting, find, hold, settle_free};
use crate::node_set::NodeSet;
use crate::watches::Watch;
use inclusion_graph::{EdgeFault, EdgePlan, Graph};
use names_realms::State;
use std::alloc::{AllocError, Global};
use std::marker::Model;

/// The graph of inclusions with a state for each node.
#[derive(Drop)]
pub struct Finaliser {
    graph: Graph,
    states: Vec<State>,
    found: NodeSet,
    held: NodeSet,
    finals: Vec<u32>,
    watches: Vec<Watch>,
    seen: NodeSet,
}

impl Model for Finaliser {
    ghost use Rattle.std.specs.Prelude.{◌≡◌, ◌-◌, min, length, vec_len, vec_capacity};
    ghost use Rattle.finaliser.specs.Settling.{FinaliserState};
    ghost use Rattle.finaliser.specs.Holding.{IsKept};
    ghost use Rattle.finaliser.specs.Watching.{AreWatched};

    ghost Value = { FinaliserState };

    ghost view = { λ f. record {
      graph = f.graph;
      states = f.states.items;
      finals = f.finals.items;
      spare = min (min (min f.graph.spare_nodes (vec_capacity f.states - vec_len f.states))
          (min (min f.found.spare f.held.spare) (vec_capacity f.finals - vec_len f.states)))
          (min (vec_capacity f.watches - vec_len f.watches) f.seen.spare);
    } };

    ghost invariant = { λ f.
        IsKept f.graph f.states.items f.found f.held f.finals.items (vec_capacity f.finals)
        × AreWatched f.graph.edges f.states.items f.watches.items
        × (f.seen.below ≡ length f.states.items) };
}

impl Finaliser {
    /// No nodes. `Err` where there is no memory.
    pub fn new(alloc: Global) -> Result<Finaliser, AllocError>
        ensures states { IfOk result (λ finaliser. finaliser.states ≡ []) }
        ensures edges { IfOk result (λ finaliser. finaliser.graph.edges ≡ []) }
        ensures finals { IfOk result (λ finaliser. finaliser.finals ≡ []) }
    {
        let graph = Graph::new(alloc)?;
        Ok(Finaliser {
            graph,
            states: Vec::new(alloc),
            found: NodeSet::new(alloc),
            held: NodeSet::new(alloc),
            finals: Vec::new(alloc),
            watches: Vec::new(alloc),
            seen: NodeSet::new(alloc),
        })
    }

    /// The graph, which has a node for each state. Nothing is left to settle.
    pub fn graph(&self) -> &Graph
        ensures graph { result.now ≡ self.now.graph }
        ensures nodes { self.now.graph.nodes ≡ length self.now.states }
        ensures settled { IsSettled self.now.graph.edges self.now.states }
    {
        &self.graph
    }

    /// The nodes that are newly final.
    pub fn finals(&self) -> &[u32]
        ensures finals { result.now ≡ self.now.finals }
        ensures within { All (λ node. node < length self.now.states) result.now }
    {
        self.finals.as_slice()
    }

    /// Whether a node is active.
    pub fn is_active(&self, node: u32) -> bool
        requires { node < length self.now.states }
        ensures { IsTrue result ↔ IsIn State.Active self.now.states node }
    {
        self.states[node as usize] == State::Active
    }

    /// Whether a node is final.
    pub fn is_final(&self, node: u32) -> bool
        requires { node < length self.now.states }
        ensures { IsTrue result ↔ IsIn State.Finalized self.now.states node }
    {
        self.states[node as usize] == State::Finalized
    }

    /// Forgets which nodes are newly final.
    pub fn clear_finals(&mut self)
        ensures stays { Stays (record self.old { finals = [] }) self.new }
    {
        self.finals.clear();
    }

    /// Makes room for one more node, and for any number of retirements. `Err` where there is no
    /// memory.
    pub fn reserve(&mut self, alloc: Global) -> Result<(), AllocError>
        ensures roomier { IsRoomier self.old self.new }
        ensures room { OnOk result (0 < self.new.spare) }
    {
        self.graph.reserve(alloc, 1, 0)?;
        self.states.reserve(1)?;
        self.found.reserve()?;
        self.held.reserve()?;
        self.finals.reserve(self.states.len() + 1)?;
        self.watches.reserve(1)?;
        self.seen.reserve()?;
        Ok(())
    }

    /// Adds an active node, and gives its number. It takes no memory.
    pub fn add_active(&mut self) -> u32
        requires { 0 < self.old.spare }
        ensures number { result ≡ length self.old.states }
        ensures roomier { IsRoomier (with_node self.old) self.new }
    {
        self.states.push_reserved(State::Active);
        self.found.add_node();
        self.held.add_node();
        self.seen.add_node();
        let aim = self.graph.add_node();
        self.watches.push_reserved(Watch { passed: 0, aim });
        aim
    }

    /// The edges from an active node to those of the targets to which it has none yet, as
    /// `Graph::prepare_edges` answers.
    pub fn prepare_edges(
        &mut self,
        alloc: Global,
        from: u32,
        targets: &[u32],
    ) -> Result<EdgePlan, EdgeFault>
        requires from { IsIn State.Active self.old.states from }
        requires targets { All (λ target. target < length self.old.states) targets.now }
        ensures roomier { IsRoomier self.old self.new }
        ensures fits { IfOk result (Fits self.new.graph) }
        ensures from { IfOk result (λ plan. plan.from ≡ from) }
        ensures targets { IfOk result
            (λ plan. plan.targets ≡ new_targets self.old.graph from targets.now) }
        ensures elsewhere { OnOk result (IsElsewhere from targets.now) }
        ensures fault { IfErr result (IsEdgeFault self.old.graph from targets.now) }
    {
        let plan = self.graph.prepare_edges(alloc, from, targets)?;
        Ok(plan)
    }

    /// Adds edges that were prepared, from a node that is active. It takes no memory.
    pub fn add_edges(&mut self, plan: EdgePlan)
        requires fits { Fits self.old.graph plan }
        requires from { IsIn State.Active self.old.states plan.from }
        ensures roomier { IsRoomier (with_edges plan.from plan.targets self.old) self.new }
    {
        self.graph.add_edges(plan);
    }

    /// Whether an active node would become final at once, if it were retired now. It takes no
    /// memory, and changes nothing.
    pub fn would_be_final(&mut self, node: u32) -> bool
        requires { IsIn State.Active self.old.states node }
        ensures answer { IsTrue result ↔ ¬ ReachesActive self.old.graph.edges
            (slice_set self.old.states node State.Finalizing) node }
        ensures stays { Stays self.old self.new }
    {
        let place = node as usize;
        self.states[place] = State::Finalizing;
        if begins_waiting(&self.graph, self.states.as_slice(), &mut self.watches, node) {
            self.states[place] = State::Active;
            return false;
        }
        find(
            &self.graph,
            self.states.as_slice(),
            &mut self.watches,
            node,
            &mut self.found,
        );
        hold(
            &self.graph,
            self.states.as_slice(),
            self.watches.as_slice(),
            &self.found,
            &mut self.held,
        );
        self.states[place] = State::Active;
        let waits = self.held.has(node);
        self.found.clear();
        self.held.clear();
        !waits
    }

    /// Makes an active node finalizing. Then every finalizing node that reaches no active one
    /// becomes final, all at once, and is listed with the newly final ones, ascending. It takes no
    /// memory.
    pub fn retire(&mut self, node: u32)
        requires { IsIn State.Active self.old.states node }
        ensures settled { (more : List ℕ) × (self.new.finals ≡ self.old.finals ++ more)
            × Settles self.old.graph.edges (slice_set self.old.states node State.Finalizing)
            self.new.states more }
        ensures graph { self.new.graph ≡ self.old.graph }
        ensures spare { self.old.spare ≤ self.new.spare }
    {
        self.states[node as usize] = State::Finalizing;
        if begins_waiting(&self.graph, self.states.as_slice(), &mut self.watches, node) {
            return;
        }
        find(
            &self.graph,
            self.states.as_slice(),
            &mut self.watches,
            node,
            &mut self.found,
        );
        hold(
            &self.graph,
            self.states.as_slice(),
            self.watches.as_slice(),
            &self.found,
            &mut self.held,
        );
        self.found.sort();
        settle_free(&self.found, &self.held, &mut self.states, &mut self.finals);
        self.found.clear();
        self.held.clear();
    }

    /// Notes of a node, and of all nodes that reach it along nodes that aren't final, that they
    /// reach it, but for those that were noted since the notes were cleared. What is retired later
    /// goes back no further than to nodes that are noted to reach an active one: where all active
    /// nodes are noted, the last to be retired first, each node is gone to once. It takes no
    /// memory, and changes nothing.
    pub fn note(&mut self, node: u32)
        requires { node < length self.old.states }
        ensures stays { Stays self.old self.new }
    {
        aim_at(
            &self.graph,
            self.states.as_slice(),
            node,
            &mut self.watches,
            &mut self.seen,
        );
    }

    /// Clears the notes: all nodes may be noted anew. It takes no memory, and changes nothing.
    pub fn clear_notes(&mut self)
        ensures stays { Stays self.old self.new }
    {
        self.seen.clear();
    }
}
