//! The graph of inclusions.
ghost use Rattle.std.specs.Prelude.{◌≡◌, ◌+◌, ◌-◌, ◌<◌, ◌≤◌, ◌^◌, ◌++◌, ◌↔◌, ℕ, ◌∷◌, [], Some, List, IfOk, IfErr, OnOk};
ghost use Rattle.std.specs.Prelude.{MatchOption, All, Contains, length, slice_get, vec_len, vec_capacity};
ghost use Rattle.std.specs.List.Sorted.{IsStrictlyIncreasing};
ghost use Rattle.inclusion_graph.specs.declared.edge.Edge.{Edge};
ghost use Rattle.inclusion_graph.specs.Edges.{IsFirstTo, IsRoomier, targets_of, with_edges, with_node};
ghost use Rattle.inclusion_graph.specs.Plans.{Fits, IsEdgeFault, IsElsewhere, new_targets};
ghost use Rattle.inclusion_graph.specs.Searches.{IsListed, IsPlaced, IsRooted, IsSearched, nodes_of};
ghost use Rattle.inclusion_graph.specs.Walks.{IsReached, Leads, Reaches};

use crate::edge::Edge;
use crate::edge_list::EdgeList;
use crate::fresh::{append_new, count_new};
use crate::plan::{EdgeFault, EdgePlan, place_of};
use crate::search::Search;
use std::alloc::{AllocError, Global};
use std::marker::Model;

/// How many edges there may be.
const MOST_EDGES: usize = 262_144;

/// How many nodes there may be: as many as there are numbers for them.
const MOST_NODES: usize = 4_294_967_295;

/// Nodes, which are numbered from 0, and the edges between them, at most 262,144.
#[derive(Drop)]
pub struct Graph {
    edges: EdgeList,
    targets: Vec<Vec<u32>>,
    marks: Vec<bool>,
}

impl Model for Graph {
    ghost use Rattle.std.specs.Prelude.{◌≡◌, ◌-◌, [], min, length, vec_len, vec_capacity};
    ghost use Rattle.inclusion_graph.specs.Edges.{GraphState};
    ghost use Rattle.inclusion_graph.specs.Searches.{HasMarks, IsListed};

    ghost Value = { GraphState };

    ghost view = { λ g. record {
      nodes = length g.targets.items;
      edges = g.edges.edges;
      spare_nodes = min (min (vec_capacity g.targets) 4_294_967_295 - vec_len g.targets)
          (min g.edges.spare_nodes (vec_capacity g.marks - vec_len g.marks));
      spare_edges = g.edges.spare_edges;
    } };

    ghost invariant = { λ g. IsListed g.edges.edges g.targets.items
        × (g.edges.nodes ≡ length g.targets.items)
        × HasMarks g.marks.items (length g.targets.items) [] };
}

impl Graph {
    /// A graph without nodes. `Err` where there is no memory for it.
    pub fn new(alloc: Global) -> Result<Graph, AllocError>
        ensures nodes { IfOk result (λ graph. graph.nodes ≡ 0) }
        ensures edges { IfOk result (λ graph. graph.edges ≡ []) }
    {
        Ok(Graph {
            edges: EdgeList::new(alloc),
            targets: Vec::new(alloc),
            marks: Vec::new(alloc),
        })
    }

    /// How many nodes there are.
    pub fn nodes(&self) -> u32
        ensures { result ≡ self.now.nodes }
    {
        self.targets.len() as u32
    }

    /// The edges, in order of arrival.
    pub fn edges(&self) -> &[Edge]
        ensures edges { result.now ≡ self.now.edges }
        ensures few { length self.now.edges ≤ 262_144 }
        ensures from { All (λ edge. edge.from < self.now.nodes) result.now }
        ensures to { All (λ edge. edge.to < self.now.nodes) result.now }
    {
        self.edges.as_slice()
    }

    /// The targets of a node, in order of arrival.
    pub fn targets(&self, node: u32) -> &[u32]
        requires { node < self.now.nodes }
        ensures targets { result.now ≡ targets_of self.now.edges node }
        ensures within { All (λ target. target < self.now.nodes) result.now }
    {
        self.targets[node as usize].as_slice()
    }

    /// The k-th target of a node, counted from 0, or none where it has no more than k.
    pub fn edge(&self, node: u32, k: u32) -> Option<u32>
        requires { node < self.now.nodes }
        ensures { result ≡ slice_get (targets_of self.now.edges node) k }
    {
        self.targets(node).get(k as usize).copied()
    }

    /// The place of the first edge to a node, among the edges in order of arrival, or none.
    pub fn first_edge_to(&self, node: u32) -> Option<u32>
        requires { node < self.now.nodes }
        ensures { IsFirstTo self.now.edges node 0 result }
    {
        self.edges.first_to(node)
    }

    /// The place of the next edge to the node to which the edge at this place leads, or none.
    pub fn next_edge_to(&self, place: u32) -> Option<u32>
        requires { place < length self.now.edges }
        ensures { (edge : Edge) → slice_get self.now.edges place ≡ Some edge →
            IsFirstTo self.now.edges edge.to (place + 1) result }
    {
        self.edges.next_to(place)
    }

    /// Makes room for this many nodes and edges more. `Err` where there is no memory for them.
    pub fn reserve(&mut self, alloc: Global, nodes: u32, edges: u32) -> Result<(), AllocError>
        ensures roomier { IsRoomier self.old self.new }
        ensures room_for_nodes { OnOk result (nodes ≤ self.new.spare_nodes) }
        ensures room_for_edges { OnOk result (edges ≤ self.new.spare_edges) }
    {
        let _ = alloc;
        if nodes as usize > MOST_NODES - self.targets.len() {
            return Err(AllocError);
        }
        self.targets.reserve(nodes as usize)?;
        self.marks.reserve(nodes as usize)?;
        self.edges.reserve(nodes as usize, edges as usize)?;
        Ok(())
    }

    /// Adds a node, and gives its number. It takes no memory.
    pub fn add_node(&mut self) -> u32
        requires { 0 < self.old.spare_nodes }
        ensures number { result ≡ self.old.nodes }
        ensures roomier { IsRoomier (with_node self.old) self.new }
    {
        let number = self.targets.len() as u32;
        let none = Vec::new(*self.targets.allocator());
        self.targets.push_reserved(none);
        self.marks.push_reserved(false);
        self.edges.add_node();
        number
    }

    /// The edges from a node to those of the targets to which it has none yet, each once, in order,
    /// with room for them. `Itself` where a target is the node, else `Full` where the edges would
    /// be more than 262,144; `Memory` where there is no memory for them.
    pub fn prepare_edges(
        &mut self,
        alloc: Global,
        from: u32,
        targets: &[u32],
    ) -> Result<EdgePlan, EdgeFault>
        requires from { from < self.old.nodes }
        requires targets { All (λ target. target < self.old.nodes) targets.now }
        ensures roomier { IsRoomier self.old self.new }
        ensures fits { IfOk result (Fits self.new) }
        ensures from { IfOk result (λ plan. plan.from ≡ from) }
        ensures targets { IfOk result
            (λ plan. plan.targets ≡ new_targets self.old from targets.now) }
        ensures elsewhere { OnOk result (IsElsewhere from targets.now) }
        ensures fault { IfErr result (IsEdgeFault self.old from targets.now) }
    {
        if let Some(at) = place_of(targets, from) {
            return Err(EdgeFault::Itself { at });
        }
        let held = self.targets(from);
        let count = held.len();
        let Ok(mut all) = copy_of(alloc, held, targets) else {
            return Err(self.fault_without_memory(from, targets));
        };
        append_new(&self.edges, from, targets, &mut self.marks, &mut all);
        if all.len() - count > MOST_EDGES - self.edges.len() {
            return Err(EdgeFault::Full {
                count: self.edges.len() as u32,
            });
        }
        self.edges.reserve(0, all.len() - count)?;
        Ok(EdgePlan {
            from,
            held: count,
            all,
        })
    }

    /// Why no edges can be added, where there is no memory for them: there would be too many edges,
    /// or else the want of memory itself.
    fn fault_without_memory(&mut self, from: u32, targets: &[u32]) -> EdgeFault
        requires from { from < self.old.nodes }
        requires targets { All (λ target. target < self.old.nodes) targets.now }
        requires elsewhere { IsElsewhere from targets.now }
        ensures roomier { IsRoomier self.old self.new }
        ensures fault { IsEdgeFault self.old from targets.now result }
    {
        let held = self.targets[from as usize].as_slice();
        let new = count_new(held, targets, &mut self.marks);
        let count = self.edges.len();
        if new > MOST_EDGES - count {
            return EdgeFault::Full {
                count: count as u32,
            };
        }
        EdgeFault::Memory
    }

    /// Adds edges that were prepared. It takes no memory.
    pub fn add_edges(&mut self, plan: EdgePlan)
        requires { Fits self.old plan }
        ensures roomier { IsRoomier (with_edges plan.from plan.targets self.old) self.new }
    {
        let EdgePlan { from, held, all } = plan;
        add_from(&mut self.edges, from, &all[held..]);
        self.targets[from as usize] = all;
    }

    /// The nodes that are found from these, with the steps by which each was found.
    fn search(&self, alloc: Global, roots: &[u32]) -> Result<Search, AllocError>
        requires { All (λ root. root < self.now.nodes) roots.now }
        ensures placed { IfOk result
            (λ search. IsPlaced search.places.entries search.steps.items) }
        ensures all { IfOk result (λ search. IsSearched self.now.edges roots.now
            search.steps.items (length search.steps.items)) }
    {
        let mut search = Search::new(alloc);
        search.add_all(roots, None)?;
        let mut at = 0;
        'steps: while at < search.steps.len() {
            let node = search.steps[at].node;
            search.add_all(self.targets(node), Some(at))?;
            at += 1;
        }
        Ok(search)
    }

    /// The walk to the node of a step.
    fn walk_back(
        &self,
        alloc: Global,
        search: &Search,
        from: u32,
        place: usize,
    ) -> Result<Vec<u32>, AllocError>
        requires rooted { IsRooted self.now.edges (from ∷ []) search.now.steps.items }
        requires place { place < length search.now.steps.items }
        ensures { IfOk result (λ walk. (to : ℕ) →
            slice_get (nodes_of search.now.steps.items) place ≡ Some to →
            Leads self.now.edges walk.items from to) }
    {
        let mut at = place;
        let mut walk = Vec::new(alloc);
        walk.push(search.steps[at].node)?;
        'back: while let Some(back) = search.steps[at].back {
            at = back;
            walk.push(search.steps[at].node)?;
        }
        walk.reverse();
        Ok(walk)
    }

    /// A walk from a node to another, or none where there is none.
    pub fn walk_to(&self, alloc: Global, a: u32, b: u32) -> Result<Option<Vec<u32>>, AllocError>
        requires { a < self.now.nodes }
        ensures { IfOk result (λ found. MatchOption found (¬ Reaches self.now.edges a b)
            (λ walk. Leads self.now.edges walk.items a b)) }
    {
        let search = self.search(alloc, &[a])?;
        let Some(place) = search.place_of(b) else {
            return Ok(None);
        };
        Ok(Some(self.walk_back(alloc, &search, a, place)?))
    }

    /// All nodes that are reached from these, ascending, each once.
    pub fn reach(&self, alloc: Global, roots: &[u32]) -> Result<Vec<u32>, AllocError>
        requires { All (λ root. root < self.now.nodes) roots.now }
        ensures rising { IfOk result (λ nodes. IsStrictlyIncreasing nodes.items) }
        ensures all { IfOk result (λ nodes. (node : ℕ) →
            Contains nodes.items node ↔ IsReached self.now.edges roots.now node) }
    {
        let search = self.search(alloc, roots)?;
        let nodes = search.found(alloc)?;
        Ok(nodes)
    }
}

/// A copy of a list, with room for as many more as there are others.
fn copy_of(alloc: Global, list: &[u32], others: &[u32]) -> Result<Vec<u32>, AllocError>
    ensures items { IfOk result (λ copy. copy.items ≡ list.now) }
    ensures room { IfOk result (λ copy. vec_len copy + length others.now ≤ vec_capacity copy) }
{
    let mut copy = Vec::with_capacity(alloc, list.len() + others.len())?;
    copy.extend_from_slice(list)?;
    Ok(copy)
}

/// Appends edges from a node to each of these, for which there is room.
fn add_from(edges: &mut EdgeList, from: u32, targets: &[u32])
    requires targets { All (λ target. target < edges.old.nodes) targets.now }
    requires few { length edges.old.edges + length targets.now ≤ 262_144 }
    requires room { length targets.now ≤ edges.old.spare_edges }
    ensures roomier { IsRoomier (with_edges from targets.now edges.old) edges.new }
{
    for to in targets {
        edges.push(Edge { from, to: *to });
    }
}
