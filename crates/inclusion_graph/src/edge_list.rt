//! Edges in order of arrival, each linked to the next one to the same node.
ghost use Rattle.std.specs.Prelude.{◌≡◌, ◌+◌, ◌<◌, ◌≤◌, ◌++◌, ◌∷◌, [], Some, OnOk, IfOk, MatchOption, length};
ghost use Rattle.std.specs.Prelude.{slice_get, slice_set, vec_capacity};
ghost use Rattle.std.specs.Option.{ForSome};
ghost use Rattle.inclusion_graph.specs.declared.edge.Edge.{Edge};
ghost use Rattle.inclusion_graph.specs.Edges.{IsFirstTo, IsRoomier, with_edges, with_node};
ghost use Rattle.inclusion_graph.specs.Links.{ends_with};

use crate::edge::Edge;
use std::alloc::{AllocError, Global};
use std::marker::Model;

/// The places of the first and of the last edge to a node.
#[derive(Clone, Copy)]
pub(crate) struct Ends {
    first: u32,
    last: u32,
}

/// Edges in order of arrival, with links to the next edge to the same node.
#[derive(Drop)]
pub(crate) struct EdgeList {
    edges: Vec<Edge>,
    next: Vec<Option<u32>>,
    ends: Vec<Option<Ends>>,
}

impl Model for EdgeList {
    ghost use Rattle.std.specs.Prelude.{◌-◌, min, length, vec_len, vec_capacity};
    ghost use Rattle.inclusion_graph.specs.Edges.{GraphState};
    ghost use Rattle.inclusion_graph.specs.Links.{AreLinked};

    ghost Value = { GraphState };

    ghost view = { λ l. record {
      nodes = length l.ends.items;
      edges = l.edges.items;
      spare_nodes = vec_capacity l.ends - vec_len l.ends;
      spare_edges = min (vec_capacity l.edges - vec_len l.edges)
          (vec_capacity l.next - vec_len l.next);
    } };

    ghost invariant = { λ l. AreLinked l.edges.items l.next.items l.ends.items };
}

impl EdgeList {
    /// No nodes and no edges.
    pub(crate) fn new(alloc: Global) -> EdgeList
        ensures nodes { result.nodes ≡ 0 }
        ensures edges { result.edges ≡ [] }
    {
        EdgeList {
            edges: Vec::new(alloc),
            next: Vec::new(alloc),
            ends: Vec::new(alloc),
        }
    }

    /// How many edges there are.
    pub(crate) fn len(&self) -> usize
        ensures { result ≡ length self.now.edges }
    {
        self.edges.len()
    }

    /// The edges, in order of arrival.
    pub(crate) fn as_slice(&self) -> &[Edge]
        ensures { result.now ≡ self.now.edges }
    {
        self.edges.as_slice()
    }

    /// Makes room for this many nodes and edges more.
    pub(crate) fn reserve(&mut self, nodes: usize, edges: usize) -> Result<(), AllocError>
        ensures roomier { IsRoomier self.old self.new }
        ensures room_for_nodes { OnOk result (nodes ≤ self.new.spare_nodes) }
        ensures room_for_edges { OnOk result (edges ≤ self.new.spare_edges) }
    {
        self.ends.reserve(nodes)?;
        self.edges.reserve(edges)?;
        self.next.reserve(edges)?;
        Ok(())
    }

    /// Adds a node, to which no edge leads.
    pub(crate) fn add_node(&mut self)
        requires { 0 < self.old.spare_nodes }
        ensures roomier { IsRoomier (with_node self.old) self.new }
    {
        self.ends.push_reserved(None);
    }

    /// Adds an edge behind the others.
    pub(crate) fn push(&mut self, edge: Edge)
        requires to { edge.to < self.old.nodes }
        requires few { length self.old.edges < 4_294_967_295 }
        requires room { 0 < self.old.spare_edges }
        ensures roomier { IsRoomier (with_edges edge.from (edge.to ∷ []) self.old) self.new }
    {
        let place = self.edges.len() as u32;
        let before = self.ends[edge.to as usize];
        let ends = extend(before, &mut self.next, place);
        self.ends[edge.to as usize] = Some(ends);
        self.next.push_reserved(None);
        self.edges.push_reserved(edge);
    }

    /// The place of the first edge to a node, or none.
    pub(crate) fn first_to(&self, node: u32) -> Option<u32>
        requires { node < self.now.nodes }
        ensures { IsFirstTo self.now.edges node 0 result }
    {
        match self.ends[node as usize] {
            Some(ends) => Some(ends.first),
            None => None,
        }
    }

    /// The place of the next edge to the node to which the one at this place leads, or none.
    pub(crate) fn next_to(&self, place: u32) -> Option<u32>
        requires { place < length self.now.edges }
        ensures { (edge : Edge) → slice_get self.now.edges place ≡ Some edge →
            IsFirstTo self.now.edges edge.to (place + 1) result }
    {
        self.next[place as usize]
    }
}

/// Links the last edge to a node, if there is one, to the edge at this place, which is the last one
/// then.
fn extend(before: Option<Ends>, next: &mut Vec<Option<u32>>, place: u32) -> Ends
    requires { ForSome before (λ ends. ends.last < length next.old.items) }
    ensures ends { result ≡ ends_with before place }
    ensures next { MatchOption before (next.new.items ≡ next.old.items)
        (λ ends. next.new.items ≡ slice_set next.old.items ends.last (Some place)) }
    ensures capacity { vec_capacity next.new ≡ vec_capacity next.old }
{
    match before {
        Some(ends) => {
            next[ends.last as usize] = Some(place);
            Ends {
                first: ends.first,
                last: place,
            }
        }
        None => Ends {
            first: place,
            last: place,
        },
    }
}
