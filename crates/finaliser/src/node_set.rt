//! A set of nodes in the order in which they were added.
ghost use Rattle.std.specs.Prelude.{◌≡◌, ◌+◌, ◌<◌, ◌≤◌, ◌++◌, ◌∷◌, [], ◌↔◌, IsTrue, Some, All, Contains, OnOk, length};
ghost use Rattle.std.specs.Prelude.{slice_get, vec_capacity};
ghost use Rattle.std.specs.List.Sorted.{IsPermutation, IsStrictlyIncreasing};
ghost use Rattle.inclusion_graph.specs.Edges.{fresh};
ghost use Rattle.inclusion_graph.specs.Searches.{HasMarks};
ghost use Rattle.finaliser.specs.Holding.{IsOutOfSame};

use std::alloc::{AllocError, Global};
use std::marker::Model;

/// A set of nodes, which remembers in which order they were added.
#[derive(Drop)]
pub(crate) struct NodeSet {
    marks: Vec<bool>,
    nodes: Vec<u32>,
}

impl Model for NodeSet {
    ghost use Rattle.std.specs.Prelude.{◌-◌, min, length, vec_len, vec_capacity};
    ghost use Rattle.finaliser.specs.Holding.{IsNodeSet, NodeSetState};

    ghost Value = { NodeSetState };

    ghost view = { λ s. record {
      nodes = s.nodes.items;
      below = length s.marks.items;
      spare = min (vec_capacity s.marks - vec_len s.marks) (vec_capacity s.nodes - vec_len s.marks);
    } };

    ghost invariant = { λ s. IsNodeSet s.marks.items s.nodes.items (vec_capacity s.nodes) };
}

impl NodeSet {
    /// The empty set, out of no nodes.
    pub(crate) fn new(alloc: Global) -> NodeSet
        ensures nodes { result.nodes ≡ [] }
        ensures below { result.below ≡ 0 }
    {
        NodeSet {
            marks: Vec::new(alloc),
            nodes: Vec::new(alloc),
        }
    }

    /// Makes room for one node more out of which the set may be.
    pub(crate) fn reserve(&mut self) -> Result<(), AllocError>
        ensures nodes { self.new.nodes ≡ self.old.nodes }
        ensures same { IsOutOfSame self.old self.new }
        ensures room { OnOk result (0 < self.new.spare) }
    {
        self.marks.reserve(1)?;
        self.nodes.reserve(self.marks.len() + 1)?;
        Ok(())
    }

    /// Lets the set be out of one node more, which isn't in it.
    pub(crate) fn add_node(&mut self)
        requires { 0 < self.old.spare }
        ensures nodes { self.new.nodes ≡ self.old.nodes }
        ensures below { self.new.below ≡ self.old.below + 1 }
        ensures spare { self.old.spare ≤ self.new.spare + 1 }
    {
        self.marks.push_reserved(false);
    }

    /// Whether a node is in the set.
    pub(crate) fn has(&self, node: u32) -> bool
        requires { node < self.now.below }
        ensures { IsTrue result ↔ Contains self.now.nodes node }
    {
        self.marks[node as usize]
    }

    /// How many nodes are in the set.
    pub(crate) fn len(&self) -> usize
        ensures count { result ≡ length self.now.nodes }
        ensures few { result ≤ self.now.below }
    {
        self.nodes.len()
    }

    /// The node at a place.
    pub(crate) fn at(&self, place: usize) -> u32
        requires { place < length self.now.nodes }
        ensures at { slice_get self.now.nodes place ≡ Some result }
        ensures within { result < self.now.below }
    {
        self.nodes[place]
    }

    /// The nodes, in the order in which they were added.
    pub(crate) fn as_slice(&self) -> &[u32]
        ensures nodes { result.now ≡ self.now.nodes }
        ensures within { All (λ node. node < self.now.below) result.now }
    {
        self.nodes.as_slice()
    }

    /// Adds a node, unless it is there.
    pub(crate) fn add(&mut self, node: u32)
        requires { node < self.old.below }
        ensures nodes { self.new.nodes ≡ self.old.nodes ++ fresh self.old.nodes (node ∷ []) }
        ensures same { IsOutOfSame self.old self.new }
    {
        if !self.marks[node as usize] {
            self.marks[node as usize] = true;
            self.nodes.push_reserved(node);
        }
    }

    /// Brings the nodes into ascending order.
    pub(crate) fn sort(&mut self)
        ensures permutation { IsPermutation self.old.nodes self.new.nodes }
        ensures rising { IsStrictlyIncreasing self.new.nodes }
        ensures same { IsOutOfSame self.old self.new }
    {
        self.nodes.sort_unstable();
    }

    /// Takes all nodes out of the set.
    pub(crate) fn clear(&mut self)
        ensures nodes { self.new.nodes ≡ [] }
        ensures same { IsOutOfSame self.old self.new }
    {
        unmark(&mut self.marks, self.nodes.as_slice());
        self.nodes.clear();
    }
}

/// Takes back the marks of these nodes, which are all that there are.
fn unmark(marks: &mut Vec<bool>, nodes: &[u32])
    requires says { HasMarks marks.old.items (length marks.old.items) nodes.now }
    requires low { All (λ node. node < length marks.old.items) nodes.now }
    ensures says { HasMarks marks.new.items (length marks.old.items) [] }
    ensures capacity { vec_capacity marks.new ≡ vec_capacity marks.old }
{
    for node in nodes {
        marks[*node as usize] = false;
    }
}
