//! A search from node to node, in the order in which they are found.
ghost use Rattle.std.specs.Prelude.{◌≡◌, ◌↔◌, ◌∷◌, ℕ, [], Some, IfOk, OnOk, MatchOption, Contains, slice_get};
ghost use Rattle.std.specs.List.Sorted.{IsStrictlyIncreasing};
ghost use Rattle.inclusion_graph.specs.Searches.{IsGrown, IsPlaced, nodes_of};

use std::alloc::{AllocError, Global};
use std::collections::HashMap;

/// A node that was found, and the place of the step from which it was found.
#[derive(Clone, Copy)]
pub(crate) struct Step {
    pub(crate) node: u32,
    pub(crate) back: Option<usize>,
}

/// The nodes that were found so far, each with the place of its step.
#[derive(Drop)]
pub(crate) struct Search {
    pub(crate) places: HashMap<u32, usize>,
    pub(crate) steps: Vec<Step>,
}

impl Search {
    /// A search in which no node is found.
    pub(crate) fn new(alloc: Global) -> Search
        ensures none { result.steps.items ≡ [] }
        ensures placed { IsPlaced result.places.entries result.steps.items }
    {
        Search {
            places: HashMap::new(alloc),
            steps: Vec::new(alloc),
        }
    }

    /// Adds a node, if it isn't found yet.
    fn add(&mut self, node: u32, back: Option<usize>) -> Result<(), AllocError>
        requires { IsPlaced self.old.places.entries self.old.steps.items }
        ensures placed { OnOk result (IsPlaced self.new.places.entries self.new.steps.items) }
        ensures steps { OnOk result
            (IsGrown (node ∷ []) back self.old.steps.items self.new.steps.items) }
    {
        if !self.places.contains_key(&node) {
            let place = self.steps.len();
            self.steps.push(Step { node, back })?;
            self.places.insert(node, place)?;
        }
        Ok(())
    }

    /// Adds those of some nodes that aren't found yet.
    pub(crate) fn add_all(&mut self, nodes: &[u32], back: Option<usize>) -> Result<(), AllocError>
        requires { IsPlaced self.old.places.entries self.old.steps.items }
        ensures placed { OnOk result (IsPlaced self.new.places.entries self.new.steps.items) }
        ensures grown { OnOk result
            (IsGrown nodes.now back self.old.steps.items self.new.steps.items) }
    {
        for node in nodes {
            self.add(*node, back)?;
        }
        Ok(())
    }

    /// The place of the step to a node.
    pub(crate) fn place_of(&self, node: u32) -> Option<usize>
        requires { IsPlaced self.now.places.entries self.now.steps.items }
        ensures { MatchOption result (¬ Contains (nodes_of self.now.steps.items) node)
            (λ place. slice_get (nodes_of self.now.steps.items) place ≡ Some node) }
    {
        self.places.get(&node).copied()
    }

    /// The nodes that were found, ascending.
    pub(crate) fn found(&self, alloc: Global) -> Result<Vec<u32>, AllocError>
        requires { IsPlaced self.now.places.entries self.now.steps.items }
        ensures rising { IfOk result (λ nodes. IsStrictlyIncreasing nodes.items) }
        ensures all { IfOk result (λ nodes. (node : ℕ) →
            Contains nodes.items node ↔ Contains (nodes_of self.now.steps.items) node) }
    {
        let mut nodes = nodes_of(alloc, self.steps.as_slice())?;
        nodes.sort_unstable();
        Ok(nodes)
    }
}

/// The nodes of some steps.
fn nodes_of(alloc: Global, steps: &[Step]) -> Result<Vec<u32>, AllocError>
    ensures { IfOk result (λ nodes. nodes.items ≡ nodes_of steps.now) }
{
    let mut nodes = Vec::with_capacity(alloc, steps.len())?;
    for step in steps {
        nodes.push(step.node)?;
    }
    Ok(nodes)
}
