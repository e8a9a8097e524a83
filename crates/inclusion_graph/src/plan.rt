//! Edges that are to be added, and why they can't be.
ghost use Rattle.std.specs.Prelude.{◌≡◌, ◌≢◌, ◌↔◌, ◌≤◌, [], IsTrue, MatchOption, Some, take, slice_get, vec_len};
ghost use Rattle.inclusion_graph.specs.Plans.{IsElsewhere, PlanState};

use std::alloc::AllocError;
use std::marker::Model;

/// Why no edges can be added.
#[derive(Clone, Copy, Debug, PartialEq, Eq)]
pub enum EdgeFault {
    /// The target at this place is the node itself.
    Itself { at: usize },
    /// There would be too many edges. This many there are.
    Full { count: u32 },
    /// There was no memory for the edges.
    Memory,
}

impl From<AllocError> for EdgeFault {
    ghost use Rattle.std.specs.Prelude.{◌≡◌};
    ghost use Rattle.inclusion_graph.specs.declared.plan.EdgeFault.TheVariants.{Memory};

    ghost from_gives = { λ _ e. e ≡ Memory };

    fn from(_e: AllocError) -> EdgeFault {
        EdgeFault::Memory
    }
}

/// Edges from one node that are to be added to a graph: those that aren't there yet.
#[derive(Drop)]
pub struct EdgePlan {
    pub(crate) from: u32,
    pub(crate) held: usize,
    pub(crate) all: Vec<u32>,
}

impl Model for EdgePlan {
    ghost use Rattle.std.specs.Prelude.{◌≤◌, take, drop, vec_len};
    ghost use Rattle.inclusion_graph.specs.Searches.{HasMarks};
    ghost use Rattle.inclusion_graph.specs.Plans.{PlanState};

    ghost Value = { PlanState };

    ghost view = { λ p. record {
      from = p.from;
      held = take p.held p.all.items;
      targets = drop p.held p.all.items;
    } };

    ghost invariant = { λ p. p.held ≤ vec_len p.all };
}

impl EdgePlan {
    /// Whether it has no edges.
    pub fn is_empty(&self) -> bool
        ensures { IsTrue result ↔ (self.now.targets ≡ []) }
    {
        self.all[self.held..].is_empty()
    }
}

/// The first place of a number.
pub(crate) fn place_of(numbers: &[u32], number: u32) -> Option<usize>
    ensures { MatchOption result (IsElsewhere number numbers.now)
        (λ at. (slice_get numbers.now at ≡ Some number)
        × IsElsewhere number (take at numbers.now)) }
{
    for (at, other) in numbers.iter().enumerate() {
        if *other == number {
            return Some(at);
        }
    }
    None
}
