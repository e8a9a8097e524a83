//! Inclusions as edges between numbered nodes, and what is reached along them.
#![tactic(auto)]

mod edge;
mod edge_list;
mod fresh;
mod graph;
mod laws;
mod plan;
mod search;

pub use edge::Edge;
pub use graph::Graph;
pub use laws::{fresh_are_new, new_are_one_list};
pub use plan::{EdgeFault, EdgePlan};
