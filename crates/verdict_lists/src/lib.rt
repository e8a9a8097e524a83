//! The verdicts of tests: the results that are reached from some invocations, grouped by test and
//! variant, with a status for each group, in the order in which they are listed.
#![tactic(auto)]

mod entries;
mod gathering;
mod groups;
mod keys;
pub mod laws;
mod listing;
mod orders;
mod status;
mod verdict;
mod view;

pub use gathering::gather;
pub use listing::list_results;
pub use verdict::{Verdict, VerdictStatus};
pub use view::{View, rows_are_kept};
