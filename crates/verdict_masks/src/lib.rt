//! What of results and verdicts is shown to a caller, and what is masked.
#![tactic(auto)]

mod cuts;
pub mod laws;
mod masks;
mod shown;

pub use masks::{may_see, show, shows_variant};
pub use shown::ShownResult;
