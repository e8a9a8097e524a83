//! Pages of what a caller may see of results and verdicts.
#![tactic(auto)]

pub mod laws;
mod pages;
mod paging;
mod queries;
mod rights;
mod showing;
mod tokens;

pub use pages::{HeldResult, ShownRows, ShownVerdict, ShownVerdicts};
pub use paging::{show_results, show_verdicts};
pub use queries::{Asker, ResultQuery, VerdictQuery};
pub use showing::show_result;
pub use verdict_lists::{VerdictStatus, View};
pub use verdict_masks::ShownResult;
