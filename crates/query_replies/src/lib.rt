//! What replies show of results and verdicts: a result, whole or masked, a page of results and a
//! page of verdicts. The text of a page is written row by row.
#![tactic(auto)]

pub mod laws;
mod listed;
mod names;
mod replies;
mod results;
mod verdicts;
mod writing;

pub use query_pages::{
    Asker, ResultQuery, VerdictQuery, View, show_result, show_results, show_verdicts,
};
pub use replies::{write_result, write_results_page, write_verdicts_page};
