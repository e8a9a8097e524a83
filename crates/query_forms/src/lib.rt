//! The forms of the requests that show results and verdicts: what a request to show one result, a
//! page of results or a page of verdicts says, and what is written of it. Each kind of request has
//! a file of its own.
#![tactic(auto)]

mod cursors;
pub mod laws;
mod named;
mod names;
mod results;
mod single;
mod sizes;
mod tokens;
mod variants;

pub use invocation_forms::{
    CreateInvocation, IncludingInvocation, NamedInvocation, NewInvocation, ShownInvocation, Tag,
    UpdateInvocation, pairs_from, state_name,
};
pub use result_forms::{BatchCreateTestExonerations, BatchCreateTestResults};
pub use results::QueryTestResults;
pub use single::GetTestResult;
pub use variants::QueryTestVariants;
