//! The service itself: what it holds, and what one request changes and answers.
#![tactic(auto)]

mod counting;
mod laws;
mod plan;
mod planning;
mod serving;

pub use counting::Counts;
pub use laws::{timed_goes_on, timed_is_legal};
pub use plan::{CallRecord, Plan, Prepared, Work};
pub use request_effects::{
    Context, Demand, FormFault, Located, Method, NumberCheck, Numbered, Policy, Request,
    Understood, caller_of, check_digest, demand_of, digest_again, is_right, numbered_in,
    read_request, understand,
};
pub use serving::Core;
