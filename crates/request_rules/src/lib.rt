//! Which rule a request breaks by what it demands of the invocations and results that are there.
#![tactic(auto)]

mod again;
mod breaches;
mod holdings;
mod judging;
mod locating;
mod rights;
mod rules;

pub use again::is_right;
pub use breaches::Breach;
pub use holdings::{Holding, holdings_for};
pub use judging::Situation;
pub use locating::Located;
pub use permissions::Policy;
pub use request_demands::{
    Call, CreateInvocation, Demand, FormFault, ListArtifacts, Method, NumberCheck,
    QueryTestResults, QueryTestVariants, Reply, Request, ShownArtifact, ShownArtifacts,
    ShownExonerations, ShownInvocation, ShownResults, Tag, Understood, UpdateInvocation, caller_of,
    check_digest, check_number, demand_of, digest_again, pairs_from, read_request, understand,
    write_reply,
};
pub use rules::Rule;
