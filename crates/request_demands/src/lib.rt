//! What a request says by itself, apart from the world, and what it demands of the invocations and
//! results that are there.
#![tactic(auto)]

mod demand;
mod grants;
mod numbers;
mod reading;
mod refusals;

pub use demand::{Demand, demand_of, invocation_of};
pub use grants::Grant;
pub use message_forms::{
    CreateInvocation, FormFault, LimitedText, ListArtifacts, Method, QueryTestResults,
    QueryTestVariants, Reply, Request, RequestId, ShownArtifact, ShownArtifacts, ShownExonerations,
    ShownInvocation, ShownResults, Tag, UpdateInvocation, pairs_from, read_request, state_name,
    write_reply,
};
pub use numbers::{NumberCheck, check_digest, check_number, digest_again};
pub use reading::{Call, TokenCheck, Understood, caller_of, understand};
