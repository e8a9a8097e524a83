//! Requests as they are read from JSON, and replies as they are written: the messages of the
//! service, by one table of methods.
#![tactic(auto)]

mod batches;
pub mod laws;
mod names;
mod reading;
mod refusals;
mod replies;
mod requests;

pub use artifact_replies::{
    BatchCreateArtifacts, GetArtifact, LimitedText, ListArtifacts, RequestId, ShownArtifacts,
};
pub use batches::{ShownExonerations, ShownResults};
pub use call_forms::{Answer, Asked, Refusal, Standin, Told, write_refusal};
pub use json_fields::{FaultKind, FieldFault, Step, Why};
pub use query_forms::{
    BatchCreateTestExonerations, BatchCreateTestResults, CreateInvocation, IncludingInvocation,
    NamedInvocation, NewInvocation, QueryTestResults, QueryTestVariants, ShownInvocation, Tag,
    UpdateInvocation, pairs_from, state_name,
};
pub use reading::{FormFault, read_request};
pub use refusals::refusal_of;
pub use replies::{Reply, ShownArtifact, write_reply};
pub use requests::{Method, Request, write_request};
