//! The forms of requests for invocations: what a request to make, change, end or show one says,
//! what is written of it, and what replies show of an invocation. Each kind of request has a file
//! of its own.
#![tactic(auto)]

mod create;
mod included;
pub mod laws;
mod masks;
mod name_values;
mod named;
mod names;
mod replies;
mod updates;

pub use create::{CreateInvocation, NewInvocation};
pub use field_kinds::{Tag, pairs_from};
pub use included::IncludingInvocation;
pub use named::NamedInvocation;
pub use replies::{ShownInvocation, state_name};
pub use updates::UpdateInvocation;
