//! What passes between the wire and the service: what a caller asks, what it is told, and the bytes
//! of what it is told.
#![tactic(auto)]

mod asked;
mod forms;
mod refusals;

pub use asked::Asked;
pub use forms::{Answer, Refusal, Standin, Told};
pub use refusals::write_refusal;
