//! What a number stands for: draws that look like chance, and what they say of invocations in turn.
#![tactic(auto)]

mod drawn;
mod draws;

pub use drawn::{DrawnInvocation, DrawnResult};
pub use draws::Draws;
pub use names_realms::{Bytes, InvocationId, Listed, NameFault, Realm, ResultId, TestId, Variant};
