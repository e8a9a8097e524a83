//! The tokens under which an invocation is changed, and the codes that they are made of.
#![tactic(auto)]

mod hash;
mod secret;

pub use hash::hmac_sha256;
pub use secret::{Secret, token_is, update_token};
