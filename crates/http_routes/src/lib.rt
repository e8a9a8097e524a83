//! Which targets name a method of a service.
#![tactic(auto)]

mod routes;

pub use routes::{Call, Routes, one_call};
