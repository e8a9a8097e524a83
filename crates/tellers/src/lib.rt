//! Who is asked, and what was asked and told.
//!
//! Whoever serves a connection is generic over a `Teller`, and so knows nothing of worlds, policies
//! and clocks.
#![tactic(auto)]

mod teller;

pub use teller::Teller;
