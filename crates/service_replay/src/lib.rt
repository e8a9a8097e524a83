//! Commands that were recorded are made again over a core.
#![tactic(auto)]

mod laws;
mod replaying;

pub use laws::{one_replay, recorded_is_replayed, tick_is_replayed};
pub use replaying::{ReplayFault, kind_of, replay};
pub use service_core::{Core, Counts, Plan, Policy, Prepared, Understood, caller_of, understand};
