//! A run of the workload as a program sees it: under which policy, how it ends, and its line.
#![tactic(auto)]

mod ending;
mod line;
mod policy;

pub use ending::LoadEnding;
pub use line::{Load, load_line};
pub use policy::load_policy;
pub use policy_reading::from_toml;
pub use workload_turns::{Asking, Stop, Tally, run_load};
