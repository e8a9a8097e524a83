//! What the service holds in memory, and what is done to it, as data.
#![tactic(auto)]

mod artifact_batches;
mod batches;
mod doing;
mod effect;
mod faults;
mod laws;
mod names;
mod storing;
mod tables;

pub use artifact_batches::plan_artifacts;
pub use batches::{plan_exonerations, plan_results};
pub use doing::carry_out;
pub use effect::{Change, Effect, Planned};
pub use faults::{EffectFault, FullTable};
pub use laws::{effects_are_changes, effects_keep_valid};
pub use storing::StoreFull;
pub use tables::Tables;
