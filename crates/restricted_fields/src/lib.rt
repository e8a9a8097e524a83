//! What a caller may not see changes nothing of what the service answers.
#![tactic(auto)]

mod laws;

pub use laws::{unseen_changes_no_answer, unseen_changes_no_history};
