//! What is so of each step of the service, and of each of its histories.
#![tactic(auto)]

mod laws;

pub use laws::{
    a_step_is_there, artifacts_stay, empty_is_valid, exonerations_stay, final_in_time, final_stays,
    first_is_kept, ids_stay_unique, kept_stays, numbers_act_once, one_step, recorded_is_shown,
    results_stay, rows_stay, shown_is_named, ticks_fit,
};
