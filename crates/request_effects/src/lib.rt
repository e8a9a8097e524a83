//! What a request does to what is recorded, and what it shows of it.
#![tactic(auto)]

mod ahead;
mod cursors;
mod keeping;
mod laws;
mod making;
mod planning;
mod seeing;
mod showing;
mod shows;

pub use keeping::{Numbered, keep_of, numbered_in, numbered_of};
pub use laws::kept_is_first;
pub use planning::{Context, plan_change};
pub use query_replies::Asker;
pub use request_rules::{
    Call, Demand, FormFault, Located, Method, NumberCheck, Policy, Request, Rule, Situation,
    Understood, caller_of, check_digest, check_number, demand_of, digest_again, holdings_for,
    is_right, read_request, understand,
};
pub use showing::{show, show_kept};
pub use shows::{Showing, Shows, shows_of};
