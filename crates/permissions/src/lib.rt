//! Who may do what: the policy of users, groups, roles and realms.
#![tactic(auto)]

mod caller;
mod faults;
mod granted;
mod grants;
mod graph;
mod masks;
mod members;
mod policy;
mod ranked;
mod ranks;
mod realms;
mod rights;
mod roles;
mod root;
mod shortcuts;

pub use caller::CallerId;
pub use faults::PolicyFault;
pub use granted::Granted;
pub use graph::edges_of;
pub use policy::Policy;
pub use policy_checks::Permission;
pub use realms::read_graph;
