//! The tables of a configuration as plain data, and the path at which something is wrong with them.
#![tactic(auto)]

mod findings;
mod notes;
mod tables;

pub use findings::Finding;
pub use name_parts::{Bytes, Listed};
pub use notes::Notes;
pub use tables::{Binding, Group, PolicyTables, RealmTable, Role, User, count_entries};
