//! What is asked of each text of a configuration's tables, and the places of the names in them.
#![tactic(auto)]

mod book;
mod check;
mod index;
mod owners;
mod permission;
mod texts;
mod walk;

pub use book::{Book, members_of, role_texts};
pub use check::rest_behind;
pub use index::NameIndex;
pub use names_realms::{Bytes, Moment, Realm};
pub use owners::index_tokens;
pub use permission::Permission;
pub use texts::Check;
pub use walk::first_failing;
