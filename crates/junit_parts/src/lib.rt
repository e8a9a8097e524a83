//! The parts of JUnit XML reports: constructs, what is wrong with one where it stands, and what
//! attributes say.
#![tactic(auto)]

mod bytes;
mod constructs;
mod documents;
mod faults;
mod judging;
pub mod laws;
mod references;
mod roles;
mod tags;
mod times;
mod unread;
mod values;

pub use bytes::{behind_white, is_white, white_len};
pub use constructs::{Construct, read_construct};
pub use documents::document_of;
pub use faults::{Cause, Flaw, JunitFault, Stop, Unsupported};
pub use judging::{Spot, tag_flaw};
pub use roles::{Role, role_in};
pub use tags::{Attribute, Tag};
pub use times::time;
pub use unread::Unread;
pub use values::{named_text, reference_at, value_named};
