//! Where connections come in: links that a door gives one after the other, and that are given back.
#![tactic(auto)]

mod door;
mod memory;
mod parting;
mod patience;
mod tcp;
#[cfg(test)]
mod tests;

pub use dialers::StreamLink;
pub use door::Door;
pub use memory::MemoryDoor;
pub use patience::{Limits, PatientListener, PatientStream};
pub use tcp::TcpDoor;
