//! Where connections come from that the program itself opens: links that are dialled, one after the
//! other, and given back.
#![tactic(auto)]

mod dialer;
mod memory;
mod stream_link;
mod tcp;
#[cfg(test)]
mod tests;

pub use dialer::Dialer;
pub use memory::{MemoryDialer, MemoryLinks};
pub use stream_link::StreamLink;
pub use tcp::TcpDialer;
