//! HTTP/1.1 on a connection: requests in, replies out.
//!
//! `Wire` reads one message after the other from a link, in whatever pieces the bytes come: a head
//! of HTTP/1.0 or HTTP/1.1, and the body that its Content-Length announces.
#![tactic(auto)]

mod bearer;
mod body;
mod buffer;
mod closing;
mod fields;
mod head_scan;
mod head_search;
mod laws;
mod lengths;
mod message;
mod out;
mod plain;
mod reply_head;
mod request;
mod said;
mod wire;

pub use laws::{front_of_reading, one_reading, there_is_a_reading};
pub use message::{End, Message, WireFault, closes};
pub use out::{write_farewell, write_response, write_standin};
pub use plain::read_stream;
pub use wire::Wire;
