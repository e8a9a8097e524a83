//! Replies to requests that the program itself sends, read from a link one after the other.
#![tactic(auto)]

mod body;
mod ends;
mod heads;
mod lengths;
mod reader;
mod reads;
#[cfg(test)]
mod tests;

pub use reader::ReplyReader;
pub use reads::ReplyEnd;
