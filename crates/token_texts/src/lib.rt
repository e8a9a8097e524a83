//! Tokens of JSON that are written straight into a text, and the members that are made of them.
#![tactic(auto)]

mod members;
mod tags;
mod tokens;

pub use members::{put_filled, put_optional, put_spelled, text_of};
pub use tags::put_tags;
pub use tokens::{
    begin_array, begin_object, end_array, end_object, put_key, put_string, put_text, put_true,
};
