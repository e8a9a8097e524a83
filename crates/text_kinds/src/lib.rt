//! Kinds of fields whose value is one text: contents, hashes, names of a status and of invocations,
//! the two texts of a tag, and texts with a limit.
//!
//! Each kind says what is wrong with a JSON value, what a right one means, and what is written of
//! it.
#![tactic(auto)]

mod contents;
mod hashes;
pub mod laws;
mod names;
mod statuses;
mod tag_texts;
mod texts;

pub use contents::Contents;
pub use hashes::HashText;
pub use json_fields::{
    Form, Listed, Name, NameFault, Pair, PairFault, ReadFault, Spelled, SpelledOut, Written,
    object, or_empty_text, put,
};
pub use names::{InvocationName, ids_from};
pub use statuses::StatusName;
pub use tag_texts::{TagKey, TagValue};
pub use texts::{ContentType, Html, LimitedText, MayBeEmpty, Message, RequestId, TextRule};
