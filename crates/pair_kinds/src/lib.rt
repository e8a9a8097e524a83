//! Kinds of fields whose value is a pair of texts: tags.
//!
//! Each kind says what is wrong with a JSON value, what a right one means, and what is written of
//! it.
#![tactic(auto)]

mod tags;

pub use tags::{Tag, pairs_from, tag_value};
pub use text_kinds::{
    ContentType, Contents, HashText, Html, InvocationName, LimitedText, MayBeEmpty, Message, Pair,
    RequestId, SpelledOut, StatusName, ids_from,
};
