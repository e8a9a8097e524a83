//! Kinds of fields that requests are made of, but for texts: numbers, flags, lists with a limit,
//! variants, properties, and fields outside the profile.
//!
//! Each kind says what is wrong with a JSON value, what a right one means, and what is written of
//! it.
#![tactic(auto)]

mod beside;
mod defaults;
mod filled;
mod flags;
pub mod laws;
mod limited_lists;
mod numbers;
mod outside_profile;
mod properties;
mod trees;
mod variants;

pub use beside::{FormBeside, optional_beside, required_list_beside, same_text};
pub use defaults::{Defaulted, or_default, write_unless_default};
pub use filled::optional_filled;
pub use flags::Flag;
pub use limited_lists::{LimitedList, ListRule, QueryNames};
pub use numbers::{ByteSize, NumberRule, PageSize, Whole};
pub use outside_profile::{NoMessage, NoText};
pub use pair_kinds::{
    ContentType, Contents, HashText, Html, InvocationName, LimitedText, Message, RequestId,
    StatusName, Tag, ids_from, pairs_from, tag_value,
};
pub use properties::Properties;
pub use variants::VariantMap;
