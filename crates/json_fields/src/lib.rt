//! The frame by which JSON bodies are read and written: kinds of values, fields, lists of fields.
//!
//! A body's fault is the first one in the list of its fields; else its value is what they say.
#![tactic(auto)]

mod body;
mod elements;
mod faults;
mod fields;
mod kinds;
pub mod laws;
mod names;
mod texts;
mod whys;
mod writing;

pub use body::{BodyFault, read_body, read_json};
pub use faults::{FaultKind, FieldFault, ReadFault, path_text};
pub use fields::{Form, filled_at, optional, optional_list, or_empty_text, required, set_at};
pub use kinds::{UnbuiltList, object};
pub use names::{Name, Step};
pub use names_realms::{
    ArtifactId, ArtifactName, Bytes, InvocationId, Listed, NameFault, Pair, PairFault, PartForm,
    Status, TestId, Variant, append_escaped, bad_in_literal, limited, owned_text, read_part,
    utf8_len,
};
pub use texts::{Spelled, SpelledOut, is_empty_text, read_text, write_text};
pub use whys::Why;
pub use writing::{Written, put, write_list, write_optional, write_required};
