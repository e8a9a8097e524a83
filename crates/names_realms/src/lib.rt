//! Names, and the small values that every other crate speaks of.
//!
//! Each name has one grammar and one spelling. `parse` reads exactly the texts of the grammar, and
//! says of every other text what is wrong with it and where. `write_to` appends the one spelling.
#![tactic(auto)]

mod artifact_names;
mod ids;
pub mod laws;
mod pairs;
mod parents;
mod realms;
mod result_names;
mod states;
mod variants;

pub use artifact_names::ArtifactName;
pub use ids::{
    ArtifactId, Id, IdGrammar, InvocationId, OfArtifact, OfInvocation, OfResult, OfTest, ResultId,
    TestId,
};
pub use moments_spans::{Moment, Span};
pub use name_parts::{
    Bytes, Listed, NameFault, Numbers, PartForm, append, append_escaped, bad_in_literal, limited,
    owned_text, read_part, utf8_len,
};
pub use pairs::{Pair, PairFault};
pub use parents::Parent;
pub use realms::Realm;
pub use result_names::ResultName;
pub use states::{Case, State, Status};
pub use variants::Variant;
