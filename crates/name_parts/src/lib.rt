//! The parts that names are made of.
//!
//! A part has an alphabet and a limit, and a name spells it as it is or escaped, behind a literal
//! and up to the next slash. Every other text has one fault, at its place.
#![tactic(auto)]

mod alphabets;
mod escapes;
mod faults;
pub mod laws;
mod names;
mod parts;
mod sequences;
mod texts;

pub use alphabets::Alphabet;
pub use escapes::{append_escaped, escaped_len, read_escaped};
pub use faults::NameFault;
pub use lists::{Bytes, Listed, Numbers};
pub use names::{NameParts, Piece, append_piece, piece_len, read_name_parts};
pub use parts::{
    PartForm, fault_of_part, fault_unless_empty, first_bad, limited, moved, read_part,
    shifted_fault,
};
pub use sequences::{read_behind, read_name, rest_behind};
pub use texts::{all_or_nothing, append, bad_in_literal, len_before, owned_text, same, utf8_len};
