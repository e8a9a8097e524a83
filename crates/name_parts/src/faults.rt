//! What is wrong with a text that is no name.
ghost use Rattle.std.specs.Prelude.{◌≡◌};

use std::alloc::{AllocError, AllocFailed};

/// Why a text is not read. Places count bytes of the whole text, from 0.
#[derive(Clone, Copy, Debug, PartialEq, Eq)]
pub enum NameFault {
    /// A part has no bytes.
    Empty,
    /// A part has more bytes than its limit: so many, after undoing escapes.
    TooLong { len: usize },
    /// No text of the grammar goes on like this at this place, which is the length where the text
    /// ends too soon.
    BadByte { at: usize },
    /// Here stands a second spelling: a `%` that begins no escape, a lower-case escape, or one of a
    /// byte that stands as itself.
    NotCanonical { at: usize },
    /// The value is outside the range of its type.
    OutOfRange,
    /// There was no memory for the value. Of the text nothing is said.
    Memory,
}

impl From<AllocError> for NameFault {
    ghost use Rattle.std.specs.Prelude.{◌≡◌};
    ghost use Rattle.name_parts.specs.declared.faults.NameFault.TheVariants.{Memory};

    ghost from_gives = { λ _ e. e ≡ Memory };

    fn from(_e: AllocError) -> NameFault {
        NameFault::Memory
    }
}

impl<T: Drop> From<AllocFailed<T>> for NameFault {
    ghost use Rattle.std.specs.Prelude.{◌≡◌};
    ghost use Rattle.name_parts.specs.declared.faults.NameFault.TheVariants.{Memory};

    ghost from_gives = { λ _ e. e ≡ Memory };

    fn from(_e: AllocFailed<T>) -> NameFault {
        NameFault::Memory
    }
}
