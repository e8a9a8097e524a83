//! Why no batch can be added.

use std::alloc::AllocError;

/// Why the artifacts of a request can't come into a table. Places are counted from 0.
#[derive(Clone, Copy, Debug, PartialEq, Eq)]
pub enum ArtifactFault {
    /// There are more than 500, this many.
    TooMany {
        count: usize,
    },
    /// The second row has the name of the first.
    Repeated {
        first: usize,
        second: usize,
    },
    /// Of the artifact at this place another size is said than it has.
    SizeWrong {
        index: usize,
        said: u64,
        found: u64,
    },
    /// Of the artifact at this place another SHA-256 is said than it has.
    HashWrong {
        index: usize,
        said: [u8; 32],
        found: [u8; 32],
    },
    /// The table has a row of the holder with the name of the one at this place of the request.
    Taken {
        index: usize,
    },
    /// The holder would have more than 100,000 rows. This many it has.
    Full {
        count: usize,
    },
    /// There was no memory for the rows.
    Memory,
}

impl From<AllocError> for ArtifactFault {
    ghost use Rattle.std.specs.Prelude.{◌≡◌};
    ghost use Rattle.artifacts.specs.declared.faults.ArtifactFault.TheVariants.{Memory};

    ghost from_gives = { λ _ e. e ≡ Memory };

    fn from(_e: AllocError) -> ArtifactFault {
        ArtifactFault::Memory
    }
}
