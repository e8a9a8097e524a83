//! Why no batch can be added.

use std::alloc::AllocError;

/// Why the rows of a request can't come into a table.
#[derive(Clone, Copy, Debug, PartialEq, Eq)]
pub enum BatchFault {
    /// There are more than 500, this many.
    TooMany { count: usize },
    /// The second row, counted from 0, has the names of the first.
    Repeated { first: usize, second: usize },
    /// The table has a row with the names of the one at this place of the request, counted from 0.
    Taken { index: usize },
    /// The holder would have more than 100,000 rows. This many it has.
    Full { count: usize },
    /// There was no memory for the rows.
    Memory,
}

impl From<AllocError> for BatchFault {
    ghost use Rattle.std.specs.Prelude.{◌≡◌};
    ghost use Rattle.test_results.specs.declared.faults.BatchFault.TheVariants.{Memory};

    ghost from_gives = { λ _ e. e ≡ Memory };

    fn from(_e: AllocError) -> BatchFault {
        BatchFault::Memory
    }
}
