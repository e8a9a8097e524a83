//! Why no row can be added.

use std::alloc::AllocError;

/// Why no row can be added to a table.
#[derive(Clone, Copy, Debug, PartialEq, Eq)]
pub enum AddFault {
    /// The row at this place has the id already.
    Taken { place: u32 },
    /// There are as many rows as there may be.
    Full { count: u32 },
    /// There was no memory for the row.
    Memory,
}

impl From<AllocError> for AddFault {
    ghost use Rattle.std.specs.Prelude.{◌≡◌};
    ghost use Rattle.invocations.specs.declared.faults.AddFault.TheVariants.{Memory};

    ghost from_gives = { λ _ e. e ≡ Memory };

    fn from(_e: AllocError) -> AddFault {
        AddFault::Memory
    }
}
