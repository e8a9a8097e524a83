//! Callers.
ghost use Rattle.std.specs.Prelude.{◌≡◌};

use std::marker::Model;

/// A caller: a place among the users of a policy.
#[derive(Clone, Copy, Debug, PartialEq, Eq)]
pub struct CallerId {
    place: usize,
}

impl Model for CallerId {
    ghost use Rattle.std.specs.Prelude.{ℕ};

    ghost Value = { ℕ };

    ghost view = { λ c. c.place };

    ghost inverse = { λ n. record { place = n } };
}

impl CallerId {
    /// The caller at a place.
    pub(crate) fn at(place: usize) -> CallerId
        ensures { result ≡ place }
    {
        CallerId { place }
    }

    /// The place among the users.
    pub(crate) fn place(self) -> usize
        ensures { result ≡ self }
    {
        self.place
    }
}
