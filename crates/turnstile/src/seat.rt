//! Seats, as callers have them.
ghost use Rattle.std.specs.Prelude.{◌≡◌, ◌≤◌, ◌^◌, []};
ghost use Rattle.turnstile.specs.Rule.{own_of, idle};
ghost use Rattle.turnstile.specs.Seats.{first_known};

use crate::Held;
use crate::board::Place;
use std::marker::Model;

/// A place at a turnstile, for one caller at a time. It has a number of its own. Contracts see
/// which turnstile it is of, and what it knows.
pub struct Seat<T: Held> {
    pub(crate) place: Place<T>,
    pub(crate) number: u64,
    pub(crate) splits: u64,
}

impl<T: Held> Model for Seat<T> {
    ghost use Rattle.turnstile.specs.Seats.{Seated};
    ghost use Rattle.turnstile.specs.Rule.{own_of, IsSeat};

    ghost Value = { Seated T.Entry };

    ghost view = { λ s. record { table = s.place.table_id; knows = own_of s.place.me.0 } };

    ghost invariant = { λ s. IsSeat s.number s.splits s.place.me };
}

impl<T: Held> Seat<T> {
    /// The number that each entry of this seat has.
    pub fn number(&self) -> u64
        ensures { result ≡ self.now.knows.number }
    {
        self.number
    }

    /// The seat at the table.
    pub(crate) fn into_place(self) -> Place<T>
        ensures own { (result.table_id ≡ self.table) × (own_of result.me.0 ≡ self.knows) }
        ensures idle { result.me ≡ (idle (own_of result.me.0), []) }
        ensures low { (own_of result.me.0).drawn ≤ 2 ^ 63 }
    {
        let Seat {
            place,
            number: _,
            splits: _,
        } = self;
        place
    }
}

impl<T: Held> Drop for Seat<T> {
    fn drop(self) {
        let Self {
            place: _,
            number: _,
            splits: _,
        } = self;
    }
}

/// So many seats can be split off.
pub(crate) const SPLITS: u64 = 1 << 32;

/// The first seat.
pub(crate) fn first_seat<T: Held>(place: Place<T>) -> Seat<T>
    requires { place.me ≡ (idle first_known, []) }
    ensures { (result.table ≡ place.table_id) × (result.knows ≡ first_known) }
{
    Seat {
        place,
        number: 0,
        splits: SPLITS,
    }
}

/// A seat that was split off.
pub(crate) fn split_seat<T: Held>(place: Place<T>, number: u64) -> Seat<T>
    requires idle { place.me ≡ (idle (own_of place.me.0), []) }
    requires number { ((own_of place.me.0).number ≡ number) × ((own_of place.me.0).splits ≡ 0) }
    requires low { (own_of place.me.0).drawn ≤ 2 ^ 63 }
    ensures { (result.table ≡ place.table_id) × (result.knows ≡ own_of place.me.0) }
{
    Seat {
        place,
        number,
        splits: 0,
    }
}
