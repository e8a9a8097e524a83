//! A caller at a desk, as a teller.
ghost use Rattle.std.specs.Prelude.{◌≡◌};

use crate::{Desk, Shelf};
use call_forms::{Asked, Told};
use disks::Disk;
use outside::Clock;
use std::alloc::Global;
use std::sync::Wait;
use tellers::Teller;
use turnstile::Seat;

/// Who asks a desk with a seat of its own.
#[derive(Drop)]
pub struct Clerk<'a, 'p, R: Wait, D: Disk, C: Clock> {
    pub rt: &'a R,
    pub desk: &'a Desk<'p, D, C>,
    pub seat: Seat<Shelf<D, C>>,
    pub alloc: Global,
}

impl<'a, 'p, R: Wait, D: Disk, C: Clock> Teller for Clerk<'a, 'p, R, D, C> {
    ghost use Rattle.std.specs.Prelude.{◌≡◌, []};
    ghost use Rattle.record_desk.specs.Standing.{exchange_of};
    ghost use Rattle.service_desk.specs.Shelves.{LedSomewhere};
    ghost use Rattle.service_desk.specs.Turns.{HasAsked};

    ghost stands = { λ first now exchanges.
        (now.desk.now ≡ first.desk.now) × (now.seat.table ≡ now.desk.now.table)
        × HasAsked (λ e. e.seat) exchange_of
        (LedSomewhere D.told D.faults (λ clock. C.tells (C.state clock)) first.desk.now.start)
        first.seat.knows now.seat.knows exchanges };

    ghost holds = { λ _. [] };

    fn tell(&mut self, asked: &Asked) -> Told {
        self.desk.answer(self.rt, self.alloc, &mut self.seat, asked)
    }
}
