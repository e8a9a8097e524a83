//! A book of the service and its clock as a teller: what changes is recorded first, and made then.
ghost use Rattle.std.specs.Prelude.{◌≡◌, List, [], ◌∷◌, ◌++◌};
ghost use Rattle.tellers.specs.Exchange.{Exchange, StandsForSome};
ghost use Rattle.service_machine.specs.ServiceCore.CoreState.{world_in};
ghost use Rattle.service_machine.specs.Machines.{Plays};
ghost use Rattle.service_machine.specs.ServiceCore.Service.{service_of};
ghost use Rattle.record_desk.specs.Standing.{HasServed};

use crate::{Inquiry, serve};
use call_forms::{Asked, Told};
use disks::Disk;
use journal_book::Book;
use outside::Clock;
use service_machine::{Policy, ServiceMachine};
use std::alloc::Global;
use tellers::Teller;

/// A book of the service that is asked by one seat under a policy, at the moments of a clock.
#[derive(Drop)]
pub struct BookTeller<'a, D: Disk, C: Clock> {
    pub policy: &'a Policy,
    pub book: &'a mut Book<ServiceMachine, D>,
    pub clock: &'a mut C,
    pub alloc: Global,
}

impl<'a, D: Disk, C: Clock> BookTeller<'a, D, C> {
    pub fn new(
        policy: &'a Policy,
        book: &'a mut Book<ServiceMachine, D>,
        clock: &'a mut C,
        alloc: Global,
    ) -> BookTeller<'a, D, C>
        ensures policy { result.policy.now ≡ policy.now }
        ensures book { result.book.ghost_name ≡ book.entry.ghost_name }
        ensures book_now { result.book.now ≡ book.old }
        ensures clock { result.clock.ghost_name ≡ clock.entry.ghost_name }
        ensures clock_now { result.clock.now ≡ clock.old }
    {
        BookTeller {
            policy,
            book,
            clock,
            alloc,
        }
    }
}

impl<'a, D: Disk, C: Clock> Teller for BookTeller<'a, D, C> {
    ghost use Rattle.std.specs.Prelude.{[], ◌∷◌};
    ghost use Rattle.service_machine.specs.ServiceCore.CoreState.{world_in};
    ghost use Rattle.service_machine.specs.Machines.{Plays};
    ghost use Rattle.service_machine.specs.ServiceCore.Service.{service_of};
    ghost use Rattle.record_desk.specs.Standing.{HasServed};

    ghost stands = { λ first now exchanges.
        HasServed D.told D.faults Plays
        (service_of (record { policy = first.policy.now })
        (world_in first.book.now.machine.core))
        (C.tells (C.state first.clock.now)) first.book.now.journal exchanges
        (service_of (record { policy = now.policy.now }) (world_in now.book.now.machine.core))
        (C.tells (C.state now.clock.now)) now.book.now.journal };

    ghost holds = { λ t. t.book.ghost_name ∷ t.clock.ghost_name ∷ [] };

    fn tell(&mut self, asked: &Asked) -> Told {
        let now = self.clock.now();
        let inquiry = Inquiry::new(self.alloc, self.policy, asked);
        serve(self.alloc, self.book, now, inquiry)
    }
}
