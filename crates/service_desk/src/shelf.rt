//! What is handed from caller to caller: a book of the service, and its clock.
ghost use Rattle.std.specs.Prelude.{◌≡◌};
ghost use Rattle.record_desk.specs.RequestDemands.Understood.{IsUnderstood};

use call_forms::{Asked, Told};
use disks::Disk;
use journal_book::Book;
use names_realms::Moment;
use outside::Clock;
use permissions::Policy;
use record_desk::{Inquiry, ServiceMachine, serve};
use std::alloc::Global;
use std::marker::Model;
use std::snapshot::Snapshot;
use turnstile::{Call, Held};

/// One call in a history. No value of it is made: it is for contracts, which see the history's
/// entry in it.
pub struct Line {
    pub seat: u64,
    pub moment: Moment,
    pub asked: Asked,
    pub told: Told,
    pub rose: bool,
}

impl Model for Line {
    ghost use Rattle.record_desk.specs.ServiceCore.History.{Entry};

    ghost Value = { Entry };

    ghost view = { λ line. record {
      seat = line.seat;
      moment = line.moment;
      asked = line.asked;
      told = line.told;
      rose = line.rose;
    } };
}

/// A book of the service, the clock at whose moments it is asked, and how many calls it answered.
///
/// The policy under which it is asked is for contracts.
#[derive(Drop)]
pub struct Shelf<D: Disk, C: Clock> {
    pub policy: Snapshot<Policy>,
    pub book: Book<ServiceMachine, D>,
    pub clock: C,
    pub entries: u64,
}

impl<D: Disk, C: Clock> Held for Shelf<D, C> {
    ghost use Rattle.std.specs.Prelude.{◌≡◌};
    ghost use Rattle.service_desk.specs.Shelves.{StandsFor};
    ghost use Rattle.service_desk.specs.Beginnings.{begins};

    type Start = Shelf<D, C>;

    type Entry = Line;

    ghost stands = { StandsFor D.told D.faults (λ clock. C.tells (C.state clock)) };

    ghost by = { λ e. e.seat };

    ghost entries = { λ shelf. shelf.entries };

    ghost start = { λ shelf. shelf };

    ghost counts = { λ shelf start log stands. stands.counted };

    ghost begins = { begins D.told D.faults (λ clock. C.tells (C.state clock)) };
}

/// A request that waits for its turn. What it says by itself is understood.
#[derive(Drop)]
pub(crate) struct Request<'r> {
    pub(crate) alloc: Global,
    pub(crate) inquiry: Inquiry<'r>,
}

impl<D: Disk, C: Clock> Call<Shelf<D, C>> for Request<'_> {
    ghost use Rattle.std.specs.Prelude.{◌≡◌, IfOk};
    ghost use Rattle.record_desk.specs.RequestDemands.Understood.{IsUnderstood};
    ghost use Rattle.service_desk.specs.Shelves.{OpensShelf};

    type Answer = Told;

    ghost suits = { λ call start. OpensShelf D.told start
        × (call.inquiry.policy.now ≡ start.policy.value)
        × IfOk call.inquiry.understood (IsUnderstood
        (record { policy = call.inquiry.policy.now }) call.inquiry.asked.now) };

    ghost may = { λ call log e told. (e.asked ≡ call.inquiry.asked.now) × (e.told ≡ told) };

    fn run(self, held: &mut Shelf<D, C>, _seat_number: u64) -> Told {
        let Request { alloc, inquiry } = self;
        let now = held.clock.now();
        let told = serve(alloc, &mut held.book, now, inquiry);
        held.entries += 1;
        told
    }
}
