//! The desk: many callers take turns with one book.
ghost use Rattle.std.specs.Prelude.{◌≡◌, ◌≢◌, ◌<◌, List, IfOk, IfErr, length};
ghost use Rattle.record_desk.specs.ServiceCore.CoreState.{world_in};
ghost use Rattle.record_desk.specs.ServiceCore.History.{Entry};
ghost use Rattle.record_desk.specs.Standing.{exchange_of};
ghost use Rattle.turnstile.specs.Seats.{Agrees, IsWhole, SameSeat, first_known, joined, split_left, split_right};
ghost use Rattle.service_desk.specs.Shelves.{GoesOn, IsOpened, Led};
ghost use Rattle.service_desk.specs.Turns.{HasNoTurn, HasTurn};

use crate::Shelf;
use crate::shelf::Request;
use call_forms::{Asked, Standin, Told};
use disks::Disk;
use journal_book::Book;
use outside::Clock;
use permissions::Policy;
use record_desk::{Inquiry, ServiceMachine};
use std::alloc::Global;
use std::marker::Model;
use std::snapshot::Snapshot;
use std::sync::Wait;
use turnstile::{Seat, Turnstile};

/// A book of the service that many callers ask in turn, under one policy, at the moments of one
/// clock. Contracts see of which turnstile it is, and the shelf with which it began.
#[derive(Drop)]
pub struct Desk<'a, D: Disk, C: Clock> {
    policy: &'a Policy,
    turnstile: Turnstile<Shelf<D, C>>,
}

impl<'a, D: Disk, C: Clock> Model for Desk<'a, D, C> {
    ghost use Rattle.std.specs.Prelude.{◌≡◌};
    ghost use Rattle.turnstile.specs.Seats.{Origin};
    ghost use Rattle.service_desk.specs.Shelves.{OpensShelf};
    ghost use Rattle.service_desk.specs.declared.shelf.Shelf.{Shelf};

    ghost Value = { Origin (Shelf D C C.State) };

    ghost view = { λ desk. desk.turnstile };

    ghost invariant = { λ desk. OpensShelf D.told desk.turnstile.start
        × (desk.policy.now ≡ desk.turnstile.start.policy.value) };
}

impl<'a, D: Disk, C: Clock> Desk<'a, D, C> {
    /// A desk over a book that was opened, and its first seat, which has number 0 and may split off
    /// 2^32 others. Hands the book and the clock back for want of memory.
    pub fn begin(
        alloc: Global,
        policy: &'a Policy,
        book: Book<ServiceMachine, D>,
        clock: C,
    ) -> Result<(Desk<'a, D, C>, Seat<Shelf<D, C>>), Shelf<D, C>>
        requires { IsOpened D.told (world_in book.machine.core) book.journal }
        ensures seat { IfOk result (λ r. (r.1.table ≡ r.0.table) × (r.1.knows ≡ first_known)) }
        ensures policy { IfOk result (λ r. r.0.start.policy.value ≡ policy.now) }
        ensures start { IfOk result (λ r. (r.0.start.book ≡ book) × (r.0.start.clock ≡ clock)) }
        ensures memory { IfErr result (λ shelf. (shelf.book ≡ book) × (shelf.clock ≡ clock)) }
    {
        let shelf = Shelf {
            policy: Snapshot::of(policy),
            book,
            clock,
            entries: 0,
        };
        let (turnstile, seat) = Turnstile::begin(alloc, shelf)?;
        Ok((Desk { policy, turnstile }, seat))
    }

    /// Waits for a turn, and answers a request in it. What the request says by itself is understood
    /// before. Spent is told where no turn is left.
    pub fn answer<R: Wait>(
        &self,
        rt: &R,
        alloc: Global,
        seat: &mut Seat<Shelf<D, C>>,
        asked: &Asked,
    ) -> Told
        requires { seat.old.table ≡ self.now.table }
        ensures own { seat.new.table ≡ seat.old.table }
        ensures seat { SameSeat seat.old.knows seat.new.knows }
        ensures turn { result ≢ Told.Standin Standin.Spent → HasTurn (λ e. e.seat) exchange_of
            (GoesOn D.told D.faults (λ clock. C.tells (C.state clock)) self.now.start)
            seat.old.knows (record { asked = asked.now; told = result }) seat.new.knows }
        ensures spent { result ≡ Told.Standin Standin.Spent
            → HasNoTurn seat.old.knows seat.new.knows }
    {
        let inquiry = Inquiry::new(alloc, self.policy, asked);
        match self.turnstile.turn(rt, seat, Request { alloc, inquiry }) {
            Ok(told) => told,
            Err(_) => Told::Standin(Standin::Spent),
        }
    }

    /// Splits a seat off, which has the next number and has seen as much.
    pub fn split(&self, seat: &mut Seat<Shelf<D, C>>) -> Seat<Shelf<D, C>>
        requires own { seat.old.table ≡ self.now.table }
        requires some { 0 < seat.old.knows.splits }
        ensures own { (seat.new.table ≡ seat.old.table) × (result.table ≡ seat.old.table) }
        ensures left { seat.new.knows ≡ split_left seat.old.knows }
        ensures right { result.knows ≡ split_right seat.old.knows }
    {
        self.turnstile.split(seat)
    }

    /// Joins a seat into another one, which has then seen what both had. The other's numbers are
    /// among its ended ones.
    pub fn join(&self, seat: &mut Seat<Shelf<D, C>>, other: Seat<Shelf<D, C>>)
        requires own { (seat.old.table ≡ self.now.table) × (other.table ≡ self.now.table) }
        ensures own { seat.new.table ≡ seat.old.table }
        ensures joined { seat.new.knows ≡ joined seat.old.knows other.knows }
        ensures agrees { Agrees (λ e. e.seat) seat.old.knows other.knows }
    {
        self.turnstile.join(seat, other)
    }

    /// Takes the last turn, and hands the book and the clock back. One history of all calls led to
    /// them.
    pub fn close<R: Wait>(self, rt: &R, seat: Seat<Shelf<D, C>>) -> Shelf<D, C>
        requires { seat.table ≡ self.table }
        ensures { (log : List Entry)
            × Led D.told D.faults (λ clock. C.tells (C.state clock)) self.entry.start log result
            × (result.entries ≡ length log) × IsWhole (λ e. e.seat) seat.knows log }
    {
        let Desk {
            policy: _,
            turnstile,
        } = self;
        turnstile.close(rt, seat)
    }
}
