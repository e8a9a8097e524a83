//! The turnstile.
ghost use Rattle.std.specs.Prelude.{◌≡◌, ℕ, ◌+◌, ◌<◌, ◌≤◌, ◌^◌, List, [], ◌∷◌, ◌++◌, length, IfOk, IfErr};
ghost use Rattle.turnstile.specs.Seats.{first_known, Stood, TakesTurn, SameSeat, split_left, split_right, joined};
ghost use Rattle.turnstile.specs.Seats.{Agrees, IsWhole};

use crate::board::Board;
use crate::closing::{free, open, take_last};
use crate::entrance::Entrance;
use crate::seat::{SPLITS, Seat, first_seat, split_seat};
use crate::steps::{join, split};
use crate::turns::{draw_next, serve};
use crate::waiting::wait;
use crate::{Call, Held, Spent};
use std::alloc::Global;
use std::marker::Model;
use std::sync::Wait;

/// A value that callers take turns with. Contracts see which turnstile it is, and the start of its
/// history.
#[derive(Drop)]
pub struct Turnstile<T: Held> {
    board: Board<T>,
    /// Who draws a ticket has it to itself, so that nobody waits with one.
    entrance: Entrance,
}

impl<T: Held> Model for Turnstile<T> {
    ghost use Rattle.turnstile.specs.Seats.{Origin};
    ghost use Rattle.turnstile.specs.Rule.{HasShape};

    ghost Value = { Origin T.Start };

    ghost view = { λ t. record {
      table = t.board.shared.table_id;
      start = T.start t.board.shared.key.value;
    } };

    ghost invariant = { λ t. HasShape t.board.shared.table_id };
}

impl<T: Held> Turnstile<T> {
    /// A turnstile for a value without entries, and its first seat, which has number 0 and may
    /// split off 2^32 others. Hands the value back for want of memory.
    pub fn begin(alloc: Global, held: T) -> Result<(Turnstile<T>, Seat<T>), T>
        requires { T.entries held ≡ 0 }
        ensures ok { IfOk result (λ r. (r.1.table ≡ r.0.table) × (r.0.start ≡ T.start held)
            × (r.1.knows ≡ first_known)) }
        ensures memory { IfErr result (λ v. v ≡ held) }
    {
        match open(alloc, held) {
            Ok((board, place)) => {
                let entrance = Entrance::new();
                Ok((Turnstile { board, entrance }, first_seat(place)))
            }
            Err(held) => Err(held),
        }
    }

    /// Waits for a turn, runs the call on the value, and passes the turn. `Spent` where all 2^63
    /// tickets are drawn.
    ///
    /// The seat has then seen what it had seen, entries of other seats, and the one that its call
    /// added.
    pub fn turn<R: Wait, Q: Call<T>>(
        &self,
        rt: &R,
        seat: &mut Seat<T>,
        call: Q,
    ) -> Result<Q::Answer, Spent>
        requires own { seat.old.table ≡ self.now.table }
        requires suits { Q.suits call self.now.start }
        ensures own { seat.new.table ≡ seat.old.table }
        ensures seat { SameSeat seat.old.knows seat.new.knows }
        ensures turn { IfOk result (λ a. TakesTurn T.by
            (λ log e. Stood T.stands self.now.start log
            × Stood T.stands self.now.start (log ++ e ∷ []) × Q.may call log e a)
            seat.old.knows seat.new.knows) }
        ensures counted { IfOk result (λ _. (seat.new.knows.drawn < 2 ^ 63)
            × (length seat.new.knows.seen ≡ seat.new.knows.drawn + 1)) }
        ensures spent { IfErr result (λ _. (seat.new.knows.drawn ≡ 2 ^ 63)
            × (seat.new.knows.seen ≡ seat.old.knows.seen)) }
    {
        let inside = self.entrance.enter(rt);
        let Some(ticket) = draw_next(rt, &self.board, &mut seat.place) else {
            return Err(Spent);
        };
        wait(rt, &self.board, &mut seat.place, ticket);
        let answer = serve(&self.board, &mut seat.place, ticket, seat.number, call);
        drop(inside);
        Ok(answer)
    }

    /// Splits a seat off, which has the next number and has seen as much.
    pub fn split(&self, seat: &mut Seat<T>) -> Seat<T>
        requires own { seat.old.table ≡ self.now.table }
        requires some { 0 < seat.old.knows.splits }
        ensures own { (seat.new.table ≡ seat.old.table) × (result.table ≡ seat.old.table) }
        ensures left { seat.new.knows ≡ split_left seat.old.knows }
        ensures right { result.knows ≡ split_right seat.old.knows }
    {
        let place = split(&self.board, &mut seat.place);
        let number = SPLITS + 1 - seat.splits;
        seat.splits -= 1;
        split_seat(place, number)
    }

    /// Joins a seat into another one, which has then seen what both had. The other's numbers are
    /// among its ended ones.
    pub fn join(&self, seat: &mut Seat<T>, other: Seat<T>)
        requires own { (seat.old.table ≡ self.now.table) × (other.table ≡ self.now.table) }
        ensures own { seat.new.table ≡ seat.old.table }
        ensures joined { seat.new.knows ≡ joined seat.old.knows other.knows }
        ensures agrees { Agrees T.by seat.old.knows other.knows }
    {
        let place = other.into_place();
        join(&self.board, &mut seat.place, place);
    }

    /// Takes the last turn, and hands the value back. It stands for the whole history.
    pub fn close<R: Wait>(self, rt: &R, seat: Seat<T>) -> T
        requires { seat.table ≡ self.table }
        ensures { (log : List T.Entry) × T.stands result self.start log
            × (T.entries result ≡ length log) × IsWhole T.by seat.knows log }
    {
        let mut place = seat.into_place();
        let Turnstile { board, entrance: _ } = self;
        let held = take_last(rt, &board, &mut place);
        free(board, place);
        held
    }
}
