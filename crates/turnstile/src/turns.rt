//! A ticket, and what is done in its turn.
ghost use Rattle.std.specs.Prelude.{◌≡◌, ℕ, ◌<◌, ◌≤◌, ◌^◌, List, [], ◌∷◌, ◌++◌, Some, None, IfSome, IfNone, length};
ghost use Rattle.turnstile.specs.declared.board.Known.{Known};
ghost use Rattle.turnstile.specs.Rule.{IsOf, own_of, idle, waiting, holding};
ghost use Rattle.turnstile.specs.Steps.{noted};
ghost use Rattle.turnstile.specs.Seats.{Stood};

use crate::board::{Board, Place};
use crate::steps::{draw, pass, take};
use crate::{Call, Held};
use std::marker::Brand;
use std::snapshot::Snapshot;
use std::sync::Wait;

/// So many tickets are for turns. One more is for the end.
const TICKETS: u64 = 1 << 63;

/// Draws the next ticket for a turn, or answers `None` where all are drawn.
pub(crate) fn draw_next<T: Held, R: Wait>(
    rt: &R,
    board: &Board<T>,
    place: &mut Place<T>,
) -> Option<u64>
    requires table { IsOf place.old.table_id board.now.shared.table_id }
    requires idle { place.old.me ≡ (idle (own_of place.old.me.0), []) }
    ensures table { place.new.table_id ≡ place.old.table_id }
    ensures some { IfSome result (λ t. (t < 2 ^ 63) × ((own_of place.old.me.0).drawn ≤ t)
        × (place.new.me ≡ (waiting t (record (own_of place.old.me.0) { drawn = t }), []))) }
    ensures none { IfNone result (let all : ℕ = 9223372036854775808 in
        place.new.me ≡ (idle (record (own_of place.old.me.0) { drawn = all }), [])) }
{
    // Never the ticket for the end: where all others are drawn, a try for the last of them is lost
    // and tells so.
    let mut ticket = board.shared.peek(0).min(TICKETS - 1);
    for _ in rt.forever() {
        let found = draw(board, place, ticket);
        if found == ticket {
            return Some(ticket);
        }
        if found >= TICKETS {
            return None;
        }
        ticket = found;
    }
    unreachable!()
}

/// Draws the ticket for the end. There is one, since the turnstile is nobody else's any more.
pub(crate) fn draw_last<T: Held, R: Wait>(rt: &R, board: &Board<T>, place: &mut Place<T>) -> u64
    requires table { IsOf place.old.table_id board.now.shared.table_id }
    requires idle { place.old.me ≡ (idle (own_of place.old.me.0), []) }
    requires low { (own_of place.old.me.0).drawn ≤ 2 ^ 63 }
    ensures table { place.new.table_id ≡ place.old.table_id }
    ensures drawn { (result ≤ 2 ^ 63) × ((own_of place.old.me.0).drawn ≤ result)
        × (place.new.me
        ≡ (waiting result (record (own_of place.old.me.0) { drawn = result }), [])) }
{
    let mut ticket = board.shared.peek(0).min(TICKETS);
    for _ in rt.forever() {
        let found = draw(board, place, ticket);
        if found == ticket {
            return ticket;
        }
        ticket = found.min(TICKETS);
    }
    unreachable!()
}

/// Runs the call on the value, and passes the turn with the entry that the call added.
pub(crate) fn serve<T: Held, Q: Call<T>>(
    board: &Board<T>,
    place: &mut Place<T>,
    ticket: u64,
    number: u64,
    call: Q,
) -> Q::Answer
    requires table { IsOf place.old.table_id board.now.shared.table_id }
    requires holds { (v : T)
        × (place.old.me ≡ (holding ticket (own_of place.old.me.0), (0, Some v) ∷ []))
        × T.stands v (T.start board.now.shared.key.value) (own_of place.old.me.0).seen }
    requires number { (own_of place.old.me.0).number ≡ number }
    requires suits { Q.suits call (T.start board.now.shared.key.value) }
    requires room { length (own_of place.old.me.0).seen < 2 ^ 63 }
    ensures table { place.new.table_id ≡ place.old.table_id }
    ensures turn { let own : Known T.Entry = own_of place.old.me.0 in (e : T.Entry)
        × (place.new.me ≡ (idle (record own { seen = own.seen ++ e ∷ [] }), []))
        × (T.by e ≡ number)
        × Stood T.stands (T.start board.now.shared.key.value) own.seen
        × Stood T.stands (T.start board.now.shared.key.value) (own.seen ++ e ∷ [])
        × Q.may call own.seen e result }
{
    let Some(mut value) = take(board, place, ticket) else {
        unreachable!()
    };
    let asked = Snapshot::of(&call);
    let answer = call.run(&mut value, number);
    pass::<T, Brand, Q, Q::Answer>(board, place, value, &asked, &answer);
    answer
}
