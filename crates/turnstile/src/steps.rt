//! The steps at the table.
ghost use Rattle.std.specs.Prelude.{◌≡◌, ℕ, ◌<◌, ◌≤◌, ◌^◌, ◌==◌, List, [], ◌∷◌, ◌++◌, Some, None, MatchBool};
ghost use Rattle.turnstile.specs.declared.board.Known.{Known};
ghost use Rattle.turnstile.specs.Rule.{IsOf, own_of, idle, waiting, holding, ending};
ghost use Rattle.turnstile.specs.Steps.{noted, Finds};
ghost use Rattle.turnstile.specs.Seats.{split_left, split_right, joined, Agrees};

use crate::Held;
use crate::board::{
    Board, Draws, Ending, Fits, Joins, Looks, Passes, Place, Settles, Splits, Standing,
};
use std::marker::Brand;
use std::snapshot::Snapshot;

/// Tries to draw this ticket, and returns the number of tickets drawn: the ticket, where it was
/// drawn.
pub(crate) fn draw<T: Held>(board: &Board<T>, place: &mut Place<T>, ticket: u64) -> u64
    requires table { IsOf place.old.table_id board.now.shared.table_id }
    requires idle { place.old.me ≡ (idle (own_of place.old.me.0), []) }
    requires room { ticket ≤ 2 ^ 63 }
    ensures table { place.new.table_id ≡ place.old.table_id }
    ensures later { (own_of place.old.me.0).drawn ≤ result }
    ensures drawn { MatchBool (result == ticket)
        (place.new.me ≡ (waiting ticket (noted (own_of place.old.me.0) result), []))
        (place.new.me ≡ (idle (noted (own_of place.old.me.0) result), [])) }
{
    board
        .shared
        .compare_exchange::<Draws>(place, 0, ticket, ticket + 1)
}

// The same as `look`, for what the value stands for.
fn look_by<T: Held, J: Standing<T, T::Entry>>(
    board: &Board<T>,
    place: &mut Place<T>,
    ticket: u64,
) -> u64
    requires table { IsOf place.old.table_id board.now.shared.table_id }
    requires waits { place.old.me ≡ (waiting ticket (own_of place.old.me.0), []) }
    requires stands { (v : T) (log : List T.Entry)
        → T.stands v (T.start board.now.shared.key.value) log → J.stands v log }
    ensures table { place.new.table_id ≡ place.old.table_id }
    ensures turn { MatchBool (result == ticket)
        ((v : T) × (place.new.me ≡ (holding ticket (own_of place.new.me.0), (0, Some v) ∷ []))
        × J.stands v (own_of place.new.me.0).seen
        × Finds T.by ticket (own_of place.old.me.0) (own_of place.new.me.0))
        (place.new.me ≡ place.old.me) }
{
    board.shared.load::<Looks<J>>(place, 1)
}

/// Returns the number of turns passed. Where it is the ticket, it is its turn: the seat has the
/// slot and finds the whole history.
pub(crate) fn look<T: Held>(board: &Board<T>, place: &mut Place<T>, ticket: u64) -> u64
    requires table { IsOf place.old.table_id board.now.shared.table_id }
    requires waits { place.old.me ≡ (waiting ticket (own_of place.old.me.0), []) }
    ensures table { place.new.table_id ≡ place.old.table_id }
    ensures turn { MatchBool (result == ticket)
        ((v : T) × (place.new.me ≡ (holding ticket (own_of place.new.me.0), (0, Some v) ∷ []))
        × T.stands v (T.start board.now.shared.key.value) (own_of place.new.me.0).seen
        × Finds T.by ticket (own_of place.old.me.0) (own_of place.new.me.0))
        (place.new.me ≡ place.old.me) }
{
    look_by::<T, Brand>(board, place, ticket)
}

/// Takes the value out of the slot.
pub(crate) fn take<T: Held>(board: &Board<T>, place: &mut Place<T>, ticket: u64) -> Option<T>
    requires table { IsOf place.old.table_id board.now.shared.table_id }
    requires holds { (v : T)
        × (place.old.me ≡ (holding ticket (own_of place.old.me.0), (0, Some v) ∷ [])) }
    ensures table { place.new.table_id ≡ place.old.table_id }
    ensures value { place.old.me ≡ (holding ticket (own_of place.old.me.0), (0, result) ∷ []) }
    ensures holds { place.new.me ≡ (holding ticket (own_of place.old.me.0), (0, None) ∷ []) }
{
    board.shared.exchange(place, 0, None)
}

/// Puts the value back, and passes the turn with an entry that fits.
pub(crate) fn pass<T: Held, J: Fits<T::Entry>, Q, X>(
    board: &Board<T>,
    place: &mut Place<T>,
    value: T,
    asked: &Snapshot<Q>,
    answer: &X,
)
    requires table { IsOf place.old.table_id board.now.shared.table_id }
    requires holds { (t : ℕ)
        × (place.old.me ≡ (holding t (own_of place.old.me.0), (0, None) ∷ [])) }
    requires stands { let own : Known T.Entry = own_of place.old.me.0 in (e : T.Entry)
        × T.stands value (T.start board.now.shared.key.value) (own.seen ++ e ∷ [])
        × (T.by e ≡ own.number) × J.fits own.seen e }
    ensures table { place.new.table_id ≡ place.old.table_id }
    ensures idle { let own : Known T.Entry = own_of place.old.me.0 in (e : T.Entry)
        × (place.new.me ≡ (idle (record own { seen = own.seen ++ e ∷ [] }), []))
        × J.fits own.seen e }
{
    let empty = board.shared.exchange(place, 0, Some(value));
    let None = empty else { unreachable!() };
    board.shared.fetch_add::<Passes<J>>(place, 1, 1);
}

/// Gives the slot back without a value, for good.
pub(crate) fn end<T: Held>(board: &Board<T>, place: &mut Place<T>, ticket: u64)
    requires table { IsOf place.old.table_id board.now.shared.table_id }
    requires holds { place.old.me ≡ (holding ticket (own_of place.old.me.0), (0, None) ∷ []) }
    ensures table { place.new.table_id ≡ place.old.table_id }
    ensures ended { place.new.me ≡ (ending ticket (own_of place.old.me.0), []) }
{
    board.shared.load::<Ending>(place, 1);
}

/// Splits a seat off.
pub(crate) fn split<T: Held>(board: &Board<T>, place: &mut Place<T>) -> Place<T>
    requires table { IsOf place.old.table_id board.now.shared.table_id }
    requires idle { place.old.me ≡ (idle (own_of place.old.me.0), []) }
    requires some { 0 < (own_of place.old.me.0).splits }
    ensures table { place.new.table_id ≡ place.old.table_id }
    ensures new_table { result.table_id ≡ place.old.table_id }
    ensures left { place.new.me ≡ (idle (split_left (own_of place.old.me.0)), []) }
    ensures right { result.me ≡ (idle (split_right (own_of place.old.me.0)), []) }
{
    board.shared.split_seat::<Splits>(place)
}

/// Joins a seat into another one.
pub(crate) fn join<T: Held>(board: &Board<T>, place: &mut Place<T>, other: Place<T>)
    requires table { IsOf place.old.table_id board.now.shared.table_id }
    requires other_table { other.table_id ≡ board.now.shared.table_id }
    requires idle { place.old.me ≡ (idle (own_of place.old.me.0), []) }
    requires other { other.me ≡ (idle (own_of other.me.0), []) }
    ensures table { place.new.table_id ≡ place.old.table_id }
    ensures joined { place.new.me
        ≡ (idle (joined (own_of place.old.me.0) (own_of other.me.0)), []) }
    ensures agrees { Agrees T.by (own_of place.old.me.0) (own_of other.me.0) }
{
    board.shared.join_seat::<Joins>(place, other);
    board.shared.load::<Settles<T>>(place, 0);
}
