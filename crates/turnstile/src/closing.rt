//! The beginning and the end of a turnstile.
ghost use Rattle.std.specs.Prelude.{◌≡◌, ℕ, ◌≤◌, ◌^◌, List, [], ◌∷◌, Some, None, IfOk, IfErr};
ghost use Rattle.turnstile.specs.Rule.{IsOf, own_of, idle, ending};
ghost use Rattle.turnstile.specs.Seats.{first_known, IsWhole};

use crate::Held;
use crate::board::{Board, Place};
use crate::steps::{end, take};
use crate::turns::draw_last;
use crate::waiting::wait;
use atomic_table::{Refused, Table};
use std::alloc::Global;
use std::snapshot::Snapshot;
use std::sync::Wait;

/// A table with the value at home, and its first seat. Hands the value back for want of memory.
pub(crate) fn open<T: Held>(alloc: Global, held: T) -> Result<(Board<T>, Place<T>), T>
    requires { T.entries held ≡ 0 }
    ensures ok { IfOk result (λ b. IsOf b.1.table_id b.0.shared.table_id
        × (b.1.me ≡ (idle first_known, [])) × (T.start b.0.shared.key.value ≡ T.start held)) }
    ensures memory { IfErr result (λ v. v ≡ held) }
{
    let origin = Snapshot::of(&held);
    let Ok(mut slots) = Vec::with_capacity(alloc, 1) else {
        return Err(held);
    };
    slots.push_reserved(Some(held));
    match Table::new(alloc, &[0, 0], slots, &origin) {
        Ok(made) => Ok(made),
        Err(Refused { slots }) => Err(only_one(slots)),
    }
}

// The value of the one slot.
fn only_one<T>(mut slots: Vec<Option<T>>) -> T
    requires { (v : T) × (slots.items ≡ Some v ∷ []) }
    ensures { slots.items ≡ Some result ∷ [] }
{
    let last = slots.pop();
    slots.destroy_empty();
    let Some(Some(held)) = last else {
        unreachable!()
    };
    held
}

/// Takes the last turn, and in it the value for good.
pub(crate) fn take_last<T: Held, R: Wait>(rt: &R, board: &Board<T>, place: &mut Place<T>) -> T
    requires table { IsOf place.old.table_id board.now.shared.table_id }
    requires idle { place.old.me ≡ (idle (own_of place.old.me.0), []) }
    requires low { (own_of place.old.me.0).drawn ≤ 2 ^ 63 }
    ensures table { place.new.table_id ≡ place.old.table_id }
    ensures ended { (t : ℕ) × (place.new.me ≡ (ending t (own_of place.new.me.0), [])) }
    ensures whole { (log : List T.Entry)
        × T.stands result (T.start board.now.shared.key.value) log
        × IsWhole T.by (own_of place.old.me.0) log }
{
    let ticket = draw_last(rt, board, place);
    wait(rt, board, place, ticket);
    let Some(value) = take(board, place, ticket) else {
        unreachable!()
    };
    end(board, place, ticket);
    value
}

/// Gives the memory back. The slot is empty.
pub(crate) fn free<T: Held>(board: Board<T>, place: Place<T>)
    requires table { IsOf place.table_id board.shared.table_id }
    requires ended { (t : ℕ) × (place.me ≡ (ending t (own_of place.me.0), [])) }
{
    let mut closed = board.close_with(place);
    let empty = closed.take(0);
    let None = empty else { unreachable!() };
    closed.free();
}
