//! How a caller comes to its turn.
ghost use Rattle.std.specs.Prelude.{◌≡◌, [], ◌∷◌, Some};
ghost use Rattle.turnstile.specs.Rule.{IsOf, own_of, waiting, holding};
ghost use Rattle.turnstile.specs.Steps.{Finds};

use crate::Held;
use crate::board::{Board, Place};
use crate::steps::look;
use std::hint::spin_loop;
use std::sync::Wait;

/// Looks until it is the ticket's turn. Who is inside the entrance finds it at the first look.
pub(crate) fn wait<T: Held, R: Wait>(rt: &R, board: &Board<T>, place: &mut Place<T>, ticket: u64)
    requires table { IsOf place.old.table_id board.now.shared.table_id }
    requires waits { place.old.me ≡ (waiting ticket (own_of place.old.me.0), []) }
    ensures table { place.new.table_id ≡ place.old.table_id }
    ensures turn { (v : T)
        × (place.new.me ≡ (holding ticket (own_of place.new.me.0), (0, Some v) ∷ []))
        × T.stands v (T.start board.now.shared.key.value) (own_of place.new.me.0).seen
        × Finds T.by ticket (own_of place.old.me.0) (own_of place.new.me.0) }
{
    for _ in rt.forever() {
        if look(board, place, ticket) == ticket {
            return;
        }
        spin_loop();
    }
    unreachable!()
}
