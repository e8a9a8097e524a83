//! A teller that is asked large bodies in a room.
use call_forms::{Asked, Told};
use reading_rooms::ReadingRoom;
use std::sync::Wait;
use std::sync::ledger::Ledger;
use tellers::Teller;

/// The most bytes of a body that is read outside.
const MOST_OUTSIDE: usize = 65_536;

/// A teller whose large bodies are read in a room: while one is read into values, and until it is
/// answered, its bytes are taken there. No call waits for the room while it has a turn.
#[derive(Drop)]
pub(crate) struct Reader<'a, R: Wait, L: Ledger, T: Teller> {
    pub(crate) rt: &'a R,
    pub(crate) room: &'a ReadingRoom<L>,
    pub(crate) teller: &'a mut T,
}

impl<'a, R: Wait, L: Ledger, T: Teller> Teller for Reader<'a, R, L, T> {
    ghost use Rattle.std.specs.Prelude.{◌∷◌};

    ghost stands = { λ first now exchanges.
        T.stands first.teller.now now.teller.now exchanges };

    ghost holds = { λ reader. reader.teller.ghost_name ∷ T.holds reader.teller.now };

    fn tell(&mut self, asked: &Asked) -> Told {
        let bytes = asked.body.as_slice().len();
        if bytes <= MOST_OUTSIDE {
            return self.teller.tell(asked);
        }
        let stay = self.room.enter(self.rt, bytes as u64);
        let told = self.teller.tell(asked);
        stay.leave(self.rt);
        told
    }
}
