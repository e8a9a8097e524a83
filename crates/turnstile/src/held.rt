//! Values with a history, and what is done with one in a turn.
ghost use Rattle.std.specs.Prelude.{◌≡◌, ℕ, ◌+◌, ◌<◌, ◌^◌, List, [], ◌∷◌, ◌++◌, length};

/// A value with a history.
///
/// Starts and entries are plain data, of which no value need be made. Each entry has the number of
/// the seat that made it.
pub trait Held {
    /// From where a history begins.
    type Start;

    /// What one turn adds to it.
    type Entry;

    // The value stands for these entries, from this start.
    ghost stands: { Self → Self.Start → List Self.Entry → Type 0 };

    // The number of the seat that made the entry.
    ghost by: { Self.Entry → ℕ };

    // How many entries the value has.
    ghost entries: { Self → ℕ };

    // The start from which a value without entries stands for none.
    ghost start: { Self → Self.Start };

    // It has as many as it stands for.
    ghost counts: { (v : Self) (s : Self.Start) (log : List Self.Entry)
        → stands v s log → entries v ≡ length log };

    // And from that start it does.
    ghost begins: { (v : Self) → entries v ≡ 0 → stands v (start v) [] };
}

/// What is done with the value in a turn. It adds one entry.
pub trait Call<T: Held>: Drop {
    /// What the caller is told.
    type Answer;

    // The call fits a value whose history begins with this start.
    ghost suits: { Self → T.Start → Type 0 };

    // The call may add this entry to these entries, with this answer.
    ghost may: { Self → List T.Entry → T.Entry → Self.Answer → Type 0 };

    /// Does it, in the turn of the seat with this number.
    fn run(self, held: &mut T, seat_number: u64) -> Self::Answer
        requires { (start : T.Start) × (log : List T.Entry)
            × suits self start × T.stands held.old start log × (length log < 2 ^ 63) }
        ensures { (start : T.Start) (log : List T.Entry)
            → suits self start → T.stands held.old start log → length log < 2 ^ 63
            → (e : T.Entry) × T.stands held.new start (log ++ e ∷ [])
            × (T.by e ≡ seat_number) × may self log e result };
}

/// All 2^63 tickets for turns are drawn.
#[derive(Debug, Drop)]
pub struct Spent;
