//! What time it is.
ghost use Rattle.std.specs.Prelude.{ℤ, ◌≡◌, List, ◌∷◌};

mod list;
mod step;
mod wall;

pub use list::ListClock;
pub use step::StepClock;
pub use wall::WallClock;

/// A clock, in microseconds since 1970-01-01T00:00:00Z.
///
/// `tells` says of a state and a list of numbers that the next answers from there begin with this
/// list.
pub trait Clock {
    type State;

    ghost state: { Self → Self.State };

    ghost tells: { Self.State → List ℤ → Type 0 };

    /// The present moment, which need not be later than the one before.
    fn now(&mut self) -> i64
        ensures { (moment : ℤ) (others : List ℤ) → tells (state self.old) (moment ∷ others)
            → (result ≡ moment) × tells (state self.new) others };
}
