//! A clock that goes by steps.
ghost use Rattle.std.specs.Prelude.{◌≡◌, ℤ, List, ◌∷◌, pos, ◌≤ℤ◌};
ghost use Rattle.outside.specs.Moments.{Steps, AreSteps, stepped};

use crate::Clock;
use std::marker::Model;

/// A clock that answers a first moment, and each time a step more. Where a sum would pass the
/// greatest number, it stays there.
#[derive(Drop)]
pub struct StepClock {
    present: i64,
    step: u64,
}

impl Model for StepClock {
    ghost use Rattle.std.specs.Prelude.{pos};
    ghost use Rattle.outside.specs.Moments.{Steps};

    ghost Value = { Steps };

    ghost view = { λ c. record { present = c.present; step = pos c.step } };
}

impl StepClock {
    /// A clock that answers `first`, in microseconds since 1970-01-01T00:00:00Z, and goes on by
    /// `step` microseconds.
    pub fn new(first: i64, step: i64) -> StepClock
        requires { pos 0 ≤ℤ step }
        ensures { result ≡ record { present = first; step = step } }
    {
        StepClock {
            present: first,
            step: step.unsigned_abs(),
        }
    }
}

impl Clock for StepClock {
    type State = StepClock;

    ghost use Rattle.outside.specs.Moments.{AreSteps};

    ghost state = { λ c. c };

    ghost tells = { AreSteps };

    fn now(&mut self) -> i64
        ensures tells { (moment : ℤ) (others : List ℤ) → AreSteps self.old (moment ∷ others)
            → (result ≡ moment) × AreSteps self.new others }
        ensures answer { result ≡ self.old.present }
        ensures rest { self.new ≡ stepped self.old }
    {
        let moment = self.present;
        self.present = moment.saturating_add_unsigned(self.step);
        moment
    }
}
