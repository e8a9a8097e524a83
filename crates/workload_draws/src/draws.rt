//! The draws of a number.
ghost use Rattle.std.specs.Prelude.{◌≡◌, ◌+◌, ◌*◌, ◌%◌, ◌^◌, ◌<◌};
ghost use Rattle.workload_draws.specs.Draws.{draw, next_state, state_behind};

use std::marker::Model;

/// What a state is multiplied by.
const MULTIPLIER: u128 = 6_364_136_223_846_793_005;

/// What is added to it then.
const INCREMENT: u128 = 1_442_695_040_888_963_407;

/// Draws that follow from a number, by a linear congruential generator. Contracts see the state.
#[derive(Drop)]
pub struct Draws {
    state: u64,
}

impl Model for Draws {
    ghost use Rattle.std.specs.Prelude.{ℕ};

    ghost Value = { ℕ };

    ghost view = { λ d. d.state };

    ghost inverse = { λ n. record { state = n } };
}

/// The state that follows.
fn next_state(state: u64) -> u64
    ensures { result ≡ next_state state }
{
    let sum = u128::from(state) * MULTIPLIER + INCREMENT;
    (sum % (1 << 64)) as u64
}

impl Draws {
    /// The draws of a number.
    pub fn of(number: u64) -> Draws
        ensures { result ≡ number }
    {
        Draws { state: number }
    }

    /// The next draw.
    #[tactic(auto, unfolding(crate::specs::Draws::state_behind))]
    pub(crate) fn next(&mut self) -> u64
        ensures drawn { result ≡ draw self.old 0 }
        ensures left { self.new ≡ state_behind self.old 1 }
    {
        self.state = next_state(self.state);
        self.state >> 33
    }
}
