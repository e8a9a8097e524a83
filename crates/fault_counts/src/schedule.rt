//! Which calls on an end in memory are to fail.
ghost use Rattle.std.specs.Prelude.{◌≡◌};
ghost use Rattle.fault_counts.specs.Calls.{no_call_yet, one_call_more, times_listed, outcome_of};

use std::marker::Model;

/// How a call is to end.
#[derive(Clone, Copy, Debug)]
pub enum Outcome {
    Works,
    Fails,
    /// A write takes nothing of a piece that isn't empty. Any other call fails.
    Stalls,
}

/// The numbers of the calls that are to fail, counted from 1, and how many calls there were.
#[derive(Drop)]
pub struct Schedule {
    fails: Vec<u64>,
    calls: u64,
}

impl Model for Schedule {
    ghost use Rattle.fault_counts.specs.Calls.{Calls};

    ghost Value = { Calls };

    ghost view = { λ s. record { fails = s.fails.items; made = s.calls } };
}

impl Schedule {
    pub fn new(fails: Vec<u64>) -> Schedule
        ensures { result ≡ no_call_yet fails.items }
    {
        Schedule { fails, calls: 0 }
    }

    /// Counts a call, and tells how it is to end.
    pub fn next_outcome(&mut self) -> Outcome
        ensures calls { self.new ≡ one_call_more self.old }
        ensures outcome { result ≡ outcome_of (times_listed self.old) }
    {
        self.calls = self.calls.saturating_add(1);
        let number = self.calls;
        match self.fails.iter().filter(|n| **n == number).count() {
            0 => Outcome::Works,
            1 => Outcome::Fails,
            _ => Outcome::Stalls,
        }
    }
}
