//! A clock over a list of moments.
ghost use Rattle.std.specs.Prelude.{◌≡◌, ◌<◌, ℤ, ℕ, List, ◌∷◌, length, IfOk, slice_get, Some};
ghost use Rattle.outside.specs.Moments.{AreInTurn, moments_after};

use crate::Clock;
use std::alloc::{AllocError, Global};
use std::collections::VecDeque;
use std::marker::Model;

/// The moments that a clock has still to answer: the present one, and the others in turn. The last
/// one stays for ever.
#[derive(Drop)]
pub struct Moments {
    present: i64,
    others: VecDeque<i64>,
}

impl Model for Moments {
    ghost use Rattle.std.specs.Prelude.{ℤ, List, ◌∷◌};

    ghost Value = { List ℤ };

    ghost view = { λ m. m.present ∷ m.others.items };
}

impl Moments {
    fn new(moments: Vec<i64>) -> Moments
        requires { 0 < length moments.items }
        ensures { result ≡ moments.items }
    {
        let mut others = VecDeque::from(moments);
        let present = others.pop_front().unwrap_or(0);
        Moments { present, others }
    }

    fn next(&mut self) -> i64
        ensures answer { (others : List ℤ) × (self.old ≡ result ∷ others) }
        ensures rest { self.new ≡ moments_after self.old }
    {
        let moment = self.present;
        if let Some(present) = self.others.pop_front() {
            self.present = present;
        }
        moment
    }
}

/// A clock that answers the moments of a list in turn, and then the last one for ever.
#[derive(Drop)]
pub struct ListClock {
    moments: Moments,
}

impl Model for ListClock {
    ghost use Rattle.std.specs.Prelude.{ℤ, List};

    ghost Value = { List ℤ };

    ghost view = { λ c. c.moments };
}

impl ListClock {
    /// A clock over `moments`, in microseconds since 1970-01-01T00:00:00Z, of which there is one at
    /// least.
    pub fn new(_alloc: Global, moments: Vec<i64>) -> Result<ListClock, AllocError>
        requires { 0 < length moments.items }
        ensures { IfOk result (λ c. c ≡ moments.items) }
    {
        Ok(ListClock {
            moments: Moments::new(moments),
        })
    }
}

impl Clock for ListClock {
    type State = Moments;

    ghost use Rattle.outside.specs.Moments.{AreInTurn};

    ghost state = { λ c. c };

    ghost tells = { AreInTurn };

    fn now(&mut self) -> i64
        ensures tells { (moment : ℤ) (others : List ℤ) → AreInTurn self.old (moment ∷ others)
            → (result ≡ moment) × AreInTurn self.new others }
        ensures answer { (others : List ℤ) × (self.old ≡ result ∷ others) }
        ensures rest { self.new ≡ moments_after self.old }
    {
        self.moments.next()
    }
}
