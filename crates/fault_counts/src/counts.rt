//! Counts of what failed.
ghost use Rattle.std.specs.Prelude.{ℕ, ◌≡◌, ◌≤◌, IfOk};
ghost use Rattle.fault_counts.specs.Causes.{Rose, HasCause, counted};

use crate::Failed;
use std::marker::Model;

/// A count that stays at the greatest u64.
#[derive(Drop)]
pub struct Count {
    value: u64,
}

impl Model for Count {
    ghost use Rattle.std.specs.Prelude.{ℕ};

    ghost Value = { ℕ };

    ghost view = { λ c. c.value };
}

impl Count {
    pub fn new() -> Count
        ensures { result ≡ 0 }
    {
        Count { value: 0 }
    }

    pub fn value(&self) -> u64
        ensures { result ≡ self.now }
    {
        self.value
    }

    pub fn raise(&mut self)
        ensures value { self.new ≡ counted self.old }
        ensures later { self.old ≤ self.new }
    {
        self.value = self.value.saturating_add(1);
    }

    /// Counts a call that failed, and answers so.
    pub fn failed<T>(&mut self) -> Result<T, Failed>
        ensures value { self.new ≡ counted self.old }
        ensures cause { HasCause self.old self.new result }
        ensures err { IfOk result (λ _. ⊥) }
    {
        self.raise();
        Err(Failed)
    }
}

/// The law by which a caller adds up calls: a count that rose in one of them has risen over all of
/// them, since no call lowers it. It does nothing.
pub fn counts_add_up()
    ensures then_more { (before between now : ℕ) → Rose before between → between ≤ now
        → Rose before now }
    ensures more_then { (before between now : ℕ) → before ≤ between → Rose between now
        → Rose before now }
{}
