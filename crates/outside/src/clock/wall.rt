//! The system's clock.
ghost use Rattle.std.specs.Prelude.{ℤ, List, pos, ◌≤ℤ◌};

use crate::Clock;
use std::time::{SystemTime, UNIX_EPOCH};

/// The system's clock. It tells nothing of its answers.
#[derive(Drop)]
pub struct WallClock<R: std::time::Clock> {
    rt: R,
}

impl<R: std::time::Clock> WallClock<R> {
    pub fn new(rt: R) -> WallClock<R> {
        WallClock { rt }
    }
}

impl<R: std::time::Clock> Clock for WallClock<R> {
    type State = ();

    ghost state = { λ _. tt };

    ghost tells = { λ _ _. ⊥ };

    /// The microseconds since 1970, or 0 where the system's clock can't be read or stands before
    /// 1970.
    fn now(&mut self) -> i64
        ensures { pos 0 ≤ℤ result }
    {
        let Ok(time) = SystemTime::now(&self.rt) else {
            return 0;
        };
        match time.duration_since(UNIX_EPOCH) {
            Ok(passed) => i64::try_from(passed.as_micros()).unwrap_or(i64::MAX),
            Err(_) => 0,
        }
    }
}
