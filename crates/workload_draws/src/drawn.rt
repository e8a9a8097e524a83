//! What is drawn for an invocation.
ghost use Rattle.std.specs.Prelude.{◌≡◌, ◌+◌, ◌-◌, ◌*◌, ◌^◌, ◌<◌, ℕ, IfOk, OnOk, min};
ghost use Rattle.workload_draws.specs.Draws.{state_behind};
ghost use Rattle.workload_draws.specs.Drawn.{first_draw, included, invocation_at, result_at, results_at, status_of};

use crate::draws::Draws;
use names_realms::{Listed, Status};
use std::alloc::{AllocError, Global};

/// How many results an invocation has.
const RESULTS: usize = 10;

/// What is drawn for a result.
#[derive(Clone, Copy, Debug, PartialEq, Eq)]
pub struct DrawnResult {
    /// The number of its test.
    pub test: u64,
    pub status: Status,
    /// Whether it ended as was expected.
    pub expected: bool,
}

/// What is drawn for an invocation.
#[derive(Drop)]
pub struct DrawnInvocation {
    /// The number of the invocation that it includes, where there are others before it.
    pub includes: Option<u64>,
    pub results: Listed<DrawnResult>,
    /// Whether it is finalised before all others are made.
    pub finalises: bool,
}

/// How a test ended, by a number below 5.
fn status_of(number: u64) -> Status
    ensures { result ≡ status_of number }
{
    match number {
        0 => Status::Pass,
        1 => Status::Fail,
        2 => Status::Crash,
        3 => Status::Abort,
        _ => Status::Skip,
    }
}

impl Draws {
    /// What is drawn for a result.
    fn result(&mut self) -> DrawnResult
        ensures drawn { result ≡ result_at self.old 0 }
        ensures left { self.new ≡ state_behind self.old 3 }
    {
        let test = self.next() % 50;
        let status = status_of(self.next() % 5);
        let expected = self.next() % 2 == 0;
        DrawnResult {
            test,
            status,
            expected,
        }
    }

    /// What is drawn for the results of an invocation.
    fn results(&mut self, alloc: Global) -> Result<Listed<DrawnResult>, AllocError>
        ensures drawn { IfOk result (λ r. r ≡ results_at self.old 0) }
        ensures left { OnOk result (self.new ≡ state_behind self.old 30) }
    {
        let mut results = Vec::with_capacity(alloc, RESULTS)?;
        while results.len() < RESULTS {
            results.push(self.result())?;
        }
        Ok(Listed::new(results))
    }

    /// The number of the invocation that one with this number includes: one before it.
    fn included(&mut self, number: u64) -> Option<u64>
        ensures drawn { result ≡ included self.old 0 number }
        ensures left { self.new ≡ state_behind self.old (min number 1) }
    {
        if number == 0 {
            return None;
        }
        Some(self.next() % number)
    }

    /// What is drawn for the invocation of a number, once all was drawn for those before it.
    ///
    /// `Err` where there is no memory for it.
    pub fn invocation(&mut self, alloc: Global, number: u64) -> Result<DrawnInvocation, AllocError>
        ensures drawn { (start : ℕ) → self.old ≡ state_behind start (first_draw number)
            → IfOk result (λ drawn. drawn ≡ invocation_at start number) }
        ensures left { (start : ℕ) → self.old ≡ state_behind start (first_draw number)
            → OnOk result (self.new ≡ state_behind start (first_draw (number + 1))) }
    {
        let includes = self.included(number);
        let results = self.results(alloc)?;
        let finalises = self.next() % 4 == 0;
        Ok(DrawnInvocation {
            includes,
            results,
            finalises,
        })
    }
}
