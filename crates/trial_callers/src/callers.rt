//! Callers, each in a thread of its own.
ghost use Rattle.std.specs.Prelude.{◌≡◌, ℕ, ◌+◌, ◌<◌, ◌≤◌, All, length, min, slice_index_or};
ghost use Rattle.std.specs.List.{AllZip};
ghost use Rattle.tellers.specs.Exchange.{StandsForSome};
ghost use Rattle.trial_callers.specs.Callings.{HasAskedOwn};
ghost use Rattle.trial_callers.specs.Counting.{HasAskedAll};

use crate::asking::{Task, ask_task};
use crate::counts::Heard;
use std::alloc::Global;
use std::thread;
use std::thread::Threads;
use tellers::Teller;

/// So many callers, what each of them asks, and so many others that ask nothing.
#[derive(Clone, Copy)]
pub struct Work {
    pub callers: u32,
    pub creations: u32,
    pub reads: u32,
    pub idle: u32,
    ghost few: { callers + idle ≤ 1000 },
}

impl Work {
    /// At most 500 callers, and at most 500 others.
    pub fn new(callers: u32, creations: u32, reads: u32, idle: u32) -> Work
        ensures callers { (result.callers ≡ min callers 500) × (result.idle ≡ min idle 500) }
        ensures each { (result.creations ≡ creations) × (result.reads ≡ reads) }
    {
        Work {
            callers: callers.min(500),
            creations,
            reads,
            idle: idle.min(500),
        }
    }

    /// How many there are of both.
    pub fn seats(self) -> u32
        ensures { result ≡ self.callers + self.idle }
    {
        self.callers + self.idle
    }

    /// What the one with this number does.
    pub fn task(self, number: u32) -> Task
        ensures number { result.number ≡ number }
        ensures asks { number < self.callers → (result.creations ≡ self.creations)
            × (result.reads ≡ self.reads) }
        ensures idle { self.callers ≤ number → (result.creations ≡ 0) × (result.reads ≡ 0) }
    {
        let asks = number < self.callers;
        Task {
            number,
            creations: if asks { self.creations } else { 0 },
            reads: if asks { self.reads } else { 0 },
        }
    }
}

/// Who is asked, what, and what was counted of it.
#[derive(Drop)]
pub struct Caller<T> {
    pub teller: T,
    pub task: Task,
    pub heard: Heard,
}

impl<T> Caller<T> {
    /// A caller that has asked nothing.
    pub fn new(teller: T, task: Task) -> Caller<T>
        ensures teller { result.teller ≡ teller }
        ensures task { result.task ≡ task }
        ensures nothing { result.heard.calls ≡ 0 }
    {
        Caller {
            teller,
            task,
            heard: Heard::nothing(),
        }
    }
}

/// Asks all of a caller's task.
fn ask_own<T: Teller>(alloc: Global, caller: &mut Caller<T>)
    requires { StandsForSome T.stands caller.old.teller }
    ensures { HasAskedOwn T.stands caller.old caller.new }
{
    caller.heard = ask_task(alloc, &mut caller.teller, caller.task);
}

/// Each caller asks all of its task, in a thread of its own.
fn ask_each<R: Threads + Sync, T: Teller + Send>(rt: &R, alloc: Global, callers: &mut [Caller<T>])
    requires { All (λ caller. StandsForSome T.stands caller.teller) callers.old }
    ensures { (i : ℕ) (d : _) → i < length callers.old → HasAskedOwn T.stands
        (slice_index_or callers.old i d) (slice_index_or callers.new i d) }
{
    let threads = callers.len().max(1);
    let asks = |_: usize, caller: &mut Caller<T>|
        requires { StandsForSome T.stands caller.old.teller }
        ensures { HasAskedOwn T.stands caller.old caller.new }
    { ask_own(alloc, caller) };
    thread::for_each_mut(rt, callers, threads, &asks);
}

/// Each caller asks all of its task, in a thread of its own.
pub fn ask_all<R: Threads + Sync, T: Teller + Drop + Send>(
    rt: &R,
    alloc: Global,
    callers: Vec<Caller<T>>,
) -> Vec<Caller<T>>
    requires { All (λ caller. StandsForSome T.stands caller.teller) callers.items }
    ensures { AllZip (HasAskedOwn T.stands) callers.items result.items }
{
    let mut callers = callers;
    ask_each(rt, alloc, callers.as_mut_slice());
    callers
}

/// One caller after the other asks its task of one teller.
pub fn ask_in_turn<T: Teller>(alloc: Global, teller: &mut T, work: Work) -> Heard
    requires { StandsForSome T.stands teller.old }
    ensures asked { HasAskedAll T.stands teller.old teller.new result }
    ensures again { StandsForSome T.stands teller.new }
{
    let mut sum = Heard::nothing();
    for number in 0..work.seats() {
        let heard = ask_task(alloc, teller, work.task(number));
        sum = sum.with(heard);
    }
    sum
}
