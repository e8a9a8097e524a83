//! Books that are asked, in many threads or in one.
ghost use Rattle.std.specs.Prelude.{◌≡◌, IfOk, IfSome, Some, None, length};
ghost use Rattle.service_desk.specs.ServiceCore.CoreState.{world_in};
ghost use Rattle.service_desk.specs.Shelves.{IsOpened};

use crate::clerks::ask_desk;
use disks::Disk;
use journal_book::Book;
use outside::{Clock, StepClock};
use policy_reading::from_toml;
use service_desk::{BookTeller, Core, Desk, Policy, ServiceMachine, Shelf};
use std::alloc::{AllocError, Global};
use std::sync::Wait;
use std::thread::Threads;
use trial_callers::{Heard, Work, ask_in_turn};

/// 2023-11-14T22:13:20Z, in microseconds since 1970: what the clock tells first.
const START: i64 = 1_700_000_000_000_000;

/// What came of callers' work.
#[derive(Clone, Copy)]
pub struct Outcome {
    pub heard: Heard,
    /// How many calls the closed desk counted, where there was one.
    pub entries: Option<u64>,
    /// How many invocations it has.
    pub invocations: u64,
}

/// The policy of a configuration, if it is one.
pub fn policy_of(alloc: Global, config: &str) -> Option<Policy> {
    from_toml(alloc, config.as_bytes()).ok()
}

/// The book of a journal, none where it isn't opened.
fn open_book<D: Disk + Drop>(alloc: Global, disk: D) -> Option<Book<ServiceMachine, D>>
    ensures { IfSome result (λ book. IsOpened D.told (world_in book.machine.core) book.journal) }
{
    let Ok(core) = Core::new(alloc) else {
        return None;
    };
    match Book::open(alloc, ServiceMachine { core }, disk) {
        Ok(book) => Some(book),
        Err(_) => None,
    }
}

/// How many invocations a book has, which is let go.
fn invocations_in<D: Disk + Drop>(book: Book<ServiceMachine, D>) -> u64
    ensures { result ≡ length (world_in book.machine.core).rows.invocations }
{
    book.machine.core.counts().invocations
}

/// Callers ask a book in turn, each in a thread of its own, by a clerk. The book comes back with
/// what they counted, and with how many calls the closed desk counted.
fn ask_clerks<R: Threads + Wait + Sync, D: Disk + Drop + Send>(
    rt: &R,
    alloc: Global,
    policy: &Policy,
    book: Book<ServiceMachine, D>,
    work: Work,
) -> (Book<ServiceMachine, D>, Result<Heard, AllocError>, u64)
    requires { IsOpened D.told (world_in book.machine.core) book.journal }
    ensures { IfOk result.1 (λ heard. heard.turns ≡ result.2) }
{
    match Desk::begin(alloc, policy, book, StepClock::new(START, 1)) {
        Ok((desk, first)) => {
            let (shelf, heard) = ask_desk(rt, alloc, desk, first, work);
            let Shelf { book, entries, .. } = shelf;
            (book, heard, entries)
        }
        Err(shelf) => {
            let Shelf { book, entries, .. } = shelf;
            (book, Err(AllocError), entries)
        }
    }
}

/// One after the other, callers ask a book that is nobody else's.
fn ask_alone<D: Disk + Drop>(
    alloc: Global,
    policy: &Policy,
    book: &mut Book<ServiceMachine, D>,
    work: Work,
) -> Heard
    requires { IsOpened D.told (world_in book.old.machine.core) book.old.journal }
{
    let mut clock = StepClock::new(START, 1);
    let mut teller = BookTeller::new(policy, book, &mut clock, alloc);
    ask_in_turn(alloc, &mut teller, work)
}

/// Callers ask a book in turn, each in a thread of its own, by a clerk.
pub fn try_desk<R: Threads + Wait + Sync, D: Disk + Drop + Send>(
    rt: &R,
    alloc: Global,
    policy: &Policy,
    disk: D,
    work: Work,
) -> Option<Outcome>
    ensures { IfSome result (λ o. o.entries ≡ Some o.heard.turns) }
{
    let book = open_book(alloc, disk)?;
    let (book, heard, entries) = ask_clerks(rt, alloc, policy, book, work);
    let invocations = invocations_in(book);
    Some(Outcome {
        heard: heard.ok()?,
        entries: Some(entries),
        invocations,
    })
}

/// One after the other, callers ask a book that is nobody else's, in this thread.
pub fn try_book<D: Disk + Drop>(
    alloc: Global,
    policy: &Policy,
    disk: D,
    work: Work,
) -> Option<Outcome>
    ensures { IfSome result (λ o. o.entries ≡ None) }
{
    let mut book = open_book(alloc, disk)?;
    let heard = ask_alone(alloc, policy, &mut book, work);
    Some(Outcome {
        heard,
        entries: None,
        invocations: invocations_in(book),
    })
}
