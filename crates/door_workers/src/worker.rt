//! Workers side by side, each in a thread of its own.
ghost use Rattle.std.specs.Prelude.{◌≡◌, ℕ, ◌<◌, IfOk, IfErr, length, map, slice_index_or, All};
ghost use Rattle.std.specs.List.{AllZip};
ghost use Rattle.tellers.specs.Exchange.{StandsForSome};
ghost use Rattle.door_workers.specs.Workers.{IsWorked, job_of, worker_of};

use crate::reader::Reader;
use crate::{Tally, serve_door};
use doors::Door;
use reading_rooms::ReadingRoom;
use std::alloc::Global;
use std::marker::Brand;
use std::sync::Wait;
use std::sync::ledger::{Blank, Ledger};
use std::thread;
use std::thread::Threads;
use tellers::Teller;

/// A door, and who is asked what comes in there.
#[derive(Drop)]
pub struct Worker<A, T> {
    pub door: A,
    pub teller: T,
}

/// A worker whose door was served, and what it counted.
#[derive(Drop)]
pub struct Worked<A, T> {
    pub door: A,
    pub teller: T,
    pub tally: Tally,
}

/// The workers before their work. Where there is no memory for it, they come back.
fn jobs_of<A: Drop, T: Drop>(
    alloc: Global,
    workers: Vec<Worker<A, T>>,
) -> Result<Vec<Worked<A, T>>, Vec<Worker<A, T>>>
    ensures ok { IfOk result (λ jobs. jobs.items ≡ map job_of workers.items) }
    ensures err { IfErr result (λ back. back.items ≡ workers.items) }
{
    let Ok(mut jobs) = Vec::with_capacity(alloc, workers.len()) else {
        return Err(workers);
    };
    for Worker { door, teller } in workers {
        jobs.push_reserved(Worked {
            door,
            teller,
            tally: Tally::new(),
        });
    }
    Ok(jobs)
}

/// The most bytes of large bodies that all workers read at once.
const ROOM: u64 = 8_388_608;

/// Serves one worker's door. Its large bodies are read in the room.
fn work<B: Ledger, R: Wait, A: Door, T: Teller>(
    rt: &R,
    alloc: Global,
    room: &ReadingRoom<B>,
    job: &mut Worked<A, T>,
)
    requires { StandsForSome T.stands job.old.teller }
    ensures { IsWorked A.tells A.L.ends A.L.holds T.stands T.holds (worker_of job.old) job.new }
{
    let teller = &mut job.teller;
    let mut reader = Reader { rt, room, teller };
    job.tally = serve_door(rt, alloc, &mut job.door, &mut reader);
}

/// Serves the doors of all workers, each in a thread of its own, with one room for all.
fn work_all<B: Ledger + Send + Sync, R: Threads + Wait + Sync, A: Door + Send, T: Teller + Send>(
    rt: &R,
    alloc: Global,
    blank: Blank,
    jobs: &mut [Worked<A, T>],
)
where
    A::L: Send,
    requires room { (blank.name ≡ B.name) × (blank.parts ≡ B.parts) × (B.parts ≡ 8388608) }
    requires stands { All (λ job. StandsForSome T.stands job.teller) jobs.old }
    ensures { (i : ℕ) (d : _) → i < length jobs.old
        → IsWorked A.tells A.L.ends A.L.holds T.stands T.holds
        (worker_of (slice_index_or jobs.old i d)) (slice_index_or jobs.new i d) }
{
    let threads = jobs.len().max(1);
    let room = ReadingRoom::<B>::new(ROOM, blank);
    let serve = |_: usize, job: &mut Worked<A, T>|
        requires { StandsForSome T.stands job.old.teller }
        ensures { IsWorked A.tells A.L.ends A.L.holds T.stands T.holds (worker_of job.old) job.new }
    { work(rt, alloc, &room, job) };
    thread::for_each_mut(rt, jobs, threads, &serve);
}

/// Serves all doors, each by its own worker in a thread of its own.
///
/// Room for the work is made first. `Err` with all workers where there is no memory for it: no door
/// was asked. Each teller stands for what it was asked before, as a new one stands for nothing.
pub fn serve_doors<R: Threads + Wait + Sync, A: Door + Drop + Send, T: Teller + Drop + Send>(
    rt: &R,
    alloc: Global,
    workers: Vec<Worker<A, T>>,
) -> Result<Vec<Worked<A, T>>, Vec<Worker<A, T>>>
where
    A::L: Send,
    requires { All (λ worker. StandsForSome T.stands worker.teller) workers.items }
    ensures ok { IfOk result (λ all. AllZip
        (IsWorked A.tells A.L.ends A.L.holds T.stands T.holds) workers.items all.items) }
    ensures err { IfErr result (λ back. back.items ≡ workers.items) }
{
    let mut jobs = jobs_of(alloc, workers)?;
    work_all::<Brand, _, _, _>(rt, alloc, Blank::new(ROOM), jobs.as_mut_slice());
    Ok(jobs)
}
