//! A run of the service.
ghost use Rattle.std.specs.Prelude.{◌≡◌, ◌≤◌, vec_len};
ghost use Rattle.result_journal.specs.Journals.{disk_of};
ghost use Rattle.served_desk.specs.ServiceCore.CoreState.{world_in};
ghost use Rattle.served_desk.specs.ServiceDesk.Shelves.{IsOpened};
ghost use Rattle.serve_runs.specs.Endings.{serve_status};
ghost use Rattle.serve_runs.specs.Runs.{IsServing, premises_of};
ghost use Rattle.serve_runs.specs.Statuses.{ServeSays};

use crate::ending::{ServeEnding, served_line};
use disks::Disk;
use doors::Door;
use journal_book::Book;
use outside::{Clock, Sink, put_whole};
use served_desk::{Office, Policy, ServiceMachine, serve_office};
use std::alloc::Global;
use std::sync::Wait;
use std::thread::Threads;

/// What a run gives back.
#[derive(Drop)]
pub struct Returned<A, D, C> {
    pub doors: Vec<A>,
    pub disk: D,
    pub clock: C,
}

/// The doors and the clock of an office, and the disk of its book.
fn handed_back<A, D: Disk, C: Clock>(office: Office<A, D, C>) -> Returned<A, D, C>
    ensures doors { result.doors ≡ office.doors }
    ensures disk { result.disk ≡ disk_of office.book.journal }
    ensures clock { result.clock ≡ office.clock }
{
    let Office { doors, book, clock } = office;
    let Book {
        machine: _,
        journal,
    } = book;
    Returned {
        doors,
        disk: journal.close(),
        clock,
    }
}

/// Serves the doors of an office, and tells what was counted.
fn serve_told<R: Threads + Wait + Sync, O: Sink, A, D, C>(
    rt: &R,
    alloc: Global,
    policy: &Policy,
    office: Office<A, D, C>,
    output: &mut O,
) -> (ServeEnding, Returned<A, D, C>)
where
    A: Door + Drop + Send,
    A::L: Send,
    D: Disk + Drop + Send,
    C: Clock + Drop + Send,
    requires opened { IsOpened D.told (world_in office.book.machine.core) office.book.journal }
    requires few { vec_len office.doors ≤ 64 }
    ensures { IsServing A.tells A.L.ends A.L.holds result.0 policy.now
        (world_in office.book.machine.core) (C.tells (C.state office.clock))
        (record {
          disk = D.told (disk_of office.book.journal);
          faults = D.faults (disk_of office.book.journal);
          doors = office.doors.items;
          output = O.ends output.old;
        })
        (C.tells (C.state result.1.clock))
        (record {
          disk = D.told result.1.disk;
          faults = D.faults result.1.disk;
          doors = result.1.doors.items;
          output = O.ends output.new;
        }) }
{
    match serve_office(rt, alloc, policy, office) {
        Ok((office, sum)) => {
            let written = put_whole(output, served_line(&sum).as_slice());
            let ending = ServeEnding::Served {
                failed: sum.failed,
                written,
            };
            (ending, handed_back(office))
        }
        Err(office) => (ServeEnding::Unserved, handed_back(office)),
    }
}

/// Serves every link that comes in at the doors of an office, of which there are at most 64, each
/// door in a thread of its own, and then tells on `output` how many connections and how many calls
/// there were.
///
/// For want of memory no door is asked and nothing is told. It waits for links.
///
/// | Status | |
/// |---|---|
/// | 0 | all doors were served to their ends, and that was told |
/// | 4 | a door failed, or a write to the output did |
/// | 7 | memory was wanting |
/// | 9 | no door failed, and the output took nothing of bytes that it was given |
pub fn serve_all<R: Threads + Wait + Sync, O: Sink, A, D, C>(
    rt: &R,
    alloc: Global,
    policy: &Policy,
    office: Office<A, D, C>,
    output: &mut O,
) -> (ServeEnding, Returned<A, D, C>)
where
    A: Door + Drop + Send,
    A::L: Send,
    D: Disk + Drop + Send,
    C: Clock + Drop + Send,
    requires opened { IsOpened D.told (world_in office.book.machine.core) office.book.journal }
    requires few { vec_len office.doors ≤ 64 }
    ensures run { IsServing A.tells A.L.ends A.L.holds result.0 policy.now
        (world_in office.book.machine.core) (C.tells (C.state office.clock))
        (premises_of D.told D.faults (disk_of office.book.journal) office.doors.items
        (O.ends output.old))
        (C.tells (C.state result.1.clock))
        (premises_of D.told D.faults result.1.disk result.1.doors.items (O.ends output.new)) }
    ensures status { ServeSays A.tells A.L.ends A.L.holds (serve_status result.0)
        (premises_of D.told D.faults (disk_of office.book.journal) office.doors.items
        (O.ends output.old))
        (premises_of D.told D.faults result.1.disk result.1.doors.items (O.ends output.new)) }
{
    serve_told(rt, alloc, policy, office, output)
}
