//! The top call: all that the program does, over ends that are handed in.
ghost use Rattle.std.specs.Prelude.{◌≡◌, ◌≢◌, ◌≤◌, ℕ, List, map, string_bytes, Ok, IfErr, IfOk, MatchResult, true, vec_len};
ghost use Rattle.outside.specs.Ends.{Incoming};
ghost use Rattle.journal_book.specs.Books.{Stands};
ghost use Rattle.program_words.specs.Grammar.{Says};
ghost use Rattle.result_journal.specs.Journals.{disk_of, is_settled};
ghost use Rattle.serve_runs.specs.ServiceMachine.ServiceEffects.Service.{empty_service};
ghost use Rattle.serve_runs.specs.ServiceCore.CoreState.{world_in};
ghost use Rattle.serve_runs.specs.ServiceMachine.Machines.{Plays};
ghost use Rattle.rdb_program.specs.Words.{IsAnswerWords, IsCheckWords, IsSaid, AskForText};
ghost use Rattle.rdb_program.specs.Configured.{Accepts, IsUnserved};
ghost use Rattle.rdb_program.specs.Run.{outside, line_of, status_of, IsRun, Shows, StopsAtConfig, IsReported};
ghost use Rattle.rdb_program.specs.Run.{IsUnopened, ProgramRun, TellsLoad, disk_end};
ghost use Rattle.rdb_program.specs.Opening.{OpensBook, RunsOver};
ghost use Rattle.rdb_program.specs.Statuses.{ExitSays};

use crate::ending::Ending;
use crate::lines::{counts_line, opening_line};
use crate::service::{Service, serve_doors};
use dialers::Dialer;
use disks::Disk;
use doors::Door;
use http_workers::serve_connection;
use journal_book::Book;
use outside::{Clock, Link, PairLink, Sink, Source, StepClock, put_whole, write_whole};
use permissions::{Policy, PolicyFault};
use program_words::{
    Command, ServeWords, SinkWords, WordFault, WorkloadWords, help_text, read_words, version_text,
};
use serve_runs::{BookTeller, Core, ServiceMachine};
use sink_runs::{send_report, tell};
use std::alloc::Global;
use std::mem::forget;
use std::sync::Wait;
use std::thread::Threads;
use whole_reads::{ReadEnd, read_front};
use workload_runs::{Asking, Load, LoadEnding, Stop, from_toml, load_line, load_policy, run_load};

/// The most that is read of a configuration: one byte more than it may have.
const MOST_READ: usize = 4_194_305;

/// When a workload begins, in microseconds since 1970, and how much later each of its requests is.
const FIRST_MOMENT: i64 = 1_700_000_000_000_000;

const STEP: i64 = 1_000;

/// How many bytes stand before the first record of a journal.
const HEAD: u64 = 8;

/// What a run leaves: its exit status, and the disk, the clock and the doors that it was given.
#[derive(Drop)]
pub struct Outcome<A, D, C> {
    pub status: u8,
    pub disk: D,
    pub clock: C,
    pub doors: Vec<A>,
}

/// What a run is lent, and gives back.
#[derive(Drop)]
pub(crate) struct Lent<D, C> {
    pub(crate) disk: D,
    pub(crate) clock: C,
}

/// Reads the configuration: its policy, or how the run ends without one.
pub(crate) fn read_policy<I: Source>(alloc: Global, config: &mut I) -> Result<Policy, Ending>
    ensures { MatchResult result
        (λ policy. Accepts (I.ends config.old) policy (I.ends config.new))
        (λ ending. IsUnserved ending (I.ends config.old) (I.ends config.new)) }
{
    let text = match read_front(alloc, config, MOST_READ) {
        Ok(text) => text,
        Err(ReadEnd::Failed) => return Err(Ending::ConfigFault),
        Err(ReadEnd::Memory) => return Err(Ending::Unstarted),
    };
    match from_toml(alloc, text.as_slice()) {
        Ok(policy) => Ok(policy),
        Err(PolicyFault::Memory) => Err(Ending::Unstarted),
        Err(fault) => Err(Ending::ConfigRefused(fault)),
    }
}

/// Opens the journal: an empty core replays its commands.
pub(crate) fn open_journal<D: Disk>(
    alloc: Global,
    disk: D,
) -> Result<Book<ServiceMachine, D>, (Ending, D)>
    ensures ok { IfOk result (λ book. OpensBook D.told Plays (disk_end D.told D.faults disk)
        (world_in book.machine.core) book.journal
        (disk_end D.told D.faults (disk_of book.journal))) }
    ensures err { IfErr result (λ e. IsUnopened e.0 (disk_end D.told D.faults disk)
        (disk_end D.told D.faults e.1)) }
{
    let Ok(core) = Core::new(alloc) else {
        return Err((Ending::Unstarted, disk));
    };
    match Book::open(alloc, ServiceMachine { core }, disk) {
        Ok(book) => Ok(book),
        Err((fault, disk)) => Err((Ending::Unopened(fault), disk)),
    }
}

/// The disk of a book. The run is over, and what the machine holds goes back with the process: to
/// free it row by row would cost a long run a part of its time.
fn close<D: Disk>(book: Book<ServiceMachine, D>) -> D
    ensures { result ≡ disk_of book.journal }
{
    let Book { machine, journal } = book;
    forget(machine);
    journal.close()
}

/// Serves one connection over a journal, under a policy.
fn answer<L: Link, D: Disk, C: Clock>(
    alloc: Global,
    policy: Policy,
    link: &mut L,
    lent: Lent<D, C>,
) -> (Ending, Lent<D, C>)
    ensures run { (words : List (List ℕ)) (before after : Incoming) → IsAnswerWords words
        → Accepts before policy after → IsRun result.0 words
        (record {
          config = before;
          ends = L.ends link.old;
          disk = disk_end D.told D.faults lent.disk;
        })
        (C.tells (C.state lent.clock))
        (record {
          config = after;
          ends = L.ends link.new;
          disk = disk_end D.told D.faults result.1.disk;
        })
        (C.tells (C.state result.1.clock)) }
    ensures holds { L.holds link.new ≡ L.holds link.old }
{
    let Lent { disk, clock } = lent;
    let mut clock = clock;
    let mut book = match open_journal(alloc, disk) {
        Ok(book) => book,
        Err((ending, disk)) => return (ending, Lent { disk, clock }),
    };
    let mut teller = BookTeller::new(&policy, &mut book, &mut clock, alloc);
    let ending = Ending::Served(serve_connection(alloc, &mut teller, link));
    let disk = close(book);
    (ending, Lent { disk, clock })
}

/// Counts what a journal holds, and tells it.
fn check<L: Link, D: Disk, C: Clock>(
    alloc: Global,
    link: &mut L,
    lent: Lent<D, C>,
) -> (Ending, Lent<D, C>)
    ensures run { (words : List (List ℕ)) (config : Incoming)
        → IsCheckWords words → IsRun result.0 words
        (record {
          config = config;
          ends = L.ends link.old;
          disk = disk_end D.told D.faults lent.disk;
        })
        (C.tells (C.state lent.clock))
        (record {
          config = config;
          ends = L.ends link.new;
          disk = disk_end D.told D.faults result.1.disk;
        })
        (C.tells (C.state result.1.clock)) }
    ensures holds { L.holds link.new ≡ L.holds link.old }
{
    let Lent { disk, clock } = lent;
    let book = match open_journal(alloc, disk) {
        Ok(book) => book,
        Err((ending, disk)) => return (ending, Lent { disk, clock }),
    };
    let line = counts_line(&book.machine.core.counts(), book.journal.end() - HEAD);
    let ending = Ending::Counted(write_whole(link, line.as_slice()));
    let disk = close(book);
    (ending, Lent { disk, clock })
}

/// Runs a workload over a book, under its policy and at moments of its own.
fn run_over<D: Disk>(
    alloc: Global,
    policy: &Policy,
    book: &mut Book<ServiceMachine, D>,
    words: &WorkloadWords,
) -> Result<Load, Stop>
    requires stands { (commands : List (List ℕ)) × Stands D.told Plays empty_service
        (world_in book.old.machine.core) book.old.journal commands }
    requires settled { is_settled book.old.journal ≡ true }
    ensures { RunsOver D.told D.faults policy.now words.now
        (world_in book.old.machine.core) book.old.journal result
        (world_in book.new.machine.core) book.new.journal }
{
    let mut clock = StepClock::new(FIRST_MOMENT, STEP);
    let asking = Asking {
        alloc,
        secret: policy.secret(),
    };
    let mut teller = BookTeller::new(policy, book, &mut clock, alloc);
    let tally = match run_load(&mut teller, asking, words.number, u64::from(words.count)) {
        Ok(tally) => tally,
        Err(stop) => return Err(stop),
    };
    Ok(Load {
        number: words.number,
        count: words.count,
        tally,
        finalized: book.machine.core.counts().finalized,
        bytes: book.journal.end() - HEAD,
    })
}

/// Tells what a workload came to, if it came to its end.
fn tell_load<L: Link>(link: &mut L, ran: Result<Load, Stop>) -> LoadEnding
    ensures told { TellsLoad ran (L.ends link.old) result (L.ends link.new) }
    ensures holds { L.holds link.new ≡ L.holds link.old }
{
    match ran {
        Ok(load) => LoadEnding::Told(write_whole(link, load_line(&load).as_slice())),
        Err(stop) => LoadEnding::Stopped(stop),
    }
}

/// Runs a workload over a journal, and tells what it came to. The clock isn't asked.
fn load<L: Link, D: Disk, C: Clock>(
    alloc: Global,
    words: &WorkloadWords,
    link: &mut L,
    lent: Lent<D, C>,
) -> (Ending, Lent<D, C>)
    ensures run { (said : List (List ℕ)) (config : Incoming)
        → Says said (Command.Workload words.now) → IsRun result.0 said
        (record {
          config = config;
          ends = L.ends link.old;
          disk = disk_end D.told D.faults lent.disk;
        })
        (C.tells (C.state lent.clock))
        (record {
          config = config;
          ends = L.ends link.new;
          disk = disk_end D.told D.faults result.1.disk;
        })
        (C.tells (C.state result.1.clock)) }
    ensures holds { L.holds link.new ≡ L.holds link.old }
{
    let Ok(policy) = load_policy(alloc) else {
        return (Ending::Unstarted, lent);
    };
    let Lent { disk, clock } = lent;
    let mut book = match open_journal(alloc, disk) {
        Ok(book) => book,
        Err((ending, disk)) => return (ending, Lent { disk, clock }),
    };
    let ran = run_over(alloc, &policy, &mut book, words);
    let ending = tell_load(link, ran);
    let disk = close(book);
    (Ending::Loaded(ending), Lent { disk, clock })
}

/// Serves one connection under the policy of the configuration.
fn serve<I: Source, L: Link, D: Disk, C: Clock>(
    alloc: Global,
    config: &mut I,
    link: &mut L,
    lent: Lent<D, C>,
) -> (Ending, Lent<D, C>)
    ensures run { (words : List (List ℕ)) → IsAnswerWords words → IsRun result.0 words
        (record {
          config = I.ends config.old;
          ends = L.ends link.old;
          disk = disk_end D.told D.faults lent.disk;
        })
        (C.tells (C.state lent.clock))
        (record {
          config = I.ends config.new;
          ends = L.ends link.new;
          disk = disk_end D.told D.faults result.1.disk;
        })
        (C.tells (C.state result.1.clock)) }
    ensures holds { L.holds link.new ≡ L.holds link.old }
{
    match read_policy(alloc, config) {
        Ok(policy) => answer(alloc, policy, link, lent),
        Err(ending) => (ending, lent),
    }
}

/// Runs the command that the words say, which asks for no service and no upload, and says how it
/// ended.
fn run_words<I: Source, L: Link, D: Disk, C: Clock>(
    alloc: Global,
    said: Result<Command, WordFault>,
    config: &mut I,
    link: &mut L,
    lent: Lent<D, C>,
) -> (Ending, Lent<D, C>)
    requires sink { (sink : SinkWords) → said ≢ Ok (Command.Sink sink) }
    requires serve { (serve : ServeWords) → said ≢ Ok (Command.Serve serve) }
    ensures run { (words : List (List ℕ)) → IsSaid words said → IsRun result.0 words
        (record {
          config = I.ends config.old;
          ends = L.ends link.old;
          disk = disk_end D.told D.faults lent.disk;
        })
        (C.tells (C.state lent.clock))
        (record {
          config = I.ends config.new;
          ends = L.ends link.new;
          disk = disk_end D.told D.faults result.1.disk;
        })
        (C.tells (C.state result.1.clock)) }
    ensures holds { L.holds link.new ≡ L.holds link.old }
{
    match said {
        Ok(Command::Answer { .. }) => serve(alloc, config, link, lent),
        Ok(Command::Check { .. }) => check(alloc, link, lent),
        Ok(Command::Workload(words)) => load(alloc, &words, link, lent),
        Ok(Command::Serve(_) | Command::Sink(_)) => unreachable!(),
        Ok(Command::Help) => (
            Ending::Shown(write_whole(link, help_text().as_bytes())),
            lent,
        ),
        Ok(Command::Version) => (
            Ending::Shown(write_whole(link, version_text().as_bytes())),
            lent,
        ),
        Err(WordFault::Refused) => (Ending::WordsRefused, lent),
        Err(WordFault::Memory) => (Ending::Unstarted, lent),
    }
}

/// Says on `errors` how the run ended. What fails there changes no status.
pub fn report<O: Sink>(ending: &Ending, errors: &mut O)
    ensures { IsReported (line_of ending.now) (O.ends errors.old) (O.ends errors.new) }
{
    let _ = match ending {
        Ending::Unopened(fault) => put_whole(errors, opening_line(*fault).as_slice()),
        Ending::Uploaded(ending) => put_whole(errors, ending.line().as_slice()),
        _ => put_whole(errors, ending.line().as_bytes()),
    };
}

/// Says on `errors` how the run ended, and gives back what it was lent.
fn finish<O: Sink, A, D, C>(
    ending: Ending,
    errors: &mut O,
    lent: Lent<D, C>,
    doors: Vec<A>,
) -> Outcome<A, D, C>
    ensures status { result.status ≡ status_of ending }
    ensures disk { result.disk ≡ lent.disk }
    ensures clock { result.clock ≡ lent.clock }
    ensures doors { result.doors ≡ doors }
    ensures line { IsReported (line_of ending) (O.ends errors.old) (O.ends errors.new) }
{
    report(&ending, errors);
    let Lent { disk, clock } = lent;
    Outcome {
        status: ending.status(),
        disk,
        clock,
        doors,
    }
}

/// Runs the command that the words say, and says on `errors` how it ended, unless the work is done.
/// `words` are those behind the program's name.
///
/// `answer` reads the configuration, opens the journal on `disk`, and then reads requests from
/// `input`, and writes their replies to `output`. What a request changes is recorded in the journal
/// before it is answered. `serve` reads the configuration, opens the journal, and then serves every
/// link that comes in at the doors, each door in a thread of its own, and writes to `output` how
/// many there were. `check` opens the journal, and writes to `output` how much it holds. `workload`
/// opens the journal, asks the requests that its two numbers stand for of the service over it, at
/// moments of its own, and writes to `output` what came. `sink` reads the configuration, and then a
/// report from `input`, uploads its cases over links of `dialer`, and writes to `output` how many
/// were sent. `--help` and `--version` write a text to `output`.
///
/// | Status | |
/// |---|---|
/// | 0 | each message was answered, to the end or the reply that closes; or the text was written |
/// | 0 | all doors were served to their ends, or a workload was run to its end, and that was told |
/// | 1 | the words are outside the grammar |
/// | 2 | the configuration is refused |
/// | 3 | the journal is refused |
/// | 4 | a read of configuration or input failed, a write to output, or the disk at its opening |
/// | 4 | the disk failed in a workload |
/// | 4 | a door failed, or the upload gave up, since too many links failed |
/// | 5 | the report is refused |
/// | 6 | a batch was refused, or what came is no reply |
/// | 7 | memory was wanting outside a reply |
/// | 8 | the input isn't messages to its end: it has a message with a fault, or ends inside one |
/// | 9 | the output took nothing of bytes that it was given |
///
/// Nothing is read from `input`, nothing is written to `output` and no door is asked before the
/// words, the configuration and the journal are accepted. Nothing is dialled but for an upload
/// whose configuration and report are accepted.
pub fn run_program<R: Threads + Wait + Sync, I: Source, O: Sink, A, D, C, X: Dialer>(
    rt: &R,
    alloc: Global,
    words: &[String],
    config: &mut I,
    input: &mut I,
    output: &mut O,
    errors: &mut O,
    disk: D,
    clock: C,
    doors: Vec<A>,
    dialer: &mut X,
) -> Outcome<A, D, C>
where
    A: Door + Drop + Send,
    A::L: Send,
    D: Disk + Drop + Send,
    C: Clock + Drop + Send,
    requires { vec_len doors ≤ 64 }

    // The whole run: the policy, the world of the opened journal, which messages were answered, the
    // history that they made, the bytes that were written, and what a crash leaves of the disk,
    // inside each call and at the end; or the plan of the report, and what each link took and gave.
    ensures run { ProgramRun
        (record { tells = A.tells; ends = A.L.ends; holds = A.L.holds })
        X.L.ends result.status (map string_bytes words.now)
        (outside (I.ends config.old) (I.ends input.old) (O.ends output.old) (O.ends errors.old)
        (disk_end D.told D.faults disk))
        (C.tells (C.state clock))
        (record { doors = doors.items; dials = X.dials dialer.old })
        (outside (I.ends config.new) (I.ends input.new) (O.ends output.new) (O.ends errors.new)
        (disk_end D.told D.faults result.disk))
        (C.tells (C.state result.clock))
        (record { doors = result.doors.items; dials = X.dials dialer.new }) }

    // What the exit status says, by what the words ask for.
    ensures status { ExitSays
        (record { tells = A.tells; ends = A.L.ends; holds = A.L.holds })
        X.L.ends result.status (map string_bytes words.now)
        (outside (I.ends config.old) (I.ends input.old) (O.ends output.old) (O.ends errors.old)
        (disk_end D.told D.faults disk))
        (record { doors = doors.items; dials = X.dials dialer.old })
        (outside (I.ends config.new) (I.ends input.new) (O.ends output.new) (O.ends errors.new)
        (disk_end D.told D.faults result.disk))
        (record { doors = result.doors.items; dials = X.dials dialer.new }) }
{
    let lent = Lent { disk, clock };
    match read_words(alloc, words) {
        Ok(Command::Sink(sink)) => {
            let sent = send_report(alloc, sink, config, input, dialer);
            let ending = Ending::Uploaded(tell(output, sent));
            finish(ending, errors, lent, doors)
        }
        Ok(Command::Serve(_)) => {
            let service = Service { doors, lent };
            let (ending, service) = serve_doors(rt, alloc, config, output, service);
            let Service { doors, lent } = service;
            finish(ending, errors, lent, doors)
        }
        said => {
            let mut link = PairLink::new(input, output);
            let (ending, lent) = run_words(alloc, said, config, &mut link, lent);
            finish(ending, errors, lent, doors)
        }
    }
}
