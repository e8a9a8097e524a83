//! How a run ends: its exit status, and its line on standard error.
ghost use Rattle.std.specs.Prelude.{◌≡◌};
ghost use Rattle.rdb_program.specs.Causes.{opening_row, row_of};
ghost use Rattle.rdb_program.specs.Lines.{fixed_line};
ghost use Rattle.rdb_program.specs.Run.{status_of, refusal_line};

use http_wire::WireFault;
use http_workers::{Cause, Ended};
use outside::WriteEnd;
use permissions::PolicyFault;
use result_journal::OpenFault;
use serve_runs::ServeEnding;
use sink_runs::SinkEnding;
use workload_runs::LoadEnding;

/// How a run ended. A fault of the configuration may hold a token, so nothing prints an ending
/// whole.
#[derive(Drop)]
pub enum Ending {
    /// The words are outside the grammar.
    WordsRefused,
    /// The text that the words ask for was written, or the write of it ended so.
    Shown(Result<(), WriteEnd>),
    /// A read of the configuration failed.
    ConfigFault,
    /// The configuration has this fault.
    ConfigRefused(PolicyFault),
    /// Memory was wanting before anything was read of the input.
    Unstarted,
    /// The journal wasn't opened, for this fault.
    Unopened(OpenFault),
    /// What the journal holds was counted, and told, or the write of it ended so.
    Counted(Result<(), WriteEnd>),
    /// The connection was served, and ended so.
    Served(Ended),
    /// The doors of a service were served, or weren't for want of memory, and that ended so.
    DoorsServed(ServeEnding),
    /// The upload of a report ended so.
    Uploaded(SinkEnding),
    /// A workload was run over the journal, and ended so.
    Loaded(LoadEnding),
}

impl Ending {
    /// The exit status.
    pub fn status(&self) -> u8
        ensures { result ≡ status_of self.now }
    {
        match self {
            Ending::WordsRefused => 1,
            Ending::Shown(Ok(())) | Ending::Counted(Ok(())) => 0,
            Ending::Shown(Err(end)) | Ending::Counted(Err(end)) => status(&Cause::from(*end)),
            Ending::ConfigFault => 4,
            Ending::ConfigRefused(_) => 2,
            Ending::Unstarted => 7,
            Ending::Unopened(fault) => opening_status(fault),
            Ending::Served(ended) => status(&ended.cause),
            Ending::DoorsServed(ending) => ending.status(),
            Ending::Uploaded(ending) => ending.status(),
            Ending::Loaded(ending) => ending.status(),
        }
    }

    /// The line on standard error: none where the work is done, nor where the journal wasn't
    /// opened, of which `opening_line` tells, nor of an upload, which has its own.
    pub fn line(&self) -> &'static str
        ensures { result.now ≡ fixed_line self.now }
    {
        match self {
            Ending::WordsRefused => "rdb: words refused\n",
            Ending::Shown(Ok(())) | Ending::Counted(Ok(())) => "",
            Ending::Unopened(_) | Ending::Uploaded(_) => "",
            Ending::Shown(Err(end)) | Ending::Counted(Err(end)) => line(&Cause::from(*end)),
            Ending::ConfigFault => "rdb: fault of config\n",
            Ending::ConfigRefused(fault) => refusal_line(fault),
            Ending::Unstarted => "rdb: want of memory\n",
            Ending::Served(ended) => line(&ended.cause),
            Ending::DoorsServed(ending) => ending.line(),
            Ending::Loaded(ending) => ending.line(),
        }
    }
}

/// The exit status of a fault of opening.
fn opening_status(fault: &OpenFault) -> u8
    ensures { result ≡ (opening_row fault.now).status }
{
    match fault {
        OpenFault::NotAJournal { .. }
        | OpenFault::Damaged { .. }
        | OpenFault::NewerVersion { .. } => 3,
        OpenFault::DiskFailed => 4,
        OpenFault::Memory => 7,
    }
}

/// The exit status of a cause.
fn status(cause: &Cause) -> u8
    ensures { result ≡ (row_of cause.now).status }
{
    match cause {
        Cause::End | Cause::Closed => 0,
        Cause::ReadFault | Cause::WriteFault => 4,
        Cause::Memory => 7,
        Cause::Wire(_) => 8,
        Cause::SinkTakesNothing => 9,
    }
}

/// The line of a cause.
fn line(cause: &Cause) -> &'static str
    ensures { result.now ≡ (row_of cause.now).line }
{
    match cause {
        Cause::End | Cause::Closed => "",
        Cause::ReadFault => "rdb: fault of input\n",
        Cause::WriteFault => "rdb: fault of output\n",
        Cause::Memory => "rdb: want of memory\n",
        Cause::Wire(fault) => wire_line(fault),
        Cause::SinkTakesNothing => "rdb: output takes nothing\n",
    }
}

fn wire_line(fault: &WireFault) -> &'static str
    ensures { result.now ≡ (row_of (Cause.Wire fault.now)).line }
{
    match fault {
        WireFault::HeadTooLong => "rdb: wire 1 HeadTooLong\n",
        WireFault::TooManyHeaders => "rdb: wire 2 TooManyHeaders\n",
        WireFault::BadHead { .. } => "rdb: wire 3 BadHead\n",
        WireFault::NoLength => "rdb: wire 4 NoLength\n",
        WireFault::TwoLengths => "rdb: wire 5 TwoLengths\n",
        WireFault::TransferCoded => "rdb: wire 6 TransferCoded\n",
        WireFault::BodyTooLong { .. } => "rdb: wire 7 BodyTooLong\n",
        WireFault::CutShort { .. } => "rdb: wire 8 CutShort\n",
        WireFault::ReadFault => "rdb: wire 9 ReadFault\n",
        WireFault::Memory => "rdb: wire 10 Memory\n",
    }
}

fn refusal_line(fault: &PolicyFault) -> &'static str
    ensures { result.now ≡ refusal_line fault.now }
{
    match fault {
        PolicyFault::NotToml => "rdb: configuration refused: 1 NotToml\n",
        PolicyFault::BadName { .. } => "rdb: configuration refused: 2 BadName\n",
        PolicyFault::UnknownRole { .. } => "rdb: configuration refused: 3 UnknownRole\n",
        PolicyFault::UnknownRealm { .. } => "rdb: configuration refused: 4 UnknownRealm\n",
        PolicyFault::RealmCycle { .. } => "rdb: configuration refused: 5 RealmCycle\n",
        PolicyFault::TwoOwners { .. } => "rdb: configuration refused: 6 TwoOwners\n",
        PolicyFault::TooMany { .. } => "rdb: configuration refused: 7 TooMany\n",
        PolicyFault::BadShape { .. } => "rdb: configuration refused: 8 BadShape\n",
        PolicyFault::UnknownPrincipal { .. } => {
            "rdb: configuration refused: 9 UnknownPrincipal\n"
        }
        PolicyFault::Memory => "rdb: configuration refused: 0 Memory\n",
    }
}
