//! How a run of the sink ends: its exit status, and its line.
ghost use Rattle.std.specs.Prelude.{◌≡◌, ◌+◌, ◌≤◌, ◌++◌, codes, decimal, length};
ghost use Rattle.sink_runs.specs.Endings.{end_status, end_text, fault_text, sent_text, sink_line, sink_status};
ghost use Rattle.sink_runs.specs.Endings.{write_line, write_status, Tells};
ghost use Rattle.error_lines.specs.Lines.{error_line};

use crate::report::ReportFault;
use error_lines::{Line, put, put_number};
use outside::{Sink, WriteEnd, put_whole};
use sink_settings::SettingsFault;
use sink_uploads::{Sent, SinkFault};

/// Why a report wasn't uploaded.
#[derive(Drop)]
pub enum SinkEnd {
    /// A read of the configuration failed.
    ConfigFault,
    /// The configuration has this fault.
    ConfigRefused(SettingsFault),
    /// A read of the report failed.
    InputFault,
    /// The report has this fault.
    ReportRefused(ReportFault),
    /// There was no memory, and nothing was dialled.
    Memory,
    /// The upload ended before each batch was answered.
    Unsent(SinkFault),
}

/// How a run of the sink ended. A fault of the configuration may hold a text of it, so nothing
/// prints an ending whole.
#[derive(Drop)]
pub enum SinkEnding {
    /// The report wasn't uploaded.
    Stopped(SinkEnd),
    /// It was, and that was told on the output, or the write of it ended so.
    Told(Result<(), WriteEnd>),
}

impl SinkEnd {
    /// The exit status.
    pub fn status(&self) -> u8
        ensures { result ≡ end_status self.now }
    {
        match self {
            SinkEnd::ConfigRefused(_) => 2,
            SinkEnd::ConfigFault
            | SinkEnd::InputFault
            | SinkEnd::Unsent(SinkFault::GaveUp { .. }) => 4,
            SinkEnd::ReportRefused(_) => 5,
            SinkEnd::Unsent(SinkFault::Refused { .. } | SinkFault::BadReply { .. }) => 6,
            SinkEnd::Memory | SinkEnd::Unsent(SinkFault::Memory) => 7,
        }
    }
}

/// The exit status of a write that ended so.
fn write_status(written: &Result<(), WriteEnd>) -> u8
    ensures { result ≡ write_status written.now }
{
    match written {
        Ok(()) => 0,
        Err(WriteEnd::WriteFault) => 4,
        Err(WriteEnd::SinkTakesNothing) => 9,
    }
}

/// Puts why an upload ended.
fn put_unsent(line: &mut Line, fault: SinkFault)
    requires { length line.old.items + 90 ≤ 320 }
    ensures items { line.new.items ≡ line.old.items ++ fault_text fault }
    ensures len { length line.new.items ≤ length line.old.items + 90 }
{
    match fault {
        SinkFault::GaveUp { batch, .. } => put_number(line, "gave up on batch ", batch),
        SinkFault::Refused { batch, status } => {
            put_number(line, "batch ", batch);
            put_number(line, " refused: ", u64::from(status));
        }
        SinkFault::BadReply { batch, .. } => {
            put_number(line, "batch ", batch);
            put(line, " refused: bad reply");
        }
        SinkFault::Memory => put(line, "want of memory"),
    }
}

/// Puts a text, a number and a name.
fn put_named(line: &mut Line, text: &str, number: u8, name: &str)
    requires { length line.old.items + length text.now + length name.now + 21 ≤ 320 }
    ensures items { line.new.items
        ≡ line.old.items ++ (text.now ++ (decimal number ++ (codes " " ++ name.now))) }
    ensures len { length line.new.items
        ≤ length line.old.items + length text.now + length name.now + 21 }
{
    put_number(line, text, u64::from(number));
    put(line, " ");
    put(line, name);
}

/// Puts why a report wasn't uploaded.
#[tactic(auto, using(crate::proofs::NameLaws::settings_name_short))]
fn put_end(line: &mut Line, end: &SinkEnd)
    requires { length line.old.items + 90 ≤ 320 }
    ensures items { line.new.items ≡ line.old.items ++ end_text end.now }
    ensures len { length line.new.items ≤ length line.old.items + 90 }
{
    match end {
        SinkEnd::ConfigFault => put(line, "fault of config"),
        SinkEnd::ConfigRefused(fault) => {
            put_named(
                line,
                "configuration refused: ",
                fault.number(),
                fault.name(),
            );
        }
        SinkEnd::InputFault => put(line, "fault of input"),
        SinkEnd::ReportRefused(fault) => {
            put_named(line, "report refused: ", fault.number(), fault.name());
        }
        SinkEnd::Memory => put(line, "want of memory"),
        SinkEnd::Unsent(fault) => put_unsent(line, *fault),
    }
}

/// The line of a run whose report wasn't uploaded.
fn end_line(end: &SinkEnd) -> Line
    ensures { result.items ≡ error_line (end_text end.now) }
{
    let mut line = Line::new();
    put(&mut line, "rdb: ");
    put_end(&mut line, end);
    put(&mut line, "\n");
    line
}

/// The line of a write that ended so: none where it wrote all.
fn write_line(written: &Result<(), WriteEnd>) -> Line
    ensures { result.items ≡ write_line written.now }
{
    let mut line = Line::new();
    match written {
        Ok(()) => {}
        Err(WriteEnd::WriteFault) => put(&mut line, "rdb: fault of output\n"),
        Err(WriteEnd::SinkTakesNothing) => put(&mut line, "rdb: output takes nothing\n"),
    }
    line
}

impl SinkEnding {
    /// The exit status.
    pub fn status(&self) -> u8
        ensures { result ≡ sink_status self.now }
    {
        match self {
            SinkEnding::Stopped(end) => end.status(),
            SinkEnding::Told(written) => write_status(written),
        }
    }

    /// The line on the errors: none where the report was uploaded and that was told.
    pub fn line(&self) -> Line
        ensures { result.items ≡ sink_line self.now }
    {
        match self {
            SinkEnding::Stopped(end) => end_line(end),
            SinkEnding::Told(written) => write_line(written),
        }
    }
}

/// The line that tells what was sent.
pub fn sent_line(sent: &Sent) -> Line
    ensures { result.items ≡ sent_text sent.now }
{
    let mut line = Line::new();
    put_number(&mut line, "sent ", sent.cases);
    put_number(&mut line, " cases in ", sent.batches);
    put(&mut line, " batches\n");
    line
}

/// Tells on the output what was sent, and says how the run ended. Where the report wasn't uploaded
/// nothing is written.
pub fn tell<O: Sink>(output: &mut O, sent: Result<Sent, SinkEnd>) -> SinkEnding
    ensures { Tells sent (O.ends output.old) result (O.ends output.new) }
{
    match sent {
        Ok(sent) => SinkEnding::Told(put_whole(output, sent_line(&sent).as_slice())),
        Err(end) => SinkEnding::Stopped(end),
    }
}
