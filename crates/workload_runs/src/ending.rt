//! How a run of the workload ends: its exit status, and its line on the errors.
ghost use Rattle.std.specs.Prelude.{◌≡◌};
ghost use Rattle.workload_runs.specs.Endings.{load_fault, load_status, write_line, write_status};

use outside::WriteEnd;
use workload_turns::Stop;

/// How a run of the workload ended.
#[derive(Drop)]
pub enum LoadEnding {
    /// It stopped before its end, and nothing was told.
    Stopped(Stop),
    /// It came to its end, and what it came to was told, or the write of it ended so.
    Told(Result<(), WriteEnd>),
}

/// The exit status of a write that ended so.
fn write_status(written: &Result<(), WriteEnd>) -> u8
    ensures { result ≡ write_status written.now }
{
    match written {
        Ok(()) => 0,
        Err(WriteEnd::WriteFault) => 4,
        Err(WriteEnd::SinkTakesNothing) => 9,
    }
}

/// The line of a write that ended so.
fn write_line(written: &Result<(), WriteEnd>) -> &'static str
    ensures { result.now ≡ write_line written.now }
{
    match written {
        Ok(()) => "",
        Err(WriteEnd::WriteFault) => "rdb: fault of output\n",
        Err(WriteEnd::SinkTakesNothing) => "rdb: output takes nothing\n",
    }
}

impl LoadEnding {
    /// The exit status.
    pub fn status(&self) -> u8
        ensures { result ≡ load_status self.now }
    {
        match self {
            LoadEnding::Stopped(Stop::Unavailable) => 4,
            LoadEnding::Stopped(Stop::Memory) => 7,
            LoadEnding::Told(written) => write_status(written),
        }
    }

    /// The line on the errors, none where the work is done.
    pub fn line(&self) -> &'static str
        ensures { result.now ≡ load_fault self.now }
    {
        match self {
            LoadEnding::Stopped(Stop::Unavailable) => "rdb: fault of disk\n",
            LoadEnding::Stopped(Stop::Memory) => "rdb: want of memory\n",
            LoadEnding::Told(written) => write_line(written),
        }
    }
}
