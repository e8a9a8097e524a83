//! How a run of the service ends: its exit status, and its line.
ghost use Rattle.std.specs.Prelude.{◌≡◌};
ghost use Rattle.serve_runs.specs.Endings.{serve_line, serve_status, served_text, write_line, write_status};

use door_workers::Tally;
use error_lines::{Line, put, put_number};
use outside::WriteEnd;

/// How a run of the service ended.
#[derive(Drop)]
pub enum ServeEnding {
    /// There was no memory for the work, and no door was asked.
    Unserved,
    /// All doors were served, and what was counted was told, or the write of it ended so.
    Served {
        /// Whether a call for a link failed.
        failed: bool,
        written: Result<(), WriteEnd>,
    },
}

/// The exit status of a write that ended so.
fn write_status(written: &Result<(), WriteEnd>) -> u8
    ensures { result ≡ write_status written.now }
{
    match written {
        Ok(()) => 0,
        Err(WriteEnd::WriteFault) => 4,
        Err(WriteEnd::SinkTakesNothing) => 9,
    }
}

/// The line of a write that ended so.
fn write_line(written: &Result<(), WriteEnd>) -> &'static str
    ensures { result.now ≡ write_line written.now }
{
    match written {
        Ok(()) => "",
        Err(WriteEnd::WriteFault) => "rdb: fault of output\n",
        Err(WriteEnd::SinkTakesNothing) => "rdb: output takes nothing\n",
    }
}

impl ServeEnding {
    /// The exit status.
    pub fn status(&self) -> u8
        ensures { result ≡ serve_status self.now }
    {
        match self {
            ServeEnding::Unserved => 7,
            ServeEnding::Served { failed: true, .. } => 4,
            ServeEnding::Served {
                failed: false,
                written,
            } => write_status(written),
        }
    }

    /// The line on the errors, none where the work is done.
    pub fn line(&self) -> &'static str
        ensures { result.now ≡ serve_line self.now }
    {
        match self {
            ServeEnding::Unserved => "rdb: want of memory\n",
            ServeEnding::Served { failed: true, .. } => "rdb: fault of door\n",
            ServeEnding::Served {
                failed: false,
                written,
            } => write_line(written),
        }
    }
}

/// The line that tells how many connections were served, and how many calls on them.
pub fn served_line(sum: &Tally) -> Line
    ensures { result.items ≡ served_text sum.now }
{
    let mut line = Line::new();
    put_number(&mut line, "connections ", sum.connections);
    put_number(&mut line, ", calls ", sum.calls);
    put(&mut line, "\n");
    line
}
