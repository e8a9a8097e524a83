//! The line that tells what a run of the workload came to.
ghost use Rattle.std.specs.Prelude.{◌≡◌, ◌+◌, ◌≤◌, ◌++◌, decimal, length};
ghost use Rattle.workload_runs.specs.Lines.{load_text, named_part, numbers_part, verdicts_part};

use error_lines::{Line, put, put_number};
use itoa::Buffer;
use workload_turns::Tally;

/// What a run of the workload came to.
#[derive(Clone, Copy)]
pub struct Load {
    /// What its requests were drawn by.
    pub number: u64,
    /// How many invocations it has.
    pub count: u32,
    pub tally: Tally,
    /// How many invocations of the journal are final.
    pub finalized: u64,
    /// How many bytes the records of the journal have.
    pub bytes: u64,
}

/// Puts which workload it is.
fn put_named(line: &mut Line, load: &Load)
    requires { length line.old.items + 40 ≤ 320 }
    ensures items { line.new.items ≡ line.old.items ++ named_part load.now }
    ensures len { length line.new.items ≤ length line.old.items + 40 }
{
    put_number(line, "workload ", load.number);
    put(line, " ");
    put(line, Buffer::new().format(load.count));
}

/// Puts how many requests and final invocations there are.
fn put_numbers(line: &mut Line, load: &Load)
    requires { length line.old.items + 63 ≤ 320 }
    ensures items { line.new.items ≡ line.old.items ++ numbers_part load.now }
    ensures len { length line.new.items ≤ length line.old.items + 63 }
{
    put_number(line, ": requests ", load.tally.requests);
    put_number(line, ", finalized ", load.finalized);
}

/// Puts how many verdicts there are of each status.
fn put_verdicts(line: &mut Line, load: &Load)
    requires { length line.old.items + 186 ≤ 320 }
    ensures items { line.new.items ≡ line.old.items ++ verdicts_part load.now }
    ensures len { length line.new.items ≤ length line.old.items + 186 }
{
    put_number(line, ", verdicts ", load.tally.verdicts);
    put_number(line, ", unexpected ", load.tally.unexpected);
    put_number(line, ", skipped ", load.tally.skipped);
    put_number(line, ", flaky ", load.tally.flaky);
    put_number(line, ", exonerated ", load.tally.exonerated);
    put_number(line, ", expected ", load.tally.expected);
}

/// The line that tells what a run of the workload came to.
pub fn load_line(load: &Load) -> Line
    ensures { result.items ≡ load_text load.now }
{
    let mut line = Line::new();
    put_named(&mut line, load);
    put_numbers(&mut line, load);
    put_verdicts(&mut line, load);
    put_number(&mut line, ", bytes ", load.bytes);
    put(&mut line, "\n");
    line
}
