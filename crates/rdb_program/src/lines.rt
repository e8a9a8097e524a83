//! Lines that are put together on the stack.
ghost use Rattle.std.specs.Prelude.{◌≡◌, ◌+◌, ◌≤◌, ◌++◌, codes, length};
ghost use Rattle.rdb_program.specs.Causes.{opening_row};
ghost use Rattle.rdb_program.specs.Counted.{counts_text};
ghost use Rattle.rdb_program.specs.Lines.{fault_text};

use error_lines::{Line, put, put_number};
use result_journal::OpenFault;
use serve_runs::Counts;

/// Puts why a journal isn't opened.
fn put_fault(line: &mut Line, fault: OpenFault)
    requires { length line.old.items + 60 ≤ 320 }
    ensures items { line.new.items ≡ line.old.items ++ fault_text fault }
    ensures len { length line.new.items ≤ length line.old.items + 60 }
{
    match fault {
        OpenFault::NotAJournal { at } => {
            put_number(line, "rdb: journal refused: 1 NotAJournal ", at);
        }
        OpenFault::Damaged { at, .. } => {
            put_number(line, "rdb: journal refused: 2 Damaged ", at);
        }
        OpenFault::NewerVersion { found } => {
            put_number(
                line,
                "rdb: journal refused: 3 NewerVersion ",
                u64::from(found),
            );
        }
        OpenFault::DiskFailed => put(line, "rdb: fault of disk"),
        OpenFault::Memory => put(line, "rdb: want of memory"),
    }
}

/// The line that tells why a journal isn't opened.
pub fn opening_line(fault: OpenFault) -> Line
    ensures { result.items ≡ (opening_row fault).line }
{
    let mut line = Line::new();
    put_fault(&mut line, fault);
    put(&mut line, "\n");
    line
}

/// The line that tells how much a journal holds, whose records have so many bytes.
pub fn counts_line(counts: &Counts, bytes: u64) -> Line
    ensures { result.items ≡ counts_text counts.now bytes }
{
    let mut line = Line::new();
    put_number(&mut line, "invocations ", counts.invocations);
    put_number(&mut line, ", finalized ", counts.finalized);
    put_number(&mut line, ", results ", counts.results);
    put_number(&mut line, ", exonerations ", counts.exonerations);
    put_number(&mut line, ", artifacts ", counts.artifacts);
    put_number(&mut line, ", kept ", counts.kept);
    put_number(&mut line, ", bytes ", bytes);
    put(&mut line, "\n");
    line
}
