//! A run over a table: its input is read to its end, and what it comes to is written.
ghost use Rattle.std.specs.Prelude.{◌≡◌, Ok};
ghost use Rattle.line_tables.specs.Runs.{IsTextOf, ReadsText, RunsTable, WritesTold, status_of};

use crate::rows::{Teller, tell_rows};
use outside::{Sink, Source, WriteEnd, put_whole};
use std::alloc::{AllocError, Global};
use whole_reads::{ReadEnd, read_front};

/// Why a table wasn't told to its end.
#[derive(Clone, Copy, Debug, PartialEq, Eq)]
pub enum TableEnd {
    /// There was no memory.
    Memory,
    /// A read of the input failed.
    Unread,
    /// The input is too long, or no UTF-8.
    NoText,
    /// A write to the output failed, or took nothing.
    Unwritten,
}

impl TableEnd {
    /// The exit status of a program that ends so.
    pub fn status(self) -> u8
        ensures { result ≡ status_of self }
    {
        match self {
            TableEnd::Memory => 1,
            TableEnd::Unread => 2,
            TableEnd::NoText => 3,
            TableEnd::Unwritten => 4,
        }
    }
}

impl From<AllocError> for TableEnd {
    ghost use Rattle.line_tables.specs.declared.run.TableEnd.TheVariants.{Memory};

    ghost from_gives = { λ _ e. e ≡ Memory };

    fn from(_: AllocError) -> TableEnd
        ensures { result ≡ TableEnd.Memory }
    {
        TableEnd::Memory
    }
}

/// Reads an input to its end, which is a text of fewer than `bound` bytes.
///
/// `Unread` comes where a read failed, `NoText` where there are as many bytes as the bound or they
/// are no UTF-8.
pub fn read_text<S: Source>(alloc: Global, input: &mut S, bound: usize) -> Result<String, TableEnd>
    ensures { ReadsText bound (S.ends input.old) result (S.ends input.new) }
{
    match read_front(alloc, input, bound) {
        Ok(bytes) => text_of(bytes, bound),
        Err(ReadEnd::Failed) => Err(TableEnd::Unread),
        Err(ReadEnd::Memory) => Err(TableEnd::Memory),
    }
}

/// The text of an input that is shorter than the bound.
fn text_of(bytes: Vec<u8>, bound: usize) -> Result<String, TableEnd>
    ensures { IsTextOf bound (Ok bytes) result }
{
    if bytes.len() >= bound {
        return Err(TableEnd::NoText);
    }
    match String::from_utf8(bytes) {
        Ok(text) => Ok(text),
        Err(_) => Err(TableEnd::NoText),
    }
}

/// Writes all of what was told.
pub fn write_told<S: Sink>(output: &mut S, told: &[u8]) -> Result<(), TableEnd>
    ensures { WritesTold (S.ends output.old) told.now result (S.ends output.new) }
{
    match put_whole(output, told) {
        Ok(()) => Ok(()),
        Err(WriteEnd::WriteFault | WriteEnd::SinkTakesNothing) => Err(TableEnd::Unwritten),
    }
}

/// Reads a table of fewer than `bound` bytes from an input, and writes each line, and behind it
/// what it comes to, to an output.
///
/// Nothing is written before the whole table was told.
pub fn run_table<I: Source, O: Sink, T: Teller>(
    alloc: Global,
    input: &mut I,
    output: &mut O,
    bound: usize,
    teller: &T,
) -> Result<(), TableEnd>
    ensures { RunsTable (T.tells teller.now) bound
        (record { input = I.ends input.old; output = O.ends output.old })
        result (record { input = I.ends input.new; output = O.ends output.new }) }
{
    let text = read_text(alloc, input, bound)?;
    let told = tell_rows(alloc, teller, text.as_str())?;
    write_told(output, told.as_slice())
}
