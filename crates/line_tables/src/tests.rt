//! Runs over a table in memory.
use crate::*;
use outside::{MemorySink, MemorySource};
use std::alloc::{AllocError, Global};
use std::test::Fail;

/// Says of a line how long it is.
struct Lengths;

impl Teller for Lengths {
    fn tell(&self, alloc: Global, line: &str) -> Result<Vec<u8>, AllocError> {
        let count = line.len();
        Ok(format!(in alloc; "{count}\n")?.into_bytes())
    }
}

/// A table, the read and the write that fail, and how the run ends and what it writes.
type Row = (&'static [u8], u64, u64, Result<(), TableEnd>, &'static [u8]);

/// A table has fewer bytes than that.
const BOUND: usize = 8;

const ROWS: [Row; 9] = [
    (b"", 0, 0, Ok(()), b""),
    (b"ab\nc", 0, 0, Ok(()), b"ab\n2\nc\n1\n"),
    (b"#a\n\n \n", 0, 0, Ok(()), b"#a\n\n \n1\n"),
    (b"abcdefg", 0, 0, Ok(()), b"abcdefg\n7\n"),
    (b"abcdefgh", 0, 0, Err(TableEnd::NoText), b""),
    (b"a\xff", 0, 0, Err(TableEnd::NoText), b""),
    (b"a", 1, 0, Err(TableEnd::Unread), b""),
    (b"a", 2, 0, Err(TableEnd::Unread), b""),
    (b"a", 0, 1, Err(TableEnd::Unwritten), b""),
];

/// How a run ends, and what it writes.
fn run(alloc: Global, row: &Row) -> Result<(Result<(), TableEnd>, MemorySink), AllocError> {
    let mut input = MemorySource::new(alloc, row.0.to_vec(alloc)?, vec![in alloc; row.1]?)?;
    let mut output = MemorySink::new(alloc, vec![in alloc; row.2]?)?;
    let end = run_table(alloc, &mut input, &mut output, BOUND, &Lengths);
    Ok((end, output))
}

#[test]
fn tables_are_told(rt: HostRuntime) -> Result<(), Fail> {
    for row in &ROWS {
        let (end, output) = run(rt.alloc(), row)?;
        assert_eq!(rt; end, row.3);
        assert_eq!(rt; output.written(), row.4);
    }
    let ends = [
        TableEnd::Memory,
        TableEnd::Unread,
        TableEnd::NoText,
        TableEnd::Unwritten,
    ];
    assert_eq!(rt; ends.map(|end| end.status()), [1, 2, 3, 4]);
    Ok(())
}
