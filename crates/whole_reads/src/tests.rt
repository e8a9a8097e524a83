//! Reading to the end and to the bound.
use crate::*;
use outside::{MemorySource, Source};
use std::alloc::{AllocError, Global};
use std::test::Fail;

/// A source of so many bytes, which repeat after 251 of them, some of whose reads fail.
fn source_of(alloc: Global, size: usize, fails: &[u64]) -> Result<MemorySource, AllocError> {
    let mut bytes = Vec::new(alloc);
    for i in 0..size {
        bytes.push((i % 251) as u8)?;
    }
    MemorySource::new(alloc, bytes, fails.to_vec(alloc)?)
}

/// A source of `size` bytes that is read up to `most`, where the reads of these numbers fail.
#[derive(Clone, Copy)]
struct Case {
    size: usize,
    most: usize,
    fails: u64,
    /// How many bytes come, or `None` where a read fails.
    read: Option<usize>,
    /// How many are left behind them.
    left: usize,
}

const fn read_case(size: usize, most: usize, fails: u64, read: Option<usize>, left: usize) -> Case {
    Case {
        size,
        most,
        fails,
        read,
        left,
    }
}

#[test]
fn fronts_are_read_to_the_end_or_to_the_bound(rt: HostRuntime) -> Result<(), Fail> {
    let cases = [
        read_case(0, 0, 0, Some(0), 0),
        read_case(0, 10, 0, Some(0), 0),
        read_case(10, 0, 0, Some(0), 10),
        read_case(9, 10, 0, Some(9), 0),
        read_case(10, 10, 0, Some(10), 0),
        read_case(11, 10, 0, Some(10), 1),
        read_case(4096, 4097, 0, Some(4096), 0),
        read_case(4097, 4097, 0, Some(4097), 0),
        read_case(4098, 4097, 0, Some(4097), 1),
        read_case(20000, 1048576, 0, Some(20000), 0),
        read_case(20000, 19999, 0, Some(19999), 1),
        // A failing read at the start, in mid-stream, and where the end would have come.
        read_case(10, 10, 1, None, 10),
        read_case(20000, 1048576, 2, None, 15904),
        read_case(9, 10, 2, None, 0),
    ];
    for row in cases {
        let fails = [row.fails];
        let mut source = source_of(rt.alloc(), row.size, &fails)?;
        let read = read_front(rt.alloc(), &mut source, row.most);
        let (size, most, fails) = (row.size, row.most, row.fails);
        match (read, row.read) {
            (Ok(bytes), Some(count)) => {
                assert_eq!(rt; bytes.len(), count, "{size} up to {most}");
                let whole = bytes
                    .iter()
                    .enumerate()
                    .all(|(i, b)| *b as usize == i % 251);
                assert!(rt; whole, "{size} up to {most}");
                assert_eq!(rt; source.faults(), 0);
            }
            (Err(end), None) => {
                assert_eq!(rt;
                    end,
                    ReadEnd::Failed,
                    "{size} up to {most}, read {fails} fails"
                );
                assert_eq!(rt; source.faults(), 1);
            }
            _ => assert!(rt; false, "{size} up to {most}, read {fails} fails"),
        }
        let rest = read_front(rt.alloc(), &mut source, usize::MAX);
        assert_eq!(rt;
            rest.ok().map(|b| b.len()),
            Some(row.left),
            "{size} up to {most}"
        );
    }
    Ok(())
}
