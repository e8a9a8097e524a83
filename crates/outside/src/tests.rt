//! What the ends give and take, call by call.
ghost use Rattle.std.specs.Prelude.{◌≡◌, ℕ, List, [], ◌++◌, length, take, IfOk};
ghost use Rattle.outside.specs.Whole.{WritesWhole};

use crate::*;
use std::alloc::{AllocError, Global};
use std::process::Abort;
use std::test::Fail;

fn new_source(alloc: Global, bytes: &[u8], fails: &[u64]) -> Result<MemorySource, AllocError> {
    MemorySource::new(alloc, bytes.to_vec(alloc)?, fails.to_vec(alloc)?)
}

fn new_sink(alloc: Global, fails: &[u64]) -> Result<MemorySink, AllocError>
    ensures { IfOk result (λ s. s.calls.fails ≡ fails.now) }
{
    MemorySink::new(alloc, fails.to_vec(alloc)?)
}

fn new_link(alloc: Global, pieces: &[&[u8]], fails: &[u64]) -> Result<MemoryLink, AllocError> {
    let mut copied = Vec::new(alloc);
    for piece in pieces {
        copied.push(piece.to_vec(alloc)?)?;
    }
    MemoryLink::new(alloc, copied, fails.to_vec(alloc)?)
}

/// A call, and the answer that is expected: `None` where the call is to fail.
enum Step<'a> {
    /// A read into room of this size, and the bytes that it gives.
    Read(usize, Option<&'a [u8]>),
    /// A write of this piece, and how many bytes it takes.
    Write(&'a [u8], Option<usize>),
}

fn check_read(
    rt: &impl Abort,
    answer: Result<usize, Failed>,
    room: &[u8],
    expected: Option<&[u8]>,
) {
    match expected {
        None => assert!(rt; answer.is_err()),
        Some(bytes) => {
            assert_eq!(rt; answer.ok(), Some(bytes.len()));
            let end = bytes.len().min(room.len());
            assert_eq!(rt; &room[..end], bytes);
        }
    }
}

fn check_steps<L: Link>(rt: &impl Abort, link: &mut L, steps: &[Step<'_>]) {
    for step in steps {
        match step {
            Step::Read(size, expected) => {
                let mut room = [0u8; 8];
                let size = (*size).min(8);
                let answer = link.read(&mut room[..size]);
                check_read(rt, answer, &room, *expected);
            }
            Step::Write(piece, expected) => {
                let answer = link.write(piece);
                assert_eq!(rt; answer.ok(), *expected);
            }
        }
    }
}

const LINK_PIECES: [&[u8]; 3] = [b"ab", b"", b"cde"];

const LINK_FAILS: [u64; 8] = [3, 5, 5, 7, 7, 10, 11, 11];

const LINK_STEPS: [Step<'static>; 11] = [
    Step::Read(8, Some(b"ab")),
    Step::Read(2, Some(b"cd")),
    Step::Read(8, None),
    Step::Write(b"xy", Some(2)),
    Step::Write(b"z", Some(0)),
    Step::Write(b"z", Some(1)),
    Step::Read(8, None),
    Step::Read(8, Some(b"e")),
    Step::Read(8, Some(b"")),
    Step::Write(b"!", None),
    Step::Write(b"", None),
];

#[test]
fn link_in_memory_keeps_cuts_and_counts(rt: HostRuntime) -> Result<(), Fail> {
    let mut link = new_link(rt.alloc(), &LINK_PIECES, &LINK_FAILS)?;
    check_steps(&rt, &mut link, &LINK_STEPS);
    assert_eq!(rt; link.written(), b"xyz".as_slice());
    assert_eq!(rt;
        (
            link.read_faults(),
            link.write_faults(),
            link.stalls(),
            link.ends()
        ),
        (2, 2, 1, 1)
    );
    Ok(())
}

const PAIR_STEPS: [Step<'static>; 7] = [
    Step::Read(4, Some(b"abcd")),
    Step::Read(4, None),
    Step::Write(b"uv", Some(2)),
    Step::Read(4, Some(b"ef")),
    Step::Write(b"w", None),
    Step::Write(b"w", Some(0)),
    Step::Read(4, Some(b"")),
];

#[test]
fn pair_reads_its_source_and_writes_its_sink(rt: HostRuntime) -> Result<(), Fail> {
    let mut source = new_source(rt.alloc(), b"abcdef", &[2])?;
    let mut sink = new_sink(rt.alloc(), &[2, 3, 3])?;
    check_steps(&rt, &mut PairLink::new(&mut source, &mut sink), &PAIR_STEPS);
    assert_eq!(rt; sink.written(), b"uv".as_slice());
    assert_eq!(rt; (source.faults(), source.ends()), (1, 1));
    assert_eq!(rt; (sink.faults(), sink.stalls()), (1, 1));
    Ok(())
}

/// Whoever writes through a pair learns that the source stays as it was, and which count of the
/// sink rose.
fn write_beside<I: Source, O: Sink>(
    source: &mut I,
    sink: &mut O,
    bytes: &[u8],
) -> Result<(), WriteEnd>
    ensures source { I.ends source.new ≡ I.ends source.old }
    ensures sink { WritesWhole (O.ends sink.old) bytes.now result (O.ends sink.new) }
{
    write_whole(&mut PairLink::new(source, sink), bytes)
}

/// A sink with no call that is to fail takes the whole piece, unless there is no memory for it.
fn take_piece(sink: &mut MemorySink, piece: &[u8]) -> Result<usize, Failed>
    requires { sink.old.calls.fails ≡ [] }
    ensures { IfOk result (λ count. count ≡ length piece.now) }
{
    sink.write(piece)
}

#[test]
fn callers_learn_of_their_ends(rt: HostRuntime) -> Result<(), Fail> {
    let mut source = new_source(rt.alloc(), b"", &[])?;
    let mut sink = new_sink(rt.alloc(), &[])?;
    assert!(rt; take_piece(&mut sink, b"ab").is_ok());
    assert_eq!(rt; write_beside(&mut source, &mut sink, b"cd"), Ok(()));
    assert_eq!(rt; sink.written(), b"abcd".as_slice());
    Ok(())
}

/// A sink that takes one byte a call.
#[derive(Drop)]
struct OneByOne {
    taken: u64,
}

impl Sink for OneByOne {
    ghost use Rattle.std.specs.Prelude.{None};

    ghost ends = { λ _. record { written = None; faults = 0; stalls = 0 } };

    fn write(&mut self, piece: &[u8]) -> Result<usize, Failed> {
        let count = piece.len().min(1);
        self.taken = self.taken.saturating_add(count as u64);
        Ok(count)
    }
}

#[test]
fn whole_writes_to_a_sink_go_on_and_tell_a_fault(rt: HostRuntime) -> Result<(), Fail> {
    let mut one_by_one = OneByOne { taken: 0 };
    assert!(rt; put_whole(&mut one_by_one, b"abc").is_ok());
    assert_eq!(rt; one_by_one.taken, 3);
    let mut sink = new_sink(rt.alloc(), &[2])?;
    assert!(rt; put_whole(&mut sink, b"abc").is_ok());
    assert!(rt; matches!(put_whole(&mut sink, b"d"), Err(WriteEnd::WriteFault)));
    assert_eq!(rt; sink.written(), b"abc".as_slice());
    Ok(())
}

#[test]
fn whole_writes_to_a_link_tell_a_stall(rt: HostRuntime) -> Result<(), Fail> {
    let mut link = new_link(rt.alloc(), &[], &[2, 2])?;
    assert!(rt; write_whole(&mut link, b"abc").is_ok());
    assert!(rt;
        matches!(
            write_whole(&mut link, b"d"),
            Err(WriteEnd::SinkTakesNothing)
        )
    );
    assert_eq!(rt; link.written(), b"abc".as_slice());
    counts_add_up();
    Ok(())
}

#[test]
fn clocks_answer(rt: HostRuntime) -> Result<(), Fail> {
    let mut listed = ListClock::new(rt.alloc(), vec![in rt.alloc(); 5, -7]?)?;
    for moment in [5, -7, -7] {
        assert_eq!(rt; listed.now(), moment);
    }
    let mut stepped = StepClock::new(i64::MAX - 5, 3);
    for before_the_greatest in [5, 2, 0, 0] {
        assert_eq!(rt; stepped.now(), i64::MAX - before_the_greatest);
    }
    let start_of_2020 = 1_577_836_800_000_000;
    assert!(rt; WallClock::new(&rt).now() > start_of_2020);
    Ok(())
}

/// A stream over bytes gives a front of them, and tells so.
fn read_front(bytes: &[u8], room: &mut [u8]) -> Result<usize, Failed>
    ensures { IfOk result (λ count. (rest : List ℕ) × (bytes.now ≡ take count room.new ++ rest)) }
{
    StreamSource::new(bytes).read(room)
}

#[test]
fn streams_give_and_take_the_bytes_of_theirs(rt: HostRuntime) -> Result<(), Fail> {
    let mut room = [0u8; 2];
    assert_eq!(rt; read_front(b"abc", &mut room).ok(), Some(2));
    assert_eq!(rt; room, [b'a', b'b']);
    let mut source = StreamSource::new(b"abc".as_slice());
    for expected in [Some(2), Some(1), Some(0)] {
        assert_eq!(rt; source.read(&mut room).ok(), expected);
    }
    assert_eq!(rt;
        (room, source.faults(), source.ends()),
        ([b'c', b'b'], 0, 1)
    );
    let mut taken = Vec::new(rt.alloc());
    let mut sink = StreamSink::new(&mut taken);
    assert_eq!(rt; sink.write(b"ab").ok(), Some(2));
    assert!(rt; put_whole(&mut sink, b"cd").is_ok());
    assert_eq!(rt; (sink.faults(), sink.stalls()), (0, 0));
    assert_eq!(rt; taken.as_slice(), b"abcd".as_slice());
    Ok(())
}

#[test]
fn an_end_of_two_is_the_one_that_is_there(rt: HostRuntime) -> Result<(), Fail> {
    let left = new_source(rt.alloc(), b"a", &[])?;
    let mut sources = [
        Either::Left(left),
        Either::Right(StreamSource::new(b"b".as_slice())),
    ];
    let mut room = [0u8; 1];
    for (source, byte) in sources.iter_mut().zip([b'a', b'b']) {
        assert_eq!(rt; source.read(&mut room).ok(), Some(1));
        assert_eq!(rt; room, [byte]);
    }
    Ok(())
}

#[test]
fn standard_streams_take_and_give_nothing(rt: HostRuntime) {
    let mut input = StdIn::new(rt.stdin());
    assert!(rt; input.read(&mut []).is_ok());
    assert_eq!(rt; input.faults(), 0);
    for mut stream in [
        Either::Left(StdOut::new(rt.stdout())),
        Either::Right(StdErr::new(rt.stderr())),
    ] {
        assert!(rt; stream.write(b"").is_ok());
    }
    let mut output = StdOut::new(rt.stdout());
    assert!(rt; output.write(b"").is_ok());
    assert_eq!(rt; (output.faults(), output.stalls()), (0, 0));
}

#[test]
fn a_file_is_opened_at_the_first_read(rt: HostRuntime) -> Result<(), Fail> {
    let alloc = rt.alloc();
    let mut room = [0u8; 4];
    let mut missing = FileSource::new(&rt, String::from_str(alloc, "no/such/file")?);
    assert_eq!(rt; missing.faults(), 0);
    assert!(rt; missing.read(&mut room).is_err());
    assert_eq!(rt; missing.faults(), 1);
    std::fs::write(&rt, "source_of_a_test", b"abcde")?;
    let mut file = FileSource::new(&rt, String::from_str(alloc, "source_of_a_test")?);
    assert_eq!(rt; file.read(&mut room).ok(), Some(4));
    assert_eq!(rt; room.as_slice(), b"abcd".as_slice());
    assert_eq!(rt; file.read(&mut room).ok(), Some(1));
    assert_eq!(rt; file.read(&mut room).ok(), Some(0));
    assert_eq!(rt; file.faults(), 0);
    std::fs::remove_file(&rt, "source_of_a_test")?;
    Ok(())
}
