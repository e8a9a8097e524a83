//! Replies that come in pieces.
use crate::{ReplyEnd, ReplyReader};
use outside::MemoryLink;
use std::alloc::{AllocError, Global};
use std::process::Abort;
use std::test::Fail;

/// A link that gives these pieces, and none of whose calls fails but those listed.
fn link_of(alloc: Global, pieces: &[&[u8]], fails: &[u64]) -> Result<MemoryLink, AllocError> {
    let mut copied = Vec::new(alloc);
    for piece in pieces {
        copied.push(piece.to_vec(alloc)?)?;
    }
    MemoryLink::new(alloc, copied, fails.to_vec(alloc)?)
}

/// Reads as many replies from a link as answers are expected, and compares each.
fn check_answers(
    rt: &impl Abort,
    reader: &mut ReplyReader,
    link: &mut MemoryLink,
    expected: &[Result<u16, ReplyEnd>],
) {
    for answer in expected {
        assert_eq!(rt; reader.next(link), *answer);
    }
}

const TWO_IN_PIECES: [&[u8]; 4] = [
    b"HTTP/1.1 200 OK\r\nConte",
    b"nt-Length: 5\r\n\r\nhel",
    b"loHTTP/1.1 409 Conflict\ncontent-length:0\n",
    b"\nHTTP/1.1 200 OK\r\nContent-Length: 1\r\n\r\n",
];

const TWO_ANSWERS: [Result<u16, ReplyEnd>; 3] = [Ok(200), Ok(409), Err(ReplyEnd::Ended)];

#[test]
fn replies_come_in_any_pieces(rt: HostRuntime) -> Result<(), Fail> {
    let mut link = link_of(rt.alloc(), &TWO_IN_PIECES, &[])?;
    let mut reader = ReplyReader::new(rt.alloc())?;
    check_answers(&rt, &mut reader, &mut link, &TWO_ANSWERS);
    Ok(())
}

/// Bytes that begin no reply, each with how many of them show it.
const NO_REPLIES: [(&[u8], usize); 6] = [
    (b"220 mail.example.com ESMTP\r\n", 28),
    (b"HTTP/1.1 200 OK\r\n\r\n", 19),
    (b"HTTP/1.1 200 OK\r\nContent-Length: 4194305\r\n\r\n", 44),
    (b"HTTP/1.1 200 OK\r\nContent-Length: 1x\r\n\r\n", 39),
    (
        b"HTTP/1.1 200 OK\nContent-Length: 1\nContent-Length: 1\n\nx",
        53,
    ),
    (b"HTTP/2 200\r\n", 12),
];

#[test]
fn other_bytes_begin_no_reply(rt: HostRuntime) -> Result<(), Fail> {
    for (bytes, end) in &NO_REPLIES {
        let mut link = link_of(rt.alloc(), &[*bytes], &[])?;
        let mut reader = ReplyReader::new(rt.alloc())?;
        assert_eq!(rt;
            reader.next(&mut link),
            Err(ReplyEnd::BadReply { end: *end })
        );
    }
    Ok(())
}

#[test]
fn a_read_that_fails_is_told(rt: HostRuntime) -> Result<(), Fail> {
    let mut link = link_of(rt.alloc(), &[b"HTTP/1.1 200 OK\r\n"], &[2])?;
    let mut reader = ReplyReader::new(rt.alloc())?;
    assert_eq!(rt; reader.next(&mut link), Err(ReplyEnd::ReadFault));
    Ok(())
}

/// Heads that aren't whole, and go on as no reply's.
const NO_HEADS: [&[u8]; 9] = [
    b"HTTP/9",
    b"HTTP/1.1 20x",
    b"HTTP/1.1 200 O\x00",
    b"HTTP/1.1 200 OK\r\nA name",
    b"HTTP/1.1 200 OK\r\nContent-Length: 1x",
    b"HTTP/1.1 200 OK\r\nContent-Length: 4194305",
    b"HTTP/1.1 200 OK\r\nContent-Length: 12345678901",
    b"HTTP/1.1 200 OK\r\nContent-Length:\r\n",
    b"HTTP/1.1 200 OK\nContent-Length: 1\ncontent-length:",
];

#[test]
fn no_head_is_told_before_its_end(rt: HostRuntime) -> Result<(), Fail> {
    for bytes in &NO_HEADS {
        let mut link = link_of(rt.alloc(), &[*bytes], &[2])?;
        let mut reader = ReplyReader::new(rt.alloc())?;
        let end = bytes.len();
        assert_eq!(rt; reader.next(&mut link), Err(ReplyEnd::BadReply { end }));
    }
    Ok(())
}

/// Heads that aren't whole, and can go on as a reply's.
const HEADS: [&[u8]; 9] = [
    b"\r",
    b"HTTP/1.",
    b"HTTP/1.1 2",
    b"HTTP/1.1 200 Ok, so\r",
    b"HTTP/1.1 200\r\ncontent-len",
    b"HTTP/1.1 200\r\nContent-Length: \t",
    b"HTTP/1.1 200\r\nContent-Length: 4194304 ",
    b"HTTP/1.1 200\r\nContent-Length: 1\r\nContent-Length",
    b"HTTP/1.1 200\r\nContent-Type: a\r",
];

#[test]
fn a_head_goes_on(rt: HostRuntime) -> Result<(), Fail> {
    for bytes in &HEADS {
        let mut link = link_of(rt.alloc(), &[*bytes], &[2])?;
        let mut reader = ReplyReader::new(rt.alloc())?;
        assert_eq!(rt; reader.next(&mut link), Err(ReplyEnd::ReadFault));
    }
    Ok(())
}
