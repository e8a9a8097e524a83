//! What dialers give and take back.
use crate::{Dialer, MemoryDialer, StreamLink, TcpDialer};
use outside::{Link, MemoryLink};
use std::alloc::{AllocError, Global};
use std::io;
use std::net::{OpenListener, TcpListener};
use std::process::Abort;
use std::test::Fail;

fn link_of(alloc: Global, bytes: &[u8]) -> Result<MemoryLink, AllocError> {
    let mut pieces = Vec::new(alloc);
    pieces.push(bytes.to_vec(alloc)?)?;
    MemoryLink::new(alloc, pieces, Vec::new(alloc))
}

fn check_byte<L: Link>(rt: &impl Abort, link: &mut L, byte: u8) {
    let mut room = [0u8; 4];
    assert_eq!(rt; link.read(&mut room).ok(), Some(1));
    assert_eq!(rt; room[0], byte);
}

/// A dialer whose link is dialled, read once and given back.
fn check_dialled<X: Dialer>(rt: &impl Abort, dialer: &mut X, byte: Option<u8>) {
    match (dialer.connect(), byte) {
        (Ok(mut link), Some(byte)) => {
            check_byte(rt, &mut link, byte);
            dialer.give_back(link);
        }
        (Ok(link), None) => {
            dialer.give_back(link);
            assert!(rt; false, "a call that is to fail gave a link");
        }
        (Err(_), expected) => assert!(rt; expected.is_none()),
    }
}

#[test]
fn links_in_memory_come_in_order(rt: HostRuntime) -> Result<(), Fail> {
    let mut links = Vec::new(rt.alloc());
    for byte in [b"a", b"b"] {
        links.push(link_of(rt.alloc(), byte)?)?;
    }
    let mut dialer = MemoryDialer::new(rt.alloc(), links, vec![in rt.alloc(); 2]?)?;
    for expected in [Some(b'a'), None, Some(b'b'), None] {
        check_dialled(&rt, &mut dialer, expected);
    }
    assert_eq!(rt;
        (dialer.returned().len(), dialer.out(), dialer.faults()),
        (2, 0, 2)
    );
    Ok(())
}

/// A stream that gives one byte, then fails, then ends; and takes two bytes, then fails, then
/// takes nothing.
#[derive(Drop)]
struct Scripted {
    reads: u8,
    writes: u8,
}

impl io::Read for Scripted {
    fn read(&mut self, room: &mut [u8]) -> io::Result<usize> {
        self.reads = self.reads.saturating_add(1);
        match (self.reads, room.is_empty()) {
            (1, false) => {
                room[0] = b'r';
                Ok(1)
            }
            (2, _) => Err(io::Error::from(io::ErrorKind::ConnectionReset)),
            _ => Ok(0),
        }
    }
}

impl io::Write for Scripted {
    fn write(&mut self, piece: &[u8]) -> io::Result<usize> {
        self.writes = self.writes.saturating_add(1);
        match self.writes {
            1 => Ok(piece.len().min(2)),
            2 => Err(io::Error::from(io::ErrorKind::BrokenPipe)),
            _ => Ok(0),
        }
    }

    fn flush(&mut self) -> io::Result<()> {
        Ok(())
    }
}

#[test]
fn links_over_streams_count_what_fails(rt: HostRuntime) {
    let mut link = StreamLink::new(Scripted {
        reads: 0,
        writes: 0,
    });
    check_byte(&rt, &mut link, b'r');
    assert!(rt; link.read(&mut [0u8; 1]).is_err());
    assert_eq!(rt; link.read(&mut [0u8; 1]).ok(), Some(0));
    assert_eq!(rt; link.write(b"abc").ok(), Some(2));
    assert!(rt; link.write(b"c").is_err());
    assert_eq!(rt; link.write(b"c").ok(), Some(0));
    assert_eq!(rt; (link.read_faults(), link.ends()), (1, 1));
    assert_eq!(rt; (link.write_faults(), link.stalls()), (1, 1));
}

#[test]
fn connections_are_opened_over_the_loopback(rt: HostRuntime) -> Result<(), Fail> {
    let listener = TcpListener::bind(&rt, "127.0.0.1:0")?;
    let address = listener.local_addr()?;
    let mut dialer = TcpDialer::new(&rt, address);
    let opened = dialer.connect();
    assert!(rt; opened.is_ok());
    if let Ok(mut link) = opened {
        let (peer, _) = listener.accept()?;
        let mut peer = StreamLink::new(peer);
        assert_eq!(rt; link.write(b"x").ok(), Some(1));
        check_byte(&rt, &mut peer, b'x');
        assert_eq!(rt; peer.write(b"y").ok(), Some(1));
        check_byte(&rt, &mut link, b'y');
        dialer.give_back(link);
    }
    drop(listener);
    assert!(rt; dialer.connect().is_err());
    assert_eq!(rt; dialer.faults(), 1);
    Ok(())
}
