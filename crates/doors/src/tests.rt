//! What doors give and take back.
use crate::{Door, Limits, MemoryDoor, PatientListener, PatientStream, TcpDoor};
use outside::{Link, MemoryLink};
use std::alloc::{AllocError, Global};
use std::cell::Cell;
use std::io;
use std::io::{ErrorKind, Read, Write};
use std::net::{OpenListener, OpenStream, Shutdown, SocketAddr, TcpListener, TcpStream};
use std::process::Abort;
use std::test::Fail;
use std::time::{Clock, Duration};

fn link_of(alloc: Global, bytes: &[u8]) -> Result<MemoryLink, AllocError> {
    let mut pieces = Vec::new(alloc);
    pieces.push(bytes.to_vec(alloc)?)?;
    MemoryLink::new(alloc, pieces, Vec::new(alloc))
}

/// What a call on a door is to give.
#[derive(Clone, Copy, PartialEq, Eq, Debug)]
enum Expected {
    Byte(u8),
    End,
    Fault,
}

/// The byte that a link gives in one read.
fn byte_of<L: Link>(link: &mut L) -> Option<u8> {
    let mut room = [0u8; 1];
    match link.read(&mut room) {
        Ok(1) => Some(room[0]),
        _ => None,
    }
}

/// A door whose link is accepted, read once and given back.
fn check_accepted<X: Door>(rt: &impl Abort, door: &mut X, expected: Expected) {
    let found = match door.accept() {
        Ok(Some(mut link)) => {
            let byte = byte_of(&mut link);
            door.give_back(link);
            byte.map_or(Expected::Fault, Expected::Byte)
        }
        Ok(None) => Expected::End,
        Err(_) => Expected::Fault,
    };
    assert_eq!(rt; found, expected);
}

#[test]
fn links_in_memory_come_in_order(rt: HostRuntime) -> Result<(), Fail> {
    let mut links = Vec::new(rt.alloc());
    for byte in [b"a", b"b"] {
        links.push(link_of(rt.alloc(), byte)?)?;
    }
    let mut door = MemoryDoor::new(rt.alloc(), links, vec![in rt.alloc(); 2, 5]?)?;
    for expected in [
        Expected::Byte(b'a'),
        Expected::Fault,
        Expected::Byte(b'b'),
        Expected::End,
        Expected::Fault,
        Expected::End,
    ] {
        check_accepted(&rt, &mut door, expected);
    }
    assert_eq!(rt;
        (door.returned().len(), door.out(), door.faults()),
        (2, 0, 2)
    );
    Ok(())
}

/// A stream that gives one byte over and over.
#[derive(Drop)]
struct OneByte(u8);

impl Read for OneByte {
    fn read(&mut self, room: &mut [u8]) -> io::Result<usize> {
        if room.is_empty() {
            return Ok(0);
        }
        room[0] = self.0;
        Ok(1)
    }
}

impl Write for OneByte {
    fn write(&mut self, piece: &[u8]) -> io::Result<usize> {
        Ok(piece.len())
    }

    fn flush(&mut self) -> io::Result<()> {
        Ok(())
    }
}

/// A stream whose byte is 0 can't be made ready: its peer is gone.
impl OpenStream for OneByte {
    fn set_nodelay(&self, nodelay: bool) -> io::Result<()> {
        if nodelay && self.0 != 0 {
            Ok(())
        } else {
            Err(io::Error::from(ErrorKind::InvalidInput))
        }
    }

    fn set_read_timeout(&self, _most: Option<Duration>) -> io::Result<()> {
        Ok(())
    }

    fn set_write_timeout(&self, _most: Option<Duration>) -> io::Result<()> {
        Ok(())
    }
}

/// A listener that gives what each call is to give, then fails for ever.
#[derive(Drop)]
struct Scripted {
    calls: Cell<usize>,
}

// Errors by the system's numbers.
const NO_MORE_FILES: i32 = 24;

const INTERRUPTED: i32 = 4;

const PROTOCOL: i32 = 71;

const ABORTED: i32 = 103;

const RESET: i32 = 104;

const NO_ROUTE: i32 = 113;

const SCRIPT: [Result<u8, i32>; 10] = [
    Err(ABORTED),
    Ok(b'a'),
    Err(NO_MORE_FILES),
    Err(INTERRUPTED),
    Err(PROTOCOL),
    Ok(0),
    Err(RESET),
    Err(NO_ROUTE),
    Ok(b'b'),
    Ok(b'c'),
];

impl OpenListener for Scripted {
    type Stream = OneByte;

    fn accept(&self) -> io::Result<(OneByte, SocketAddr)> {
        let call = self.calls.get();
        self.calls.set(call.saturating_add(1));
        let address = SocketAddr::from(([127, 0, 0, 1], 1));
        match SCRIPT.get(call) {
            Some(Ok(byte)) => Ok((OneByte(*byte), address)),
            Some(Err(number)) => Err(io::Error::from_raw_os_error(*number)),
            None => Err(io::Error::from_raw_os_error(NO_MORE_FILES)),
        }
    }
}

#[test]
fn connections_whose_peers_are_gone_end_no_door(rt: HostRuntime) {
    let listener = Scripted {
        calls: Cell::new(0),
    };
    let mut door = TcpDoor::new(&listener, None);
    let mut other = TcpDoor::new(&listener, Some(1));
    check_accepted(&rt, &mut door, Expected::Byte(b'a'));
    check_accepted(&rt, &mut door, Expected::Fault);
    check_accepted(&rt, &mut door, Expected::Byte(b'b'));
    check_accepted(&rt, &mut other, Expected::Byte(b'c'));
    check_accepted(&rt, &mut other, Expected::End);
    check_accepted(&rt, &mut door, Expected::Fault);
    assert_eq!(rt; (door.faults(), other.faults()), (2, 0));
}

#[test]
fn connections_come_in_over_the_loopback(rt: HostRuntime) -> Result<(), Fail> {
    let listener = TcpListener::bind(&rt, "127.0.0.1:0")?;
    let mut door = TcpDoor::new(&listener, Some(1));
    let mut peer = TcpStream::connect(&rt, listener.local_addr()?)?;
    peer.write_all(b"x")?;
    let accepted = door.accept();
    assert!(rt; accepted.is_ok());
    if let Ok(Some(mut link)) = accepted {
        assert_eq!(rt; byte_of(&mut link), Some(b'x'));
        assert_eq!(rt; link.write(b"y").ok(), Some(1));
        door.give_back(link);
    }
    let mut all = [0u8; 2];
    assert_eq!(rt; peer.read(&mut all)?, 1);
    assert_eq!(rt; all[0], b'y');
    assert_eq!(rt; peer.read(&mut all)?, 0, "the link was closed");
    check_accepted(&rt, &mut door, Expected::End);
    assert_eq!(rt; door.faults(), 0);
    Ok(())
}

/// A clock that stands still but for the seconds that a stream takes.
#[derive(Clone, Copy)]
struct Seconds<'a> {
    passed: &'a Cell<u64>,
}

impl<'a> Seconds<'a> {
    fn pass(&self, seconds: u64) {
        self.passed.set(self.passed.get().saturating_add(seconds));
    }
}

impl<'a> Clock for Seconds<'a> {
    fn monotonic(&self) -> io::Result<Duration> {
        Ok(Duration::from_secs(self.passed.get()))
    }

    fn since_1970(&self) -> io::Result<Duration> {
        self.monotonic()
    }
}

/// A stream that gives and takes one byte in 25 seconds, and is never told to wait for more than
/// is left of a minute.
#[derive(Drop)]
struct Slow<'a> {
    seconds: Seconds<'a>,
}

impl<'a> Read for Slow<'a> {
    fn read(&mut self, room: &mut [u8]) -> io::Result<usize> {
        self.seconds.pass(25);
        Ok(room.len().min(1))
    }
}

impl<'a> Write for Slow<'a> {
    fn write(&mut self, piece: &[u8]) -> io::Result<usize> {
        self.seconds.pass(25);
        Ok(piece.len().min(1))
    }

    fn flush(&mut self) -> io::Result<()> {
        Ok(())
    }
}

impl<'a> OpenStream for Slow<'a> {
    fn shutdown(&self, _how: Shutdown) -> io::Result<()> {
        Ok(())
    }

    fn set_read_timeout(&self, _most: Option<Duration>) -> io::Result<()> {
        Ok(())
    }

    fn set_write_timeout(&self, _most: Option<Duration>) -> io::Result<()> {
        Ok(())
    }
}

#[test]
fn a_slow_peer_gets_no_further_time(rt: HostRuntime) {
    let passed = Cell::new(0u64);
    let seconds = Seconds { passed: &passed };
    let limits = Limits {
        turn: Duration::from_secs(60),
        farewell: Duration::from_secs(30),
    };
    let mut stream = PatientStream::new(seconds, Slow { seconds }, limits);
    let mut room = [0u8; 4];
    for works in [true, true, true, false] {
        assert_eq!(rt; stream.read(&mut room).is_ok(), works);
    }
    for works in [true, true, true, false] {
        assert_eq!(rt; stream.write(b"abc").is_ok(), works);
    }
    assert!(rt; stream.read(&mut room).is_ok());
    assert!(rt; stream.shutdown(Shutdown::Write).is_ok());
    for works in [true, false] {
        assert_eq!(rt; stream.read(&mut room).is_ok(), works);
    }
    assert_eq!(rt; passed.get(), 200);
}

/// A stream that gives and takes a byte at once, and counts how often it is told how long to wait.
#[derive(Drop)]
struct Prompt<'a> {
    told: &'a Cell<(u64, u64)>,
}

impl<'a> Read for Prompt<'a> {
    fn read(&mut self, room: &mut [u8]) -> io::Result<usize> {
        Ok(room.len().min(1))
    }
}

impl<'a> Write for Prompt<'a> {
    fn write(&mut self, piece: &[u8]) -> io::Result<usize> {
        Ok(piece.len().min(1))
    }

    fn flush(&mut self) -> io::Result<()> {
        Ok(())
    }
}

impl<'a> OpenStream for Prompt<'a> {
    fn set_read_timeout(&self, _most: Option<Duration>) -> io::Result<()> {
        let (reads, writes) = self.told.get();
        self.told.set((reads.saturating_add(1), writes));
        Ok(())
    }

    fn set_write_timeout(&self, _most: Option<Duration>) -> io::Result<()> {
        let (reads, writes) = self.told.get();
        self.told.set((reads, writes.saturating_add(1)));
        Ok(())
    }
}

#[test]
fn a_stream_is_told_anew_only_where_its_time_changes(rt: HostRuntime) {
    let passed = Cell::new(0u64);
    let told = Cell::new((0, 0));
    let seconds = Seconds { passed: &passed };
    let prompt = Prompt { told: &told };
    let mut stream = PatientStream::new(seconds, prompt, Limits::standard());
    let mut room = [0u8; 4];
    for _ in 0..3 {
        assert!(rt; stream.read(&mut room).is_ok() && stream.write(b"abc").is_ok());
    }
    assert_eq!(rt; told.get(), (1, 1));
    assert!(rt;
        stream
            .set_read_timeout(Some(Duration::from_secs(1)))
            .is_ok()
    );
    assert!(rt; stream.read(&mut room).is_ok() && stream.write(b"abc").is_ok());
    assert_eq!(rt; told.get(), (3, 1));
}

#[test]
fn a_peer_that_still_sends_gets_the_last_reply(rt: HostRuntime) -> Result<(), Fail> {
    let limits = Limits {
        turn: Duration::from_millis(200),
        farewell: Duration::from_millis(200),
    };
    let listener = PatientListener::new(rt, TcpListener::bind(&rt, "127.0.0.1:0")?, limits);
    let mut door = TcpDoor::new(&listener, Some(1));
    let mut peer = TcpStream::connect(&rt, listener.local_addr()?)?;
    peer.write_all(b"x")?;
    let accepted = door.accept();
    assert!(rt; accepted.is_ok());
    if let Ok(Some(mut link)) = accepted {
        assert_eq!(rt; byte_of(&mut link), Some(b'x'));
        assert_eq!(rt; byte_of(&mut link), None, "the peer is silent");
        assert_eq!(rt; link.read_faults(), 1);
        assert_eq!(rt; link.write(b"y").ok(), Some(1));
        peer.write_all(&[0u8; 4096])?;
        door.give_back(link);
    }
    let mut all = [0u8; 2];
    assert_eq!(rt; peer.read(&mut all)?, 1);
    assert_eq!(rt; all[0], b'y');
    assert_eq!(rt; peer.read(&mut all)?, 0, "the link was closed");
    assert!(rt; peer.write(b"z").is_ok(), "the link was not reset");
    Ok(())
}
