//! Streams whose peers are waited for at most so long.
ghost use Rattle.std.specs.Prelude.{◌≡◌, ◌*◌, ◌≤◌, IsErr};
ghost use Rattle.std.specs.Duration.{as_nanos};
ghost use Rattle.std.specs.Io.{ReadsAtMost, WritesAtMost};
ghost use Rattle.doors.specs.Waits.{ReadsInTime, WritesInTime};

use std::cell::Cell;
use std::io;
use std::io::{ErrorKind, Read, Write};
use std::marker::Model;
use std::net::{OpenListener, OpenStream, Shutdown, SocketAddr};
use std::time::{Clock, Duration, Instant};

/// How long a peer may be waited for.
#[derive(Clone, Copy, Debug, Drop)]
pub struct Limits {
    /// In all reads since the last write, and in all writes since the last read.
    pub turn: Duration,
    /// In all reads since the last write once nothing more is sent.
    pub farewell: Duration,
}

impl Limits {
    /// A minute, and two seconds once nothing more is sent.
    pub fn standard() -> Limits
        ensures turn { as_nanos result.turn ≡ 60 * 1_000_000_000 }
        ensures farewell { as_nanos result.farewell ≡ 2 * 1_000_000_000 }
    {
        Limits {
            turn: Duration::from_secs(60),
            farewell: Duration::from_secs(2),
        }
    }
}

/// A listener whose connections wait for their peers at most so long.
#[derive(Drop)]
pub struct PatientListener<C: Clock + Copy + Drop, N: OpenListener + Drop> {
    clock: C,
    listener: N,
    limits: Limits,
}

impl<C: Clock + Copy + Drop, N: OpenListener + Drop> PatientListener<C, N> {
    pub fn new(clock: C, listener: N, limits: Limits) -> PatientListener<C, N>
        ensures clock { result.clock ≡ clock }
        ensures listener { result.listener ≡ listener }
        ensures limits { result.limits ≡ limits }
    {
        PatientListener {
            clock,
            listener,
            limits,
        }
    }
}

impl<C: Clock + Copy + Drop, N: OpenListener + Drop> OpenListener for PatientListener<C, N>
where
    N::Stream: Read + Write + OpenStream,
{
    type Stream = PatientStream<C, N::Stream>;

    fn accept(&self) -> io::Result<(PatientStream<C, N::Stream>, SocketAddr)> {
        let (stream, address) = self.listener.accept()?;
        let patient = PatientStream::new(self.clock, stream, self.limits);
        Ok((patient, address))
    }

    fn local_addr(&self) -> io::Result<SocketAddr> {
        self.listener.local_addr()
    }
}

/// A stream whose peer is waited for at most so long. A peer that sends or takes a byte now and
/// then gets no further time by that, but only by the end of what it sends, or takes.
///
/// What is done between the calls doesn't count: only what the calls themselves wait.
#[derive(Drop)]
pub struct PatientStream<C: Clock + Drop, S: Read + Write + OpenStream + Drop> {
    clock: C,
    stream: S,
    limits: Limits,
    reads: Duration,
    writes: Duration,
    has_parted: Cell<bool>,
    told: Told,
}

/// How long a stream was last told that its reads, and its writes, may wait. To tell it so again is
/// a call of the system, and most reads and writes may wait as long as the last one.
#[derive(Drop)]
struct Told {
    read: Cell<Option<Duration>>,
    write: Cell<Option<Duration>>,
}

impl<C: Clock + Drop, S: Read + Write + OpenStream + Drop> Model for PatientStream<C, S> {
    ghost use Rattle.std.specs.Duration.{as_nanos};
    ghost use Rattle.doors.specs.Waits.{Waits};

    ghost Value = { Waits };

    ghost view = { λ s. record {
      most = as_nanos s.limits.turn;
      reads = as_nanos s.reads;
      writes = as_nanos s.writes;
    } };
}

/// The time that is left, and when the wait begins. Fails where none is left.
fn begin_wait<C: Clock>(
    clock: &C,
    most: Duration,
    waited: Duration,
) -> io::Result<(Duration, Instant)>
    ensures { as_nanos most ≤ as_nanos waited → IsErr result }
{
    let left = most.saturating_sub(waited);
    if left.is_zero() {
        return Err(io::Error::from(ErrorKind::TimedOut));
    }
    Ok((left, Instant::now(clock)?))
}

/// What was waited, with the time since a moment.
fn end_wait<C: Clock>(clock: &C, waited: Duration, begin: Instant) -> Duration
    ensures { as_nanos waited ≤ as_nanos result }
{
    let passed = begin.elapsed(clock).unwrap_or(Duration::ZERO);
    waited.checked_add(passed).unwrap_or(waited)
}

impl<C: Clock + Drop, S: Read + Write + OpenStream + Drop> PatientStream<C, S> {
    pub fn new(clock: C, stream: S, limits: Limits) -> PatientStream<C, S>
        ensures { result ≡ record { most = as_nanos limits.turn; reads = 0; writes = 0 } }
    {
        PatientStream {
            clock,
            stream,
            limits,
            reads: Duration::ZERO,
            writes: Duration::ZERO,
            has_parted: Cell::new(false),
            told: Told {
                read: Cell::new(None),
                write: Cell::new(None),
            },
        }
    }

    /// How long a read may wait, and when it begins.
    fn begin_read(&self) -> io::Result<(Duration, Instant)>
        ensures { self.now.most ≤ self.now.reads → IsErr result }
    {
        let begun = begin_wait(&self.clock, self.limits.turn, self.reads)?;
        if self.has_parted.get() {
            begin_wait(&self.clock, self.limits.farewell, self.reads)
        } else {
            Ok(begun)
        }
    }
}

impl<C: Clock + Drop, S: Read + Write + OpenStream + Drop> Read for PatientStream<C, S> {
    /// Reads once, unless its time is up.
    fn read(&mut self, room: &mut [u8]) -> io::Result<usize>
        ensures bound { ReadsAtMost result room.new }
        ensures time { ReadsInTime self.old result self.new }
    {
        self.writes = Duration::ZERO;
        let (left, begin) = self.begin_read()?;
        self.set_read_timeout(Some(left))?;
        let given = self.stream.read(room);
        self.reads = end_wait(&self.clock, self.reads, begin);
        given
    }
}

impl<C: Clock + Drop, S: Read + Write + OpenStream + Drop> Write for PatientStream<C, S> {
    /// Writes once, unless its time is up.
    fn write(&mut self, piece: &[u8]) -> io::Result<usize>
        ensures bound { WritesAtMost result piece.now }
        ensures time { WritesInTime self.old result self.new }
    {
        self.reads = Duration::ZERO;
        let (left, begin) = begin_wait(&self.clock, self.limits.turn, self.writes)?;
        self.set_write_timeout(Some(left))?;
        let taken = self.stream.write(piece);
        self.writes = end_wait(&self.clock, self.writes, begin);
        taken
    }

    fn flush(&mut self) -> io::Result<()> {
        self.stream.flush()
    }
}

impl<C: Clock + Drop, S: Read + Write + OpenStream + Drop> OpenStream for PatientStream<C, S> {
    fn shutdown(&self, how: Shutdown) -> io::Result<()> {
        if !matches!(how, Shutdown::Read) {
            self.has_parted.set(true);
        }
        self.stream.shutdown(how)
    }

    fn set_nodelay(&self, nodelay: bool) -> io::Result<()> {
        self.stream.set_nodelay(nodelay)
    }

    /// A read sets this time by itself.
    fn set_read_timeout(&self, most: Option<Duration>) -> io::Result<()> {
        if self.told.read.get() != most {
            self.told.read.set(None);
            self.stream.set_read_timeout(most)?;
            self.told.read.set(most);
        }
        Ok(())
    }

    /// A write sets this time by itself.
    fn set_write_timeout(&self, most: Option<Duration>) -> io::Result<()> {
        if self.told.write.get() != most {
            self.told.write.set(None);
            self.stream.set_write_timeout(most)?;
            self.told.write.set(most);
        }
        Ok(())
    }
}
