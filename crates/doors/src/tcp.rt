//! A door over a listener, which several doors may share.
ghost use Rattle.std.specs.Prelude.{◌≡◌, ◌↔◌, ◌-◌, IsTrue, MatchResult};
ghost use Rattle.std.specs.Option.{option_map};
ghost use Rattle.fault_counts.specs.Causes.{counted};
ghost use Rattle.dialers.specs.Dials.{Accepts, with_returned};
ghost use Rattle.dialers.specs.Streams.{untold};
ghost use Rattle.doors.specs.Listeners.{CountsDown};

use crate::Door;
use crate::parting::part;
use dialers::StreamLink;
use fault_counts::Count;
use outside::Failed;
use std::io;
use std::io::{ErrorKind, Read, Write};
use std::marker::Model;
use std::net::{OpenListener, OpenStream};
use std::time::Duration;

/// How many seconds a read may take to give and a write to take.
const MOST_SECONDS: u64 = 60;

/// How many connections in a row may be gone before they are served, in one call.
const MOST_GONE: u32 = 65_536;

/// Gives the connections of a listener. It tells nothing of them.
#[derive(Drop)]
pub struct TcpDoor<'a, N: OpenListener>
where
    N::Stream: Read + Write + OpenStream,
{
    listener: &'a N,
    left: Option<u64>,
    faults: Count,
}

impl<'a, N: OpenListener> Model for TcpDoor<'a, N>
where
    N::Stream: Read + Write + OpenStream,
{
    ghost use Rattle.doors.specs.Listeners.{ListenerState};

    ghost Value = { ListenerState };

    ghost view = { λ d. record { left = d.left; faults = d.faults } };
}

/// A connection that sends at once, and whose reads and writes end after a minute.
fn made_ready<S: OpenStream + Drop>(stream: S) -> io::Result<S> {
    let most = Duration::from_secs(MOST_SECONDS);
    stream.set_nodelay(true)?;
    stream.set_read_timeout(Some(most))?;
    stream.set_write_timeout(Some(most))?;
    Ok(stream)
}

/// The system's number for an error of the protocol, which has no kind of its own.
const PROTOCOL_ERROR: i32 = 71;

/// Whether an accept that failed so failed because its peer is gone or isn't reached any more, or
/// was only interrupted: the listener can give the next connection.
fn is_passing(error: &io::Error) -> bool {
    let is_of_peer = matches!(
        error.kind(),
        ErrorKind::ConnectionAborted
            | ErrorKind::ConnectionReset
            | ErrorKind::HostUnreachable
            | ErrorKind::NetworkUnreachable
            | ErrorKind::Interrupted
    );
    is_of_peer || error.raw_os_error() == Some(PROTOCOL_ERROR)
}

/// The next connection, or None where its peer is gone. `Err` where the listener failed.
fn take_one<N: OpenListener>(listener: &N) -> io::Result<Option<N::Stream>>
where
    N::Stream: Read + Write + OpenStream,
{
    match listener.accept() {
        Ok((stream, _)) => Ok(made_ready(stream).ok()),
        Err(error) => {
            if is_passing(&error) {
                Ok(None)
            } else {
                Err(error)
            }
        }
    }
}

/// The next connection whose peer isn't gone. None where the listener failed, or where too many in
/// a row were gone.
fn next_stream<N: OpenListener>(listener: &N) -> Option<N::Stream>
where
    N::Stream: Read + Write + OpenStream,
{
    for _ in 0..MOST_GONE {
        if let Some(stream) = take_one(listener).ok()? {
            return Some(stream);
        }
    }
    None
}

/// Whether all that were to be given were given.
fn has_ended(left: Option<u64>) -> bool
    ensures { IsTrue result ↔ (left ≡ Some 0) }
{
    left == Some(0)
}

/// One fewer, where they are counted.
fn one_fewer(left: Option<u64>) -> Option<u64>
    ensures { result ≡ option_map (λ n. n - 1) left }
{
    match left {
        Some(count) => Some(count.saturating_sub(1)),
        None => None,
    }
}

impl<'a, N: OpenListener> TcpDoor<'a, N>
where
    N::Stream: Read + Write + OpenStream,
{
    /// A door that gives so many connections of this listener, or without a number ever more.
    pub fn new(listener: &'a N, connections: Option<u64>) -> TcpDoor<'a, N>
        ensures { result ≡ record { left = connections; faults = 0 } }
    {
        TcpDoor {
            listener,
            left: connections,
            faults: Count::new(),
        }
    }

    /// How many calls failed.
    pub fn faults(&self) -> u64
        ensures { result ≡ self.now.faults }
    {
        self.faults.value()
    }
}

impl<'a, N: OpenListener> Door for TcpDoor<'a, N>
where
    N::Stream: Read + Write + OpenStream,
{
    ghost use Rattle.dialers.specs.Streams.{untold};

    type L = StreamLink<N::Stream>;

    ghost tells = { λ d. untold d.faults };

    /// Gives the next connection, which sends at once, until it has given as many as it was to. One
    /// whose peer is gone is passed over. Fails where the listener does.
    fn accept(&mut self) -> Result<Option<StreamLink<N::Stream>>, Failed>
        ensures accepts { Accepts (untold self.old.faults) result (untold self.new.faults) }
        ensures left { CountsDown self.old.left result self.new.left }
        ensures faults { MatchResult result (λ _. self.new.faults ≡ self.old.faults)
            (λ _. self.new.faults ≡ counted self.old.faults) }
    {
        if has_ended(self.left) {
            return Ok(None);
        }
        match next_stream(self.listener) {
            Some(stream) => {
                self.left = one_fewer(self.left);
                Ok(Some(StreamLink::new(stream)))
            }
            None => {
                self.faults.raise();
                Err(Failed)
            }
        }
    }

    /// Tells the peer that nothing more comes, drops what it still sends, up to a bound, and closes
    /// the connection.
    fn give_back(&mut self, link: StreamLink<N::Stream>)
        ensures tells { untold self.new.faults ≡ with_returned (untold self.old.faults) link }
        ensures left { self.new.left ≡ self.old.left }
    {
        part(link.into_stream());
    }
}
