//! A dialer of TCP connections.
ghost use Rattle.std.specs.Prelude.{◌≡◌, MatchResult};
ghost use Rattle.fault_counts.specs.Causes.{counted};
ghost use Rattle.dialers.specs.Dials.{Connects, with_returned};
ghost use Rattle.dialers.specs.Streams.{untold};

use crate::{Dialer, StreamLink};
use fault_counts::Count;
use outside::Failed;
use std::io;
use std::marker::Model;
use std::net::{Net, OpenStream, SocketAddr, TcpStream};
use std::time::Duration;

/// How many seconds a connection may take to open, a read to give and a write to take.
const MOST_SECONDS: u64 = 60;

/// Opens connections to one address. It tells nothing of them.
#[derive(Drop)]
pub struct TcpDialer<R: Net + Drop> {
    rt: R,
    address: SocketAddr,
    faults: Count,
}

impl<R: Net + Drop> Model for TcpDialer<R> {
    ghost use Rattle.std.specs.Prelude.{ℕ};

    ghost Value = { ℕ };

    ghost view = { λ d. d.faults };
}

impl<R: Net + Drop> TcpDialer<R> {
    /// A dialer to this address and port, as `127.0.0.1:8080` or `[::1]:8080`.
    pub fn new(rt: R, address: SocketAddr) -> TcpDialer<R>
        ensures { result ≡ 0 }
    {
        TcpDialer {
            rt,
            address,
            faults: Count::new(),
        }
    }

    /// How many calls failed.
    pub fn faults(&self) -> u64
        ensures { result ≡ self.now }
    {
        self.faults.value()
    }

    /// An open connection that sends at once, and whose reads and writes end after a minute.
    fn open(&self) -> io::Result<R::Stream> {
        let most = Duration::from_secs(MOST_SECONDS);
        let stream = TcpStream::connect_timeout(&self.rt, &self.address, most)?;
        stream.set_nodelay(true)?;
        stream.set_read_timeout(Some(most))?;
        stream.set_write_timeout(Some(most))?;
        Ok(stream)
    }
}

impl<R: Net + Drop> Dialer for TcpDialer<R> {
    ghost use Rattle.dialers.specs.Streams.{untold};

    type L = StreamLink<R::Stream>;

    ghost dials = { λ d. untold d };

    /// Opens a connection. A call that can't is counted, and no other.
    fn connect(&mut self) -> Result<StreamLink<R::Stream>, Failed>
        ensures dials { Connects (untold self.old) result (untold self.new) }
        ensures faults { MatchResult result (λ _. self.new ≡ self.old)
            (λ _. self.new ≡ counted self.old) }
    {
        match self.open() {
            Ok(stream) => Ok(StreamLink::new(stream)),
            Err(_) => self.faults.failed(),
        }
    }

    /// Closes the connection.
    fn give_back(&mut self, link: StreamLink<R::Stream>)
        ensures { untold self.new ≡ with_returned (untold self.old) link }
    {
        let _ = link;
    }
}
