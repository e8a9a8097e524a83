//! Where the service listens.
ghost use Rattle.std.specs.Prelude.{◌≤◌, IfOk, vec_len};

use doors::TcpDoor;
use std::alloc::{AllocError, Global};
use std::io;
use std::io::{ErrorKind, Read, Write};
use std::net::{Net, OpenListener, OpenStream, SocketAddr, TcpListener};

/// The most doors that are made.
const MOST_DOORS: u32 = 64;

/// A listener at an address, or none, of which each call for a connection fails.
#[derive(Drop)]
pub(crate) struct Listening<N: OpenListener + Drop> {
    listener: Option<N>,
}

impl<N: OpenListener + Drop> Listening<N> {
    /// A listener at an address; none where it can't be had, or where the address is empty.
    pub(crate) fn at<R: Net<Listener = N>>(rt: &R, address: &str) -> Listening<N> {
        if address.is_empty() {
            return Listening { listener: None };
        }
        Listening {
            listener: TcpListener::bind(rt, address).ok(),
        }
    }
}

impl<N: OpenListener + Drop> OpenListener for Listening<N> {
    type Stream = N::Stream;

    fn accept(&self) -> io::Result<(N::Stream, SocketAddr)> {
        match &self.listener {
            Some(listener) => listener.accept(),
            None => Err(io::Error::from(ErrorKind::AddrNotAvailable)),
        }
    }
}

/// So many doors over one listener, each of which ends after so many connections of its own, or
/// without a number doesn't.
pub(crate) fn doors_over<'a, N: OpenListener>(
    alloc: Global,
    listener: &'a N,
    count: u32,
    connections: Option<u64>,
) -> Result<Vec<TcpDoor<'a, N>>, AllocError>
where
    N::Stream: Read + Write + OpenStream,
    ensures { IfOk result (λ doors. vec_len doors ≤ 64) }
{
    let mut doors = Vec::new(alloc);
    for _ in 0..count.min(MOST_DOORS) {
        doors.push(TcpDoor::new(listener, connections))?;
    }
    Ok(doors)
}
