//! What is read from a connection, and why no more is.
ghost use Rattle.std.specs.Prelude.{◌≡◌, ◌<◌};
ghost use Rattle.http_wire.specs.Out.{fault_number, fault_name};
ghost use Rattle.http_wire.specs.Stream.{reply_limit, closes_at};

use call_forms::Asked;
use lists::Bytes;
use std::alloc::{AllocError, AllocFailed};

/// A request as it was framed.
#[derive(Drop)]
pub struct Message {
    pub asked: Asked,
    /// The request target (RFC 9112, section 3.2).
    pub target: Bytes,
    /// Whether the connection ends after the reply.
    pub close: bool,
}

/// The most replies of one connection. The last of them closes it.
const REPLY_LIMIT: usize = 1_048_576;

/// Whether the connection ends after a reply to a message with this close flag, before which there
/// were so many.
pub fn closes(before: usize, close: bool) -> bool
    requires { before < reply_limit }
    ensures { result ≡ closes_at before close }
{
    close || before + 1 == REPLY_LIMIT
}

/// What stands behind the last message of a stream.
#[derive(Clone, Copy, Debug, PartialEq, Eq)]
pub enum End {
    /// Nothing.
    Finished,
    /// Whatever stands there: the last message closes the connection.
    Closed,
    /// A message with a fault.
    Fault(WireFault),
}

/// Why no more messages come from a wire.
///
/// The first eight are faults of the stream, of which the first that is there is answered.
#[derive(Clone, Copy, Debug, PartialEq, Eq)]
pub enum WireFault {
    /// 16,384 bytes came without the end of a head.
    HeadTooLong,
    /// The head has more than 64 header lines.
    TooManyHeaders,
    /// No head of HTTP/1.0 or HTTP/1.1 ends where its text does, behind so many bytes; or its one
    /// Content-Length isn't 1 to 10 digits.
    BadHead { end: usize },
    /// A POST has no Content-Length.
    NoLength,
    /// The head has two Content-Length headers, or more.
    TwoLengths,
    /// The head has a Transfer-Encoding.
    TransferCoded,
    /// The Content-Length is so many bytes, more than 4,194,304.
    BodyTooLong { said: u64 },
    /// The input ended inside a message, of which so many bytes are there.
    CutShort { have: usize },
    /// A read of the link failed.
    ReadFault,
    /// Memory was wanting.
    Memory,
}

impl WireFault {
    /// The fault's number.
    pub fn number(&self) -> u8
        ensures { result ≡ fault_number self.now }
    {
        match self {
            WireFault::HeadTooLong => 1,
            WireFault::TooManyHeaders => 2,
            WireFault::BadHead { .. } => 3,
            WireFault::NoLength => 4,
            WireFault::TwoLengths => 5,
            WireFault::TransferCoded => 6,
            WireFault::BodyTooLong { .. } => 7,
            WireFault::CutShort { .. } => 8,
            WireFault::ReadFault => 9,
            WireFault::Memory => 10,
        }
    }

    /// The fault's name.
    pub fn name(&self) -> &'static str
        ensures { result.now ≡ fault_name self.now }
    {
        match self {
            WireFault::HeadTooLong => "HeadTooLong",
            WireFault::TooManyHeaders => "TooManyHeaders",
            WireFault::BadHead { .. } => "BadHead",
            WireFault::NoLength => "NoLength",
            WireFault::TwoLengths => "TwoLengths",
            WireFault::TransferCoded => "TransferCoded",
            WireFault::BodyTooLong { .. } => "BodyTooLong",
            WireFault::CutShort { .. } => "CutShort",
            WireFault::ReadFault => "ReadFault",
            WireFault::Memory => "Memory",
        }
    }
}

impl From<AllocError> for WireFault {
    ghost use Rattle.http_wire.specs.declared.message.WireFault.TheVariants.{Memory};

    ghost from_gives = { λ _ e. e ≡ Memory };

    fn from(_: AllocError) -> WireFault {
        WireFault::Memory
    }
}

impl<T: Drop> From<AllocFailed<T>> for WireFault {
    ghost use Rattle.http_wire.specs.declared.message.WireFault.TheVariants.{Memory};

    ghost from_gives = { λ _ e. e ≡ Memory };

    fn from(_: AllocFailed<T>) -> WireFault {
        WireFault::Memory
    }
}
