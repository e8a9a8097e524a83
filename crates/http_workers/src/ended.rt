//! How a connection ended.
ghost use Rattle.std.specs.Prelude.{◌≡◌};
ghost use Rattle.http_workers.specs.Causes.{cause_of};

use http_wire::WireFault;
use outside::WriteEnd;

/// How many messages the teller was asked on a connection, and why it ended.
#[derive(Clone, Copy, Debug, PartialEq, Eq)]
pub struct Ended {
    pub calls: u64,
    pub cause: Cause,
}

/// Why a connection ended.
#[derive(Clone, Copy, Debug, PartialEq, Eq)]
pub enum Cause {
    /// The input was read to its end, and each message was answered.
    End,
    /// The reply that closes the connection went out.
    Closed,
    /// The input isn't messages to its end: it has one of the faults 1 to 8.
    Wire(WireFault),
    /// A read failed.
    ReadFault,
    /// A write failed.
    WriteFault,
    /// The output took nothing.
    SinkTakesNothing,
    /// Memory was wanting to read a message, or to begin with.
    Memory,
}

impl From<WriteEnd> for Cause {
    ghost use Rattle.std.specs.Prelude.{◌≡◌};
    ghost use Rattle.http_workers.specs.Causes.{cause_of};

    ghost from_gives = { λ end cause. cause ≡ cause_of end };

    fn from(end: WriteEnd) -> Cause
        ensures { result ≡ cause_of end }
    {
        match end {
            WriteEnd::WriteFault => Cause::WriteFault,
            WriteEnd::SinkTakesNothing => Cause::SinkTakesNothing,
        }
    }
}
