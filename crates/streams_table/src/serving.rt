//! Connections over a teller that is made up.
//!
//! It tells the body back where the method is `echo`, and that no more calls are served where it is
//! another. Printed are how often it was asked, the number of calls and the cause of the end, and
//! behind it all that was written.
use crate::fault::Fault;
use crate::notation::{pieces_of, put_line};
use crate::reading::put_fault;
use call_forms::{Answer, Asked, Standin, Told};
use http_workers::{Cause, serve_connection};
use lists::Bytes;
use outside::MemoryLink;
use std::alloc::{AllocError, Global};
use tellers::Teller;

/// A teller that counts the requests that it is asked.
#[derive(Drop)]
struct Echo {
    asked: u64,
    alloc: Global,
}

impl Teller for Echo {
    ghost use Rattle.std.specs.Prelude.{[]};

    ghost stands = { λ _ _ _. Unit {0} };

    ghost holds = { λ _. [] };

    fn tell(&mut self, asked: &Asked) -> Told {
        self.asked = self.asked.saturating_add(1);
        told_back(self.alloc, asked)
    }
}

/// The answer that tells the body back, or what stands in for it.
fn told_back(alloc: Global, asked: &Asked) -> Told {
    if asked.method.as_slice() != b"echo".as_slice() {
        return Told::Standin(Standin::Spent);
    }
    match Vec::from_slice(alloc, asked.body.as_slice()) {
        Ok(body) => Told::Made(Answer {
            status: 200,
            code: 0,
            token: None,
            body: Bytes::new(body),
        }),
        Err(_) => Told::Standin(Standin::Memory),
    }
}

/// Puts why a connection ended.
fn put_cause(alloc: Global, cause: Cause, out: &mut Vec<u8>) -> Result<(), AllocError> {
    match cause {
        Cause::End => out.extend_from_slice(b"end"),
        Cause::Closed => out.extend_from_slice(b"closed"),
        Cause::Wire(fault) => put_fault(alloc, fault, out),
        Cause::ReadFault => out.extend_from_slice(b"ReadFault"),
        Cause::WriteFault => out.extend_from_slice(b"WriteFault"),
        Cause::SinkTakesNothing => out.extend_from_slice(b"SinkTakesNothing"),
        Cause::Memory => Err(AllocError),
    }
}

/// Tells how a connection ended, and what was written on it.
pub(crate) fn tell_served(
    alloc: Global,
    subject: &str,
    fails: Vec<u64>,
    out: &mut Vec<u8>,
) -> Result<(), Fault> {
    let pieces = pieces_of(alloc, subject)?;
    let mut link = MemoryLink::new(alloc, pieces, fails)?;
    let mut teller = Echo { asked: 0, alloc };
    let ended = serve_connection(alloc, &mut teller, &mut link);
    let (asked, calls) = (teller.asked, ended.calls);
    let front = format!(in alloc; "  asked {asked}, calls {calls}, ")?;
    out.extend_from_slice(front.as_bytes())?;
    put_cause(alloc, ended.cause, out)?;
    out.extend_from_slice(b"\n")?;
    put_line(alloc, "written", link.written(), out)?;
    Ok(())
}
