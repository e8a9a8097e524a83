//! Messages from a link.
ghost use Rattle.std.specs.Prelude.{◌≡◌, ◌≤◌, [], true, false, length, None, Ok, IfOk, is_ok};
ghost use Rattle.outside.specs.Ends.{OnlyReads};
ghost use Rattle.http_wire.specs.Head.{head_limit};
ghost use Rattle.http_wire.specs.Held.{Reading};

use crate::body::take_body;
use crate::buffer::Buffer;
use crate::head_search::find_head;
use crate::message::{Message, WireFault};
use crate::request::read_request;
use crate::said::{message_without_body, with_body};
use http_routes::Routes;
use outside::Link;
use std::alloc::{AllocError, Global};
use std::marker::Model;

/// The reading side of a connection.
///
/// After a fault it answers `None` for ever, and leaves the link alone.
#[derive(Drop)]
pub struct Wire {
    buffer: Buffer,
    routes: Routes,
    is_open: bool,
}

impl Model for Wire {
    ghost use Rattle.std.specs.Prelude.{◌≤◌, length};
    ghost use Rattle.http_wire.specs.Head.{head_limit};
    ghost use Rattle.http_wire.specs.WireState.{WireState};

    ghost Value = { WireState };

    ghost view = { λ w. record { held = w.buffer; is_open = w.is_open } };

    ghost invariant = { λ w. length w.buffer ≤ head_limit };
}

impl Wire {
    /// A wire that holds nothing. Room for a head, and the routes, are made here, once.
    pub fn new(alloc: Global) -> Result<Wire, AllocError>
        ensures held { IfOk result (λ w. w.held ≡ []) }
        ensures is_open { IfOk result (λ w. w.is_open ≡ true) }
    {
        let buffer = Buffer::new(alloc)?;
        let routes = Routes::new(alloc)?;
        Ok(Wire {
            buffer,
            routes,
            is_open: true,
        })
    }

    /// The next message, or `None` where the input ended behind the last one.
    ///
    /// It reads where what it holds decides nothing yet, and never more than a message has; it
    /// holds a head at most. A fault of the stream is the first that is there, as `WireFault` says
    /// them; `ReadFault` comes where a read failed, and `Memory` where memory was wanting. Each of
    /// them closes the wire.
    pub fn next<L: Link>(
        &mut self,
        alloc: Global,
        link: &mut L,
    ) -> Result<Option<Message>, WireFault>
        // A closed wire stays as it is, and touches no link.
        ensures closed { self.old.is_open ≡ false → (result ≡ Ok None) × (self.new ≡ self.old)
            × (link.new ≡ link.old) }
        ensures reading { self.old.is_open ≡ true
            → Reading self.old (L.ends link.old).incoming result
            (L.ends link.new).incoming self.new }
        ensures only { OnlyReads (L.ends link.old) (L.ends link.new) }
        ensures holds { L.holds link.new ≡ L.holds link.old }
        ensures bounded { length self.new.held ≤ head_limit }
    {
        if !self.is_open {
            return Ok(None);
        }
        let answer = next_message(alloc, &mut self.buffer, &self.routes, link);
        self.is_open = answer.is_ok();
        answer
    }
}

/// The message in front of what a link gives, or `None` where nothing is left.
fn next_message<L: Link>(
    alloc: Global,
    buffer: &mut Buffer,
    routes: &Routes,
    link: &mut L,
) -> Result<Option<Message>, WireFault>
    ensures reading { Reading record { held = buffer.old; is_open = true }
        (L.ends link.old).incoming
        result (L.ends link.new).incoming record { held = buffer.new; is_open = is_ok result } }
    ensures only { OnlyReads (L.ends link.old) (L.ends link.new) }
    ensures holds { L.holds link.new ≡ L.holds link.old }
    ensures bounded { length buffer.new ≤ head_limit }
{
    let Some(end) = find_head(buffer, link)? else {
        return Ok(None);
    };
    let head = &buffer.as_slice()[..end.len];
    let request = read_request(head, end.lines)?;
    let len = request.len;
    let message = message_without_body(alloc, routes, request)?;
    let body = take_body(alloc, buffer, link, end.len, len)?;
    Ok(Some(with_body(message, body)))
}
