//! A reader of whole streams, without a buffer: what a stream's messages are, step by step.
ghost use Rattle.std.specs.Prelude.{◌≡◌, ◌≤◌, length, Some, IfOk};
ghost use Rattle.http_wire.specs.Head.{head_limit};
ghost use Rattle.http_wire.specs.Scan.{head_end};
ghost use Rattle.http_wire.specs.Stream.{Framed};
ghost use Rattle.http_wire.specs.First.{IsFirst};

use crate::buffer::HEAD_LIMIT;
use crate::head_scan::{HeadEnd, Search, begin, search_on};
use crate::message::{End, Message, WireFault, closes};
use crate::request::{Request, read_request};
use crate::said::{message_without_body, with_body};
use http_routes::Routes;
use std::alloc::{AllocError, Global};

/// What stands first in a stream.
#[derive(Clone, Copy)]
pub enum First<'b> {
    /// A message: a head of so many bytes, what it says, and the body that it announces.
    Message { head: usize, request: Request<'b> },
    /// The end.
    End(End),
}

/// The messages of a stream, and what stands behind them.
pub fn read_stream(alloc: Global, stream: &[u8]) -> Result<(Vec<Message>, End), AllocError>
    ensures { IfOk result (λ r. Framed stream.now r.0.items r.1) }
{
    let routes = Routes::new(alloc)?;
    let mut messages = Vec::new(alloc);
    let mut before: usize = 0;
    let mut rest = stream;
    'messages: loop {
        match first_of(rest) {
            First::Message { head, request } => {
                let (front, others) = rest.split_at(head + request.len);
                let body = Vec::from_slice(alloc, front.split_at(head).1)?;
                let message = message_without_body(alloc, &routes, request)?;
                messages.push(with_body(message, body))?;
                if closes(before, request.close) {
                    return Ok((messages, End::Closed));
                }
                before += 1;
                rest = others;
            }
            First::End(end) => return Ok((messages, end)),
        }
    }
}

/// What stands first in a stream. It takes no memory.
pub fn first_of<'b>(stream: &'b [u8]) -> First<'b>
    ensures { IsFirst stream.now result }
{
    if stream.is_empty() {
        return First::End(End::Finished);
    }
    let window = &stream[..stream.len().min(HEAD_LIMIT)];
    match search_on(window, begin()) {
        Search::Found(end) => behind_head(stream, end),
        Search::Goes(_) if stream.len() < HEAD_LIMIT => cut_short(stream),
        Search::Goes(_) => First::End(End::Fault(WireFault::HeadTooLong)),
    }
}

fn behind_head<'b>(stream: &'b [u8], end: HeadEnd) -> First<'b>
    requires short { end.len ≤ head_limit }
    requires ends { head_end stream.now ≡ Some (end.len, end.lines) }
    ensures { IsFirst stream.now result }
{
    let (head, rest) = stream.split_at(end.len);
    let request = match read_request(head, end.lines) {
        Ok(request) => request,
        Err(fault) => return First::End(End::Fault(fault)),
    };
    if rest.len() < request.len {
        return cut_short(stream);
    }
    First::Message {
        head: end.len,
        request,
    }
}

fn cut_short<'b>(stream: &'b [u8]) -> First<'b>
    ensures { result ≡ First.End (End.Fault (WireFault.CutShort (length stream.now))) }
{
    First::End(End::Fault(WireFault::CutShort { have: stream.len() }))
}
