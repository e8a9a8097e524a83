//! From what a head says to the message.
ghost use Rattle.std.specs.Prelude.{◌≡◌, [], IfOk};
ghost use Rattle.std.specs.Option.{option_map};
ghost use Rattle.httparse.specs.Grammar.{RequestHead};
ghost use Rattle.http_wire.specs.Says.{IsNamed, IsMessageOf};
ghost use Rattle.http_wire.specs.Announced.{IsSaid};

use crate::message::Message;
use crate::request::Request;
use call_forms::Asked;
use http_routes::{Call, Routes};
use lists::Bytes;
use std::alloc::{AllocError, Global};

/// The message of a head, with no body yet.
pub fn message_without_body(
    alloc: Global,
    routes: &Routes,
    request: Request,
) -> Result<Message, AllocError>
    ensures { (h : RequestHead) → IsSaid h request.entry → IfOk result (IsMessageOf h []) }
{
    let call = named(routes, request.target, request.is_post);
    let bearer = copied(alloc, request.bearer)?;
    let update_token = copied(alloc, request.update_token)?;
    let service = Vec::from_slice(alloc, call.service.as_bytes())?;
    let method = Vec::from_slice(alloc, call.method.as_bytes())?;
    let target = Vec::from_slice(alloc, request.target.as_bytes())?;
    Ok(Message {
        asked: Asked {
            bearer,
            update_token,
            service: Bytes::new(service),
            method: Bytes::new(method),
            body: Bytes::new(Vec::new(alloc)),
        },
        target: Bytes::new(target),
        close: request.close,
    })
}

/// The message with a body in place of the one that it has.
pub fn with_body(message: Message, body: Vec<u8>) -> Message
    ensures { (h : RequestHead) → IsMessageOf h [] message → IsMessageOf h body.items result }
{
    let mut message = message;
    message.asked.body = Bytes::new(body);
    message
}

/// The call that a POST's target names. A target that names none is itself the method, of no
/// service, and so is each target of another method.
fn named<'t>(routes: &Routes, target: &'t str, is_post: bool) -> Call<'t>
    ensures { IsNamed is_post target.now result.service.now result.method.now }
{
    let unnamed = Call {
        service: "",
        method: target,
    };
    if !is_post {
        return unnamed;
    }
    match routes.call_of(target) {
        Some(call) => call,
        None => unnamed,
    }
}

fn copied(alloc: Global, text: Option<&[u8]>) -> Result<Option<Bytes>, AllocError>
    ensures { IfOk result (λ copy. copy ≡ option_map (λ t. t.now) text.entry) }
{
    match text {
        None => Ok(None),
        Some(text) => Ok(Some(Bytes::from_slice(alloc, text)?)),
    }
}
