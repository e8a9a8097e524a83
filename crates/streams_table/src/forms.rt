//! Calls, refusals and stand-ins.
//!
//! A route is printed as the service and the method, or as `no call`; a refusal as `STATUS CODE
//! TOKEN BODY`, with `-` for no update token; a stand-in as all its bytes.
use crate::fault::Fault;
use crate::notation::{bytes_of, flag_of, flag_word, put_line, put_quoted};
use crate::writing::flagged_standin;
use call_forms::{Answer, Refusal, write_refusal};
use http_routes::Routes;
use http_wire::closes;
use lists::Bytes;
use std::alloc::{AllocError, Global};

/// How many replies a connection may have.
const MOST_REPLIES: usize = 1_048_576;

/// Tells the call that a target names.
pub(crate) fn tell_route(alloc: Global, subject: &str, out: &mut Vec<u8>) -> Result<(), Fault> {
    let bytes = bytes_of(alloc, subject)?;
    let target = std::str::from_utf8(bytes.as_slice())
        .ok()
        .ok_or(Fault::Form)?;
    let routes = Routes::new(alloc)?;
    let Some(call) = routes.call_of(target) else {
        put_line(alloc, "no call", b"", out)?;
        return Ok(());
    };
    out.extend_from_slice(b"  service ")?;
    put_quoted(alloc, call.service.as_bytes(), out)?;
    out.extend_from_slice(b" method ")?;
    put_quoted(alloc, call.method.as_bytes(), out)?;
    out.extend_from_slice(b"\n")?;
    Ok(())
}

/// Tells what the reply says behind so many others, to a message with this flag.
pub(crate) fn tell_closes(subject: &str, out: &mut Vec<u8>) -> Result<(), Fault> {
    let (count, flag) = subject.split_once(' ').ok_or(Fault::Form)?;
    let before: usize = count.parse().ok().ok_or(Fault::Form)?;
    if before >= MOST_REPLIES {
        return Err(Fault::Form);
    }
    out.extend_from_slice(b"  ")?;
    out.extend_from_slice(flag_word(closes(before, flag_of(flag)?)).as_bytes())?;
    out.extend_from_slice(b"\n")?;
    Ok(())
}

/// Puts an answer.
fn put_answer(alloc: Global, answer: &Answer, out: &mut Vec<u8>) -> Result<(), AllocError> {
    let (status, code) = (answer.status, answer.code);
    let token = if answer.token.is_some() { "token" } else { "-" };
    let front = format!(in alloc; "{status} {code} {token}")?;
    put_line(alloc, &front, answer.body.as_slice(), out)
}

/// Tells the answer of a refusal.
pub(crate) fn tell_refusal(alloc: Global, subject: &str, out: &mut Vec<u8>) -> Result<(), Fault> {
    let (number, text) = subject.split_once(' ').unwrap_or((subject, ""));
    let rule: u8 = number.parse().ok().ok_or(Fault::Form)?;
    if rule < 1 || rule > 21 {
        return Err(Fault::Form);
    }
    let subject = Bytes::new(bytes_of(alloc, text)?);
    let answer = write_refusal(alloc, &Refusal { rule, subject })?;
    put_answer(alloc, &answer, out)?;
    Ok(())
}

/// Tells a stand-in's whole reply.
pub(crate) fn tell_standin(alloc: Global, subject: &str, out: &mut Vec<u8>) -> Result<(), Fault> {
    let (standin, close) = flagged_standin(subject)?;
    put_line(alloc, "", standin.bytes(close), out)?;
    Ok(())
}
