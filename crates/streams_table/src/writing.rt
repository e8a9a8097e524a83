//! What is written to a link.
//!
//! The writes of a line stand between bars: `answer STATUS CODE TOKEN FLAG BODY`, with `-` for no
//! update token and else one of 64 bytes, `standin NAME FLAG`, or `farewell NAME`. Each is printed
//! as `whole`, `WriteFault` or `SinkTakesNothing`, and behind it what the link took of it.
use crate::fault::Fault;
use crate::notation::{bytes_of, flag_of, put_line};
use call_forms::{Answer, Standin};
use http_wire::{WireFault, write_farewell, write_response, write_standin};
use lists::Bytes;
use outside::{MemoryLink, WriteEnd};
use std::alloc::{AllocError, Global};

/// The place, or the length, of the faults that tell one, where a line names a fault.
const SAMPLE: usize = 1;

/// The fault of the wire of a name.
fn fault_of(name: &str) -> Result<WireFault, Fault> {
    match name {
        "HeadTooLong" => Ok(WireFault::HeadTooLong),
        "TooManyHeaders" => Ok(WireFault::TooManyHeaders),
        "BadHead" => Ok(WireFault::BadHead { end: SAMPLE }),
        "NoLength" => Ok(WireFault::NoLength),
        "TwoLengths" => Ok(WireFault::TwoLengths),
        "TransferCoded" => Ok(WireFault::TransferCoded),
        "BodyTooLong" => Ok(WireFault::BodyTooLong { said: 1 }),
        "CutShort" => Ok(WireFault::CutShort { have: SAMPLE }),
        "ReadFault" => Ok(WireFault::ReadFault),
        "Memory" => Ok(WireFault::Memory),
        _ => Err(Fault::Form),
    }
}

/// The stand-in of a name.
pub(crate) fn standin_of(name: &str) -> Result<Standin, Fault> {
    match name {
        "Unavailable" => Ok(Standin::Unavailable),
        "Memory" => Ok(Standin::Memory),
        "Spent" => Ok(Standin::Spent),
        _ => Err(Fault::Form),
    }
}

/// The update token that a word shows, if any.
fn token_of(alloc: Global, word: &str) -> Result<Option<[u8; 64]>, Fault> {
    if word == "-" {
        return Ok(None);
    }
    let bytes = bytes_of(alloc, word)?;
    let mut token = [0; 64];
    if bytes.len() != token.len() {
        return Err(Fault::Form);
    }
    token.copy_from_slice(bytes.as_slice());
    Ok(Some(token))
}

/// The answer of such words, and its flag.
fn answer_of(alloc: Global, words: &str) -> Result<(Answer, bool), Fault> {
    let (status, rest) = words.split_once(' ').ok_or(Fault::Form)?;
    let (code, rest) = rest.split_once(' ').ok_or(Fault::Form)?;
    let (token, rest) = rest.split_once(' ').ok_or(Fault::Form)?;
    let (flag, body) = rest.split_once(' ').unwrap_or((rest, ""));
    let answer = Answer {
        status: status.parse().ok().ok_or(Fault::Form)?,
        code: code.parse().ok().ok_or(Fault::Form)?,
        token: token_of(alloc, token)?,
        body: Bytes::new(bytes_of(alloc, body)?),
    };
    Ok((answer, flag_of(flag)?))
}

/// A stand-in, and its flag, of such words.
pub(crate) fn flagged_standin(words: &str) -> Result<(Standin, bool), Fault> {
    let (name, flag) = words.split_once(' ').ok_or(Fault::Form)?;
    Ok((standin_of(name)?, flag_of(flag)?))
}

/// Writes what a write says, and answers how it ended.
fn write(alloc: Global, link: &mut MemoryLink, text: &str) -> Result<Result<(), WriteEnd>, Fault> {
    let (kind, words) = text.split_once(' ').ok_or(Fault::Form)?;
    match kind {
        "answer" => {
            let (answer, close) = answer_of(alloc, words)?;
            Ok(write_response(link, &answer, close))
        }
        "standin" => {
            let (standin, close) = flagged_standin(words)?;
            Ok(write_standin(link, standin, close))
        }
        "farewell" => Ok(write_farewell(link, &fault_of(words)?)),
        _ => Err(Fault::Form),
    }
}

/// How a write ended.
fn end_word(end: Result<(), WriteEnd>) -> &'static str {
    match end {
        Ok(()) => "whole",
        Err(WriteEnd::WriteFault) => "WriteFault",
        Err(WriteEnd::SinkTakesNothing) => "SinkTakesNothing",
    }
}

/// Puts how a write ended, and what was taken behind the first bytes, which are so many.
fn put_write(
    alloc: Global,
    end: Result<(), WriteEnd>,
    link: &MemoryLink,
    before: usize,
    out: &mut Vec<u8>,
) -> Result<(), AllocError> {
    let taken = link.written().get(before..).unwrap_or(b"");
    put_line(alloc, end_word(end), taken, out)
}

/// Tells how each write ended, and what was taken of it.
pub(crate) fn tell_writes(
    alloc: Global,
    subject: &str,
    fails: Vec<u64>,
    out: &mut Vec<u8>,
) -> Result<(), Fault> {
    let mut link = MemoryLink::new(alloc, Vec::new(alloc), fails)?;
    for text in subject.split('|') {
        let before = link.written().len();
        let end = write(alloc, &mut link, text)?;
        put_write(alloc, end, &link, before, out)?;
    }
    Ok(())
}

/// Tells the number and the name of a fault, and its farewell.
pub(crate) fn tell_fault(alloc: Global, subject: &str, out: &mut Vec<u8>) -> Result<(), Fault> {
    let fault = fault_of(subject)?;
    let (number, name) = (fault.number(), fault.name());
    let front = format!(in alloc; "{number} {name}")?;
    put_line(alloc, &front, b"", out)?;
    let mut link = MemoryLink::new(alloc, Vec::new(alloc), Vec::new(alloc))?;
    let end = write_farewell(&mut link, &fault);
    put_write(alloc, end, &link, 0, out)?;
    Ok(())
}
