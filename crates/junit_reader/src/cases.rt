//! The parts of a case: its name, its duration, what is told of it, and how it ended.
ghost use Rattle.std.specs.Prelude.{◌≡◌, IfOk};
ghost use Rattle.junit_parts.specs.Cases.{case_duration, case_name, ended_case, joined_name, text_named, told_first};
ghost use Rattle.junit_parts.specs.Tags.{tag_text};

use crate::messages::cut;
use junit_parts::{Stop, Tag, Unread, named_text, time};
use names_realms::{Bytes, Case, Span, Status};
use std::alloc::{AllocError, Global};

/// How a case ended, by its first error, its first failure and its first skip.
#[derive(Debug, Drop)]
pub(crate) struct Ending {
    pub(crate) error: Option<Bytes>,
    pub(crate) failure: Option<Bytes>,
    pub(crate) is_skipped: bool,
}

/// A case by how it ended.
pub(crate) fn ended_case(alloc: Global, name: Bytes, duration: Option<Span>, ending: Ending) -> Case
    ensures { result ≡ ended_case name duration ending.error ending.failure ending.is_skipped }
{
    let (status, expected, message) = match (ending.error, ending.failure, ending.is_skipped) {
        (Some(message), _, _) => (Status::Crash, false, message),
        (None, Some(message), _) => (Status::Fail, false, message),
        (None, None, true) => (Status::Skip, true, Bytes::new(Vec::new(alloc))),
        (None, None, false) => (Status::Pass, true, Bytes::new(Vec::new(alloc))),
    };
    Case {
        name,
        status,
        expected,
        duration,
        message,
    }
}

/// The text of an attribute, nothing where there is none.
fn text_named(alloc: Global, tag: &Tag<'_>, name: &[u8]) -> Result<Vec<u8>, AllocError>
    ensures { IfOk result (λ v. v.items ≡ text_named name.now (tag_text tag.now)) }
{
    match named_text(alloc, tag, name) {
        Ok(text) => Ok(text),
        Err(Stop::Flawed(_)) => Ok(Vec::new(alloc)),
        Err(Stop::Memory) => Err(AllocError),
    }
}

/// The duration of a case.
pub(crate) fn case_duration(alloc: Global, tag: &Tag<'_>) -> Result<Option<Span>, AllocError>
    ensures { IfOk result (λ d. d ≡ case_duration (tag_text tag.now)) }
{
    let text = text_named(alloc, tag, b"time")?;
    match time(alloc, text.as_slice()) {
        Ok(span) => Ok(span),
        Err(Unread::Broken) => Ok(None),
        Err(Unread::Memory) => Err(AllocError),
    }
}

/// The class and the name with a point between them, or the name alone.
fn joined_name(class: Vec<u8>, name: Vec<u8>) -> Result<Vec<u8>, AllocError>
    ensures { IfOk result (λ v. v.items ≡ joined_name class.items name.items) }
{
    if class.is_empty() {
        return Ok(name);
    }
    let mut joined = class;
    joined.push(b'.')?;
    joined.extend_from_slice(name.as_slice())?;
    Ok(joined)
}

/// The name of a case.
pub(crate) fn case_name(alloc: Global, tag: &Tag<'_>) -> Result<Vec<u8>, AllocError>
    ensures { IfOk result (λ v. v.items ≡ case_name (tag_text tag.now)) }
{
    let class = text_named(alloc, tag, b"classname")?;
    let name = text_named(alloc, tag, b"name")?;
    joined_name(class, name)
}

/// What is told of a message, or where there is none of a text that is trimmed.
pub(crate) fn told_first(alloc: Global, message: &[u8], text: &[u8]) -> Result<Bytes, AllocError>
    ensures { IfOk result (λ b. b ≡ told_first message.now text.now) }
{
    match message {
        [] => Bytes::from_slice(alloc, cut(text)),
        _ => Bytes::from_slice(alloc, cut(message)),
    }
}
