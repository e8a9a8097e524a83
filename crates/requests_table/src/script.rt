//! The lines of a script.
//!
//! A request is `SECONDS BEARER TOKEN TARGET BODY`, parted by one blank each, and the body is the
//! rest of the line, with the blanks that it has; behind the target a blank and the body may be
//! wanting.
ghost use Rattle.std.specs.Prelude.{◌≡◌, IfOk};
ghost use Rattle.requests_table.specs.Lines.{begins_comment, IsLineOf};

use call_forms::Asked;
use lists::Bytes;
use names_realms::{InvocationId, NameFault};
use std::alloc::{AllocError, Global};
use update_tokens::{Secret, update_token};

/// 2023-11-14T22:13:20Z, in microseconds since 1970: second 0 of a script.
const START: i64 = 1_700_000_000_000_000;

/// A request, and what the clock says when it comes, in microseconds since 1970.
#[derive(Drop)]
pub struct Turn {
    pub now: i64,
    pub asked: Asked,
}

/// A line of a script.
#[derive(Drop)]
pub enum Line {
    /// It begins with `#`.
    Comment,
    Request(Turn),
    /// It is none of these.
    Odd,
}

impl Line {
    /// Reads a line, where this secret makes the update tokens.
    pub fn read(alloc: Global, secret: &Secret, line: &str) -> Result<Line, AllocError>
        ensures { IfOk result (IsLineOf line.now) }
    {
        if is_comment(line) {
            return Ok(Line::Comment);
        }
        match read_turn(alloc, secret, line) {
            Ok(turn) => Ok(Line::Request(turn)),
            Err(Fault::Form) => Ok(Line::Odd),
            Err(Fault::Memory) => Err(AllocError),
        }
    }
}

/// Whether a line begins with `#`.
fn is_comment(line: &str) -> bool
    ensures { result ≡ begins_comment line.now }
{
    match line.as_bytes() {
        [first, ..] => *first == b'#',
        [] => false,
    }
}

/// Why a line gives no request.
#[derive(Drop)]
enum Fault {
    /// It has not the form of one.
    Form,
    /// There was no memory.
    Memory,
}

impl From<AllocError> for Fault {
    fn from(_: AllocError) -> Fault {
        Fault::Memory
    }
}

/// The words of a request.
#[derive(Clone, Copy)]
struct Words<'t> {
    /// Seconds after the start, with a sign or none.
    seconds: &'t str,
    /// The bearer token, `-` for none.
    bearer: &'t str,
    /// The update token that is shown: `-` for none, `=` and its text, or the id of the invocation
    /// whose token it is.
    token: &'t str,
    /// `Recorder.CreateInvocation` for a method of a service; a word that begins with `/` is a
    /// target that names none.
    target: &'t str,
    body: &'t str,
}

fn words_of(line: &str) -> Option<Words<'_>> {
    let (seconds, rest) = line.split_once(' ')?;
    let (bearer, rest) = rest.split_once(' ')?;
    let (token, rest) = rest.split_once(' ')?;
    let (target, body) = rest.split_once(' ').unwrap_or((rest, ""));
    Some(Words {
        seconds,
        bearer,
        token,
        target,
        body,
    })
}

fn read_turn(alloc: Global, secret: &Secret, line: &str) -> Result<Turn, Fault> {
    let words = words_of(line).ok_or(Fault::Form)?;
    let now = clock_of(words.seconds).ok_or(Fault::Form)?;
    let (service, method) = service_and_method(words.target).ok_or(Fault::Form)?;
    let asked = Asked {
        bearer: header(alloc, words.bearer)?,
        update_token: update_token_of(alloc, secret, words.token)?,
        service: service_name(alloc, service)?,
        method: bytes(alloc, method.as_bytes())?,
        body: bytes(alloc, words.body.as_bytes())?,
    };
    Ok(Turn { now, asked })
}

/// What the clock says so many seconds after the start, none where that is no number or too large.
fn clock_of(seconds: &str) -> Option<i64> {
    let seconds: i64 = seconds.parse().ok()?;
    seconds.checked_mul(1_000_000)?.checked_add(START)
}

fn bytes(alloc: Global, text: &[u8]) -> Result<Bytes, AllocError> {
    Ok(Bytes::from_slice(alloc, text)?)
}

/// The value of a header, none for `-`.
fn header(alloc: Global, word: &str) -> Result<Option<Bytes>, AllocError> {
    if word == "-" {
        return Ok(None);
    }
    Ok(Some(bytes(alloc, word.as_bytes())?))
}

/// The update token that a word shows, if any.
fn update_token_of(alloc: Global, secret: &Secret, word: &str) -> Result<Option<Bytes>, Fault> {
    if word == "-" {
        return Ok(None);
    }
    if let Some(text) = word.strip_prefix('=') {
        return Ok(Some(bytes(alloc, text.as_bytes())?));
    }
    match InvocationId::parse(alloc, word.as_bytes()) {
        Ok(id) => Ok(Some(bytes(alloc, update_token(secret, &id).as_slice())?)),
        Err(NameFault::Memory) => Err(Fault::Memory),
        Err(_) => Err(Fault::Form),
    }
}

/// The service and the method of a target, with no service where it names no method.
fn service_and_method(target: &str) -> Option<(&str, &str)> {
    if target.starts_with('/') {
        return Some(("", target));
    }
    target.split_once('.')
}

/// The whole name of a service, empty for none.
fn service_name(alloc: Global, service: &str) -> Result<Bytes, AllocError> {
    if service.is_empty() {
        return bytes(alloc, b"");
    }
    let name = format!(in alloc; "luci.resultdb.v1.{service}")?;
    Ok(Bytes::new(name.into_bytes()))
}
