//! What a head says, or its first fault.
ghost use Rattle.std.specs.Prelude.{◌≡◌, ◌≤◌, ◌||◌, ◌==◌, not, length, [], Some, IfSome};
ghost use Rattle.std.specs.Prelude.{MatchOption, MatchResult, codes};
ghost use Rattle.std.specs.Str.{bytes_eq};
ghost use Rattle.httparse.specs.Grammar.{RequestHead, ReadsRequest};
ghost use Rattle.httparse.specs.Spans.{IsRequestAt, IsRequestWithin, span_bytes};
ghost use Rattle.http_wire.specs.Scan.{head_end};
ghost use Rattle.http_wire.specs.Announced.{IsRequest, IsFaulty};

use crate::bearer::bearer_token;
use crate::fields::{alone, read_fields};
use crate::lengths::announced_length;
use crate::message::WireFault;
use httparse::Status;
use httparse::spans::{EMPTY_HEADER_SPAN, HeaderSpan, RequestSpans, parse_request};

/// The most header lines that a head has.
const HEADER_LIMIT: usize = 64;

/// The head that is the whole of these bytes, or `None` where `httparse` reads no head that ends
/// there.
fn read_head(head: &[u8], headers: &mut [HeaderSpan]) -> Option<RequestSpans>
    requires { IfSome (head_end head.now) (λ e. e.1 ≤ length headers.old) }
    ensures reads { MatchOption result ((h : RequestHead) → ¬ (ReadsRequest head.now h []))
        (λ r. (h : RequestHead) × IsRequestAt head.now headers.new r h
        × ReadsRequest head.now h []) }
    ensures within { IfSome result (IsRequestWithin head.now headers.new) }
{
    match parse_request(head, headers) {
        Ok(Status::Complete(spans)) if spans.len == head.len() => Some(spans),
        _ => None,
    }
}

/// Whether a head is a POST.
fn is_post(head: &[u8], spans: &RequestSpans) -> bool
    requires { (spans.now.method.start ≤ spans.now.method.end)
        × (spans.now.method.end ≤ length head.now) }
    ensures { result ≡ bytes_eq (span_bytes head.now spans.now.method) (codes "POST") }
{
    spans.method.of(head) == b"POST".as_slice()
}

/// Whether the connection ends after the reply: to a method that isn't POST, to HTTP/1.0, or where
/// a header says so.
fn closes_after(is_post: bool, version: u8, says_close: bool) -> bool
    ensures { result ≡ (not is_post || version == 0 || says_close) }
{
    !is_post || version == 0 || says_close
}

/// What a head without a fault says, as slices of it.
#[derive(Clone, Copy)]
pub struct Request<'b> {
    pub target: &'b str,
    pub is_post: bool,
    /// The token of the one Authorization header.
    pub bearer: Option<&'b [u8]>,
    /// The one Update-Token header.
    pub update_token: Option<&'b [u8]>,
    /// How many bytes of body follow.
    pub len: usize,
    /// Whether the connection ends after the reply.
    pub close: bool,
}

/// What a head says, or its first fault. `lines` is how many header lines it has.
pub fn read_request<'b>(head: &'b [u8], lines: usize) -> Result<Request<'b>, WireFault>
    requires { head_end head.now ≡ Some (length head.now, lines) }
    ensures { MatchResult result (IsRequest head.now lines) (IsFaulty head.now lines) }
{
    if lines > HEADER_LIMIT {
        return Err(WireFault::TooManyHeaders);
    }
    let mut headers = [EMPTY_HEADER_SPAN; HEADER_LIMIT];
    let Some(spans) = read_head(head, &mut headers) else {
        return Err(WireFault::BadHead { end: head.len() });
    };
    let Ok(target) = str::from_utf8(spans.path.of(head)) else {
        return Err(WireFault::BadHead { end: head.len() });
    };
    let is_post = is_post(head, &spans);
    let fields = read_fields(head, &headers[..spans.headers]);
    let len = announced_length(fields, is_post, head.len())?;
    Ok(Request {
        target,
        is_post,
        bearer: bearer_token(fields.authorization),
        update_token: alone(fields.update_token),
        len,
        close: closes_after(is_post, spans.version, fields.closes),
    })
}
