//! What bytes are so far: a reply's head in front, the beginning of one, or of no reply.
ghost use Rattle.std.specs.Prelude.{◌≡◌, ◌≤◌, length, take};
ghost use Rattle.httparse.specs.Spans.{IsResponseOf, IsResponseWithin};
ghost use Rattle.sink_replies.specs.Judged.{IsJudged};

use crate::ends::may_go_on;
use crate::lengths::one_length;
use httparse::Status;
use httparse::spans::{EMPTY_HEADER_SPAN, HeaderSpan, ResponseSpans, parse_response};

/// The most bytes that a head has.
pub const HEAD_LIMIT: usize = 16384;

/// The most headers that a head has.
pub const HEADER_LIMIT: usize = 64;

/// A reply's head.
#[derive(Clone, Copy)]
pub struct ReplyHead {
    /// How many bytes it has.
    pub len: usize,
    /// How many bytes of body follow.
    pub body: usize,
    pub status: u16,
}

/// What bytes are so far.
#[derive(Clone, Copy)]
pub enum Judged {
    /// A reply's head stands in front.
    Head(ReplyHead),
    /// They begin a reply's head that isn't whole yet.
    Unfinished,
    /// The first `end` of them begin no reply.
    NoReply { end: usize },
}

/// What the bytes are so far.
pub fn judge(bytes: &[u8]) -> Judged
    requires { length bytes.now ≤ 16384 }
    ensures { IsJudged bytes.now result }
{
    let mut headers = [EMPTY_HEADER_SPAN; HEADER_LIMIT];
    match parse_response(bytes, &mut headers) {
        Ok(Status::Complete(spans)) => judge_head(bytes, &headers, spans),
        Ok(Status::Partial) if may_go_on(bytes) => Judged::Unfinished,
        Ok(Status::Partial) => Judged::NoReply { end: bytes.len() },
        Err(_) => Judged::NoReply { end: bytes.len() },
    }
}

/// What bytes are in front of which a head stands.
fn judge_head(bytes: &[u8], headers: &[HeaderSpan], spans: ResponseSpans) -> Judged
    requires short { length bytes.now ≤ 16384 }
    requires few { length headers.now ≤ 64 }
    requires within { IsResponseWithin bytes.now headers.now spans }
    requires stands { IsResponseOf bytes.now headers.now spans }
    ensures { IsJudged bytes.now result }
{
    match one_length(bytes, &headers[..spans.headers]) {
        Some(body) => Judged::Head(ReplyHead {
            len: spans.len,
            body,
            status: spans.code,
        }),
        None => Judged::NoReply { end: spans.len },
    }
}
