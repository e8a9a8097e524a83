//! Whether an unfinished head can go on as a reply's.
ghost use Rattle.std.specs.Prelude.{◌≡◌, ◌<◌, ◌≤◌, ◌+◌, ◌++◌, ℕ, length, drop, take, MatchBool};
ghost use Rattle.httparse.specs.Grammar.{HasNoResponse};
ghost use Rattle.httparse.specs.Spans.{IsResponseOf, IsResponseWithin};
ghost use Rattle.sink_replies.specs.Ends.{IsHeadAlone};
ghost use Rattle.sink_replies.specs.Replies.{BeginsNoReply, MayBecomeHead};

use crate::heads::{HEAD_LIMIT, HEADER_LIMIT};
use crate::lengths::one_length;
use httparse::Status;
use httparse::spans::{EMPTY_HEADER_SPAN, HeaderSpan, ResponseSpans, parse_response};

/// Whether some bytes can follow that make these a reply's head.
///
/// Where any do, the rest of one short head does, or what ends the line of another field in front
/// of its own. No other bytes that do are fewer, so these are tried, and not the grammar again.
pub fn may_go_on(bytes: &[u8]) -> bool
    requires { length bytes.now ≤ 16384 }
    ensures { MatchBool result (MayBecomeHead bytes.now)
        (HasNoResponse bytes.now → BeginsNoReply bytes.now) }
{
    ends_with_a_rest(bytes, b"\nHTTP/1.1 200\ncontent-length:0\n\n")
        || ends_with(bytes, b":\ncontent-length:0\n\n")
        || ends_with(bytes, b":\n\n")
        || ends_with(bytes, b"x:\n\n")
}

/// Whether some rest of a text makes the bytes a reply's head.
fn ends_with_a_rest(bytes: &[u8], text: &[u8]) -> bool
    requires within { length bytes.now ≤ 16384 }
    requires short { length text.now ≤ 32 }
    ensures { MatchBool result ((k : ℕ) × IsHeadAlone (bytes.now ++ drop k text.now))
        ((k : ℕ) → k < length text.now → ¬ (IsHeadAlone (bytes.now ++ drop k text.now))) }
{
    for start in 0..text.len() {
        if ends_with(bytes, &text[start..]) {
            return true;
        }
    }
    false
}

/// Whether these bytes behind the others make them a reply's head.
fn ends_with(bytes: &[u8], more: &[u8]) -> bool
    requires within { length bytes.now ≤ 16384 }
    requires short { length more.now ≤ 32 }
    ensures { MatchBool result (IsHeadAlone (bytes.now ++ more.now))
        (¬ (IsHeadAlone (bytes.now ++ more.now))) }
{
    let len = bytes.len() + more.len();
    if len > HEAD_LIMIT {
        return false;
    }
    let mut room = [0u8; HEAD_LIMIT];
    join(&mut room, bytes, more);
    is_head(&room[..len])
}

/// Writes both, one behind the other.
fn join(room: &mut [u8], bytes: &[u8], more: &[u8])
    requires { length bytes.now + length more.now ≤ length room.old }
    ensures joined { take (length bytes.now + length more.now) room.new ≡ bytes.now ++ more.now }
    ensures len { length room.new ≡ length room.old }
{
    let len = bytes.len() + more.len();
    room[..bytes.len()].copy_from_slice(bytes);
    room[bytes.len()..len].copy_from_slice(more);
}

/// Whether the bytes are a reply's head, and no more.
fn is_head(bytes: &[u8]) -> bool
    requires { length bytes.now ≤ 16384 }
    ensures { MatchBool result (IsHeadAlone bytes.now) (¬ (IsHeadAlone bytes.now)) }
{
    let mut headers = [EMPTY_HEADER_SPAN; HEADER_LIMIT];
    match parse_response(bytes, &mut headers) {
        Ok(Status::Complete(spans)) => is_alone(bytes, &headers, spans),
        Ok(Status::Partial) => false,
        Err(_) => false,
    }
}

/// Whether the head that stands in front is a reply's, and nothing stands behind it.
fn is_alone(bytes: &[u8], headers: &[HeaderSpan], spans: ResponseSpans) -> bool
    requires short { length bytes.now ≤ 16384 }
    requires few { length headers.now ≤ 64 }
    requires within { IsResponseWithin bytes.now headers.now spans }
    requires stands { IsResponseOf bytes.now headers.now spans }
    ensures { MatchBool result (IsHeadAlone bytes.now) (¬ (IsHeadAlone bytes.now)) }
{
    if spans.len < bytes.len() {
        return false;
    }
    one_length(bytes, &headers[..spans.headers]).is_some()
}
