//! The head of a reply, put together on the stack.
ghost use Rattle.std.specs.Prelude.{◌≡◌, ◌+◌, ◌≤◌, [], ◌++◌, length, codes, decimal, unwrap_or};
ghost use Rattle.std.specs.Prelude.{Option};
ghost use Rattle.http.specs.StatusCode.{reason_phrase};
ghost use Rattle.call_forms.specs.ReplyBytes.{line, line_end, content_type, token_line, close_line};
ghost use Rattle.call_forms.specs.ReplyBytes.{head_text};

use arrayvec::ArrayVec;
use http::StatusCode;
use itoa::Buffer;

/// The most bytes of a body that goes out together with its head, in one write.
pub const SHORT_BODY: usize = 760;

/// The most bytes that a reply's head and a short body have, rounded up.
const ROOM: usize = 1024;

/// A reply, or the front of one.
pub type Reply = ArrayVec<u8, ROOM>;

/// The head of a reply with this status, code and token, and a body of so many bytes.
pub fn reply_head(status: u16, code: u8, token: &Option<[u8; 64]>, close: bool, len: usize) -> Reply
    ensures items { result.items ≡ head_text status code token.now close len }
    ensures short { length result.items ≤ 263 }
{
    let mut head = Reply::new();
    put_status_line(&mut head, status);
    put_type_line(&mut head, status);
    put_code_line(&mut head, code);
    put_token_line(&mut head, token);
    put_close_line(&mut head, close);
    put_length_line(&mut head, len);
    put(&mut head, b"\r\n");
    head
}

/// Puts bytes behind those of a reply.
pub fn put(head: &mut Reply, bytes: &[u8])
    requires { length head.old.items + length bytes.now ≤ ROOM }
    ensures { head.new.items ≡ head.old.items ++ bytes.now }
{
    let _ = head.try_extend_from_slice(bytes);
}

fn put_line(head: &mut Reply, name: &[u8], value: &[u8])
    requires { length head.old.items + length name.now + length value.now + 2 ≤ ROOM }
    ensures items { head.new.items ≡ head.old.items ++ line (name.now ++ value.now) }
    ensures len { length head.new.items ≡ length head.old.items + length name.now + length value.now
        + 2 }
{
    put(head, name);
    put(head, value);
    put(head, b"\r\n");
}

fn put_status_line(head: &mut Reply, status: u16)
    requires { length head.old.items + 60 ≤ ROOM }
    ensures items { head.new.items ≡ head.old.items ++ line
        (codes "HTTP/1.1 " ++
        (decimal status ++ (codes " " ++ unwrap_or (reason_phrase status) []))) }
    ensures len { length head.new.items ≤ length head.old.items + 60 }
{
    put(head, b"HTTP/1.1 ");
    put(head, Buffer::new().format(status).as_bytes());
    put(head, b" ");
    put(head, phrase(status).as_bytes());
    put(head, b"\r\n");
}

fn phrase(status: u16) -> &'static str
    ensures text { result.now ≡ unwrap_or (reason_phrase status) [] }
    ensures short { length result.now ≤ 40 }
{
    match StatusCode::from_u16(status) {
        Ok(code) => code.canonical_reason().unwrap_or(""),
        Err(_) => "",
    }
}

fn put_type_line(head: &mut Reply, status: u16)
    requires { length head.old.items + 41 ≤ ROOM }
    ensures items { head.new.items ≡ head.old.items ++ line
        (codes "Content-Type: " ++ content_type status) }
    ensures len { length head.new.items ≤ length head.old.items + 41 }
{
    put_line(head, b"Content-Type: ", type_text(status).as_bytes());
}

fn type_text(status: u16) -> &'static str
    ensures text { result.now ≡ content_type status }
    ensures short { length result.now ≤ 25 }
{
    if status == 200 {
        "application/json"
    } else {
        "text/plain; charset=utf-8"
    }
}

fn put_code_line(head: &mut Reply, code: u8)
    requires { length head.old.items + 23 ≤ ROOM }
    ensures items { head.new.items ≡ head.old.items ++ line
        (codes "X-Prpc-Grpc-Code: " ++ decimal code) }
    ensures len { length head.new.items ≤ length head.old.items + 23 }
{
    put_line(
        head,
        b"X-Prpc-Grpc-Code: ",
        Buffer::new().format(code).as_bytes(),
    );
}

fn put_token_line(head: &mut Reply, token: &Option<[u8; 64]>)
    requires { length head.old.items + 80 ≤ ROOM }
    ensures items { head.new.items ≡ head.old.items ++ token_line token.now }
    ensures len { length head.new.items ≤ length head.old.items + 80 }
{
    if let Some(token) = token {
        put_line(head, b"Update-Token: ", token_bytes(token));
    }
}

fn token_bytes(token: &[u8; 64]) -> &[u8]
    ensures value { result.now ≡ token.now }
    ensures len { length result.now ≡ 64 }
{
    token.as_slice()
}

fn put_close_line(head: &mut Reply, close: bool)
    requires { length head.old.items + 19 ≤ ROOM }
    ensures items { head.new.items ≡ head.old.items ++ close_line close }
    ensures len { length head.new.items ≤ length head.old.items + 19 }
{
    if close {
        put(head, b"Connection: close\r\n");
    }
}

fn put_length_line(head: &mut Reply, len: usize)
    requires { length head.old.items + 38 ≤ ROOM }
    ensures items { head.new.items ≡ head.old.items ++ line
        (codes "Content-Length: " ++ decimal len) }
    ensures len { length head.new.items ≤ length head.old.items + 38 }
{
    put_line(
        head,
        b"Content-Length: ",
        Buffer::new().format(len).as_bytes(),
    );
}
