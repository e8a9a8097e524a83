//! The forms of replies and refusals, and their texts.
ghost use Rattle.std.specs.Prelude.{◌≡◌};
ghost use Rattle.call_forms.specs.ReplyBytes.{standin_bytes};

use lists::Bytes;

/// A reply before it is framed: HTTP status, gRPC code, the update token that goes into a header,
/// and the body.
#[derive(Drop)]
pub struct Answer {
    pub status: u16,
    pub code: u8,
    pub token: Option<[u8; 64]>,
    pub body: Bytes,
}

/// Why a request is refused: the number of the rule that it breaks, and what breaks it.
#[derive(Drop)]
pub struct Refusal {
    pub rule: u8,
    pub subject: Bytes,
}

/// What is said in place of an answer.
#[derive(Clone, Copy, Debug)]
pub enum Standin {
    /// The disk failed: 503.
    Unavailable,
    /// Memory was wanting: 500.
    Memory,
    /// No more calls are served: 429.
    Spent,
}

/// What a caller is told.
#[derive(Drop)]
pub enum Told {
    Made(Answer),
    Standin(Standin),
}

impl Standin {
    /// The whole constant reply.
    pub fn bytes(self, close: bool) -> &'static [u8]
        ensures { result.now ≡ standin_bytes self close }
    {
        self.text(close).as_bytes()
    }

    fn text(self, close: bool) -> &'static str
        ensures { result.now ≡ standin_bytes self close }
    {
        match self {
            Standin::Unavailable => unavailable(close),
            Standin::Memory => want_of_memory(close),
            Standin::Spent => spent(close),
        }
    }
}

fn unavailable(close: bool) -> &'static str
    ensures { result.now ≡ standin_bytes Standin.Unavailable close }
{
    if close {
        "HTTP/1.1 503 Service Unavailable\r\nContent-Type: text/plain; charset=utf-8\r\n\
         X-Prpc-Grpc-Code: 14\r\nConnection: close\r\nContent-Length: 12\r\n\r\nunavailable\n"
    } else {
        "HTTP/1.1 503 Service Unavailable\r\nContent-Type: text/plain; charset=utf-8\r\n\
         X-Prpc-Grpc-Code: 14\r\nContent-Length: 12\r\n\r\nunavailable\n"
    }
}

fn want_of_memory(close: bool) -> &'static str
    ensures { result.now ≡ standin_bytes Standin.Memory close }
{
    if close {
        "HTTP/1.1 500 Internal Server Error\r\nContent-Type: text/plain; charset=utf-8\r\n\
         X-Prpc-Grpc-Code: 13\r\nConnection: close\r\nContent-Length: 15\r\n\r\nwant of memory\n"
    } else {
        "HTTP/1.1 500 Internal Server Error\r\nContent-Type: text/plain; charset=utf-8\r\n\
         X-Prpc-Grpc-Code: 13\r\nContent-Length: 15\r\n\r\nwant of memory\n"
    }
}

fn spent(close: bool) -> &'static str
    ensures { result.now ≡ standin_bytes Standin.Spent close }
{
    if close {
        "HTTP/1.1 429 Too Many Requests\r\nContent-Type: text/plain; charset=utf-8\r\n\
         X-Prpc-Grpc-Code: 8\r\nConnection: close\r\nContent-Length: 6\r\n\r\nspent\n"
    } else {
        "HTTP/1.1 429 Too Many Requests\r\nContent-Type: text/plain; charset=utf-8\r\n\
         X-Prpc-Grpc-Code: 8\r\nContent-Length: 6\r\n\r\nspent\n"
    }
}
