//! Laws of streams.
ghost use Rattle.std.specs.Prelude.{◌≡◌, ℕ, List, ◌++◌, length};
ghost use Rattle.http_wire.specs.Stream.{Framed, FramedFrom, Spells, StayOpen};
ghost use Rattle.http_wire.specs.declared.message.Message.{Message};
ghost use Rattle.http_wire.specs.declared.message.End.{End};

use crate::message::{End, closes};
use crate::plain::{First, first_of};

/// Bytes are read in one way: they have one list of messages, and one end.
pub fn one_reading()
    ensures messages { (bytes : List ℕ) (ms ns : List Message) (e f : End) → Framed bytes ms e
        → Framed bytes ns f → ms ≡ ns }
    ensures end { (bytes : List ℕ) (ms ns : List Message) (e f : End) → Framed bytes ms e
        → Framed bytes ns f → e ≡ f }
{}

/// Each stream has a reading: some messages, and the end that is answered. It takes no memory.
pub fn there_is_a_reading(stream: &[u8]) -> End
    ensures { (ms : List Message) × Framed stream.now ms result }
{
    let mut before: usize = 0;
    let mut rest = stream;
    'messages: loop {
        match first_of(rest) {
            First::Message { head, request } => {
                if closes(before, request.close) {
                    return End::Closed;
                }
                before += 1;
                rest = rest.split_at(head + request.len).1;
            }
            First::End(end) => return end,
        }
    }
}

/// Messages that stand in front of a stream, none of which closes, stand in front of its messages,
/// and the other ones are those of the rest.
pub fn front_of_reading()
    ensures front { (text rest : List ℕ) (ms ns : List Message) (e : End) → Spells ms text
        → StayOpen 0 ms → Framed (text ++ rest) ns e
        → (others : List Message) × (ns ≡ ms ++ others) × FramedFrom (length ms) rest others e }
    ensures whole { (text rest : List ℕ) (ms ns : List Message) (e : End) → Spells ms text
        → StayOpen 0 ms → FramedFrom (length ms) rest ns e → Framed (text ++ rest) (ms ++ ns) e }
{}
