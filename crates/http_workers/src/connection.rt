//! One connection, from its first message to its end.
ghost use Rattle.std.specs.Prelude.{◌≡◌, List, [], ◌∷◌, ◌++◌, true};
ghost use Rattle.outside.specs.Ends.{OnlyWrites};
ghost use Rattle.outside.specs.Whole.{WritesWhole};
ghost use Rattle.call_forms.specs.ReplyBytes.{told_bytes};
ghost use Rattle.tellers.specs.Exchange.{Exchange, StandsForSome};
ghost use Rattle.http_workers.specs.Connection.{Answers, Connection};
ghost use Rattle.http_workers.specs.Closing.{Closes, LeavesWire};
ghost use Rattle.http_workers.specs.Ended.{ServesLink};

use crate::ended::{Cause, Ended};
use call_forms::{Standin, Told};
use http_wire::{Message, Wire, WireFault, closes, write_farewell, write_response, write_standin};
use outside::{Link, WriteEnd};
use std::alloc::Global;
use tellers::Teller;

fn write_told<L: Link>(link: &mut L, told: &Told, close: bool) -> Result<(), WriteEnd>
    ensures written { WritesWhole (L.ends link.old).outgoing (told_bytes told.now close) result
        (L.ends link.new).outgoing }
    ensures only { OnlyWrites (L.ends link.old) (L.ends link.new) }
    ensures holds { L.holds link.new ≡ L.holds link.old }
{
    match told {
        Told::Made(answer) => write_response(link, answer, close),
        Told::Standin(which) => write_standin(link, *which, close),
    }
}

/// Asks the teller one message, and writes what it tells.
fn answer_message<T: Teller, L: Link>(
    teller: &mut T,
    link: &mut L,
    message: &Message,
    close: bool,
) -> Result<(), WriteEnd>
    requires { StandsForSome T.stands teller.old }
    ensures answers { Answers
        (λ told. (first : T) (before : List Exchange) → T.stands first teller.old before
        → T.stands first teller.new
        (before ++ record { asked = message.now.asked; told = told } ∷ []))
        close (L.ends link.old).outgoing result (L.ends link.new).outgoing }
    ensures only { OnlyWrites (L.ends link.old) (L.ends link.new) }
    ensures teller_holds { T.holds teller.new ≡ T.holds teller.old }
    ensures link_holds { L.holds link.new ≡ L.holds link.old }
{
    let told = teller.tell(&message.asked);
    write_told(link, &told, close)
}

/// Ends a connection on which memory was wanting to read a message.
fn close_for_memory<L: Link>(link: &mut L) -> Cause
    ensures closes { Closes WireFault.Memory result
        (L.ends link.old).outgoing (L.ends link.new).outgoing }
    ensures only { OnlyWrites (L.ends link.old) (L.ends link.new) }
    ensures holds { L.holds link.new ≡ L.holds link.old }
{
    match write_standin(link, Standin::Memory, true) {
        Err(WriteEnd::SinkTakesNothing) => Cause::SinkTakesNothing,
        _ => Cause::Memory,
    }
}

/// Ends a connection from which no more is read: a fault of the stream gets a farewell, unless the
/// stream ended itself, and want of memory gets a stand-in.
fn close_after<L: Link>(link: &mut L, fault: WireFault) -> Cause
    ensures closes { Closes fault result (L.ends link.old).outgoing (L.ends link.new).outgoing }
    ensures only { OnlyWrites (L.ends link.old) (L.ends link.new) }
    ensures holds { L.holds link.new ≡ L.holds link.old }
{
    match fault {
        WireFault::CutShort { .. } => Cause::Wire(fault),
        WireFault::ReadFault => Cause::ReadFault,
        WireFault::Memory => close_for_memory(link),
        _ => {
            let _ = write_farewell(link, &fault);
            Cause::Wire(fault)
        }
    }
}

/// Answers message after message by a wire that is new, until the input ends, something fails, or
/// the reply that closes the connection went out.
fn serve_messages<T: Teller, L: Link>(
    alloc: Global,
    teller: &mut T,
    wire: &mut Wire,
    link: &mut L,
) -> Ended
    requires held { wire.old.held ≡ [] }
    requires is_open { wire.old.is_open ≡ true }
    requires stands { StandsForSome T.stands teller.old }
    ensures connection { Connection
        (λ exchanges. (first : T) (before : List Exchange) → T.stands first teller.old before
        → T.stands first teller.new (before ++ exchanges))
        (L.ends link.old) result.calls result.cause (L.ends link.new) }
    ensures wire { LeavesWire result.cause wire.new.is_open }
    ensures teller_holds { T.holds teller.new ≡ T.holds teller.old }
    ensures link_holds { L.holds link.new ≡ L.holds link.old }
{
    let mut answered: usize = 0;
    'messages: loop {
        match wire.next(alloc, link) {
            Ok(Some(message)) => {
                let close = closes(answered, message.close);
                if let Err(end) = answer_message(teller, link, &message, close) {
                    return ended(answered + 1, Cause::from(end));
                }
                answered += 1;
                if close {
                    return ended(answered, Cause::Closed);
                }
            }
            Ok(None) => return ended(answered, Cause::End),
            Err(fault) => return ended(answered, close_after(link, fault)),
        }
    }
}

fn ended(calls: usize, cause: Cause) -> Ended
    ensures calls { result.calls ≡ calls }
    ensures cause { result.cause ≡ cause }
{
    Ended {
        calls: calls as u64,
        cause,
    }
}

/// Serves one connection: answers message after message until the input ends, something fails, or
/// the reply that closes the connection went out.
///
/// A fault of the stream gets a farewell, unless the stream ended inside a message. For want of
/// memory a stand-in closes the connection; where there is none to begin with, nothing is read or
/// written.
pub fn serve_connection<T: Teller, L: Link>(alloc: Global, teller: &mut T, link: &mut L) -> Ended
    requires { StandsForSome T.stands teller.old }
    ensures serves { ServesLink
        (λ exchanges. (first : T) (before : List Exchange) → T.stands first teller.old before
        → T.stands first teller.new (before ++ exchanges))
        (L.ends link.old) result (L.ends link.new) }
    ensures teller_holds { T.holds teller.new ≡ T.holds teller.old }
    ensures link_holds { L.holds link.new ≡ L.holds link.old }
{
    match Wire::new(alloc) {
        Ok(mut wire) => serve_messages(alloc, teller, &mut wire, link),
        Err(_) => ended(0, Cause::Memory),
    }
}
