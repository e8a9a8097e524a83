//! Commands, read from their bytes. Nothing is copied.
ghost use Rattle.std.specs.Prelude.{◌≡◌, ◌≢◌, ℕ, ℤ, ◌^◌, ◌<◌, [], ◌++◌, ◌∷◌, List, true, length, IfSome, IfNone};
ghost use Rattle.std.specs.Prelude.{MatchOption};
ghost use Rattle.std.specs.Int.{w16, w32, w64, to_le_bytes};
ghost use Rattle.policy_checks.specs.Checks.{is_name};
ghost use Rattle.recorded_calls.specs.Commands.{CallSaid, IsCallMoment, IsCallSayable, IsCommand, IsSayable, Said};
ghost use Rattle.recorded_calls.specs.Commands.{body_bytes, call_said, kind_byte, moment_bytes, name_bytes, said_by};
ghost use Rattle.recorded_calls.specs.Commands.{ticked};

use crate::command::{CallKind, Command, RecordedCall};
use crate::writing::has_name_form;
use policy_checks::Moment;

/// 9999-01-01T00:00:00Z, in microseconds since 1970.
const LATEST: u64 = 253_370_764_800_000_000;

/// Some bytes, and those behind them.
#[derive(Clone, Copy)]
struct Front<'c> {
    content: &'c [u8],
    rest: &'c [u8],
}

/// A moment, and the bytes behind it.
#[derive(Clone, Copy)]
struct Timed<'c> {
    moment: Moment,
    rest: &'c [u8],
}

/// So many bytes in front of others; none where they are fewer.
fn front_of(count: usize, bytes: &[u8]) -> Option<Front<'_>>
    ensures some { IfSome result (λ front. (length front.content.now ≡ count)
        × (bytes.now ≡ front.content.now ++ front.rest.now)) }
    ensures none { IfNone result (length bytes.now < count) }
{
    if bytes.len() < count {
        return None;
    }
    let (content, rest) = bytes.split_at(count);
    Some(Front { content, rest })
}

/// The number of two bytes.
fn two_bytes(bytes: &[u8]) -> u16
    requires { length bytes.now ≡ 2 }
    ensures { to_le_bytes w16 result ≡ bytes.now }
{
    u16::from_le_bytes([bytes[0], bytes[1]])
}

/// The number of four bytes.
fn four_bytes(bytes: &[u8]) -> u32
    requires { length bytes.now ≡ 4 }
    ensures { to_le_bytes w32 result ≡ bytes.now }
{
    u32::from_le_bytes([bytes[0], bytes[1], bytes[2], bytes[3]])
}

/// The number of eight bytes.
fn eight_bytes(bytes: &[u8]) -> u64
    requires { length bytes.now ≡ 8 }
    ensures { to_le_bytes w64 result ≡ bytes.now }
{
    u64::from_le_bytes([
        bytes[0], bytes[1], bytes[2], bytes[3], bytes[4], bytes[5], bytes[6], bytes[7],
    ])
}

/// The moment of a call in front of bytes.
fn moment_in(bytes: &[u8]) -> Option<Timed<'_>>
    ensures some { IfSome result (λ timed. IsCallMoment timed.moment
        × (bytes.now ≡ moment_bytes timed.moment ++ timed.rest.now)) }
    ensures none { IfNone result ((moment : ℤ) (rest : List ℕ) → IsCallMoment moment
        → bytes.now ≡ moment_bytes moment ++ rest → ⊥) }
{
    let front = front_of(8, bytes)?;
    let micros = eight_bytes(front.content);
    if micros > LATEST {
        return None;
    }
    Some(Timed {
        moment: Moment::new(micros as i64),
        rest: front.rest,
    })
}

/// A caller's name in front of bytes, behind its length.
fn name_in(bytes: &[u8]) -> Option<Front<'_>>
    ensures some { IfSome result (λ front. (is_name front.content.now ≡ true)
        × (bytes.now ≡ name_bytes front.content.now ++ front.rest.now)) }
    ensures none { IfNone result ((name rest : List ℕ) → is_name name ≡ true
        → bytes.now ≡ name_bytes name ++ rest → ⊥) }
{
    let size = front_of(2, bytes)?;
    let name = front_of(two_bytes(size.content) as usize, size.rest)?;
    if !has_name_form(name.content) {
        return None;
    }
    Some(name)
}

/// The body that bytes are, behind its length.
fn body_in(bytes: &[u8]) -> Option<&[u8]>
    ensures some { IfSome result (λ body. (length body.now < 2 ^ 32)
        × (bytes.now ≡ body_bytes body.now)) }
    ensures none { IfNone result ((body : List ℕ) → length body < 2 ^ 32
        → bytes.now ≡ body_bytes body → ⊥) }
{
    let size = front_of(4, bytes)?;
    if size.rest.len() != four_bytes(size.content) as usize {
        return None;
    }
    Some(size.rest)
}

/// The call of this kind that is said behind its moment.
fn call_in<'c>(kind: CallKind, timed: &Timed<'c>) -> Option<RecordedCall<'c>>
    requires { IsCallMoment timed.now.moment }
    ensures some { IfSome result (λ call. IsCallSayable (call_said call) × (call.kind ≡ kind)
        × (call.moment ≡ timed.now.moment)
        × (timed.now.rest.now ≡ name_bytes call.caller.now ++ body_bytes call.body.now)) }
    ensures none { IfNone result ((call : CallSaid) → IsCallSayable call
        → timed.now.rest.now ≡ name_bytes call.caller ++ body_bytes call.body → ⊥) }
{
    let name = name_in(timed.rest)?;
    let body = body_in(name.rest)?;
    Some(RecordedCall {
        kind,
        moment: timed.moment,
        caller: name.content,
        body,
    })
}

/// The tick that is said by a moment; none where bytes stand behind it.
fn tick_in<'c>(timed: &Timed<'c>) -> Option<Command<'c>>
    ensures some { IfSome result (λ command. (said_by command ≡ ticked timed.now.moment)
        × (timed.now.rest.now ≡ [])) }
    ensures none { IfNone result (timed.now.rest.now ≢ []) }
{
    if timed.rest.is_empty() {
        return Some(Command::Tick(timed.moment));
    }
    None
}

/// The command that bytes are; none where they are no command. It takes no memory.
pub fn read_command(bytes: &[u8]) -> Option<Command<'_>>
    ensures { MatchOption result ((said : Said) → ¬ IsCommand bytes.now said)
        (λ command. IsCommand bytes.now (said_by command)) }
{
    let Some((kind, behind)) = bytes.split_first() else {
        return None;
    };
    let Some(timed) = moment_in(behind) else {
        return None;
    };
    if *kind == 0 {
        return tick_in(&timed);
    }
    match call_in(CallKind::of(*kind)?, &timed) {
        Some(call) => Some(Command::Call(call)),
        None => None,
    }
}
