//! Commands, written as their bytes.
ghost use Rattle.std.specs.Prelude.{◌≡◌, ◌^◌, ◌<◌, ◌++◌, ◌∷◌, ◌≤◌, true, IfOk, OnOk, length};
ghost use Rattle.std.specs.List.{list_all};
ghost use Rattle.policy_checks.specs.Checks.{is_name, may_follow_in_name};
ghost use Rattle.recorded_calls.specs.Commands.{IsCallMoment, IsCallSayable, IsCommand, IsSayable, body_bytes};
ghost use Rattle.recorded_calls.specs.Commands.{call_said, called, command_bytes, moment_bytes, name_bytes, said_by};
ghost use Rattle.recorded_calls.specs.Commands.{record_length, ticked};

use crate::command::{Command, RecordedCall};
use policy_checks::{Bytes, Moment};
use std::alloc::{AllocError, Global};

/// Whether a byte may stand in a name, behind its first one.
fn may_follow(byte: u8) -> bool
    ensures { result ≡ may_follow_in_name byte }
{
    byte.is_ascii_lowercase()
        || byte.is_ascii_digit()
        || byte == b'_'
        || byte == b'-'
        || byte == b'.'
}

/// Whether each byte may stand in a name, behind its first one.
fn all_may_follow(bytes: &[u8]) -> bool
    ensures { result ≡ list_all may_follow_in_name bytes.now }
{
    bytes.iter().all(|byte| may_follow(*byte))
}

/// Whether bytes have the form of a user's name: a lower-case letter, then up to 63 letters, digits
/// and `_`, `-`, `.`.
pub fn has_name_form(name: &[u8]) -> bool
    ensures { result ≡ is_name name.now }
{
    let Some((first, rest)) = name.split_first() else {
        return false;
    };
    first.is_ascii_lowercase() && rest.len() <= 63 && all_may_follow(rest)
}

/// Appends a moment.
fn append_moment(bytes: &mut Vec<u8>, moment: Moment) -> Result<(), AllocError>
    requires { IsCallMoment moment }
    ensures { OnOk result (bytes.new.items ≡ bytes.old.items ++ moment_bytes moment) }
{
    bytes.extend_from_slice((moment.micros() as u64).to_le_bytes().as_slice())
}

/// Appends a name behind its length.
fn append_name(bytes: &mut Vec<u8>, name: &[u8]) -> Result<(), AllocError>
    requires { length name.now ≤ 64 }
    ensures { OnOk result (bytes.new.items ≡ bytes.old.items ++ name_bytes name.now) }
{
    bytes.extend_from_slice((name.len() as u16).to_le_bytes().as_slice())?;
    bytes.extend_from_slice(name)
}

/// Appends a body behind its length.
fn append_body(bytes: &mut Vec<u8>, body: &[u8]) -> Result<(), AllocError>
    requires { length body.now < 2 ^ 32 }
    ensures { OnOk result (bytes.new.items ≡ bytes.old.items ++ body_bytes body.now) }
{
    bytes.extend_from_slice((body.len() as u32).to_le_bytes().as_slice())?;
    bytes.extend_from_slice(body)
}

/// How many bytes the record of a call takes in a journal, by its caller's name and its body.
pub fn record_length(name: &[u8], body: &[u8]) -> u64
    requires { is_name name.now ≡ true }
    ensures { result ≡ record_length name.now body.now }
{
    20 + (name.len() as u64 + body.len() as u64)
}

/// The bytes of a tick. `Err` where there is no memory.
pub fn write_tick(alloc: Global, moment: Moment) -> Result<Bytes, AllocError>
    requires { IsCallMoment moment }
    ensures { IfOk result (λ bytes. bytes ≡ command_bytes (ticked moment)) }
{
    let mut bytes = Vec::with_capacity(alloc, 9)?;
    bytes.push(0)?;
    append_moment(&mut bytes, moment)?;
    Ok(Bytes::new(bytes))
}

/// The bytes of a call. All memory is taken at once, and is as much as they are. `Err` where there
/// is none.
pub fn write_call(alloc: Global, call: &RecordedCall) -> Result<Bytes, AllocError>
    requires { IsCallSayable (call_said call.now) }
    ensures { IfOk result (λ bytes. bytes ≡ command_bytes (called (call_said call.now))) }
{
    let mut bytes = Vec::with_capacity(alloc, 15 + call.caller.len() + call.body.len())?;
    bytes.push(call.kind.byte())?;
    append_moment(&mut bytes, call.moment)?;
    append_name(&mut bytes, call.caller)?;
    append_body(&mut bytes, call.body)?;
    Ok(Bytes::new(bytes))
}

/// The bytes of a command. All memory is taken at once, and is as much as they are.
/// `Err` where there is none.
pub fn write_command(alloc: Global, command: &Command) -> Result<Bytes, AllocError>
    requires { IsSayable (said_by command.now) }
    ensures { IfOk result (λ bytes. IsCommand bytes (said_by command.now)) }
{
    match command {
        Command::Tick(moment) => write_tick(alloc, *moment),
        Command::Call(call) => write_call(alloc, call),
    }
}
