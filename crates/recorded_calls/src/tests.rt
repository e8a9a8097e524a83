//! Bytes that were laid out by hand, and bytes that are no command.

use crate::{CallKind, Command, RecordedCall, read_command, write_command};
use policy_checks::Moment;
use std::alloc::Global;
use std::test::Fail;

/// 2023-11-14T22:13:20Z
const MOMENT: i64 = 1_700_000_000_000_000;

const TICK: &[u8] = b"\x00\x00\x40\x1e\x18\x24\x0a\x06\x00";

const REQUEST: &[u8] = b"{\"invocationId\":\"u-a\",\"invocation\":{\"realm\":\"proj:ci\"}}";

const CREATION: &[u8] =
    b"\x01\x00\x40\x1e\x18\x24\x0a\x06\x00\x05\x00alice\x37\x00\x00\x00{\"invocationId\":\"u-a\",\"invocation\":{\"realm\":\"proj:ci\"}}";

/// Bytes that are no command: none; no kind; no whole moment; one that comes later than any; a tick
/// with a byte behind it; a kind that isn't there; a name in capitals; an empty one; and a length
/// of a body that is short by one, or long by one.
const OTHERS: [&[u8]; 10] = [
    b"",
    b"\x08\x00\x40\x1e\x18\x24\x0a\x06\x00\x01\x00a\x00\x00\x00\x00",
    b"\x00\x00\x40\x1e\x18\x24\x0a\x06",
    b"\x00\x00\x00\xff\xff\xff\xff\xff\x03",
    b"\x00\x00\x40\x1e\x18\x24\x0a\x06\x00\x00",
    b"\xff\x00\x40\x1e\x18\x24\x0a\x06\x00\x01\x00a\x00\x00\x00\x00",
    b"\x03\x00\x40\x1e\x18\x24\x0a\x06\x00\x01\x00A\x00\x00\x00\x00",
    b"\x03\x00\x40\x1e\x18\x24\x0a\x06\x00\x00\x00\x00\x00\x00\x00",
    b"\x03\x00\x40\x1e\x18\x24\x0a\x06\x00\x01\x00a\x01\x00\x00\x00{}",
    b"\x03\x00\x40\x1e\x18\x24\x0a\x06\x00\x01\x00a\x03\x00\x00\x00{}",
];

/// Whether a command is a tick at this moment.
fn is_tick_at(command: &Command, moment: Moment) -> bool {
    match command {
        Command::Tick(found) => found.micros() == moment.micros(),
        Command::Call(_) => false,
    }
}

/// Whether the bytes are read as a tick at this moment.
fn is_tick(bytes: &[u8], moment: Moment) -> bool {
    match read_command(bytes) {
        Some(command) => is_tick_at(&command, moment),
        None => false,
    }
}

/// Whether the bytes are read as a creation by `alice` with this request.
fn is_creation(bytes: &[u8], moment: Moment, request: &[u8]) -> bool {
    match read_command(bytes) {
        Some(Command::Call(call)) => {
            call.kind == CallKind::CreateInvocation
                && call.moment.micros() == moment.micros()
                && call.caller == b"alice".as_slice()
                && call.body == request
        }
        _ => false,
    }
}

#[test]
fn commands_have_their_bytes(rt: HostRuntime) -> Result<(), Fail> {
    let moment = Moment::new(MOMENT);
    let tick = Command::Tick(moment);
    assert_eq!(rt; write_command(rt.alloc(), &tick)?.as_slice(), TICK);
    assert!(rt; is_tick(TICK, moment));
    let call = RecordedCall {
        kind: CallKind::CreateInvocation,
        moment,
        caller: b"alice",
        body: REQUEST,
    };
    let bytes = write_command(rt.alloc(), &Command::Call(call))?;
    assert_eq!(rt; bytes.as_slice(), CREATION);
    assert_eq!(rt; bytes.len(), 75);
    assert!(rt; is_creation(CREATION, moment, REQUEST));
    Ok(())
}

#[test]
fn others_are_no_commands(rt: HostRuntime) {
    for bytes in OTHERS {
        assert!(rt; read_command(bytes).is_none());
    }
}
