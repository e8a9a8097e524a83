//! Runs over ends in memory, that no real end gives: a clock that is told what to say, an output
//! that takes nothing, a disk whose sync fails, and doors that fail. All else is tried over the
//! built program, by `tests/end_to_end.py`.
ghost use Rattle.std.specs.Prelude.{◌≤◌, IfOk, vec_len};

use crate::run::run_program;
use dialers::MemoryDialer;
use disks::MemoryDisk;
use doors::MemoryDoor;
use outside::{ListClock, MemoryLink, MemorySink, MemorySource, Source};
use std::alloc::{AllocError, Global};
use std::process::Abort;
use std::sync::Wait;
use std::test::Fail;
use std::thread::Threads;

/// A user who may do all that is asked here, in one realm.
const CONFIG: &str = "\
    secret = \"0b0b0b0b0b0b0b0b0b0b0b0b0b0b0b0b0b0b0b0b\"\n\
    [user.alice]\n\
    token = \"tok-a\"\n\
    [role.writer]\n\
    permissions = [\"resultdb.invocations.create\", \"resultdb.invocations.get\", \
    \"resultdb.invocations.include\"]\n\
    [realm.\"proj:ci\"]\n\
    bindings = [{ role = \"writer\", principals = [\"user:alice\"] }]\n";

/// Calls of each method. The update tokens are HMAC-SHA256 under the secret, over `rdb-update/u-a`
/// and `rdb-update/u-b`.
const CALLS: &[&str] = &[
    // u-a, with a deadline that is ten seconds away
    "POST /prpc/luci.resultdb.v1.Recorder/CreateInvocation HTTP/1.1\r\n\
     Authorization: Bearer tok-a\r\nContent-Length: 89\r\n\r\n\
     {\"invocationId\":\"u-a\",\"invocation\":{\"deadline\":\"2023-11-14T22:13:30Z\",\
     \"realm\":\"proj:ci\"}}",
    // u-b
    "POST /prpc/luci.resultdb.v1.Recorder/CreateInvocation HTTP/1.1\r\n\
     Authorization: Bearer tok-a\r\nContent-Length: 55\r\n\r\n\
     {\"invocationId\":\"u-b\",\"invocation\":{\"realm\":\"proj:ci\"}}",
    // one with a deadline that is too near
    "POST /prpc/luci.resultdb.v1.Recorder/CreateInvocation HTTP/1.1\r\n\
     Authorization: Bearer tok-a\r\nContent-Length: 96\r\n\r\n\
     {\"invocationId\":\"u-c\",\
     \"invocation\":{\"deadline\":\"2023-11-14T22:13:29.999999Z\",\"realm\":\"proj:ci\"}}",
    // u-a includes u-b
    "POST /prpc/luci.resultdb.v1.Recorder/UpdateIncludedInvocations HTTP/1.1\r\n\
     Authorization: Bearer tok-a\r\nContent-Length: 78\r\n\
     Update-Token: 3f2f1bb18f734f22cd9d2ed809e69a8bf5d841332e29a79572c3c0a2f8f94d18\r\n\r\n\
     {\"includingInvocation\":\"invocations/u-a\",\"addInvocations\":[\"invocations/u-b\"]}",
    // u-b gets another deadline, and no tags, which the mask doesn't name
    "POST /prpc/luci.resultdb.v1.Recorder/UpdateInvocation HTTP/1.1\r\n\
     Authorization: Bearer tok-a\r\nContent-Length: 132\r\n\
     Update-Token: 20fceee26a12ebf878779370de8246ff4443d531231bb8ac0907344d2bedd6de\r\n\r\n\
     {\"invocation\":{\"name\":\"invocations/u-b\",\"deadline\":\"2023-11-14T22:13:40Z\",\
     \"tags\":[{\"key\":\"k\",\"value\":\"v\"}]},\"updateMask\":\"deadline\"}",
    // without its token, and with that of the other one
    "POST /prpc/luci.resultdb.v1.Recorder/FinalizeInvocation HTTP/1.1\r\n\
     Authorization: Bearer tok-a\r\nContent-Length: 26\r\n\r\n\
     {\"name\":\"invocations/u-b\"}",
    "POST /prpc/luci.resultdb.v1.Recorder/FinalizeInvocation HTTP/1.1\r\n\
     Authorization: Bearer tok-a\r\nContent-Length: 26\r\n\
     Update-Token: 3f2f1bb18f734f22cd9d2ed809e69a8bf5d841332e29a79572c3c0a2f8f94d18\r\n\r\n\
     {\"name\":\"invocations/u-b\"}",
    // at the deadline of u-a, and behind that of u-b
    "POST /prpc/luci.resultdb.v1.ResultDB/GetInvocation HTTP/1.1\r\n\
     Authorization: Bearer tok-a\r\nContent-Length: 26\r\n\r\n\
     {\"name\":\"invocations/u-a\"}",
    "POST /prpc/luci.resultdb.v1.ResultDB/GetInvocation HTTP/1.1\r\n\
     Authorization: Bearer tok-a\r\nContent-Length: 26\r\n\r\n\
     {\"name\":\"invocations/u-a\"}",
    // what is final stays so
    "POST /prpc/luci.resultdb.v1.Recorder/FinalizeInvocation HTTP/1.1\r\n\
     Authorization: Bearer tok-a\r\nContent-Length: 26\r\n\
     Update-Token: 20fceee26a12ebf878779370de8246ff4443d531231bb8ac0907344d2bedd6de\r\n\r\n\
     {\"name\":\"invocations/u-b\"}",
    "POST /prpc/luci.resultdb.v1.Recorder/UpdateIncludedInvocations HTTP/1.1\r\n\
     Authorization: Bearer tok-a\r\nContent-Length: 78\r\n\
     Update-Token: 3f2f1bb18f734f22cd9d2ed809e69a8bf5d841332e29a79572c3c0a2f8f94d18\r\n\r\n\
     {\"includingInvocation\":\"invocations/u-a\",\"addInvocations\":[\"invocations/u-b\"]}",
];

/// The reply to the creation of u-b.
const CREATED: &str = "HTTP/1.1 200 OK\r\nContent-Type: application/json\r\n\
    X-Prpc-Grpc-Code: 0\r\n\
    Update-Token: 20fceee26a12ebf878779370de8246ff4443d531231bb8ac0907344d2bedd6de\r\n\
    Content-Length: 161\r\n\r\n)]}'\n\
    {\"createTime\":\"2023-11-14T22:13:20Z\",\"createdBy\":\"user:alice\",\
    \"deadline\":\"2023-11-16T22:13:20Z\",\"name\":\"invocations/u-b\",\
    \"realm\":\"proj:ci\",\"state\":\"ACTIVE\"}";

/// Their replies.
const REPLIES: &[&str] = &[
    "HTTP/1.1 200 OK\r\nContent-Type: application/json\r\nX-Prpc-Grpc-Code: 0\r\n\
     Update-Token: 3f2f1bb18f734f22cd9d2ed809e69a8bf5d841332e29a79572c3c0a2f8f94d18\r\n\
     Content-Length: 161\r\n\r\n)]}'\n\
     {\"createTime\":\"2023-11-14T22:13:20Z\",\"createdBy\":\"user:alice\",\
     \"deadline\":\"2023-11-14T22:13:30Z\",\"name\":\"invocations/u-a\",\
     \"realm\":\"proj:ci\",\"state\":\"ACTIVE\"}",
    CREATED,
    "HTTP/1.1 400 Bad Request\r\nContent-Type: text/plain; charset=utf-8\r\n\
     X-Prpc-Grpc-Code: 3\r\nContent-Length: 67\r\n\r\n\
     13 DeadlineRange: 2023-11-14T22:13:29.999999Z 2023-11-14T22:13:20Z\n",
    "HTTP/1.1 200 OK\r\nContent-Type: application/json\r\nX-Prpc-Grpc-Code: 0\r\n\
     Content-Length: 7\r\n\r\n)]}'\n\
     {}",
    "HTTP/1.1 200 OK\r\nContent-Type: application/json\r\nX-Prpc-Grpc-Code: 0\r\n\
     Content-Length: 161\r\n\r\n)]}'\n\
     {\"createTime\":\"2023-11-14T22:13:20Z\",\"createdBy\":\"user:alice\",\
     \"deadline\":\"2023-11-14T22:13:40Z\",\"name\":\"invocations/u-b\",\
     \"realm\":\"proj:ci\",\"state\":\"ACTIVE\"}",
    "HTTP/1.1 401 Unauthorized\r\nContent-Type: text/plain; charset=utf-8\r\n\
     X-Prpc-Grpc-Code: 16\r\nContent-Length: 33\r\n\r\n\
     9 NoUpdateToken: invocations/u-b\n",
    "HTTP/1.1 403 Forbidden\r\nContent-Type: text/plain; charset=utf-8\r\n\
     X-Prpc-Grpc-Code: 7\r\nContent-Length: 35\r\n\r\n\
     10 BadUpdateToken: invocations/u-b\n",
    "HTTP/1.1 200 OK\r\nContent-Type: application/json\r\nX-Prpc-Grpc-Code: 0\r\n\
     Content-Length: 250\r\n\r\n)]}'\n\
     {\"createTime\":\"2023-11-14T22:13:20Z\",\"createdBy\":\"user:alice\",\
     \"deadline\":\"2023-11-14T22:13:30Z\",\"finalizeStartTime\":\"2023-11-14T22:13:30Z\",\
     \"includedInvocations\":[\"invocations/u-b\"],\"name\":\"invocations/u-a\",\
     \"realm\":\"proj:ci\",\"state\":\"FINALIZING\"}",
    "HTTP/1.1 200 OK\r\nContent-Type: application/json\r\nX-Prpc-Grpc-Code: 0\r\n\
     Content-Length: 287\r\n\r\n)]}'\n\
     {\"createTime\":\"2023-11-14T22:13:20Z\",\"createdBy\":\"user:alice\",\
     \"deadline\":\"2023-11-14T22:13:30Z\",\"finalizeStartTime\":\"2023-11-14T22:13:30Z\",\
     \"finalizeTime\":\"2023-11-14T22:13:40Z\",\
     \"includedInvocations\":[\"invocations/u-b\"],\"name\":\"invocations/u-a\",\
     \"realm\":\"proj:ci\",\"state\":\"FINALIZED\"}",
    "HTTP/1.1 200 OK\r\nContent-Type: application/json\r\nX-Prpc-Grpc-Code: 0\r\n\
     Content-Length: 245\r\n\r\n)]}'\n\
     {\"createTime\":\"2023-11-14T22:13:20Z\",\"createdBy\":\"user:alice\",\
     \"deadline\":\"2023-11-14T22:13:40Z\",\"finalizeStartTime\":\"2023-11-14T22:13:40Z\",\
     \"finalizeTime\":\"2023-11-14T22:13:40Z\",\"name\":\"invocations/u-b\",\
     \"realm\":\"proj:ci\",\"state\":\"FINALIZED\"}",
    "HTTP/1.1 400 Bad Request\r\nContent-Type: text/plain; charset=utf-8\r\n\
     X-Prpc-Grpc-Code: 9\r\nContent-Length: 40\r\n\r\n\
     12 NotActive: invocations/u-a FINALIZED\n",
];

/// One request.
const ONE: &str = "POST /prpc/luci.resultdb.v1.Recorder/CreateInvocation HTTP/1.1\r\n\
    Authorization: Bearer tok-a\r\nContent-Length: 55\r\n\r\n\
    {\"invocationId\":\"u-b\",\"invocation\":{\"realm\":\"proj:ci\"}}";

/// What a change is told whose record the disk didn't take.
const UNAVAILABLE: &str = "HTTP/1.1 503 Service Unavailable\r\n\
    Content-Type: text/plain; charset=utf-8\r\nX-Prpc-Grpc-Code: 14\r\nContent-Length: 12\r\n\r\n\
    unavailable\n";

const ANSWER: &str = "answer --config farm.toml --journal farm.journal";

const SERVE: &str = "serve --config farm.toml --journal farm.journal --listen a:1 --workers 2";

/// A run: its words, parted by blanks, its input, and by their numbers the writes to the output
/// that fail, of which one whose number stands twice takes nothing, the calls of the disk that
/// fail, and the call for a link of each door that fails; the output, the status, the line on the
/// errors, how many bytes the journal has afterwards, and how many links each door got back.
#[derive(Clone, Copy)]
struct Run {
    words: &'static str,
    input: &'static [&'static str],
    output_fails: &'static [u64],
    disk_fails: &'static [u64],
    door_fails: u64,
    output: &'static [&'static str],
    status: u8,
    line: &'static str,
    size: usize,
    returned: usize,
}

/// A connection that ends well.
const SERVED: Run = Run {
    words: ANSWER,
    input: CALLS,
    output_fails: &[],
    disk_fails: &[],
    door_fails: 0,
    output: REPLIES,
    status: 0,
    line: "",
    size: 491,
    returned: 0,
};

/// A service over two doors, on each of which a call comes in.
const ATTENDED: Run = Run {
    words: SERVE,
    input: &[ONE],
    output: &["connections 2, calls 2\n"],
    size: 89,
    returned: 1,
    ..SERVED
};

const RUNS: [Run; 6] = [
    SERVED,
    // the sync of an opened gate fails: the call is told so, and the same one again closes the gate
    // and is recorded
    Run {
        input: &[ONE, ONE],
        disk_fails: &[10],
        output: &[UNAVAILABLE, CREATED],
        size: 89,
        ..SERVED
    },
    Run {
        input: &[ONE],
        output_fails: &[1, 1],
        output: &[],
        status: 9,
        line: "rdb: output takes nothing\n",
        size: 89,
        ..SERVED
    },
    ATTENDED,
    Run {
        door_fails: 2,
        status: 4,
        line: "rdb: fault of door\n",
        ..ATTENDED
    },
    Run {
        door_fails: 1,
        output: &["connections 0, calls 0\n"],
        status: 4,
        line: "rdb: fault of door\n",
        size: 9,
        returned: 0,
        ..ATTENDED
    },
];

/// The moments at which messages are asked, the last one for all others: 2023-11-14T22:13:20Z, and
/// so many seconds later.
fn clock(alloc: Global) -> Result<ListClock, AllocError> {
    let moments = vec![in alloc;
        1_700_000_000_000_000,
        1_700_000_000_000_000,
        1_700_000_000_000_000,
        1_700_000_001_000_000,
        1_700_000_002_000_000,
        1_700_000_003_000_000,
        1_700_000_004_000_000,
        1_700_000_010_000_000,
        1_700_000_030_000_000,
    ]?;
    ListClock::new(alloc, moments)
}

fn joined(alloc: Global, pieces: &[&str]) -> Result<Vec<u8>, AllocError> {
    let mut all = Vec::new(alloc);
    for piece in pieces {
        all.extend_from_slice(piece.as_bytes())?;
    }
    Ok(all)
}

fn words_of(alloc: Global, line: &str) -> Result<Vec<String>, AllocError> {
    let mut words = Vec::new(alloc);
    for word in line.split(' ') {
        words.push(String::from_str(alloc, word)?)?;
    }
    Ok(words)
}

/// The streams of a run.
#[derive(Drop)]
struct Streams {
    config: MemorySource,
    input: MemorySource,
    output: MemorySink,
    errors: MemorySink,
}

fn streams_of(alloc: Global, run: &Run) -> Result<Streams, AllocError> {
    let config = joined(alloc, &[CONFIG])?;
    let input = joined(alloc, run.input)?;
    Ok(Streams {
        config: MemorySource::new(alloc, config, Vec::new(alloc))?,
        input: MemorySource::new(alloc, input, Vec::new(alloc))?,
        output: MemorySink::new(alloc, run.output_fails.to_vec(alloc)?)?,
        errors: MemorySink::new(alloc, Vec::new(alloc))?,
    })
}

/// A disk whose parts are empty, some of whose calls fail.
fn disk(alloc: Global, fails: &[u64]) -> Result<MemoryDisk, AllocError> {
    let (first, second) = (Vec::new(alloc), Vec::new(alloc));
    MemoryDisk::new(alloc, first, second, fails.to_vec(alloc)?, None)
}

/// A door with a link, on which a call comes in. One call for a link fails.
fn door(alloc: Global, fails: u64) -> Result<MemoryDoor<MemoryLink>, AllocError> {
    let pieces = vec![in alloc; joined(alloc, &[ONE])?]?;
    let link = MemoryLink::new(alloc, pieces, Vec::new(alloc))?;
    MemoryDoor::new(alloc, vec![in alloc; link]?, vec![in alloc; fails]?)
}

/// Two such doors.
fn doors(alloc: Global, fails: u64) -> Result<Vec<MemoryDoor<MemoryLink>>, AllocError>
    ensures { IfOk result (λ all. vec_len all ≤ 64) }
{
    Ok(vec![in alloc; door(alloc, fails)?, door(alloc, fails)?]?)
}

/// What a run comes to beside its streams: its status, how many bytes the journal has, and for each
/// door how many links came back and how many are still out.
type Came = (u8, usize, Vec<(usize, usize)>);

fn came_of(
    rt: &(impl Abort + Threads + Wait + Sync),
    alloc: Global,
    run: &Run,
    streams: &mut Streams,
) -> Result<Came, AllocError> {
    let words = words_of(alloc, run.words)?;
    let mut dialer: MemoryDialer<MemoryLink> = MemoryDialer::new(
        alloc,
        Vec::new(alloc),
        Vec::new(alloc),
    )?;
    let outcome = run_program(
        rt,
        alloc,
        words.as_slice(),
        &mut streams.config,
        &mut streams.input,
        &mut streams.output,
        &mut streams.errors,
        disk(alloc, run.disk_fails)?,
        clock(alloc)?,
        doors(alloc, run.door_fails)?,
        &mut dialer,
    );
    let mut returned = Vec::new(alloc);
    for door in &outcome.doors {
        returned.push((door.returned().len(), door.out()))?;
    }
    Ok((outcome.status, outcome.disk.bytes(0).len(), returned))
}

/// Whether the first byte of an input is still there.
fn is_unread(input: &mut MemorySource) -> bool {
    let mut room = [0u8; 1];
    input.read(&mut room).ok() == Some(1) && room == [b'P']
}

/// Whether a run ends as it says. A service reads nothing of its input.
fn is_right(
    rt: &(impl Abort + Threads + Wait + Sync),
    alloc: Global,
    run: &Run,
) -> Result<bool, AllocError> {
    let mut streams = streams_of(alloc, run)?;
    let (status, size, returned) = came_of(rt, alloc, run, &mut streams)?;
    let output = joined(alloc, run.output)?;
    let back = (run.returned, 0);
    Ok(
        (status, size) == (run.status, run.size)
            && streams.output.written() == output.as_slice()
            && streams.errors.written() == run.line.as_bytes()
            && returned.as_slice() == [back, back].as_slice()
            && is_unread(&mut streams.input) == (run.words == SERVE),
    )
}

#[test]
fn runs_give_their_bytes_and_statuses(rt: HostRuntime) -> Result<(), Fail> {
    for (place, run) in RUNS.iter().enumerate() {
        assert!(rt; is_right(&rt, rt.alloc(), run)?, "run {place}");
    }
    Ok(())
}
