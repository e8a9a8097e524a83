//! Uploads over links that break, end and refuse.
use crate::{Sent, SinkFault, upload};
use dialers::MemoryDialer;
use names_realms::{Bytes, Case, InvocationId, Status};
use outside::MemoryLink;
use sink_plans::{Destination, SinkPlan, plan_of};
use std::alloc::{AllocError, Global};
use std::process::Abort;
use std::test::Fail;

const DONE: &[u8] = b"HTTP/1.1 200 OK\r\nContent-Length: 2\r\n\r\n{}";

const CONFLICT: &[u8] = b"HTTP/1.1 409 Conflict\r\nContent-Length: 0\r\n\r\n";

const HEAD: &[u8] = b"POST /prpc/luci.resultdb.v1.Recorder/BatchCreateTestResults HTTP/1.1\r\n\
    Authorization: Bearer tok-a\r\nUpdate-Token: 0123\r\nContent-Length: ";

fn failed_case(alloc: Global) -> Result<Case, AllocError> {
    Ok(Case {
        name: Bytes::new(b"bad".to_vec(alloc)?),
        status: Status::Fail,
        expected: false,
        duration: None,
        message: Bytes::new(b"boom".to_vec(alloc)?),
    })
}

/// The plan of a report with so many cases.
fn plan_of_failures(alloc: Global, count: usize) -> Result<SinkPlan, Fail> {
    let mut cases = Vec::new(alloc);
    for _ in 0..count {
        cases.push(failed_case(alloc)?)?;
    }
    let to = Destination {
        invocation: InvocationId::parse(alloc, b"u-a")?,
        bearer: Bytes::new(b"tok-a".to_vec(alloc)?),
        update_token: Bytes::new(b"0123".to_vec(alloc)?),
    };
    Ok(plan_of(alloc, b"TAP version 14\n", cases, "", to)?)
}

/// A dialer of links each of which gives these bytes and ends.
fn dialer_of(alloc: Global, links: &[&[u8]]) -> Result<MemoryDialer<MemoryLink>, AllocError> {
    let mut made = Vec::new(alloc);
    for bytes in links {
        let mut pieces = Vec::new(alloc);
        pieces.push(bytes.to_vec(alloc)?)?;
        made.push(MemoryLink::new(alloc, pieces, Vec::new(alloc))?)?;
    }
    MemoryDialer::new(alloc, made, Vec::new(alloc))
}

/// Uploads a report of so many cases over these links, and compares the answer and how many links
/// were given back.
fn check_upload(
    rt: &impl Abort,
    alloc: Global,
    row: &(usize, &[&[u8]], Result<Sent, SinkFault>, usize),
) -> Result<(), Fail> {
    let (count, links, expected, returned) = *row;
    let mut dialer = dialer_of(alloc, links)?;
    let plan = plan_of_failures(alloc, count)?;
    assert_eq!(rt; upload(alloc, &mut dialer, plan), expected);
    assert_eq!(rt; (dialer.returned().len(), dialer.out()), (returned, 0));
    Ok(())
}

const ROWS: [(usize, &[&[u8]], Result<Sent, SinkFault>, usize); 6] = [
    (
        0,
        &[],
        Ok(Sent {
            batches: 0,
            cases: 0,
        }),
        0,
    ),
    (
        201,
        &[DONE, b"", b"HTTP/1.1 200", DONE],
        Ok(Sent {
            batches: 2,
            cases: 201,
        }),
        4,
    ),
    (
        1,
        &[],
        Err(SinkFault::GaveUp {
            batch: 1,
            faults: 5,
            ends: 0,
        }),
        0,
    ),
    (
        201,
        &[DONE, b"", b"", b"", b"", DONE],
        Err(SinkFault::GaveUp {
            batch: 2,
            faults: 0,
            ends: 5,
        }),
        5,
    ),
    (
        201,
        &[DONE, CONFLICT],
        Err(SinkFault::Refused {
            batch: 2,
            status: 409,
        }),
        2,
    ),
    (
        1,
        &[b"220 mail\r\n"],
        Err(SinkFault::BadReply { batch: 1, end: 10 }),
        1,
    ),
];

#[test]
fn reports_arrive_or_are_given_up(rt: HostRuntime) -> Result<(), Fail> {
    for row in &ROWS {
        check_upload(&rt, rt.alloc(), row)?;
    }
    Ok(())
}

#[test]
fn a_batch_begins_anew_with_the_same_bytes(rt: HostRuntime) -> Result<(), Fail> {
    let mut dialer = dialer_of(rt.alloc(), &[b"", DONE])?;
    let plan = plan_of_failures(rt.alloc(), 1)?;
    let sent = upload(rt.alloc(), &mut dialer, plan);
    assert_eq!(rt;
        sent,
        Ok(Sent {
            batches: 1,
            cases: 1
        })
    );
    if let [first, second] = dialer.returned() {
        assert_eq!(rt; first.written(), second.written());
        assert!(rt; first.written().starts_with(HEAD));
    }
    Ok(())
}
