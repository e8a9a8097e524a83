//! The upload of requests over links that break.
ghost use Rattle.std.specs.Prelude.{◌≡◌, ◌≤◌, ◌<◌, ◌+◌, ◌^◌, List, length, drop, IfOk};
ghost use Rattle.sink_uploads.specs.Runs.{Runs, begun, still, IsAdvanced};
ghost use Rattle.sink_uploads.specs.Dialled.{Dial};

use crate::dial::dial;
use crate::visit::{Parting, Visited};
use dialers::Dialer;
use lists::Bytes;
use std::alloc::Global;

/// The most faults and ends on one request.
const MOST: u64 = 5;

/// Why an upload ended before each batch was answered. Batches are counted from 1.
#[derive(Clone, Copy, Debug, PartialEq, Eq)]
pub enum SinkFault {
    /// So many calls failed, and so many links ended or took nothing, in the tries of one batch:
    /// five together.
    GaveUp { batch: u64, faults: u64, ends: u64 },
    /// A whole reply of another status than 200 was read.
    Refused { batch: u64, status: u16 },
    /// There was no memory.
    Memory,
    /// The first `end` bytes that came for the reply begin none.
    BadReply { batch: u64, end: usize },
}

/// What was sent.
#[derive(Clone, Copy, Debug, PartialEq, Eq)]
pub struct Sent {
    /// How many batches.
    pub batches: u64,
    /// How many cases they have together.
    pub cases: u64,
}

/// How far an upload has come: how many requests were answered, and what befell the next one.
#[derive(Clone, Copy)]
pub struct Course {
    pub done: usize,
    pub faults: u64,
    pub ends: u64,
}

/// Uploads requests, one after the other, and dials until each is answered. Then it says what was
/// sent.
///
/// A request begins anew on the next link where its link broke. `GaveUp` comes at five faults and
/// ends on one request, `Refused` and `BadReply` at the first reply that is another or none.
pub fn upload_requests<X: Dialer>(
    alloc: Global,
    dialer: &mut X,
    requests: &[Bytes],
    sent: Sent,
) -> Result<Sent, SinkFault>
    ensures runs { (dials : List (Dial X.L)) × Runs X.L.ends requests.now begun
        (X.dials dialer.old) dials result (X.dials dialer.new) }
    ensures sent { IfOk result (λ s. s ≡ sent) }
{
    let mut course = Course {
        done: 0,
        faults: 0,
        ends: 0,
    };
    'dials: while course.done < requests.len() {
        if course.faults + course.ends >= MOST {
            return Err(given_up(course));
        }
        let rest = behind(requests, course.done);
        let Ok(visited) = dial(alloc, dialer, rest) else {
            return Err(SinkFault::Memory);
        };
        match advanced(course, visited) {
            Ok(next) => course = next,
            Err(fault) => return Err(fault),
        }
    }
    Ok(sent)
}

/// The requests behind the first ones.
fn behind(requests: &[Bytes], done: usize) -> &[Bytes]
    requires { done ≤ length requests.now }
    ensures { result.now ≡ drop done requests.now }
{
    &requests[done..]
}

fn given_up(course: Course) -> SinkFault
    requires { course.done < 2 ^ 63 }
    ensures { result ≡ SinkFault.GaveUp (course.done + 1) course.faults course.ends }
{
    SinkFault::GaveUp {
        batch: course.done as u64 + 1,
        faults: course.faults,
        ends: course.ends,
    }
}

/// The faults and ends that befell the next request, where so many were answered since.
fn befell(course: Course, answered: usize) -> (u64, u64)
    ensures faults { result.0 ≡ still answered course.faults }
    ensures ends { result.1 ≡ still answered course.ends }
{
    match answered {
        0 => (course.faults, course.ends),
        _ => (0, 0),
    }
}

/// The course behind a visit, or why it ends there.
fn advanced(course: Course, visited: Visited) -> Result<Course, SinkFault>
    requires few { course.faults + course.ends < 5 }
    requires short { course.done + visited.answered < 2 ^ 63 }
    ensures { IsAdvanced course visited result }
{
    let done = course.done + visited.answered;
    let batch = done as u64 + 1;
    let (faults, ends) = befell(course, visited.answered);
    match visited.parting {
        Parting::Done => Ok(Course { done, faults, ends }),
        Parting::Fault => Ok(Course {
            done,
            faults: faults + 1,
            ends,
        }),
        Parting::End => Ok(Course {
            done,
            faults,
            ends: ends + 1,
        }),
        Parting::Refused { status } => Err(SinkFault::Refused { batch, status }),
        Parting::BadReply { end } => Err(SinkFault::BadReply { batch, end }),
    }
}
