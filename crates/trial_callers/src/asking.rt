//! What a caller asks, and what it counts of what it is told.
ghost use Rattle.std.specs.Prelude.{◌≡◌, ◌+◌, ◌<◌, ◌≤◌, ◌^◌, [], ◌∷◌, ◌++◌};
ghost use Rattle.tellers.specs.Exchange.{StandsForSome};
ghost use Rattle.trial_callers.specs.Counting.{IsCounted, WasAsked, had_turn, has_body_of};
ghost use Rattle.trial_callers.specs.Counting.{is_accepted, shows_same};
ghost use Rattle.trial_callers.specs.Working.{HasCreated, HasRead};

use crate::counts::Heard;
use call_forms::{Asked, Standin, Told};
use lists::Bytes;
use std::alloc::{AllocError, Global};
use tellers::Teller;

/// A caller creates so many invocations, whose ids have its number, and then reads the last one of
/// them back so many times.
#[derive(Clone, Copy)]
pub struct Task {
    pub number: u32,
    pub creations: u32,
    pub reads: u32,
}

fn bytes(alloc: Global, text: &str) -> Result<Bytes, AllocError> {
    Ok(Bytes::new(text.as_bytes().to_vec(alloc)?))
}

/// A request of the one user that the configuration has.
fn request(alloc: Global, service: &str, method: &str, body: String) -> Result<Asked, AllocError> {
    Ok(Asked {
        bearer: Some(bytes(alloc, "tok-a")?),
        update_token: None,
        service: bytes(alloc, service)?,
        method: bytes(alloc, method)?,
        body: Bytes::new(body.into_bytes()),
    })
}

/// The creation of a caller's invocation with this index.
fn creation(alloc: Global, number: u32, index: u32) -> Result<Asked, AllocError> {
    let body = format!(in alloc;
        "{{\"invocationId\":\"u-{number}-{index}\",\"invocation\":{{\"realm\":\"proj:ci\"}}}}"
    )?;
    request(alloc, "luci.resultdb.v1.Recorder", "CreateInvocation", body)
}

/// The read of a caller's invocation with this index.
fn reading(alloc: Global, number: u32, index: u32) -> Result<Asked, AllocError> {
    let body = format!(in alloc; "{{\"name\":\"invocations/u-{number}-{index}\"}}")?;
    request(alloc, "luci.resultdb.v1.ResultDB", "GetInvocation", body)
}

/// Whether a call had a turn.
fn had_turn(told: &Told) -> bool
    ensures { result ≡ had_turn told.now }
{
    match told {
        Told::Standin(Standin::Spent) => false,
        Told::Standin(_) | Told::Made(_) => true,
    }
}

fn is_accepted(told: &Told) -> bool
    ensures { result ≡ is_accepted told.now }
{
    match told {
        Told::Made(answer) => answer.status == 200,
        Told::Standin(_) => false,
    }
}

fn has_body_of(told: &Told, other: &Told) -> bool
    ensures { result ≡ has_body_of told.now other.now }
{
    match (told, other) {
        (Told::Made(one), Told::Made(two)) => one.body.as_slice() == two.body.as_slice(),
        _ => false,
    }
}

/// Whether two calls were accepted, and show the same.
fn shows_same(told: &Told, other: &Told) -> bool
    ensures { result ≡ shows_same told.now other.now }
{
    is_accepted(told) && is_accepted(other) && has_body_of(told, other)
}

/// Asks one request.
fn ask<T: Teller>(teller: &mut T, asked: &Asked) -> Told
    requires { StandsForSome T.stands teller.old }
    ensures asked { WasAsked T.stands teller.old teller.new
        (record { asked = asked.now; told = result } ∷ []) }
    ensures again { StandsForSome T.stands teller.new }
{
    teller.tell(asked)
}

/// Creates a caller's invocations, and answers what the last creation was told.
fn create_all<T: Teller>(alloc: Global, teller: &mut T, task: Task) -> (Heard, Told)
    requires { StandsForSome T.stands teller.old }
    ensures created { HasCreated T.stands teller.old teller.new result.0 result.1 }
    ensures again { StandsForSome T.stands teller.new }
    ensures most { result.0.calls ≤ task.creations }
{
    let mut heard = Heard::nothing();
    let mut last = Told::Standin(Standin::Memory);
    for index in 0..task.creations {
        let Ok(asked) = creation(alloc, task.number, index) else {
            break;
        };
        last = ask(teller, &asked);
        heard = heard.with_call(had_turn(&last), is_accepted(&last), false);
    }
    (heard, last)
}

/// Reads one invocation back so many times, and compares what is told with what was told before.
fn read_back<T: Teller>(
    teller: &mut T,
    asked: &Asked,
    reads: u32,
    last: &Told,
    heard: Heard,
) -> Heard
    requires stands { StandsForSome T.stands teller.old }
    requires few { heard.calls < 2 ^ 32 }
    ensures read { HasRead T.stands teller.old teller.new last.now heard result }
    ensures again { StandsForSome T.stands teller.new }
    ensures most { result.calls ≤ heard.calls + reads }
{
    let mut all = heard;
    for index in 0..reads {
        let told = ask(teller, asked);
        all = all.with_call(had_turn(&told), false, shows_same(&told, last));
    }
    all
}

/// Asks all of a task, or less of it for want of memory.
pub fn ask_task<T: Teller>(alloc: Global, teller: &mut T, task: Task) -> Heard
    requires { StandsForSome T.stands teller.old }
    ensures counted { IsCounted T.stands teller.old teller.new result }
    ensures again { StandsForSome T.stands teller.new }
    ensures few { result.calls ≤ 2 ^ 33 }
{
    let (heard, last) = create_all(alloc, teller, task);
    match reading(alloc, task.number, task.creations.saturating_sub(1)) {
        Ok(asked) => read_back(teller, &asked, task.reads, &last, heard),
        Err(AllocError) => heard,
    }
}
