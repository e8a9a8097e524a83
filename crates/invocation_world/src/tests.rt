//! Worlds with cycles, chains and deadlines.
ghost use Rattle.std.specs.Prelude.{◌≡◌, ◌<◌, ◌≤ℤ◌, ◌<ℤ◌, pos, All, IfOk};
ghost use Rattle.std.specs.Option.{ForSome};
ghost use Rattle.invocations.specs.Rows.{IsInState};
ghost use Rattle.std.specs.Bool.{OnTrue};
ghost use Rattle.invocation_world.specs.Advancing.{IsQuiet};
ghost use Rattle.invocation_world.specs.World.{IsCallMoment, IsPair, IsRow, latest_deadline};

use crate::InvocationWorld;
use invocations::Invocation;
use lists::{Bytes, Listed};
use names_realms::{InvocationId, Moment, Pair, Realm, State};
use std::alloc::Global;
use std::test::Fail;

/// A step, with its moment behind what it asks for.
#[derive(Clone, Copy)]
enum Step {
    /// A row with an id and a deadline.
    Add(&'static str, u32, u32),
    Include(u32, u32, u32),
    Retire(u32, u32),
    /// One tag, and another deadline, where it isn't 0.
    Update(u32, u32, u32),
    Advance(u32),
}

/// How a row is to stand: its state, its start and its end, which are 0 where it has none.
type Seen = (State, u32, u32);

/// The steps, the rows after them, and the last change.
#[derive(Clone, Copy)]
struct Case {
    steps: &'static [Step],
    rows: &'static [Seen],
    last: u32,
}

const CASES: [Case; 6] = [
    Case {
        steps: &[
            Step::Add("u-a", 90, 1),
            Step::Add("u-b", 90, 1),
            Step::Add("u-c", 90, 2),
            Step::Include(0, 1, 3),
            Step::Include(1, 2, 3),
            Step::Include(2, 0, 3),
            Step::Retire(0, 10),
            Step::Retire(1, 11),
        ],
        rows: &[
            (State::Finalizing, 10, 0),
            (State::Finalizing, 11, 0),
            (State::Active, 0, 0),
        ],
        last: 11,
    },
    Case {
        steps: &[
            Step::Add("u-a", 90, 1),
            Step::Add("u-b", 90, 1),
            Step::Add("u-c", 90, 2),
            Step::Include(0, 1, 3),
            Step::Include(1, 2, 3),
            Step::Include(2, 0, 3),
            Step::Retire(0, 10),
            Step::Retire(1, 11),
            Step::Retire(2, 12),
        ],
        rows: &[
            (State::Finalized, 10, 12),
            (State::Finalized, 11, 12),
            (State::Finalized, 12, 12),
        ],
        last: 12,
    },
    Case {
        steps: &[
            Step::Add("u-a", 90, 1),
            Step::Add("u-b", 90, 1),
            Step::Add("u-c", 90, 2),
            Step::Include(0, 1, 3),
            Step::Include(1, 2, 3),
            Step::Retire(1, 10),
            Step::Retire(2, 11),
            Step::Include(0, 1, 12),
        ],
        rows: &[
            (State::Active, 0, 0),
            (State::Finalized, 10, 11),
            (State::Finalized, 11, 11),
        ],
        last: 11,
    },
    Case {
        steps: &[
            Step::Add("u-x", 30, 1),
            Step::Add("u-y", 40, 1),
            Step::Include(0, 1, 2),
            Step::Advance(29),
            Step::Advance(50),
        ],
        rows: &[(State::Finalized, 30, 40), (State::Finalized, 40, 40)],
        last: 50,
    },
    Case {
        steps: &[
            Step::Add("u-x", 30, 1),
            Step::Add("u-y", 30, 1),
            Step::Add("u-z", 31, 2),
            Step::Include(0, 1, 3),
            Step::Include(1, 0, 3),
            Step::Include(2, 0, 3),
            Step::Advance(30),
        ],
        rows: &[
            (State::Finalized, 30, 30),
            (State::Finalized, 30, 30),
            (State::Active, 0, 0),
        ],
        last: 30,
    },
    Case {
        steps: &[
            Step::Add("u-x", 30, 1),
            Step::Update(0, 60, 4),
            Step::Update(0, 60, 5),
            Step::Update(0, 0, 6),
            Step::Advance(50),
        ],
        rows: &[(State::Active, 0, 0)],
        last: 4,
    },
];

fn moment(number: u32) -> Moment
    ensures value { result ≡ pos number }
    ensures call { IsCallMoment result }
{
    Moment::new(i64::from(number))
}

/// Whether the world can be changed at a moment, with nothing due.
fn is_open(world: &InvocationWorld, at: Moment) -> bool
    ensures later { OnTrue result (world.now.world.last ≤ℤ at) }
    ensures quiet { OnTrue result (IsQuiet world.now.world at) }
{
    world.last() <= at && !world.is_due(at)
}

fn row_of(alloc: Global, id: &str, deadline: u32, created: u32) -> Result<Invocation, Fail>
    requires { created < deadline }
    ensures row { IfOk result (λ row. IsRow (pos created) row) }
    ensures state { IfOk result (λ row. row.state ≡ State.Active) }
    ensures created { IfOk result (λ row. row.created ≡ pos created) }
{
    Ok(Invocation {
        id: InvocationId::parse(alloc, id.as_bytes())?,
        realm: Realm::parse(alloc, b"proj:ci")?,
        creator: Bytes::from_slice(alloc, b"ci")?,
        created: moment(created),
        deadline: moment(deadline),
        started: None,
        finished: None,
        state: State::Active,
        tags: Listed::new(Vec::new(alloc)),
    })
}

/// Adds a row, if that can be. Whether it could.
fn add(
    alloc: Global,
    world: &mut InvocationWorld,
    id: &str,
    deadline: u32,
    created: u32,
) -> Result<bool, Fail> {
    if created >= deadline || !is_open(world, moment(created)) {
        return Ok(false);
    }
    let row = row_of(alloc, id, deadline, created)?;
    if world.prepare_add(alloc, &row.id).is_err() {
        return Ok(false);
    }
    let place = world.add_prepared(row);
    Ok(place + 1 == world.count())
}

/// Whether the row at a place is there, and active.
fn is_active(world: &InvocationWorld, place: u32) -> bool
    ensures { OnTrue result (IsInState State.Active world.now.world.invocations place) }
{
    place < world.count() && world.row(place).state == State::Active
}

/// Makes a row include another, if that can be. Whether it could.
fn include(alloc: Global, world: &mut InvocationWorld, place: u32, target: u32, at: u32) -> bool {
    let at = moment(at);
    if target >= world.count() || !is_active(world, place) || !is_open(world, at) {
        return false;
    }
    match world.prepare_inclusions(alloc, place, &[target]) {
        Ok(plan) => {
            world.include(plan, at);
            true
        }
        Err(_) => false,
    }
}

/// Retires a row, if that can be. Whether it could, and became final at once just where that was
/// told before.
fn retire(world: &mut InvocationWorld, place: u32, at: u32) -> bool {
    let at = moment(at);
    if !is_active(world, place) || !is_open(world, at) {
        return false;
    }
    let told = world.would_be_final(place);
    world.retire(place, at);
    place < world.count() && told == (world.row(place).state == State::Finalized)
}

/// The deadline that is given, where it isn't 0, if it is after a moment.
fn deadline_of(deadline: u32, at: u32) -> Option<Moment>
    ensures { ForSome result (λ given. (pos at <ℤ given) × (given ≤ℤ latest_deadline)) }
{
    if deadline > at {
        Some(moment(deadline))
    } else {
        None
    }
}

/// One tag.
fn tags_of(alloc: Global) -> Option<Listed<Pair>>
    ensures { ForSome result (All IsPair) }
{
    let pair = Pair::read(alloc, b"os", b"linux").ok()?;
    Some(Listed::new(Vec::from_array(alloc, [pair]).ok()?))
}

/// Whether it is told that an update would change a row that is there.
fn would_update(alloc: Global, world: &InvocationWorld, place: u32, given: Option<Moment>) -> bool {
    if place >= world.count() {
        return false;
    }
    let tags = tags_of(alloc);
    world.would_update(place, given, &tags)
}

/// Updates a row, if that can be. Whether it could, and it was told whether that changes the row.
fn update(alloc: Global, world: &mut InvocationWorld, place: u32, deadline: u32, at: u32) -> bool {
    if !is_active(world, place) || !is_open(world, moment(at)) {
        return false;
    }
    let last = world.last();
    let told = would_update(alloc, world, place, deadline_of(deadline, at));
    let tags = tags_of(alloc);
    world.update(place, deadline_of(deadline, at), tags, moment(at));
    told == (world.last() != last)
}

/// Carries out what is due. Whether that could be, and nothing is due any more.
fn advance(world: &mut InvocationWorld, at: u32) -> bool {
    let at = moment(at);
    if world.last() > at {
        return false;
    }
    world.advance(at);
    !world.is_due(at)
}

/// Takes a step. Whether it could be taken.
fn take(alloc: Global, world: &mut InvocationWorld, step: Step) -> Result<bool, Fail> {
    match step {
        Step::Add(id, deadline, at) => add(alloc, world, id, deadline, at),
        Step::Include(place, target, at) => Ok(include(alloc, world, place, target, at)),
        Step::Retire(place, at) => Ok(retire(world, place, at)),
        Step::Update(place, deadline, at) => Ok(update(alloc, world, place, deadline, at)),
        Step::Advance(at) => Ok(advance(world, at)),
    }
}

/// The number of a moment, and 0 where there is none.
fn number(moment: Option<Moment>) -> i64 {
    match moment {
        Some(moment) => moment.micros(),
        None => 0,
    }
}

/// Whether the rows stand like this.
fn stand(rows: &[Invocation], seen: &[Seen]) -> bool {
    for (row, (state, started, finished)) in rows.iter().zip(seen) {
        if row.state != *state
            || number(row.started) != i64::from(*started)
            || number(row.finished) != i64::from(*finished)
        {
            return false;
        }
    }
    rows.len() == seen.len()
}

/// Takes steps. Whether each could be taken, or none.
fn take_all(
    alloc: Global,
    world: &mut InvocationWorld,
    steps: &[Step],
    can: bool,
) -> Result<bool, Fail> {
    for step in steps {
        if take(alloc, world, *step)? != can {
            return Ok(false);
        }
    }
    Ok(true)
}

/// Whether the steps of a case can be taken, and the rows stand as it says.
fn is_right(alloc: Global, world: &mut InvocationWorld, case: &Case) -> Result<bool, Fail> {
    Ok(
        take_all(alloc, world, case.steps, true)?
            && stand(world.rows(), case.rows)
            && world.last() == moment(case.last),
    )
}

/// Whether a case is right from an empty world on.
fn is_right_from_empty(alloc: Global, case: &Case) -> Result<bool, Fail> {
    let mut world = InvocationWorld::new(alloc)?;
    is_right(alloc, &mut world, case)
}

#[test]
fn worlds_go_from_step_to_step(rt: HostRuntime) -> Result<(), Fail> {
    for case in &CASES {
        assert!(rt; is_right_from_empty(rt.alloc(), case)?);
    }
    Ok(())
}

/// The place of the row with an id.
fn find(alloc: Global, world: &InvocationWorld, id: &str) -> Result<Option<u32>, Fail> {
    let id = InvocationId::parse(alloc, id.as_bytes())?;
    Ok(world.find(&id))
}

/// Whether of three rows the second is found by its id, and the third includes the first alone.
fn are_told(alloc: Global, world: &InvocationWorld) -> Result<bool, Fail> {
    Ok(
        find(alloc, world, "u-b")? == Some(1)
            && find(alloc, world, "u-d")?.is_none()
            && world.count() == 3
            && world.table().rows().len() == 3
            && world.inclusion_count() == 3
            && world.included(2) == [0].as_slice(),
    )
}

/// Steps that can't be taken after those of the first case: a taken id, an inclusion in itself,
/// and the retirement of a row that isn't active.
const REFUSED: [Step; 3] = [
    Step::Add("u-b", 90, 20),
    Step::Include(2, 2, 20),
    Step::Retire(0, 20),
];

/// Whether after a case these steps can't be taken, and the rows are told.
fn are_refused(alloc: Global, case: &Case, refused: &[Step]) -> Result<bool, Fail> {
    let mut world = InvocationWorld::new(alloc)?;
    are_refused_then(alloc, &mut world, case, refused)
}

fn are_refused_then(
    alloc: Global,
    world: &mut InvocationWorld,
    case: &Case,
    refused: &[Step],
) -> Result<bool, Fail> {
    Ok(
        is_right(alloc, world, case)?
            && take_all(alloc, world, refused, false)?
            && are_told(alloc, world)?,
    )
}

#[test]
fn rows_and_inclusions_are_told(rt: HostRuntime) -> Result<(), Fail> {
    assert!(rt; are_refused(rt.alloc(), &CASES[0], &REFUSED)?);
    Ok(())
}
