//! The rows of a batch are planned, and moved into it from the request.
ghost use Rattle.std.specs.Prelude.{◌≡◌, ◌≢◌, ◌<◌, ◌≤◌, ◌⊎◌, [], IfOk, MatchOption, length};
ghost use Rattle.test_results.specs.Batches.{AreFree, IsTaken, given};
ghost use Rattle.test_results.specs.Exonerations as exonerations;
ghost use Rattle.service_effects.specs.declared.effect.Effect.TheVariants as does;
ghost use Rattle.service_effects.specs.Planned.{IsRoomPlanned, IsTakenName};
ghost use Rattle.service_effects.specs.States.{IsRoomier, recorded_in};

use crate::effect::{Effect, Planned};
use crate::faults::{EffectFault, FullTable};
use crate::names::name_of;
use crate::tables::Tables;
use lists::Bytes;
use std::alloc::{AllocError, Global};
use test_results::{BatchFault, ResultRows, TestExoneration, TestResult};

/// How many rows a batch may have.
const MOST_OF_BATCH: usize = 500;

/// The place in a batch of the first row whose ids a result of the holder has.
fn first_taken(results: &ResultRows, holder: u32, rows: &[TestResult]) -> Option<usize>
    ensures { MatchOption result
        (AreFree results.now.rows (given holder rows.now) (length rows.now))
        (IsTaken results.now.rows (given holder rows.now)) }
{
    for (at, row) in rows.iter().enumerate() {
        if results.find(holder, &row.test, &row.result).is_some() {
            return Some(at);
        }
    }
    None
}

/// The name of the first row of a batch that a result of the holder has. `Err` where there is no
/// memory for it.
fn taken_name(
    alloc: Global,
    tables: &Tables,
    holder: u32,
    rows: &[TestResult],
) -> Result<Option<Bytes>, AllocError>
    requires { holder < length tables.now.world.world.invocations }
    ensures { IfOk result (IsTakenName (recorded_in tables.now) (given holder rows.now)) }
{
    if rows.len() > MOST_OF_BATCH {
        return Ok(None);
    }
    let Some(at) = first_taken(&tables.results, holder, rows) else {
        return Ok(None);
    };
    let name = name_of(alloc, &tables.world.row(holder).id, &rows[at])?;
    Ok(Some(Bytes::new(name)))
}

/// Plans test results of an invocation, which are at least one.
pub fn plan_results(
    alloc: Global,
    tables: &mut Tables,
    holder: u32,
    rows: Vec<TestResult>,
) -> Result<Planned, AllocError>
    requires there { holder < length tables.old.world.world.invocations }
    requires some { rows.items ≢ [] }
    ensures roomier { IsRoomier tables.old tables.new }
    ensures planned { IfOk result (IsRoomPlanned tables.new
        (does.Results (given holder rows.items))) }
{
    let name = taken_name(alloc, tables, holder, rows.as_slice())?;
    match tables.results.prepare_batch(alloc, holder, rows) {
        Ok(batch) => Ok(Planned::Ready(Effect::Results(batch))),
        Err(BatchFault::TooMany { count }) => Ok(Planned::Refused(EffectFault::TooMany { count })),
        Err(BatchFault::Repeated { first, second }) => {
            Ok(Planned::Refused(EffectFault::Repeated { first, second }))
        }
        Err(BatchFault::Taken { .. }) => match name {
            Some(name) => Ok(Planned::Refused(EffectFault::Taken { name })),
            None => unreachable!(),
        },
        Err(BatchFault::Full { count }) => {
            Ok(Planned::Refused(EffectFault::Full(FullTable::Results { count })))
        }
        Err(BatchFault::Memory) => Err(AllocError),
    }
}

/// Plans exonerations of an invocation, which are at least one.
pub fn plan_exonerations(
    alloc: Global,
    tables: &mut Tables,
    holder: u32,
    rows: Vec<TestExoneration>,
) -> Result<Planned, AllocError>
    requires { rows.items ≢ [] }
    ensures roomier { IsRoomier tables.old tables.new }
    ensures planned { IfOk result (IsRoomPlanned tables.new
        (does.Exonerations (exonerations.given holder
        (length (exonerations.places_in tables.old.exonerations.rows holder)) rows.items))) }
{
    match tables.exonerations.prepare_batch(alloc, holder, rows) {
        Ok(batch) => Ok(Planned::Ready(Effect::Exonerations(batch))),
        Err(BatchFault::TooMany { count }) => Ok(Planned::Refused(EffectFault::TooMany { count })),
        Err(BatchFault::Full { count }) => {
            Ok(Planned::Refused(EffectFault::Full(FullTable::Exonerations { count })))
        }
        Err(BatchFault::Memory) => Err(AllocError),
        Err(BatchFault::Repeated { .. }) => unreachable!(),
        Err(BatchFault::Taken { .. }) => unreachable!(),
    }
}
