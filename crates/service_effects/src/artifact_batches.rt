//! The artifacts of a batch are planned, and moved into it from the request.
ghost use Rattle.std.specs.Prelude.{◌≢◌, ◌<◌, ◌≤◌, [], IfOk, MatchOption, length};
ghost use Rattle.artifacts.specs.Batches.{AreFree, IsTaken, given, of_holder};
ghost use Rattle.service_effects.specs.declared.effect.Effect.TheVariants as does;
ghost use Rattle.service_effects.specs.Planned.{IsRoomPlanned, IsTakenFile};
ghost use Rattle.service_effects.specs.States.{IsRoomier, recorded_in};

use crate::effect::{Effect, Planned};
use crate::faults::{EffectFault, FullTable};
use crate::tables::Tables;
use artifacts::{Artifact, ArtifactFault, ArtifactRows, Digested};
use lists::Bytes;
use std::alloc::{AllocError, Global};

/// How many rows a batch may have.
const MOST_OF_BATCH: usize = 500;

/// The place in a batch of the first artifact whose name one of the holder has.
fn first_taken(table: &ArtifactRows, holder: u32, rows: &[Artifact]) -> Option<usize>
    ensures { MatchOption result
        (AreFree table.now.rows (given holder rows.now) (length rows.now))
        (IsTaken table.now.rows (given holder rows.now)) }
{
    for (at, row) in rows.iter().enumerate() {
        if table.find(holder, &row.name).is_some() {
            return Some(at);
        }
    }
    None
}

/// The name of the first artifact of a batch that one of the holder has. `Err` where there is no
/// memory for it.
fn taken_name(
    alloc: Global,
    tables: &Tables,
    holder: u32,
    rows: &[Artifact],
) -> Result<Option<Bytes>, AllocError>
    ensures { IfOk result (IsTakenFile (recorded_in tables.now) (given holder rows.now)) }
{
    if rows.len() > MOST_OF_BATCH {
        return Ok(None);
    }
    let Some(at) = first_taken(&tables.artifacts, holder, rows) else {
        return Ok(None);
    };
    let mut name = Vec::new(alloc);
    rows[at].name.write_to(alloc, &mut name)?;
    Ok(Some(Bytes::new(name)))
}

/// Plans artifacts of an invocation, which are at least one.
pub fn plan_artifacts(
    alloc: Global,
    tables: &mut Tables,
    holder: u32,
    rows: Digested,
) -> Result<Planned, AllocError>
    requires { rows.rows ≢ [] }
    ensures roomier { IsRoomier tables.old tables.new }
    ensures planned { IfOk result (IsRoomPlanned tables.new
        (does.Artifacts (of_holder holder rows))) }
{
    let name = taken_name(alloc, tables, holder, rows.rows())?;
    match tables.artifacts.prepare_batch(alloc, holder, rows) {
        Ok(batch) => Ok(Planned::Ready(Effect::Artifacts(batch))),
        Err(ArtifactFault::TooMany { count }) => {
            Ok(Planned::Refused(EffectFault::TooMany { count }))
        }
        Err(ArtifactFault::Repeated { first, second }) => {
            Ok(Planned::Refused(EffectFault::Repeated { first, second }))
        }
        Err(ArtifactFault::SizeWrong { index, said, found }) => {
            Ok(Planned::Refused(EffectFault::SizeWrong { index, said, found }))
        }
        Err(ArtifactFault::HashWrong { index, said, found }) => {
            Ok(Planned::Refused(EffectFault::HashWrong { index, said, found }))
        }
        Err(ArtifactFault::Taken { .. }) => match name {
            Some(name) => Ok(Planned::Refused(EffectFault::Taken { name })),
            None => unreachable!(),
        },
        Err(ArtifactFault::Full { count }) => {
            Ok(Planned::Refused(EffectFault::Full(FullTable::Artifacts { count })))
        }
        Err(ArtifactFault::Memory) => Err(AllocError),
    }
}
