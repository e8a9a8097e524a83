//! What is kept of a numbered request.
ghost use Rattle.std.specs.Prelude.{◌≡◌, IfOk};
ghost use Rattle.call_forms.specs.declared.asked.Asked.{Asked};
ghost use Rattle.request_rules.specs.RequestDemands.Demands.{demand_of};
ghost use Rattle.request_rules.specs.RequestDemands.Understood.{IsDigested};
ghost use Rattle.service_effects.specs.Fitting.{HasRoom};
ghost use Rattle.service_effects.specs.States.{recorded_in};
ghost use Rattle.request_effects.specs.Keeps.{answer_kept, kept_of, numbered_of};

use kept_replies::{KeptAnswer, KeptReply};
use lists::{Bytes, Listed};
use names_realms::Pair;
use request_rules::{Call, Demand, demand_of};
use service_effects::{Effect, Tables};
use std::alloc::{AllocError, Global};

/// The number of a request, and the digest by which a repeat of it is known.
#[derive(Drop)]
pub struct Numbered {
    pub number: Bytes,
    pub digest: [u8; 32],
}

/// The number in a demand, with this digest, where it has one. `Err` where there is no memory for
/// it.
pub fn numbered_in(
    alloc: Global,
    demand: &Demand,
    digest: &Option<[u8; 32]>,
) -> Result<Option<Numbered>, AllocError>
    ensures { (asked : Asked) → IsDigested asked demand.now digest.now
        → IfOk result (λ numbered. numbered ≡ numbered_of asked demand.now) }
{
    let Some(digest) = digest else {
        return Ok(None);
    };
    let Some(number) = demand.number else {
        return Ok(None);
    };
    let number = Bytes::from_slice(alloc, number.as_str().as_bytes())?;
    Ok(Some(Numbered {
        number,
        digest: *digest,
    }))
}

/// The number of a call, where it has one. `Err` where there is no memory for it.
pub fn numbered_of(alloc: Global, call: &Call) -> Result<Option<Numbered>, AllocError>
    ensures { (asked : Asked) → IsDigested asked (demand_of call.now.request) call.now.digest
        → IfOk result (λ numbered. numbered ≡ numbered_of asked (demand_of call.now.request)) }
{
    numbered_in(alloc, &demand_of(&call.request), &call.digest)
}

/// A copy of a pair.
fn copied_pair(alloc: Global, pair: &Pair) -> Result<Pair, AllocError>
    ensures { IfOk result (λ copy. copy ≡ pair.now) }
{
    let key = Bytes::from_slice(alloc, pair.key.as_slice())?;
    let value = Bytes::from_slice(alloc, pair.value.as_slice())?;
    Ok(Pair { key, value })
}

/// A copy of pairs, in their order.
fn copied_pairs(alloc: Global, pairs: &[Pair]) -> Result<Listed<Pair>, AllocError>
    ensures { IfOk result (λ copy. copy ≡ pairs.now) }
{
    let mut copies = Vec::with_capacity(alloc, pairs.len())?;
    for pair in pairs {
        copies.push(copied_pair(alloc, pair)?)?;
    }
    Ok(Listed::new(copies))
}

/// What is kept of the answer to a request that has this effect.
fn answer_kept(
    alloc: Global,
    tables: &Tables,
    effect: &Effect,
) -> Result<Option<KeptAnswer>, AllocError>
    requires { HasRoom tables.now effect.now }
    ensures { IfOk result (λ kept. kept ≡ answer_kept (recorded_in tables.now) effect.now) }
{
    match effect {
        Effect::Add(row) => {
            let tags = copied_pairs(alloc, row.tags.as_slice())?;
            Ok(Some(KeptAnswer::Created {
                place: tables.world.count(),
                deadline: row.deadline,
                tags,
            }))
        }
        Effect::Nothing => Ok(None),
        Effect::Update { .. } => Ok(None),
        Effect::End(_) => Ok(None),
        Effect::Include(_) => Ok(None),
        Effect::Results(batch) => Ok(Some(KeptAnswer::Results {
            first: tables.results.count(),
            count: batch.rows().len() as u32,
        })),
        Effect::Exonerations(batch) => Ok(Some(KeptAnswer::Exonerations {
            first: tables.exonerations.count(),
            count: batch.rows().len() as u32,
        })),
        Effect::Artifacts(batch) => Ok(Some(KeptAnswer::Artifacts {
            first: tables.artifacts.count(),
            count: batch.rows().len() as u32,
        })),
    }
}

/// What is kept of a request of a caller of this name that has this effect, for which there is
/// room: nothing where it has no number. `Err` where there is no memory for it.
pub fn keep_of(
    alloc: Global,
    tables: &Tables,
    name: &[u8],
    numbered: Option<Numbered>,
    effect: &Effect,
) -> Result<Option<KeptReply>, AllocError>
    requires { HasRoom tables.now effect.now }
    ensures { IfOk result (λ keep. keep
        ≡ kept_of (recorded_in tables.now) name.now numbered effect.now) }
{
    let Some(numbered) = numbered else {
        return Ok(None);
    };
    let Some(answer) = answer_kept(alloc, tables, effect)? else {
        return Ok(None);
    };
    let caller = Bytes::from_slice(alloc, name)?;
    let digest = numbered.digest;
    Ok(Some(KeptReply {
        caller,
        number: numbered.number,
        digest,
        answer,
    }))
}
