//! New invocations.
ghost use Rattle.std.specs.Prelude.{◌≡◌, ◌+ℤ◌, IfOk, unwrap_or};
ghost use Rattle.invocation_world.specs.World.{IsCallMoment, default_lifetime, new_row};

use invocations::Invocation;
use lists::{Bytes, Listed};
use names_realms::{Moment, Pair, State};
use request_rules::{CreateInvocation, Tag, pairs_from};
use std::alloc::{AllocError, Global};

/// Two days, in microseconds.
const DEFAULT_LIFETIME: i64 = 172_800_000_000;

/// The deadline of an invocation that is made at this moment: the one that is given, or two days
/// later.
fn deadline_from(moment: Moment, given: Option<Moment>) -> Moment
    requires { IsCallMoment moment }
    ensures { result ≡ unwrap_or given (moment +ℤ default_lifetime) }
{
    match given {
        Some(deadline) => deadline,
        None => Moment::new(moment.micros() + DEFAULT_LIFETIME),
    }
}

/// The tags of a request as the pairs that rows keep, where it gives tags.
pub(crate) fn pairs_of(
    alloc: Global,
    tags: Option<Listed<Tag>>,
) -> Result<Option<Listed<Pair>>, AllocError>
    ensures { IfOk result (λ pairs. pairs ≡ tags) }
{
    match tags {
        Some(tags) => Ok(Some(pairs_from(alloc, tags)?)),
        None => Ok(None),
    }
}

/// The invocation that a request makes for a caller of this name at this moment. `Err` where there
/// is no memory.
pub(crate) fn row_of(
    alloc: Global,
    moment: Moment,
    name: &[u8],
    q: CreateInvocation,
) -> Result<Invocation, AllocError>
    requires { IsCallMoment moment }
    ensures { IfOk result (λ row. row ≡ new_row moment name.now q.id
        q.invocation.realm q.invocation.deadline q.invocation.tags) }
{
    let CreateInvocation {
        request_id: _,
        id,
        invocation,
    } = q;
    let creator = Bytes::from_slice(alloc, name)?;
    let tags = pairs_from(alloc, invocation.tags)?;
    Ok(Invocation {
        id,
        realm: invocation.realm,
        creator,
        created: moment,
        deadline: deadline_from(moment, invocation.deadline),
        started: None,
        finished: None,
        state: State::Active,
        tags,
    })
}
