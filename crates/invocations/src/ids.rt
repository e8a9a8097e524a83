//! The places of rows, found by a hash of their ids.
ghost use Rattle.std.specs.Prelude.{◌≡◌, ◌↔◌, IsTrue, MatchOption};
ghost use Rattle.invocations.specs.Hashes.{IsHashed, hash_of};
ghost use Rattle.invocations.specs.Rows.{HasId, IsPlaceOf};

use crate::invocation::Invocation;
use hash_chains::HashChains;
use names_realms::InvocationId;
use std::hash::{DefaultHasher, Hasher};

/// The hash of an id. It is SipHash, and not the map's own fast hash: who creates invocations picks
/// the ids, and many ids with one SipHash, which would make a long chain, are hard to find.
pub(crate) fn hash_of(id: &InvocationId) -> u64
    ensures { result ≡ hash_of id.now }
{
    let mut hasher = DefaultHasher::new();
    hasher.write(id.as_str().as_bytes());
    hasher.finish()
}

/// Whether a row has this id.
fn has_id(row: &Invocation, id: &InvocationId) -> bool
    ensures { IsTrue result ↔ (row.now.id ≡ id.now) }
{
    row.id.as_str() == id.as_str()
}

/// The place of the row with an id, or none where no row has it.
pub(crate) fn find_id(rows: &[Invocation], chains: &HashChains, id: &InvocationId) -> Option<u32>
    requires { IsHashed rows.now chains.now }
    ensures { MatchOption result (¬ HasId rows.now id.now) (IsPlaceOf rows.now id.now) }
{
    let mut next = chains.latest(hash_of(id));
    while let Some(place) = next {
        if has_id(&rows[place as usize], id) {
            return Some(place);
        }
        next = chains.earlier(place);
    }
    None
}
