//! The places of results, found by a hash of their keys.
ghost use Rattle.std.specs.Prelude.{◌≡◌, ◌↔◌, IsTrue, MatchOption};
ghost use Rattle.test_results.specs.Hashes.{IsHashed, hash_of};
ghost use Rattle.test_results.specs.Results.{HasKey, IsPlaceOf, key_of, named};

use crate::result::TestResult;
use hash_chains::HashChains;
use std::hash::{DefaultHasher, Hasher};

/// The hash of a key. It is SipHash, and not the map's own fast hash: who uploads picks the ids,
/// and many ids with one SipHash, which would make a long chain, are hard to find.
fn hash_of(holder: u32, test: &str, id: &str) -> u64
    ensures { result ≡ hash_of (named holder test.now id.now) }
{
    let mut hasher = DefaultHasher::new();
    hasher.write_u32(holder);
    hasher.write(test.as_bytes());
    hasher.write_u8(0xff);
    hasher.write(id.as_bytes());
    hasher.finish()
}

/// The hash of the key of a row.
pub(crate) fn hash_of_row(row: &TestResult) -> u64
    ensures { result ≡ hash_of (key_of row.now) }
{
    hash_of(row.holder, row.test.as_str(), row.result.as_str())
}

/// Whether a row has this key.
fn has_key(row: &TestResult, holder: u32, test: &str, id: &str) -> bool
    ensures { IsTrue result ↔ (key_of row.now ≡ named holder test.now id.now) }
{
    row.holder == holder && row.test.as_str() == test && row.result.as_str() == id
}

/// The place of the row with a key, or none where no row has it.
pub(crate) fn find_key(
    rows: &[TestResult],
    chains: &HashChains,
    holder: u32,
    test: &str,
    id: &str,
) -> Option<u32>
    requires { IsHashed rows.now chains.now }
    ensures { MatchOption result (¬ HasKey rows.now (named holder test.now id.now))
        (IsPlaceOf rows.now (named holder test.now id.now)) }
{
    let mut next = chains.latest(hash_of(holder, test, id));
    while let Some(place) = next {
        if has_key(&rows[place as usize], holder, test, id) {
            return Some(place);
        }
        next = chains.earlier(place);
    }
    None
}
