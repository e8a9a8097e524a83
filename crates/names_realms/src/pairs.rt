//! Pairs of a key and a value.
ghost use Rattle.std.specs.Prelude.{◌≡◌, ◌≢◌, ◌≤◌, length, IfOk, IfErr, IfSome, Some};
ghost use Rattle.name_parts.specs.Parts.{place_of};
ghost use Rattle.names_realms.specs.Pairs.{IsPairKey, IsPairValue, pair_fault, pair_value_fault, utf8_place};

use name_parts::{Bytes, NameFault, PartForm, fault_of_part, limited, utf8_len};
use std::alloc::{AllocError, AllocFailed, Global};

/// A key and a value, of a variant or a tag.
#[derive(Debug, Drop)]
pub struct Pair {
    pub key: Bytes,
    pub value: Bytes,
}

/// Why two texts are no pair.
#[derive(Clone, Copy, Debug, PartialEq, Eq)]
pub enum PairFault {
    /// What is wrong with the key.
    Key(NameFault),
    /// The key is right, and this is wrong with the value.
    Value(NameFault),
    /// There was no memory for the pair. Of the texts nothing is said.
    Memory,
}

impl From<AllocError> for PairFault {
    ghost use Rattle.std.specs.Prelude.{◌≡◌};
    ghost use Rattle.names_realms.specs.declared.pairs.PairFault.TheVariants.{Memory};

    ghost from_gives = { λ _ e. e ≡ Memory };

    fn from(_e: AllocError) -> PairFault {
        PairFault::Memory
    }
}

impl<T: Drop> From<AllocFailed<T>> for PairFault {
    ghost use Rattle.std.specs.Prelude.{◌≡◌};
    ghost use Rattle.names_realms.specs.declared.pairs.PairFault.TheVariants.{Memory};

    ghost from_gives = { λ _ e. e ≡ Memory };

    fn from(_e: AllocFailed<T>) -> PairFault {
        PairFault::Memory
    }
}

/// The first place where no UTF-8 goes on.
fn bad_in_utf8(text: &[u8]) -> Option<usize>
    ensures place { result ≡ utf8_place text.now }
    ensures within { IfSome result (λ place. place ≤ length text.now) }
{
    let good = utf8_len(text);
    if good == text.len() { None } else { Some(good) }
}

/// What is wrong with a value.
fn fault_of_value(value: &[u8]) -> Option<NameFault>
    ensures { result ≡ pair_value_fault value.now }
{
    limited(256, value.len(), bad_in_utf8(value))
}

/// What is wrong with a pair, with the key first.
fn fault_of_pair(key: &[u8], value: &[u8]) -> Option<PairFault>
    ensures { result ≡ pair_fault key.now value.now }
{
    if let Some(fault) = fault_of_part(PartForm::PairKey, key) {
        return Some(PairFault::Key(fault));
    }
    match fault_of_value(value) {
        Some(fault) => Some(PairFault::Value(fault)),
        None => None,
    }
}

impl Pair {
    /// Reads a pair: a key `[a-z][a-z0-9_]*(/[a-z][a-z0-9_]*)*` of at most 64 bytes, and a value of
    /// at most 256 bytes of UTF-8, which may be empty. The key is judged first. `Memory` where
    /// there is none for the pair.
    pub fn read(alloc: Global, key: &[u8], value: &[u8]) -> Result<Pair, PairFault>
        ensures ok { IfOk result (λ p. (p.key ≡ key.now) × (p.value ≡ value.now)) }
        ensures grammar { IfOk result (λ _. IsPairKey key.now × IsPairValue value.now) }
        ensures refused { IfErr result
            (λ f. f ≢ PairFault.Memory → ¬ (IsPairKey key.now × IsPairValue value.now)) }
        ensures fault { IfErr result
            (λ f. f ≢ PairFault.Memory → pair_fault key.now value.now ≡ Some f) }
    {
        if let Some(fault) = fault_of_pair(key, value) {
            return Err(fault);
        }
        let key = Bytes::from_slice(alloc, key)?;
        let value = Bytes::from_slice(alloc, value)?;
        Ok(Pair { key, value })
    }
}
