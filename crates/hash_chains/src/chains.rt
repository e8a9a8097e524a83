//! Chains of places with the same hash.
ghost use Rattle.std.specs.Prelude.{◌≡◌, ◌≤◌, ◌<◌, ◌+◌, ◌++◌, ◌∷◌, ℕ, [], Some, OnOk, length, slice_get};
ghost use Rattle.hash_chains.specs.Chains.{IsLast};

use std::alloc::{AllocError, Global};
use std::collections::HashMap;
use std::marker::Model;

/// Places that are found by a hash. Those with the same hash stand in a chain, the latest first.
#[derive(Drop)]
pub struct HashChains {
    /// The last place with each hash.
    latest: HashMap<u64, u32>,
    /// Of each place, the last one before it with its hash.
    earlier: Vec<Option<u32>>,
}

impl Model for HashChains {
    ghost use Rattle.std.specs.Prelude.{◌-◌, min, nat_eq, vec_len, vec_capacity};
    ghost use Rattle.std.specs.HashMap.{get, keys, spare};
    ghost use Rattle.hash_chains.specs.Chains.{ChainsState, IsChained, hashes_in};

    ghost Value = { ChainsState };

    ghost view = { λ c. record {
      hashes = hashes_in (get nat_eq c.latest) c.earlier.items (keys c.latest);
      room = min (spare c.latest) (vec_capacity c.earlier - vec_len c.earlier);
    } };

    ghost invariant = { λ c. IsChained
        (hashes_in (get nat_eq c.latest) c.earlier.items (keys c.latest))
        (get nat_eq c.latest) c.earlier.items };
}

impl HashChains {
    /// No places.
    pub fn new(alloc: Global) -> HashChains
        ensures { result.hashes ≡ [] }
    {
        HashChains {
            latest: HashMap::new(alloc),
            earlier: Vec::new(alloc),
        }
    }

    /// The last place with this hash, or none where no place has it.
    pub fn latest(&self, hash: u64) -> Option<u32>
        ensures { IsLast self.now.hashes (length self.now.hashes) hash result }
    {
        self.latest.get(&hash).copied()
    }

    /// The last place before this one with the same hash, or none where it is the first.
    pub fn earlier(&self, place: u32) -> Option<u32>
        requires { place < length self.now.hashes }
        ensures { (hash : ℕ) → slice_get self.now.hashes place ≡ Some hash
            → IsLast self.now.hashes place hash result }
    {
        self.earlier[place as usize]
    }

    /// Makes room for this many places more. `Err` where there is no memory for them.
    pub fn reserve(&mut self, additional: usize) -> Result<(), AllocError>
        ensures hashes { self.new.hashes ≡ self.old.hashes }
        ensures room { self.old.room ≤ self.new.room }
        ensures enough { OnOk result (additional ≤ self.new.room) }
    {
        self.latest.reserve(additional)?;
        self.earlier.reserve(additional)
    }

    /// Adds the next place, which has this hash. It takes no memory.
    pub fn push(&mut self, hash: u64)
        requires room { 0 < self.old.room }
        requires few { length self.old.hashes < 4_294_967_296 }
        ensures hashes { self.new.hashes ≡ self.old.hashes ++ hash ∷ [] }
        ensures room { self.old.room ≤ self.new.room + 1 }
    {
        let place = self.earlier.len() as u32;
        if let Ok(before) = self.latest.insert(hash, place) {
            self.earlier.push_reserved(before);
        }
    }
}
