//! Variants of tests, and their labels.
ghost use Rattle.std.specs.Prelude.{◌≡◌, ◌≢◌, ◌++◌, ◌≤◌, ◌<◌, ℕ, List, ◌∷◌, [], take, drop, length, slice_get, true};
ghost use Rattle.std.specs.Prelude.{IsPermutation, IfOk, IfErr, IfSome, Some, map};
ghost use Rattle.std.specs.List.{flat_map};
ghost use Rattle.sha2.specs.Sha256.{sha256};
ghost use Rattle.sha2.specs.Hashers.{Holds256};
ghost use Rattle.names_realms.specs.declared.pairs.Pair.{Pair};
ghost use Rattle.names_realms.specs.Variants.{IsAscending, IsFirstRepeat, label_of, pair_bytes, pair_of};

use crate::pairs::Pair;
use name_parts::{Bytes, NameFault};
use sha2::{Digest, Sha256};
use std::alloc::{AllocError, Global};
use std::cmp::Ordering;
use std::collections::BTreeMap;
use std::marker::Model;

/// The pairs of a variant, in the order of their keys as bytes. No key stands twice. Its label can
/// be kept with it, since each page that shows or orders it asks for it.
#[derive(Debug, Drop)]
pub struct Variant {
    pairs: Vec<Pair>,
    label: Option<[u8; 16]>,
}

impl Model for Variant {
    ghost use Rattle.std.specs.Prelude.{List};
    ghost use Rattle.names_realms.specs.declared.pairs.Pair.{Pair};
    ghost use Rattle.std.specs.Prelude.{◌≡◌, IfSome};
    ghost use Rattle.names_realms.specs.Variants.{IsAscending, label_of};

    ghost Value = { List Pair };

    ghost view = { λ v. v.pairs.items };

    ghost invariant = { λ v. IsAscending v.pairs.items
        × IfSome v.label (λ label. label ≡ label_of v.pairs.items) };
}

/// Keys with their values, in the order of the keys, as pairs.
fn in_order(alloc: Global, sorted: BTreeMap<Vec<u8>, Bytes>) -> Result<Vec<Pair>, AllocError>
    ensures { IfOk result (λ pairs. pairs.items ≡ map pair_of sorted.entries) }
{
    sorted
        .into_iter()
        .map(|(key, value)| Pair {
            key: Bytes::new(key),
            value,
        })
        .collect(alloc)
}

/// Whether the keys of pairs rise.
fn are_rising(pairs: &[Pair]) -> bool
    ensures { result ≡ true → IsAscending pairs.now }
{
    let Some((first, rest)) = pairs.split_first() else {
        return true;
    };
    let mut last = first;
    for pair in rest {
        if last.key.as_slice().cmp(pair.key.as_slice()) != Ordering::Less {
            return false;
        }
        last = pair;
    }
    true
}

/// Whether two pairs are equal.
fn is_same(left: &Pair, right: &Pair) -> bool
    ensures { result ≡ true → left.now ≡ right.now }
{
    left.key.as_slice() == right.key.as_slice() && left.value.as_slice() == right.value.as_slice()
}

/// Whether two lists of pairs are equal.
fn are_same(left: &[Pair], right: &[Pair]) -> bool
    ensures { result ≡ true → left.now ≡ right.now }
{
    if left.len() != right.len() {
        return false;
    }
    for i in 0..left.len() {
        if !is_same(&left[i], &right[i]) {
            return false;
        }
    }
    true
}

/// Feeds one pair to a hasher.
fn feed_pair(hasher: &mut Sha256, pair: &Pair)
    ensures { (m : List ℕ) → Holds256 hasher.old m
        → Holds256 hasher.new (m ++ pair_bytes pair.now) }
{
    hasher.update(pair.key.as_slice());
    hasher.update(b":");
    hasher.update(pair.value.as_slice());
    hasher.update(b"\n");
}

/// The digest of the pairs.
fn pairs_digest(pairs: &[Pair]) -> [u8; 32]
    ensures { result ≡ sha256 (flat_map pair_bytes pairs.now) }
{
    let mut hasher = Sha256::new();
    for i in 0..pairs.len() {
        feed_pair(&mut hasher, &pairs[i]);
    }
    hasher.finalize()
}

/// Writes bytes over a slice as long.
fn fill(room: &mut [u8], bytes: &[u8])
    requires { length bytes.now ≡ length room.old }
    ensures { room.new ≡ bytes.now }
{
    room.copy_from_slice(bytes);
}

/// The first 16 digits of the digest of pairs.
#[tactic(auto, unfolding(crate::specs::Variants::label_of))]
fn label_text(pairs: &[Pair]) -> [u8; 16]
    ensures { result ≡ label_of pairs.now }
{
    let code = pairs_digest(pairs);
    let mut text = [0u8; 64];
    let _ = hex::encode_to_slice(code.as_slice(), &mut text);
    let mut out = [0u8; 16];
    fill(&mut out, &text[..16]);
    out
}

impl Variant {
    /// The variant of pairs whose keys rise.
    fn of_rising(pairs: Vec<Pair>) -> Variant
        requires { IsAscending pairs.items }
        ensures { result ≡ pairs.items }
    {
        Variant { pairs, label: None }
    }

    /// The variant of pairs in any order.
    fn put_in_order(alloc: Global, pairs: Vec<Pair>) -> Result<Variant, NameFault>
        ensures ok { IfOk result (λ v. IsPermutation pairs.items v × IsAscending v) }
        ensures fault { IfErr result
            (λ f. f ≢ NameFault.Memory
            → (at : ℕ) × (f ≡ NameFault.NotCanonical at) × IsFirstRepeat pairs.items at) }
    {
        let mut sorted = BTreeMap::new(alloc);
        for pair in pairs {
            let Pair { key, value } = pair;
            if sorted.insert(key.into_vec(), value)?.is_some() {
                return Err(NameFault::NotCanonical { at: sorted.len() });
            }
        }
        let pairs = in_order(alloc, sorted)?;
        Ok(Variant::of_rising(pairs))
    }

    /// The variant of these pairs, in the order of their keys. `NotCanonical` at the first place,
    /// counted from 0, whose key an earlier pair has; `Memory` where there is none for the order.
    pub fn from_pairs(alloc: Global, pairs: Vec<Pair>) -> Result<Variant, NameFault>
        ensures ok { IfOk result (λ v. IsPermutation pairs.items v × IsAscending v) }
        ensures fault { IfErr result
            (λ f. f ≢ NameFault.Memory
            → (at : ℕ) × (f ≡ NameFault.NotCanonical at) × IsFirstRepeat pairs.items at) }
    {
        if are_rising(pairs.as_slice()) {
            return Ok(Variant::of_rising(pairs));
        }
        Variant::put_in_order(alloc, pairs)
    }

    /// The pairs, in the order of their keys.
    pub fn as_slice(&self) -> &[Pair]
        ensures pairs { result.now ≡ self.now }
        ensures ascending { IsAscending self.now }
    {
        self.pairs.as_slice()
    }

    /// The label: the first 16 hexadecimal digits of SHA-256 over `key`, `:`, `value` and a newline
    /// of each pair in order.
    pub fn label(&self) -> [u8; 16]
        ensures { result ≡ label_of self.now }
    {
        match self.label {
            Some(label) => label,
            None => label_text(self.pairs.as_slice()),
        }
    }

    /// The label that this variant keeps, where that one has the same pairs.
    fn label_for(&self, other: &Variant) -> Option<[u8; 16]>
        ensures { IfSome result (λ label. label ≡ label_of other.now) }
    {
        if are_same(self.pairs.as_slice(), other.pairs.as_slice()) {
            self.label
        } else {
            None
        }
    }

    /// Keeps the label from now on: the one that another variant keeps, where it has the same
    /// pairs, as those that are recorded side by side mostly have, and else a new one.
    pub fn keep_label(&mut self, other: Option<&Variant>)
        ensures { self.new ≡ self.old }
    {
        let found = match other {
            Some(other) => other.label_for(self),
            None => None,
        };
        let label = match found {
            Some(label) => label,
            None => label_text(self.pairs.as_slice()),
        };
        self.label = Some(label);
    }
}
