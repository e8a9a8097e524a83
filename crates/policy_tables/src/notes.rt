//! The path that is looked at, and the finding with the least path.
//!
//! A path may have millions of bytes, and a million places under it may be wrong. So a path grows
//! and shrinks in place, it is copied only where it is the least so far, and it is compared from
//! where it first differs from the least one.
ghost use Rattle.std.specs.Prelude.{◌≡◌, ◌∷◌, ◌≤◌, [], IfOk, OnOk, length, take};
ghost use Rattle.std.specs.Ordering.{nat_cmp, is_lt};
ghost use Rattle.std.specs.Cmp.Lexicographic.{slice_cmp};
ghost use Rattle.std.specs.Fmt.{decimal};
ghost use Rattle.policy_tables.specs.Findings.{joined, lesser, goes_before, least_with, at};

use crate::findings::Finding;
use name_parts::Bytes;
use std::alloc::{AllocError, Global};
use std::cmp::Ordering;
use std::marker::Model;

/// The path that is looked at, and the finding with the least path of those that were noted.
#[derive(Drop)]
pub struct Notes {
    alloc: Global,
    path: Vec<u8>,
    least: Option<Finding>,
    /// How many bytes the two paths are known to have in common.
    shared: usize,
}

impl Model for Notes {
    ghost use Rattle.policy_tables.specs.Notes.{Noted, IsShared};

    ghost Value = { Noted };

    ghost view = { λ n. record { path = n.path.items; least = n.least } };

    ghost invariant = { λ n. IsShared n.path.items n.least n.shared };
}

/// How many bytes two paths have in common at their fronts, where so many are known to be.
fn count_shared(left: &[u8], right: &[u8], known: usize) -> usize
    requires left { known ≤ length left.now }
    requires right { known ≤ length right.now }
    requires same { take known left.now ≡ take known right.now }
    ensures left { result ≤ length left.now }
    ensures right { result ≤ length right.now }
    ensures same { take result left.now ≡ take result right.now }
{
    let mut count = known;
    while count < left.len() && count < right.len() && left[count] == right[count] {
        count += 1;
    }
    count
}

/// Whether bytes come before others.
fn is_less(bytes: &[u8], others: &[u8]) -> bool
    ensures { result ≡ is_lt (slice_cmp nat_cmp bytes.now others.now) }
{
    bytes.cmp(others) == Ordering::Less
}

/// Whether a path comes before another in byte order, where so many bytes at their fronts are the
/// same.
fn comes_first(path: &[u8], other: &[u8], shared: usize) -> bool
    requires left { shared ≤ length path.now }
    requires right { shared ≤ length other.now }
    requires same { take shared path.now ≡ take shared other.now }
    ensures { result ≡ is_lt (slice_cmp nat_cmp path.now other.now) }
{
    is_less(&path[shared..], &other[shared..])
}

impl Notes {
    /// Nothing noted, at the path of the whole document.
    pub fn new(alloc: Global) -> Notes
        ensures path { result.path ≡ [] }
        ensures least { result.least ≡ None }
    {
        Notes {
            alloc,
            path: Vec::new(alloc),
            least: None,
            shared: 0,
        }
    }

    /// The allocator of the paths.
    pub fn alloc(&self) -> Global {
        self.alloc
    }

    /// The finding with the least path.
    pub fn into_least(self) -> Option<Finding>
        ensures { result ≡ self.least }
    {
        self.least
    }

    /// Goes on to a key of the table at the path. Says how long the path was, for the way back.
    #[tactic(auto, using(crate::proofs::PathLemmas::shared_longer))]
    pub fn enter_key(&mut self, key: &[u8]) -> Result<usize, AllocError>
        ensures len { IfOk result (λ len. len ≡ length self.old.path) }
        ensures path { OnOk result (self.new.path ≡ joined self.old.path key.now) }
        ensures least { self.new.least ≡ self.old.least }
    {
        let len = self.path.len();
        if len > 0 {
            self.path.push(b'.')?;
        }
        self.path.extend_from_slice(key)?;
        Ok(len)
    }

    /// Goes on to a place of the list at the path, counted from 0. Says how long the path was.
    pub fn enter_place(&mut self, place: usize) -> Result<usize, AllocError>
        ensures len { IfOk result (λ len. len ≡ length self.old.path) }
        ensures path { OnOk result (self.new.path ≡ joined self.old.path (decimal place)) }
        ensures least { self.new.least ≡ self.old.least }
    {
        let digits = format!(in self.alloc; "{place}")?;
        self.enter_key(digits.as_bytes())
    }

    /// Goes back to where the path was so long.
    #[tactic(auto, using(crate::proofs::PathLemmas::shared_shorter))]
    pub fn leave(&mut self, len: usize)
        ensures path { self.new.path ≡ take len self.old.path }
        ensures least { self.new.least ≡ self.old.least }
    {
        self.shared = self.shared.min(len);
        self.path.truncate(len);
    }

    /// Whether the path comes before that of the least finding in byte order.
    fn goes_first(&mut self) -> bool
        ensures same { self.new ≡ self.old }
        ensures first { result ≡ goes_before self.old.path self.old.least }
    {
        let Some(least) = &self.least else {
            return true;
        };
        let path = self.path.as_slice();
        let shared = count_shared(path, least.path.as_slice(), self.shared);
        let first = comes_first(path, least.path.as_slice(), shared);
        self.shared = shared;
        first
    }

    /// Notes a text at the path.
    pub fn note(&mut self, text: &[u8]) -> Result<(), AllocError>
        ensures path { self.new.path ≡ self.old.path }
        ensures least { OnOk result
            (self.new.least ≡ lesser self.old.least
            (record { path = self.old.path; text = text.now })) }
    {
        if self.goes_first() {
            let path = Bytes::from_slice(self.alloc, self.path.as_slice())?;
            let text = Bytes::from_slice(self.alloc, text)?;
            self.shared = self.path.len();
            self.least = Some(Finding { path, text });
        }
        Ok(())
    }

    /// Notes a key of the table at the path.
    #[tactic(auto, using(crate::proofs::PathLemmas::front_of_joined))]
    pub fn note_key(&mut self, key: &[u8]) -> Result<(), AllocError>
        ensures path { OnOk result (self.new.path ≡ self.old.path) }
        ensures least { OnOk result
            (self.new.least ≡ least_with self.old.least (at (joined self.old.path key.now) ∷ [])) }
    {
        let len = self.enter_key(key)?;
        self.note(b"")?;
        self.leave(len);
        Ok(())
    }

    /// Notes a place of the list at the path.
    #[tactic(auto, using(crate::proofs::PathLemmas::front_of_joined))]
    pub fn note_place(&mut self, place: usize) -> Result<(), AllocError>
        ensures path { OnOk result (self.new.path ≡ self.old.path) }
        ensures least { OnOk result
            (self.new.least ≡ least_with self.old.least
            (at (joined self.old.path (decimal place)) ∷ [])) }
    {
        let len = self.enter_place(place)?;
        self.note(b"")?;
        self.leave(len);
        Ok(())
    }
}
