//! The artifacts of a request, each with its hash.
ghost use Rattle.std.specs.Prelude.{◌≡◌, ◌≢◌, [], Some, MatchOption, IfOk, OnOk, length};
ghost use Rattle.std.specs.List.{All};
ghost use Rattle.artifacts.specs.Artifacts.{HasItsHash};
ghost use Rattle.artifacts.specs.Batches.{given, of_holder};
ghost use Rattle.artifacts.specs.Requests.{AreHashesRight, AreSizesRight, IsHashRight, IsHashWrong, IsSizeRight};
ghost use Rattle.artifacts.specs.Requests.{IsSizeWrong, artifact_of, digested, pushed};

use crate::artifact::Artifact;
use crate::hashed_bytes::HashedBytes;
use names_realms::{ArtifactName, Bytes};
use std::alloc::{AllocError, Global};
use std::marker::Model;

/// An artifact that is to be recorded.
#[derive(Drop)]
pub struct NewArtifact {
    pub name: ArtifactName,
    pub content_type: Bytes,
    /// The contents, with their SHA-256.
    pub contents: HashedBytes,
    /// How many bytes the contents have, where that is said.
    pub said_size: Option<u64>,
    /// The SHA-256 of the contents, where one is said.
    pub said_hash: Option<[u8; 32]>,
}

/// What is said of an artifact's contents.
#[derive(Clone, Copy)]
pub struct Said {
    pub size: Option<u64>,
    pub hash: Option<[u8; 32]>,
}

/// A size that is said of an artifact, and the one that it has.
#[derive(Clone, Copy)]
pub(crate) struct WrongSize {
    pub(crate) index: usize,
    pub(crate) said: u64,
    pub(crate) found: u64,
}

/// A hash that is said of an artifact, and the one that it has.
#[derive(Clone, Copy)]
pub(crate) struct WrongHash {
    pub(crate) index: usize,
    pub(crate) said: [u8; 32],
    pub(crate) found: [u8; 32],
}

/// The artifacts of a request, each with the SHA-256 of its contents. It is made before a table is
/// looked at.
#[derive(Drop)]
pub struct Digested {
    pub(crate) rows: Vec<Artifact>,
    pub(crate) said: Vec<Said>,
}

impl Model for Digested {
    ghost use Rattle.std.specs.Prelude.{◌≡◌, length};
    ghost use Rattle.std.specs.List.{All};
    ghost use Rattle.artifacts.specs.Artifacts.{HasItsHash};
    ghost use Rattle.artifacts.specs.Requests.{DigestedState};

    ghost Value = { DigestedState };

    ghost view = { λ d. record { rows = d.rows.items; said = d.said.items } };

    ghost invariant = { λ d. All HasItsHash d.rows.items
        × (length d.said.items ≡ length d.rows.items) };
}

/// An artifact of a request, of no holder yet, with the SHA-256 of its contents.
fn hashed(new: NewArtifact) -> Artifact
    ensures { result ≡ artifact_of new }
{
    let hash = new.contents.hash();
    Artifact {
        holder: 0,
        name: new.name,
        content_type: new.content_type,
        contents: new.contents.into_bytes(),
        hash,
    }
}

/// The size that is said of an artifact, where it has another one.
fn wrong_size_of(row: &Artifact, said: &Said) -> Option<u64>
    ensures { MatchOption result (IsSizeRight row.now said.now)
        (λ size. (said.now.size ≡ Some size) × (size ≢ length row.now.contents)) }
{
    let size = said.size?;
    if size == row.contents.len() as u64 {
        return None;
    }
    Some(size)
}

/// The hash that is said of an artifact, where it has another one.
fn wrong_hash_of(row: &Artifact, said: &Said) -> Option<[u8; 32]>
    ensures { MatchOption result (IsHashRight row.now said.now)
        (λ hash. (said.now.hash ≡ Some hash) × (hash ≢ row.now.hash)) }
{
    let hash = said.hash?;
    if hash == row.hash {
        return None;
    }
    Some(hash)
}

impl Digested {
    /// No artifacts, with room for so many.
    fn with_room(alloc: Global, count: usize) -> Result<Digested, AllocError>
        ensures { IfOk result (λ none. none ≡ digested []) }
    {
        let rows = Vec::with_capacity(alloc, count)?;
        let said = Vec::with_capacity(alloc, count)?;
        Ok(Digested { rows, said })
    }

    /// Appends an artifact. Its contents are moved.
    fn push(&mut self, new: NewArtifact) -> Result<(), AllocError>
        ensures { OnOk result (self.new ≡ pushed self.old new) }
    {
        let said = Said {
            size: new.said_size,
            hash: new.said_hash,
        };
        self.rows.reserve(1)?;
        self.said.reserve(1)?;
        self.rows.push_reserved(hashed(new));
        self.said.push_reserved(said);
        Ok(())
    }

    /// The artifacts of a request, each with the SHA-256 of its contents, which are moved and not
    /// copied. `Err` where there is no memory for the rows.
    pub fn of(alloc: Global, news: Vec<NewArtifact>) -> Result<Digested, AllocError>
        ensures { IfOk result (λ all. all ≡ digested news.items) }
    {
        let mut all = Digested::with_room(alloc, news.len())?;
        for new in news {
            all.push(new)?;
        }
        Ok(all)
    }

    /// The artifacts, in the order of the request. They have the holder 0.
    pub fn rows(&self) -> &[Artifact]
        ensures rows { result.now ≡ self.now.rows }
        ensures hashed { All HasItsHash self.now.rows }
    {
        self.rows.as_slice()
    }

    /// The first artifact of which another size is said than it has.
    pub(crate) fn wrong_size(&self) -> Option<WrongSize>
        ensures { MatchOption result (AreSizesRight self.now (length self.now.rows))
            (λ wrong. IsSizeWrong self.now wrong.index wrong.said wrong.found) }
    {
        for index in 0..self.rows.len() {
            let row = &self.rows[index];
            let said = &self.said[index];
            if let Some(said) = wrong_size_of(row, said) {
                let found = row.contents.len() as u64;
                return Some(WrongSize { index, said, found });
            }
        }
        None
    }

    /// The first artifact of which another hash is said than it has.
    pub(crate) fn wrong_hash(&self) -> Option<WrongHash>
        ensures { MatchOption result (AreHashesRight self.now (length self.now.rows))
            (λ wrong. IsHashWrong self.now wrong.index wrong.said wrong.found) }
    {
        for index in 0..self.rows.len() {
            let row = &self.rows[index];
            let said = &self.said[index];
            if let Some(said) = wrong_hash_of(row, said) {
                let found = row.hash;
                return Some(WrongHash { index, said, found });
            }
        }
        None
    }

    /// The same artifacts, of this holder.
    pub(crate) fn of_holder(self, holder: u32) -> Digested
        ensures { result ≡ of_holder holder self }
    {
        let Digested { mut rows, said } = self;
        give(holder, &mut rows);
        Digested { rows, said }
    }

    /// The artifacts.
    pub(crate) fn into_rows(self) -> Vec<Artifact>
        ensures rows { result.items ≡ self.rows }
        ensures hashed { All HasItsHash self.rows }
    {
        self.rows
    }
}

/// Gives rows their holder.
fn give(holder: u32, rows: &mut [Artifact])
    ensures { rows.new ≡ given holder rows.old }
{
    for at in 0..rows.len() {
        let row = &mut rows[at];
        row.holder = holder;
    }
}
