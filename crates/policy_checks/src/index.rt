//! Places of names, found by the name.
ghost use Rattle.std.specs.Prelude.{◌≡◌, ℕ, List, [], ◌∷◌, ◌++◌, IfOk, OnOk, None, length, map};
ghost use Rattle.policy_checks.specs.Index.{IsIndexOf, found, place_of};

use std::alloc::{AllocError, Global};
use std::collections::HashMap;
use std::marker::Model;

/// The first place of each name of a list.
#[derive(Drop)]
pub struct NameIndex {
    places: HashMap<Vec<u8>, usize>,
}

impl Model for NameIndex {
    ghost use Rattle.std.specs.Prelude.{ℕ, List, map};

    ghost Value = { List (List ℕ × ℕ) };

    ghost view = { λ i. map (λ e. (e.0.items, e.1)) i.places.entries };
}

/// What has a name.
pub(crate) trait Named {
    ghost name_of: { Self → List ℕ };

    fn name(&self) -> &[u8]
        ensures { result.now ≡ name_of self.now };
}

impl NameIndex {
    /// No names.
    pub(crate) fn new(alloc: Global) -> NameIndex
        ensures { IsIndexOf result [] }
    {
        NameIndex {
            places: HashMap::new(alloc),
        }
    }

    /// The first place of a name.
    pub fn find(&self, name: &[u8]) -> Option<usize>
        ensures { result ≡ found name.now self.now }
    {
        self.places.get(name).copied()
    }

    /// Adds a name that isn't there.
    fn insert(&mut self, alloc: Global, name: &[u8], place: usize) -> Result<(), AllocError>
        ensures { (names : List (List ℕ)) → IsIndexOf self.old names
            → place_of name.now names ≡ None → place ≡ length names
            → OnOk result (IsIndexOf self.new (names ++ name.now ∷ [])) }
    {
        let key = Vec::from_slice(alloc, name)?;
        self.places.insert(key, place)?;
        Ok(())
    }

    /// Adds the name that comes next in the list.
    pub(crate) fn add(&mut self, alloc: Global, name: &[u8], place: usize) -> Result<(), AllocError>
        ensures { (names : List (List ℕ)) → IsIndexOf self.old names → place ≡ length names
            → OnOk result (IsIndexOf self.new (names ++ name.now ∷ [])) }
    {
        match self.find(name) {
            Some(_) => Ok(()),
            None => self.insert(alloc, name, place),
        }
    }
}

/// The index of the names of some rows.
pub(crate) fn index_names<T: Named>(alloc: Global, rows: &[T]) -> Result<NameIndex, AllocError>
    ensures { IfOk result (λ index. IsIndexOf index (map T.name_of rows.now)) }
{
    let mut index = NameIndex::new(alloc);
    for (place, row) in rows.iter().enumerate() {
        index.add(alloc, row.name(), place)?;
    }
    Ok(index)
}
