//! The users' tokens by their owners.
ghost use Rattle.std.specs.Prelude.{◌≡◌, ℕ, List, [], ◌∷◌, ◌++◌, IfOk, OnOk, length, map, if◌then◌else◌};
ghost use Rattle.policy_tables.specs.Findings.{at, least_with};
ghost use Rattle.policy_checks.specs.Checks.{is_there};
ghost use Rattle.policy_checks.specs.Index.{IsIndexOf};
ghost use Rattle.policy_checks.specs.Owners.{repeated};

use crate::index::NameIndex;
use policy_tables::{Notes, User};
use std::alloc::AllocError;

/// Notes a token that is there already.
fn note_if(notes: &mut Notes, there: bool, token: &[u8]) -> Result<(), AllocError>
    requires { notes.old.path ≡ [] }
    ensures path { OnOk result (notes.new.path ≡ []) }
    ensures least { OnOk result
        (notes.new.least ≡ least_with notes.old.least (if there then at token.now ∷ [] else [])) }
{
    if there {
        return notes.note_key(token);
    }
    Ok(())
}

/// Adds the token of the next user.
fn add_token(
    notes: &mut Notes,
    index: &mut NameIndex,
    token: &[u8],
    place: usize,
) -> Result<(), AllocError>
    requires { notes.old.path ≡ [] }
    ensures path { OnOk result (notes.new.path ≡ []) }
    ensures index { (seen : List (List ℕ)) → IsIndexOf index.old seen → place ≡ length seen
        → OnOk result (IsIndexOf index.new (seen ++ token.now ∷ [])) }
    ensures least { (seen : List (List ℕ)) → IsIndexOf index.old seen
        → OnOk result (notes.new.least
        ≡ least_with notes.old.least (if is_there token.now seen then at token.now ∷ [] else [])) }
{
    let there = index.find(token).is_some();
    note_if(notes, there, token)?;
    index.add(notes.alloc(), token, place)
}

/// The index of the users' tokens, with the least token that two of them have.
pub fn index_tokens(notes: &mut Notes, users: &[User]) -> Result<NameIndex, AllocError>
    requires { notes.old.path ≡ [] }
    ensures index { IfOk result (λ index. IsIndexOf index (map (λ u. u.token) users.now)) }
    ensures least { OnOk result
        (notes.new.least ≡ least_with notes.old.least (repeated [] users.now)) }
{
    let mut index = NameIndex::new(notes.alloc());
    for (place, user) in users.iter().enumerate() {
        add_token(notes, &mut index, user.token.as_slice(), place)?;
    }
    Ok(index)
}
