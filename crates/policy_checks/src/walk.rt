//! Every text of a configuration, checked in turn.
#![tactic(auto, using(policy_tables::proofs::PathLemmas::front_of_joined))]

ghost use Rattle.std.specs.Prelude.{◌≡◌, ℕ, List, [], ◌∷◌, OnOk, IfOk};
ghost use Rattle.std.specs.Fmt.{decimal};
ghost use Rattle.policy_tables.specs.Findings.{joined, least_of};
ghost use Rattle.policy_checks.specs.Spots.{spot, text_spots, spots_of, all_spots, failing, with_spots, Spot};

use crate::book::Book;
use crate::check::fails;
use crate::texts::{Check, TextKind};
use names_realms::Bytes;
use policy_tables::{Binding, Finding, Group, Notes, RealmTable, Role, User};
use std::alloc::{AllocError, Global};

/// A check of a configuration's texts.
#[derive(Drop)]
struct Checker<'b> {
    book: &'b Book,
    check: Check,
}

/// Checks the text that stands at the path.
fn look(checker: &Checker, notes: &mut Notes, kind: TextKind, text: &[u8]) -> Result<(), AllocError>
    ensures path { OnOk result (notes.new.path ≡ notes.old.path) }
    ensures least { OnOk result
        (notes.new.least ≡ with_spots checker.now.book.now checker.now.check notes.old.least
        (spot kind notes.old.path text.now ∷ [])) }
{
    if fails(notes.alloc(), checker.book, checker.check, kind, text)? {
        return notes.note(text);
    }
    Ok(())
}

/// Checks the text at a key of the table at the path.
fn look_at_key(
    checker: &Checker,
    notes: &mut Notes,
    key: &[u8],
    kind: TextKind,
    text: &[u8],
) -> Result<(), AllocError>
    ensures path { OnOk result (notes.new.path ≡ notes.old.path) }
    ensures least { OnOk result
        (notes.new.least ≡ with_spots checker.now.book.now checker.now.check notes.old.least
        (spot kind (joined notes.old.path key.now) text.now ∷ [])) }
{
    let len = notes.enter_key(key)?;
    look(checker, notes, kind, text)?;
    notes.leave(len);
    Ok(())
}

/// Checks the text at a place of the list at the path.
fn look_at_place(
    checker: &Checker,
    notes: &mut Notes,
    place: usize,
    kind: TextKind,
    text: &[u8],
) -> Result<(), AllocError>
    ensures path { OnOk result (notes.new.path ≡ notes.old.path) }
    ensures least { OnOk result
        (notes.new.least ≡ with_spots checker.now.book.now checker.now.check notes.old.least
        (spot kind (joined notes.old.path (decimal place)) text.now ∷ [])) }
{
    if fails(notes.alloc(), checker.book, checker.check, kind, text)? {
        let len = notes.enter_place(place)?;
        notes.note(text)?;
        notes.leave(len);
    }
    Ok(())
}

/// Checks the texts of the list at the path.
fn look_at_items(
    checker: &Checker,
    notes: &mut Notes,
    kind: TextKind,
    texts: &[Bytes],
) -> Result<(), AllocError>
    ensures path { OnOk result (notes.new.path ≡ notes.old.path) }
    ensures least { OnOk result
        (notes.new.least ≡ with_spots checker.now.book.now checker.now.check notes.old.least
        (text_spots kind notes.old.path 0 texts.now)) }
{
    for (place, text) in texts.iter().enumerate() {
        look_at_place(checker, notes, place, kind, text.as_slice())?;
    }
    Ok(())
}

/// Checks the texts of the list at a key of the table at the path.
fn look_at_texts(
    checker: &Checker,
    notes: &mut Notes,
    key: &[u8],
    kind: TextKind,
    texts: &[Bytes],
) -> Result<(), AllocError>
    ensures path { OnOk result (notes.new.path ≡ notes.old.path) }
    ensures least { OnOk result
        (notes.new.least ≡ with_spots checker.now.book.now checker.now.check notes.old.least
        (text_spots kind (joined notes.old.path key.now) 0 texts.now)) }
{
    let len = notes.enter_key(key)?;
    look_at_items(checker, notes, kind, texts)?;
    notes.leave(len);
    Ok(())
}

/// What has texts to check.
trait Texts {
    /// The texts of the one at this place of the list or table at a path.
    ghost spots: { List ℕ → ℕ → Self → List Spot };

    /// Checks each of them.
    fn look(&self, checker: &Checker, notes: &mut Notes, place: usize) -> Result<(), AllocError>
        ensures path { OnOk result (notes.new.path ≡ notes.old.path) }
        ensures least { OnOk result
            (notes.new.least ≡ with_spots checker.now.book.now checker.now.check notes.old.least
            (spots notes.old.path place self.now)) };
}

/// Checks the texts of each row of the list or table at the path.
fn look_at_rows<T: Texts>(
    checker: &Checker,
    notes: &mut Notes,
    rows: &[T],
) -> Result<(), AllocError>
    ensures path { OnOk result (notes.new.path ≡ notes.old.path) }
    ensures least { OnOk result
        (notes.new.least ≡ with_spots checker.now.book.now checker.now.check notes.old.least
        (spots_of T.spots notes.old.path 0 rows.now)) }
{
    for (place, row) in rows.iter().enumerate() {
        row.look(checker, notes, place)?;
    }
    Ok(())
}

/// Checks the texts of each row of the list or table at a key.
fn look_at_all<T: Texts>(
    checker: &Checker,
    notes: &mut Notes,
    key: &[u8],
    rows: &[T],
) -> Result<(), AllocError>
    ensures path { OnOk result (notes.new.path ≡ notes.old.path) }
    ensures least { OnOk result
        (notes.new.least ≡ with_spots checker.now.book.now checker.now.check notes.old.least
        (spots_of T.spots (joined notes.old.path key.now) 0 rows.now)) }
{
    let len = notes.enter_key(key)?;
    look_at_rows(checker, notes, rows)?;
    notes.leave(len);
    Ok(())
}

impl Texts for User {
    ghost use Rattle.policy_checks.specs.Spots.{user_spots};

    ghost spots = { user_spots };

    fn look(&self, checker: &Checker, notes: &mut Notes, place: usize) -> Result<(), AllocError> {
        let _ = place;
        let len = notes.enter_key(self.name.as_slice())?;
        look(checker, notes, TextKind::UserName, self.name.as_slice())?;
        let token = self.token.as_slice();
        look_at_key(checker, notes, b"token", TextKind::Token, token)?;
        notes.leave(len);
        Ok(())
    }
}

impl Texts for Group {
    ghost use Rattle.policy_checks.specs.Spots.{group_spots};

    ghost spots = { group_spots };

    fn look(&self, checker: &Checker, notes: &mut Notes, place: usize) -> Result<(), AllocError> {
        let _ = place;
        let len = notes.enter_key(self.name.as_slice())?;
        look(checker, notes, TextKind::GroupName, self.name.as_slice())?;
        let members = self.members.as_slice();
        look_at_texts(checker, notes, b"members", TextKind::Member, members)?;
        notes.leave(len);
        Ok(())
    }
}

impl Texts for Role {
    ghost use Rattle.policy_checks.specs.Spots.{role_spots};

    ghost spots = { role_spots };

    fn look(&self, checker: &Checker, notes: &mut Notes, place: usize) -> Result<(), AllocError> {
        let _ = place;
        let len = notes.enter_key(self.name.as_slice())?;
        look(checker, notes, TextKind::RoleName, self.name.as_slice())?;
        let permissions = self.permissions.as_slice();
        look_at_texts(
            checker,
            notes,
            b"permissions",
            TextKind::Permission,
            permissions,
        )?;
        notes.leave(len);
        Ok(())
    }
}

impl Texts for Binding {
    ghost use Rattle.policy_checks.specs.Spots.{binding_spots};

    ghost spots = { binding_spots };

    fn look(&self, checker: &Checker, notes: &mut Notes, place: usize) -> Result<(), AllocError> {
        let len = notes.enter_place(place)?;
        let role = self.role.as_slice();
        look_at_key(checker, notes, b"role", TextKind::BoundRole, role)?;
        let principals = self.principals.as_slice();
        look_at_texts(
            checker,
            notes,
            b"principals",
            TextKind::Principal,
            principals,
        )?;
        notes.leave(len);
        Ok(())
    }
}

impl Texts for RealmTable {
    ghost use Rattle.policy_checks.specs.Spots.{realm_spots};

    ghost spots = { realm_spots };

    fn look(&self, checker: &Checker, notes: &mut Notes, place: usize) -> Result<(), AllocError> {
        let _ = place;
        let len = notes.enter_key(self.name.as_slice())?;
        look(checker, notes, TextKind::RealmName, self.name.as_slice())?;
        let extends = self.extends.as_slice();
        look_at_texts(checker, notes, b"extends", TextKind::Extended, extends)?;
        look_at_all(checker, notes, b"bindings", self.bindings.as_slice())?;
        notes.leave(len);
        Ok(())
    }
}

/// Checks each text of the tables.
fn look_at_tables(checker: &Checker, notes: &mut Notes) -> Result<(), AllocError>
    requires { notes.old.path ≡ [] }
    ensures { OnOk result
        (notes.new.least ≡ with_spots checker.now.book.now checker.now.check notes.old.least
        (all_spots checker.now.book.now)) }
{
    let tables = checker.book.tables();
    let secret = tables.secret.as_slice();
    look_at_key(checker, notes, b"secret", TextKind::Secret, secret)?;
    look_at_all(checker, notes, b"user", tables.users.as_slice())?;
    look_at_all(checker, notes, b"group", tables.groups.as_slice())?;
    look_at_all(checker, notes, b"role", tables.roles.as_slice())?;
    look_at_all(checker, notes, b"realm", tables.realms.as_slice())
}

/// The text with the least path that isn't what the check asks for, none where each is.
pub fn first_failing(
    alloc: Global,
    book: &Book,
    check: Check,
) -> Result<Option<Finding>, AllocError>
    ensures { IfOk result
        (λ least. least ≡ least_of (failing book.now check (all_spots book.now))) }
{
    let mut notes = Notes::new(alloc);
    look_at_tables(&Checker { book, check }, &mut notes)?;
    Ok(notes.into_least())
}
