//! The tables of a configuration, with indexes of the names in them.
ghost use Rattle.std.specs.Prelude.{◌≡◌, IfOk};
ghost use Rattle.policy_checks.specs.Index.{place_of};
ghost use Rattle.policy_checks.specs.Places.{group_at, role_texts_at, members_at_place};
ghost use Rattle.policy_checks.specs.Checks.{user_names, group_names, role_names, realm_names};

use crate::index::{NameIndex, Named, index_names};
use names_realms::Bytes;
use policy_tables::{Group, PolicyTables, RealmTable, Role, User};
use std::alloc::{AllocError, Global};
use std::marker::Model;

/// Tables in which names are found without a scan.
#[derive(Drop)]
pub struct Book {
    tables: PolicyTables,
    users: NameIndex,
    groups: NameIndex,
    roles: NameIndex,
    realms: NameIndex,
}

impl Model for Book {
    ghost use Rattle.policy_tables.specs.declared.tables.PolicyTables.{PolicyTables};
    ghost use Rattle.policy_checks.specs.Checks.{IsIndexed};

    ghost Value = { PolicyTables };

    ghost view = { λ b. b.tables };

    ghost invariant = { λ b. IsIndexed b.users b.groups b.roles b.realms b.tables };
}

impl Named for User {
    ghost name_of = { λ u. u.name };

    fn name(&self) -> &[u8] {
        self.name.as_slice()
    }
}

impl Named for Group {
    ghost name_of = { λ g. g.name };

    fn name(&self) -> &[u8] {
        self.name.as_slice()
    }
}

impl Named for Role {
    ghost name_of = { λ r. r.name };

    fn name(&self) -> &[u8] {
        self.name.as_slice()
    }
}

impl Named for RealmTable {
    ghost name_of = { λ r. r.name };

    fn name(&self) -> &[u8] {
        self.name.as_slice()
    }
}

impl Book {
    /// Indexes the names of tables.
    pub fn new(alloc: Global, tables: PolicyTables) -> Result<Book, AllocError>
        ensures { IfOk result (λ b. b ≡ tables) }
    {
        let users = index_names(alloc, tables.users.as_slice())?;
        let groups = index_names(alloc, tables.groups.as_slice())?;
        let roles = index_names(alloc, tables.roles.as_slice())?;
        let realms = index_names(alloc, tables.realms.as_slice())?;
        Ok(Book {
            tables,
            users,
            groups,
            roles,
            realms,
        })
    }

    /// The tables.
    pub fn tables(&self) -> &PolicyTables
        ensures { result.now ≡ self.now }
    {
        &self.tables
    }

    /// The place of a user.
    pub fn user(&self, name: &[u8]) -> Option<usize>
        ensures { result ≡ place_of name.now (user_names self.now) }
    {
        self.users.find(name)
    }

    /// The place of a group.
    pub fn group(&self, name: &[u8]) -> Option<usize>
        ensures { result ≡ place_of name.now (group_names self.now) }
    {
        self.groups.find(name)
    }

    /// The place of a role.
    pub fn role(&self, name: &[u8]) -> Option<usize>
        ensures { result ≡ place_of name.now (role_names self.now) }
    {
        self.roles.find(name)
    }

    /// The place of a realm.
    pub fn realm(&self, name: &[u8]) -> Option<usize>
        ensures { result ≡ place_of name.now (realm_names self.now) }
    {
        self.realms.find(name)
    }
}

/// The permissions that the role at a place holds.
pub fn role_texts(book: &Book, place: usize) -> &[Bytes]
    ensures { result.now ≡ role_texts_at book.now.roles place }
{
    match book.tables.roles.as_slice().get(place) {
        Some(role) => role.permissions.as_slice(),
        None => &[],
    }
}

/// The members of the group at a place.
fn members_at(book: &Book, place: usize) -> &[Bytes]
    ensures { result.now ≡ members_at_place book.now.groups place }
{
    match book.tables.groups.as_slice().get(place) {
        Some(group) => group.members.as_slice(),
        None => &[],
    }
}

/// The members of a group.
pub fn members_of<'b>(book: &'b Book, name: &[u8]) -> &'b [Bytes]
    ensures { result.now ≡ (group_at name.now book.now.groups).members }
{
    match book.group(name) {
        Some(place) => members_at(book, place),
        None => &[],
    }
}
