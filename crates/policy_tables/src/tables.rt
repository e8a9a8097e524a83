//! The tables of a configuration, as plain data.
ghost use Rattle.std.specs.Prelude.{◌≡◌, length, sum_by};
ghost use Rattle.policy_tables.specs.Entries.{capped, entries};

use name_parts::{Bytes, Listed};

/// A user: a name, and the token that the user shows.
#[derive(Drop)]
pub struct User {
    pub name: Bytes,
    pub token: Bytes,
}

/// A group: a name, and the names of the users in it.
#[derive(Drop)]
pub struct Group {
    pub name: Bytes,
    pub members: Listed<Bytes>,
}

/// A role: a name, and the permissions that it holds.
#[derive(Drop)]
pub struct Role {
    pub name: Bytes,
    pub permissions: Listed<Bytes>,
}

/// A role, and to whom it is given.
#[derive(Drop)]
pub struct Binding {
    pub role: Bytes,
    pub principals: Listed<Bytes>,
}

/// A realm: a name, the realms that it extends, and the bindings in it.
#[derive(Drop)]
pub struct RealmTable {
    pub name: Bytes,
    pub extends: Listed<Bytes>,
    pub bindings: Listed<Binding>,
}

/// The tables of a configuration, each in byte order of the names in it, and the secret in hex
/// digits.
#[derive(Drop)]
pub struct PolicyTables {
    pub secret: Bytes,
    pub users: Listed<User>,
    pub groups: Listed<Group>,
    pub roles: Listed<Role>,
    pub realms: Listed<RealmTable>,
}

/// How many bindings realms have, up to the greatest count.
fn count_bindings(realms: &[RealmTable]) -> usize
    ensures { result ≡ capped (sum_by (λ r. length r.bindings) realms.now) }
{
    let mut count = 0usize;
    for realm in realms {
        count = count.saturating_add(realm.bindings.as_slice().len());
    }
    count
}

/// How many entries and bindings tables have, up to the greatest count.
pub fn count_entries(tables: &PolicyTables) -> usize
    ensures { result ≡ entries tables.now }
{
    let users = tables.users.as_slice().len();
    let groups = tables.groups.as_slice().len();
    let roles = tables.roles.as_slice().len();
    let realms = tables.realms.as_slice();
    let bindings = count_bindings(realms);
    users
        .saturating_add(groups)
        .saturating_add(roles)
        .saturating_add(realms.len())
        .saturating_add(bindings)
}
