//! What a realm's own bindings grant, to users and to groups.
ghost use Rattle.std.specs.Prelude.{◌≡◌, ◌==◌, false, ℕ, ◌&&◌, ◌||◌, OnOk, IfOk, option_map, unwrap_or, length};
ghost use Rattle.std.specs.List.{list_any};
ghost use Rattle.std.specs.Ordering.{nat_cmp};
ghost use Rattle.std.specs.BTreeMap.{get};
ghost use Rattle.policy_checks.specs.declared.permission.Permission.{Permission as PermissionOf};
ghost use Rattle.policy_tables.specs.declared.tables.PolicyTables.{PolicyTables as PolicyTablesOf};
ghost use Rattle.permissions.specs.Allows.{is_user, is_this_user, has_this_user, gives, binds_in};
ghost use Rattle.permissions.specs.Masks.{has_bit};
ghost use Rattle.permissions.specs.Grants.{granted, AreMasks, AreGrants, bindings_at};

use crate::roles::mask_of_role;
use policy_checks::{Book, rest_behind};
use policy_tables::{Binding, Bytes, RealmTable};
use std::alloc::{AllocError, Global};
use std::collections::BTreeMap;

/// Permissions that a group has: a bit for each.
#[derive(Clone, Copy, Debug)]
pub(crate) struct GroupGrant {
    pub(crate) group: usize,
    pub(crate) mask: u16,
}

/// What the bindings of a realm grant: the permissions of each user that they name, and of the
/// groups, in the order of the bindings.
#[derive(Drop)]
pub(crate) struct Grants {
    pub(crate) users: BTreeMap<usize, u16>,
    pub(crate) groups: Vec<GroupGrant>,
}

/// Grants to a user.
fn grant_user(users: &mut BTreeMap<usize, u16>, mask: u16, user: usize) -> Result<(), AllocError>
    ensures { OnOk result
        ((u : ℕ) (p : PermissionOf)
        → has_bit (unwrap_or (get nat_cmp users.new u) 0) p
        ≡ (has_bit (unwrap_or (get nat_cmp users.old u) 0) p || ((user == u) && has_bit mask p))) }
{
    let before = users.get(&user).copied().unwrap_or(0);
    users.insert(user, before | mask)?;
    Ok(())
}

/// Grants to the user of a name, where there is one.
fn push_user(
    book: &Book,
    mask: u16,
    name: Option<&[u8]>,
    grants: &mut Grants,
) -> Result<(), AllocError>
    ensures { OnOk result
        ((u : ℕ) (p : PermissionOf)
        → granted book.now u p grants.new
        ≡ (granted book.now u p grants.old
        || (is_this_user book.now u (option_map (λ n. n.now) name.entry) && has_bit mask p))) }
{
    let Some(name) = name else {
        return Ok(());
    };
    match book.user(name) {
        Some(user) => grant_user(&mut grants.users, mask, user),
        None => Ok(()),
    }
}

/// Grants to the group of a name, where there is one.
fn push_group(
    book: &Book,
    mask: u16,
    name: Option<&[u8]>,
    grants: &mut Grants,
) -> Result<(), AllocError>
    ensures { OnOk result
        ((u : ℕ) (p : PermissionOf)
        → granted book.now u p grants.new
        ≡ (granted book.now u p grants.old
        || (has_this_user book.now u (option_map (λ n. n.now) name.entry) && has_bit mask p))) }
{
    let Some(name) = name else {
        return Ok(());
    };
    match book.group(name) {
        Some(group) => {
            grants.groups.push(GroupGrant { group, mask })?;
            Ok(())
        }
        None => Ok(()),
    }
}

/// Grants to a principal.
fn push_principal(
    book: &Book,
    mask: u16,
    text: &[u8],
    grants: &mut Grants,
) -> Result<(), AllocError>
    ensures { OnOk result
        ((u : ℕ) (p : PermissionOf)
        → granted book.now u p grants.new
        ≡ (granted book.now u p grants.old || (gives book.now u text.now && has_bit mask p))) }
{
    push_user(book, mask, rest_behind(b"user:", text), grants)?;
    push_group(book, mask, rest_behind(b"group:", text), grants)
}

/// Grants to each principal.
fn push_principals(
    book: &Book,
    mask: u16,
    texts: &[Bytes],
    grants: &mut Grants,
) -> Result<(), AllocError>
    ensures { OnOk result
        ((u : ℕ) (p : PermissionOf)
        → granted book.now u p grants.new
        ≡ (granted book.now u p grants.old
        || (list_any (gives book.now u) texts.now && has_bit mask p))) }
{
    for text in texts {
        push_principal(book, mask, text.as_slice(), grants)?;
    }
    Ok(())
}

/// What a binding grants, where the permissions of each role are these.
fn push_binding(
    book: &Book,
    masks: &[u16],
    binding: &Binding,
    grants: &mut Grants,
) -> Result<(), AllocError>
    requires { AreMasks book.now masks.now }
    ensures { OnOk result
        ((u : ℕ) (p : PermissionOf)
        → granted book.now u p grants.new
        ≡ (granted book.now u p grants.old || binds_in book.now u p binding.now)) }
{
    let mask = mask_of_role(book, masks, binding.role.as_slice());
    push_principals(book, mask, binding.principals.as_slice(), grants)
}

/// No grants.
fn no_grants(alloc: Global) -> Grants
    ensures { (u : ℕ) (p : PermissionOf) (t : PolicyTablesOf) → granted t u p result ≡ false }
{
    Grants {
        users: BTreeMap::new(alloc),
        groups: Vec::new(alloc),
    }
}

/// What bindings grant.
fn grants_of(
    alloc: Global,
    book: &Book,
    masks: &[u16],
    bindings: &[Binding],
) -> Result<Grants, AllocError>
    requires { AreMasks book.now masks.now }
    ensures { IfOk result
        (λ grants. (u : ℕ) (p : PermissionOf)
        → granted book.now u p grants ≡ list_any (binds_in book.now u p) bindings.now) }
{
    let mut grants = no_grants(alloc);
    for binding in bindings {
        push_binding(book, masks, binding, &mut grants)?;
    }
    Ok(grants)
}

/// The bindings of the realm at a place.
fn bindings_at(realms: &[RealmTable], place: usize) -> &[Binding]
    ensures { result.now ≡ bindings_at realms.now place }
{
    match realms.get(place) {
        Some(realm) => realm.bindings.as_slice(),
        None => &[],
    }
}

/// What the own bindings of the realms at these places grant.
pub(crate) fn all_grants(
    alloc: Global,
    book: &Book,
    masks: &[u16],
    places: &[usize],
) -> Result<Vec<Grants>, AllocError>
    requires { AreMasks book.now masks.now }
    ensures { IfOk result
        (λ grants. AreGrants book.now places.now (length places.now) grants.items) }
{
    let realms = book.tables().realms.as_slice();
    let mut grants = Vec::new(alloc);
    for place in places {
        grants.push(grants_of(alloc, book, masks, bindings_at(realms, *place))?)?;
    }
    Ok(grants)
}
