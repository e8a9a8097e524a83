//! The members of groups, by their places among the users.
ghost use Rattle.std.specs.Prelude.{◌≡◌, ◌||◌, ℕ, IfOk, OnOk, length, take};
ghost use Rattle.std.specs.List.{list_any};
ghost use Rattle.std.specs.Ordering.{nat_cmp};
ghost use Rattle.std.specs.BTreeSet.{contains};
ghost use Rattle.policy_checks.specs.Places.{members_at_place};
ghost use Rattle.permissions.specs.Allows.{is_user};
ghost use Rattle.permissions.specs.Grants.{AreMembers, is_member};

use policy_checks::Book;
use policy_tables::{Bytes, Group};
use std::alloc::{AllocError, Global};
use std::collections::BTreeSet;

/// The places of a group's members.
#[derive(Drop)]
pub(crate) struct Members {
    pub(crate) places: BTreeSet<usize>,
}

/// Adds the user of a name, where there is one.
fn add_member(book: &Book, name: &[u8], places: &mut BTreeSet<usize>) -> Result<(), AllocError>
    ensures { OnOk result
        ((u : ℕ) → contains nat_cmp places.new u
        ≡ (contains nat_cmp places.old u || is_user book.now u name.now)) }
{
    match book.user(name) {
        Some(user) => {
            places.insert(user)?;
            Ok(())
        }
        None => Ok(()),
    }
}

/// The places of the users of names.
fn places_of_users(
    alloc: Global,
    book: &Book,
    names: &[Bytes],
) -> Result<BTreeSet<usize>, AllocError>
    ensures { IfOk result
        (λ places. (u : ℕ) → contains nat_cmp places u ≡ list_any (is_user book.now u) names.now) }
{
    let mut places = BTreeSet::new(alloc);
    for name in names {
        add_member(book, name.as_slice(), &mut places)?;
    }
    Ok(places)
}

/// The members of each group.
pub(crate) fn all_members(
    alloc: Global,
    book: &Book,
    groups: &[Group],
) -> Result<Vec<Members>, AllocError>
    ensures { IfOk result
        (λ members. AreMembers book.now groups.now (length groups.now) members.items) }
{
    let mut members = Vec::new(alloc);
    for group in groups {
        let places = places_of_users(alloc, book, group.members.as_slice())?;
        members.push(Members { places })?;
    }
    Ok(members)
}

/// Whether the user at a place is a member of the group at a place.
pub(crate) fn has_member(members: &[Members], group: usize, user: usize) -> bool
    ensures { result ≡ is_member members.now group user }
{
    match members.get(group) {
        Some(members) => members.places.contains(&user),
        None => false,
    }
}
