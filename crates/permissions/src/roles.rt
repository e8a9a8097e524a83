//! The permissions of roles.
ghost use Rattle.std.specs.Prelude.{◌≡◌, ◌||◌, IfOk, length, slice_index_or};
ghost use Rattle.std.specs.List.{list_any};
ghost use Rattle.policy_checks.specs.declared.permission.Permission.{Permission as PermissionOf};
ghost use Rattle.policy_checks.specs.Permissions.{permission_of};
ghost use Rattle.permissions.specs.Allows.{is_permission, holds};
ghost use Rattle.permissions.specs.Masks.{has_bit};
ghost use Rattle.permissions.specs.Grants.{AreMasks, AreMasksBefore};

use crate::masks::bit_of;
use policy_checks::{Book, Permission};
use policy_tables::{Bytes, Role};
use std::alloc::{AllocError, Global};

/// The bits with that of the permission of a text.
fn with_text(mask: u16, text: &[u8]) -> u16
    ensures { (p : PermissionOf)
        → has_bit result p ≡ (has_bit mask p || is_permission p (permission_of text.now)) }
{
    match Permission::from_text(text) {
        Some(permission) => mask | bit_of(permission),
        None => mask,
    }
}

/// The bits of the permissions of texts.
fn mask_of(texts: &[Bytes]) -> u16
    ensures { (p : PermissionOf)
        → has_bit result p ≡ list_any (λ x. is_permission p (permission_of x)) texts.now }
{
    let mut mask = 0;
    for text in texts {
        mask = with_text(mask, text.as_slice());
    }
    mask
}

/// The bits of the permissions that each role holds, read once, since many bindings may name a
/// role.
pub(crate) fn role_masks(alloc: Global, roles: &[Role]) -> Result<Vec<u16>, AllocError>
    ensures { IfOk result (λ masks. AreMasksBefore roles.now (length roles.now) masks.items) }
{
    let mut masks = Vec::new(alloc);
    for role in roles {
        masks.push(mask_of(role.permissions.as_slice()))?;
    }
    Ok(masks)
}

/// The bits at a place.
fn mask_at(masks: &[u16], place: usize) -> u16
    ensures { result ≡ slice_index_or masks.now place 0 }
{
    match masks.get(place) {
        Some(mask) => *mask,
        None => 0,
    }
}

/// The bits of the permissions that the role of a name holds.
pub(crate) fn mask_of_role(book: &Book, masks: &[u16], name: &[u8]) -> u16
    requires { AreMasks book.now masks.now }
    ensures { (p : PermissionOf) → has_bit result p ≡ holds book.now name.now p }
{
    match book.role(name) {
        Some(place) => mask_at(masks, place),
        None => 0,
    }
}
