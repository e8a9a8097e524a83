//! Permissions as bits of a number.
ghost use Rattle.std.specs.Prelude.{◌≡◌, ◌<◌, ◌^◌};
ghost use Rattle.permissions.specs.Masks.{permission_number, has_bit};

use policy_checks::Permission;

/// The permission's number: its place in the list of permissions.
#[tactic(auto, unfolding(crate::specs::Masks::permission_number))]
fn number_of(permission: Permission) -> u32
    ensures value { result ≡ permission_number permission }
    ensures within { result < 12 }
{
    permission as u32
}

/// Whether the permission's bit is set.
#[tactic(auto, unfolding(crate::specs::Masks::has_bit), using(crate::proofs::GrantLemmas::low_bit))]
pub(crate) fn is_in(mask: u16, permission: Permission) -> bool
    ensures { result ≡ has_bit mask permission }
{
    (mask >> number_of(permission)) & 1 == 1
}

/// The number with the permission's bit alone.
pub(crate) fn bit_of(permission: Permission) -> u16
    ensures { result ≡ 2 ^ permission_number permission }
{
    1 << number_of(permission)
}
