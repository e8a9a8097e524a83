//! What a caller is to have in a realm.
ghost use Rattle.std.specs.Prelude.{◌≡◌};
ghost use Rattle.request_demands.specs.Grants.{named_by};

use permissions::Permission;

/// What a caller is to have in a realm.
#[derive(Clone, Copy, Debug)]
pub enum Grant {
    /// This permission.
    One(Permission),
    /// The first of these permissions, or the second, which is named where the caller lacks both.
    Either(Permission, Permission),
}

impl Grant {
    /// The permission that is named where the caller lacks it.
    pub fn named(self) -> Permission
        ensures { result ≡ named_by self }
    {
        match self {
            Grant::One(permission) => permission,
            Grant::Either(_, second) => second,
        }
    }
}
