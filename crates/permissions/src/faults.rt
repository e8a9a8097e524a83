//! Why a configuration is refused.
ghost use Rattle.std.specs.Prelude.{◌≡◌};
ghost use Rattle.permissions.specs.Faults.{fault_number, fault_name};

use policy_tables::Bytes;
use std::alloc::{AllocError, AllocFailed};

/// Why a configuration is refused. A path is keys joined by points, with places in lists in decimal
/// from 0. One of the faults holds a token, so nothing prints them whole.
#[derive(Drop)]
pub enum PolicyFault {
    /// The text is no TOML document.
    NotToml,
    /// At the path stands a name, a token, a secret or a permission outside its form.
    BadName { at: Bytes },
    /// A binding has a role of this name, and none is there.
    UnknownRole { name: Bytes },
    /// A realm extends one of this name, and none is there.
    UnknownRealm { name: Bytes },
    /// The realm reaches itself by `extends`.
    RealmCycle { name: Bytes },
    /// Two users have the token.
    TwoOwners { token: Bytes },
    /// There are more than 4 MiB, so many, or more than 65,536 entries, so many.
    TooMany { count: usize },
    /// At the path a key is absent or unknown, or a value of the wrong kind.
    BadShape { at: Bytes },
    /// The principal, or the member, is none that is there.
    UnknownPrincipal { name: Bytes },
    /// There was no memory for the policy. Of the text nothing is said.
    Memory,
}

impl From<AllocError> for PolicyFault {
    ghost use Rattle.std.specs.Prelude.{◌≡◌};
    ghost use Rattle.permissions.specs.declared.faults.PolicyFault.TheVariants.{Memory};

    ghost from_gives = { λ _ e. e ≡ Memory };

    fn from(_e: AllocError) -> PolicyFault {
        PolicyFault::Memory
    }
}

impl<T: Drop> From<AllocFailed<T>> for PolicyFault {
    ghost use Rattle.std.specs.Prelude.{◌≡◌};
    ghost use Rattle.permissions.specs.declared.faults.PolicyFault.TheVariants.{Memory};

    ghost from_gives = { λ _ e. e ≡ Memory };

    fn from(_e: AllocFailed<T>) -> PolicyFault {
        PolicyFault::Memory
    }
}

impl PolicyFault {
    /// The number of the fault, from 1 on. A want of memory has 0.
    pub fn number(&self) -> u8
        ensures { result ≡ fault_number self.now }
    {
        match self {
            PolicyFault::NotToml => 1,
            PolicyFault::BadName { .. } => 2,
            PolicyFault::UnknownRole { .. } => 3,
            PolicyFault::UnknownRealm { .. } => 4,
            PolicyFault::RealmCycle { .. } => 5,
            PolicyFault::TwoOwners { .. } => 6,
            PolicyFault::TooMany { .. } => 7,
            PolicyFault::BadShape { .. } => 8,
            PolicyFault::UnknownPrincipal { .. } => 9,
            PolicyFault::Memory => 0,
        }
    }

    /// The name of the fault.
    pub fn name(&self) -> &'static str
        ensures { result.now ≡ fault_name self.now }
    {
        match self {
            PolicyFault::NotToml => "NotToml",
            PolicyFault::BadName { .. } => "BadName",
            PolicyFault::UnknownRole { .. } => "UnknownRole",
            PolicyFault::UnknownRealm { .. } => "UnknownRealm",
            PolicyFault::RealmCycle { .. } => "RealmCycle",
            PolicyFault::TwoOwners { .. } => "TwoOwners",
            PolicyFault::TooMany { .. } => "TooMany",
            PolicyFault::BadShape { .. } => "BadShape",
            PolicyFault::UnknownPrincipal { .. } => "UnknownPrincipal",
            PolicyFault::Memory => "Memory",
        }
    }
}
