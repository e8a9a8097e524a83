//! The realms in which a caller has a permission.
ghost use Rattle.std.specs.Prelude.{◌≡◌, ◌↔◌, ◌<◌, true, IsTrue, length};
ghost use Rattle.permissions.specs.Allows.{Allows};
ghost use Rattle.permissions.specs.Grants.{IsBoundByName, IsBoundFrom};

use crate::caller::CallerId;
use crate::policy::Policy;
use crate::ranked::{Ask, Pass, Ranked};
use crate::ranks::rank_of;
use crate::root::write_root;
use policy_checks::{Permission, Realm};
use std::marker::Model;

/// In which realms a caller has a permission: what `Policy::granted` found in one pass over the
/// realms. Asking it for a realm takes no memory, and is a look-up of two names.
#[derive(Drop)]
pub struct Granted<'p> {
    pub(crate) policy: &'p Policy,
    pub(crate) caller: CallerId,
    pub(crate) permission: Permission,
    pub(crate) ranks: &'p [Option<usize>],
    pub(crate) ranked: &'p Ranked,
    pub(crate) pass: Pass,
}

impl<'p> Model for Granted<'p> {
    ghost use Rattle.permissions.specs.Granting.{Granting};
    ghost use Rattle.permissions.specs.Rights.{IsPassed};

    ghost Value = { Granting };

    ghost view = { λ g. record {
      policy = g.policy.now;
      caller = g.caller;
      permission = g.permission;
    } };

    ghost invariant = { λ g. IsPassed g.policy.now g.caller g.permission g.ranks.now g.ranked.now
        g.pass };
}

impl Granted<'_> {
    /// Whether the realm at a place, or one that it reaches, binds the caller.
    fn binds_from(&self, place: usize) -> bool
        requires { place < length self.now.policy.realms }
        ensures { (result ≡ true)
            ↔ IsBoundFrom self.now.policy place self.now.caller self.now.permission }
    {
        let ask = Ask {
            user: self.caller.place(),
            permission: self.permission,
        };
        match rank_of(self.ranks, place) {
            Some(rank) => self.ranked.is_bound(&self.pass, rank, ask),
            None => false,
        }
    }

    /// Whether the realm of a name, or one that it reaches, binds the caller.
    fn binds(&self, name: &[u8]) -> bool
        ensures { (result ≡ true)
            ↔ IsBoundByName self.now.policy name.now self.now.caller self.now.permission }
    {
        match self.policy.realm(name) {
            Some(place) => self.binds_from(place),
            None => false,
        }
    }

    /// Whether the caller has the permission in the realm, as `Policy::allows` says.
    pub fn in_realm(&self, realm: &Realm) -> bool
        ensures { IsTrue result
            ↔ Allows self.now.policy self.now.caller self.now.permission realm.now }
    {
        let mut room = [0u8; 106];
        let len = write_root(&mut room, realm.as_slice());
        let own = self.binds(realm.as_slice());
        let root = self.binds(&room[..len]);
        own || root
    }
}
