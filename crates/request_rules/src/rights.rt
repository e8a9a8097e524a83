//! Whether a caller has the rights that a request takes.
ghost use Rattle.std.specs.Prelude.{◌≡◌, ◌<◌, ◌↔◌, ◌∷◌, [], Some, List, All, IfSome, IsTrue, length};
ghost use Rattle.permissions.specs.Allows.{Allows};
ghost use Rattle.request_rules.specs.Rights.{right, rights_here, rights_in, rights_of, rights_taken};
ghost use Rattle.request_demands.specs.Grants.{Has};
ghost use Rattle.request_rules.specs.Named.{row_at};
ghost use Rattle.request_rules.specs.Locating.{located};
ghost use Rattle.request_rules.specs.Held.{Held};
ghost use Rattle.request_demands.specs.Order.{FirstOf};
ghost use Rattle.request_rules.specs.Broken.{Lacks};
ghost use Rattle.request_rules.specs.Askers.{IsAsker};

use crate::holdings::Holding;
use crate::locating::Located;
use invocations::Table;
use names_realms::Realm;
use permissions::{CallerId, Permission, Policy};
use request_demands::{Demand, Grant};
use std::marker::Model;

/// A right that a caller lacks.
#[derive(Drop)]
pub(crate) struct Lacking<'r> {
    pub grant: Grant,
    pub realm: &'r Realm,
}

impl<'r> Model for Lacking<'r> {
    ghost use Rattle.request_rules.specs.Rights.{Right};

    ghost Value = { Right };

    ghost view = { λ l. record { grant = l.grant; realm = l.realm.now } };
}

/// A caller, who may do what, and what of it was found before.
#[derive(Clone, Copy)]
pub(crate) struct Asker<'r> {
    pub policy: &'r Policy,
    pub caller: CallerId,
    pub holdings: &'r [Holding<'r>],
}

impl<'r> Asker<'r> {
    /// Whether the caller has a permission in a realm, where that was found before.
    fn told(&self, permission: Permission, realm: &Realm) -> Option<bool>
        requires { IsAsker self.now }
        ensures { IfSome result (λ told. IsTrue told
            ↔ Allows self.now.policy.now self.now.caller permission realm.now) }
    {
        for holding in self.holdings {
            if let Some(told) = holding.tells(permission, realm) {
                return Some(told);
            }
        }
        None
    }

    /// Whether the caller has a permission in a realm.
    fn may(&self, permission: Permission, realm: &Realm) -> bool
        requires { IsAsker self.now }
        ensures { IsTrue result
            ↔ Allows self.now.policy.now self.now.caller permission realm.now }
    {
        match self.told(permission, realm) {
            Some(told) => told,
            None => self.policy.allows(self.caller, permission, realm),
        }
    }

    /// Whether the caller has what is asked in a realm.
    fn has(&self, grant: Grant, realm: &Realm) -> bool
        requires { IsAsker self.now }
        ensures { IsTrue result ↔ Has self.now.policy.now self.now.caller grant realm.now }
    {
        match grant {
            Grant::One(permission) => self.may(permission, realm),
            Grant::Either(first, second) => self.may(first, realm) || self.may(second, realm),
        }
    }

    /// A right, if the caller lacks it.
    fn lacks(&self, grant: Grant, realm: &'r Realm) -> Option<Lacking<'r>>
        requires { IsAsker self.now }
        ensures { FirstOf (Lacks self.now.policy.now self.now.caller)
            (right grant realm.now ∷ []) result }
    {
        if self.has(grant, realm) {
            return None;
        }
        Some(Lacking { grant, realm })
    }

    /// The first of these in a realm that the caller lacks.
    fn lacks_here(&self, realm: &'r Realm, takes: &[Grant]) -> Option<Lacking<'r>>
        requires { IsAsker self.now }
        ensures { FirstOf (Lacks self.now.policy.now self.now.caller)
            (rights_here (Some realm.now) takes.now) result }
    {
        for grant in takes {
            if let Some(lacking) = self.lacks(*grant, realm) {
                return Some(lacking);
            }
        }
        None
    }

    /// The first of these that the caller lacks in the realm of the invocation at this place, if
    /// there is one.
    fn lacks_at(&self, table: &'r Table, takes: &[Grant], place: Option<u32>) -> Option<Lacking<'r>>
        requires asker { IsAsker self.now }
        requires there { IfSome place (λ at. at < length table.now.rows) }
        ensures { FirstOf (Lacks self.now.policy.now self.now.caller)
            (rights_of (row_at table.now.rows place) takes.now) result }
    {
        match place {
            Some(place) => self.lacks_here(&table.row(place).realm, takes),
            None => None,
        }
    }

    /// The first of these that the caller lacks in the realm of the first of the invocations at
    /// these places.
    fn lacks_in(
        &self,
        table: &'r Table,
        takes: &[Grant],
        places: &[Option<u32>],
    ) -> Option<Lacking<'r>>
        requires asker { IsAsker self.now }
        requires there { All (λ place. IfSome place (λ at. at < length table.now.rows)) places.now }
        ensures { FirstOf (Lacks self.now.policy.now self.now.caller)
            (rights_in table.now.rows takes.now places.now) result }
    {
        for place in places {
            if let Some(lacking) = self.lacks_at(table, takes, *place) {
                return Some(lacking);
            }
        }
        None
    }

    /// The first right to what is new that the caller lacks.
    fn lacks_new(&self, demand: &Demand<'r>) -> Option<Lacking<'r>>
        requires { IsAsker self.now }
        ensures { FirstOf (Lacks self.now.policy.now self.now.caller)
            (rights_here demand.now.realm demand.now.takes) result }
    {
        match demand.realm {
            Some(realm) => self.lacks_here(realm, demand.takes),
            None => None,
        }
    }

    /// The first right that the caller lacks, where these are the places of what is demanded.
    pub(crate) fn lacking(
        &self,
        table: &'r Table,
        demand: &Demand<'r>,
        places: &Located,
    ) -> Option<Lacking<'r>>
        requires asker { IsAsker self.now }
        requires places { (held : Held)
            × (places.now ≡ located table.now.rows held demand.now) }
        ensures { FirstOf (Lacks self.now.policy.now self.now.caller)
            (rights_taken table.now.rows demand.now) result }
    {
        if let Some(lacking) = self.lacks_new(demand) {
            return Some(lacking);
        }
        if let Some(lacking) = self.lacks_in(table, demand.of_named, places.named.as_slice()) {
            return Some(lacking);
        }
        self.lacks_in(table, demand.of_included, places.included.as_slice())
    }
}
