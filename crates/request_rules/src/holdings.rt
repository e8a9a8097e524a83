//! In which realms a caller has the permissions of which a call asks many.
ghost use Rattle.std.specs.Prelude.{◌≡◌, ◌<◌, ◌↔◌, ◌++◌, IfOk, IfSome, IsTrue, OnOk, length, map};
ghost use Rattle.std.specs.List.{All, flat_map};
ghost use Rattle.permissions.specs.Allows.{Allows};
ghost use Rattle.request_rules.specs.Askers.{IsHeldBy, asked_often};
ghost use Rattle.request_demands.specs.Demands.{demand_of};
ghost use Rattle.request_demands.specs.Grants.{permissions_of};

use names_realms::Realm;
use permissions::{CallerId, Granted, Permission, Policy};
use request_demands::{Call, Demand, Grant, demand_of};
use std::alloc::{AllocError, Global};
use std::marker::Model;

/// In the realms of how many invocations a permission is asked without a pass over all realms.
const FEW: usize = 8;

/// In which realms a caller has one permission, found before many asks for it.
#[derive(Drop)]
pub struct Holding<'p> {
    permission: Permission,
    granted: Granted<'p>,
}

impl<'p> Model for Holding<'p> {
    ghost use Rattle.std.specs.Prelude.{◌≡◌};
    ghost use Rattle.permissions.specs.Granting.{Granting};

    ghost Value = { Granting };

    ghost view = { λ h. h.granted };

    ghost invariant = { λ h. h.granted.permission ≡ h.permission };
}

impl<'p> Holding<'p> {
    /// In which realms a caller has a permission. `Err` where there is no memory.
    fn of(
        alloc: Global,
        policy: &'p Policy,
        caller: CallerId,
        permission: Permission,
    ) -> Result<Holding<'p>, AllocError>
        requires { caller < length policy.now.users }
        ensures held { IfOk result (IsHeldBy policy.now caller) }
        ensures asked { IfOk result (λ holding. holding.permission ≡ permission) }
    {
        let granted = policy.granted(alloc, caller, permission)?;
        Ok(Holding {
            permission,
            granted,
        })
    }

    /// Whether the caller has the permission in the realm, where it is the one that was asked.
    pub(crate) fn tells(&self, permission: Permission, realm: &Realm) -> Option<bool>
        ensures { IfSome result (λ told.
            IsTrue told ↔ Allows self.now.policy self.now.caller permission realm.now) }
    {
        if self.permission == permission {
            Some(self.granted.in_realm(realm))
        } else {
            None
        }
    }
}

/// Appends the permissions that are asked for each of these. `Err` where there is no memory.
fn add_permissions(asked: &mut Vec<Permission>, grants: &[Grant]) -> Result<(), AllocError>
    ensures { OnOk result (asked.new.items
        ≡ asked.old.items ++ flat_map permissions_of grants.now) }
{
    for grant in grants {
        match *grant {
            Grant::One(permission) => asked.push(permission)?,
            Grant::Either(first, second) => {
                asked.push(first)?;
                asked.push(second)?;
            }
        }
    }
    Ok(())
}

/// The permissions of which a demand asks many realms. `Err` where there is no memory.
fn asked_often(alloc: Global, demand: &Demand) -> Result<Vec<Permission>, AllocError>
    ensures { IfOk result (λ asked. asked.items ≡ asked_often demand.now) }
{
    let mut asked = Vec::new(alloc);
    if demand.named.len() > FEW {
        add_permissions(&mut asked, demand.of_named)?;
    }
    if demand.included.len() > FEW {
        add_permissions(&mut asked, demand.of_included)?;
    }
    Ok(asked)
}

/// In which realms a caller has each of these permissions. `Err` where there is no memory.
fn holdings_of<'p>(
    alloc: Global,
    policy: &'p Policy,
    caller: CallerId,
    asked: &[Permission],
) -> Result<Vec<Holding<'p>>, AllocError>
    requires { caller < length policy.now.users }
    ensures held { IfOk result (λ found. All (IsHeldBy policy.now caller) found.items) }
    ensures found { IfOk result (λ found.
        map (λ held. held.permission) found.items ≡ asked.now) }
{
    let mut found = Vec::with_capacity(alloc, asked.len())?;
    for permission in asked {
        found.push(Holding::of(alloc, policy, caller, *permission)?)?;
    }
    Ok(found)
}

/// In which realms the caller has each permission of which a request asks many, found by one pass
/// over the realms for each, and none of which it asks few. `Err` where there is no memory.
pub fn holdings_for<'p>(
    alloc: Global,
    policy: &'p Policy,
    call: &Call,
) -> Result<Vec<Holding<'p>>, AllocError>
    requires { call.now.caller < length policy.now.users }
    ensures held { IfOk result (λ found. All (IsHeldBy policy.now call.now.caller) found.items) }
    ensures found { IfOk result (λ found. map (λ held. held.permission) found.items
        ≡ asked_often (demand_of call.now.request)) }
{
    let asked = asked_often(alloc, &demand_of(&call.request))?;
    holdings_of(alloc, policy, call.caller, asked.as_slice())
}
