//! The policy of a configuration.
ghost use Rattle.std.specs.Prelude.{◌≡◌, ◌<◌, ◌≤◌, ◌↔◌, true, Ok, [], length, map, IsTrue, IfOk, IfSome};
ghost use Rattle.std.specs.Prelude.{slice_index_or};
ghost use Rattle.hex.specs.Hex.{decode_of};
ghost use Rattle.policy_checks.specs.Checks.{is_hex_text, user_names, realm_names};
ghost use Rattle.policy_checks.specs.Index.{place_of, IsIndexOf};
ghost use Rattle.permissions.specs.Allows.{Allows};
ghost use Rattle.permissions.specs.Faults.{IsSound};
ghost use Rattle.permissions.specs.Graph.{graph_of};
ghost use Rattle.permissions.specs.Grants.{AreMembers, AreGrants};
ghost use Rattle.permissions.specs.Order.{IsOrder};

use crate::caller::CallerId;
use crate::granted::Granted;
use crate::grants::{Grants, all_grants};
use crate::members::{Members, all_members};
use crate::ranked::{Ask, Ranked};
use crate::ranks::{Ranking, rank_places};
use crate::rights::Rights;
use crate::roles::role_masks;
use crate::root::write_root;
use crate::shortcuts::all_shortcuts;
use hex::FromHexError;
use policy_checks::{Book, NameIndex, Permission, Realm};
use policy_tables::{Listed, PolicyTables};
use std::alloc::{AllocError, Global};
use std::marker::Model;
use update_tokens::Secret;

/// Who may do what, as a configuration says.
#[derive(Drop)]
pub struct Policy {
    rights: Rights,
    secret: Secret,
    tokens: NameIndex,
}

impl Model for Policy {
    ghost use Rattle.std.specs.Prelude.{◌≡◌, Ok, map};
    ghost use Rattle.hex.specs.Hex.{decode_of};
    ghost use Rattle.policy_tables.specs.declared.tables.PolicyTables.{PolicyTables};
    ghost use Rattle.permissions.specs.Policy.{IsKept};

    ghost Value = { PolicyTables };

    ghost view = { λ p. p.rights };

    ghost invariant = { λ p. IsKept p.secret p.tokens p.rights };
}

/// A secret, whose digits were checked before.
#[tactic(auto, unfolding(policy_checks::specs::Checks::is_hex_text))]
fn read_secret(alloc: Global, text: &[u8]) -> Result<Secret, AllocError>
    requires { is_hex_text text.now ≡ true }
    ensures { IfOk result (λ secret. decode_of text.now ≡ Ok secret) }
{
    match hex::decode(alloc, text) {
        Ok(bytes) => Ok(Secret::new(bytes)),
        Err(FromHexError::OutOfMemory) => Err(AllocError),
        Err(_) => unreachable!(),
    }
}

/// What the own bindings of the realms at these places grant.
fn own_grants(alloc: Global, book: &Book, places: &[usize]) -> Result<Vec<Grants>, AllocError>
    ensures { IfOk result
        (λ grants. AreGrants book.now places.now (length places.now) grants.items) }
{
    let masks = role_masks(alloc, book.tables().roles.as_slice())?;
    all_grants(alloc, book, masks.as_slice(), places)
}

/// The members of the groups, by the groups' places.
fn own_members(alloc: Global, book: &Book) -> Result<Vec<Members>, AllocError>
    ensures { IfOk result
        (λ members. AreMembers book.now book.now.groups (length book.now.groups) members.items) }
{
    let tables = book.tables();
    all_members(alloc, book, tables.groups.as_slice())
}

/// What the tables grant, over an order of the realms.
fn ranked_rights(
    alloc: Global,
    book: Book,
    graph: &[Listed<usize>],
    order: &[usize],
) -> Result<Rights, AllocError>
    requires graph { graph.now ≡ graph_of book }
    requires order { IsOrder graph.now order.now }
    requires few { length book.realms ≤ 65536 }
    ensures { IfOk result (λ rights. rights ≡ book) }
{
    let ranking = rank_places(alloc, graph, order)?;
    let grants = own_grants(alloc, &book, ranking.places.as_slice())?;
    let members = own_members(alloc, &book)?;
    let Ranking {
        ranks,
        places: _,
        rows,
    } = ranking;
    let shortcuts = all_shortcuts(alloc, rows.as_slice(), grants.as_slice())?;
    Ok(Rights {
        book,
        ranks,
        ranked: Ranked {
            rows,
            grants,
            members,
            shortcuts,
        },
    })
}

impl Policy {
    /// The policy of tables without a fault, by the realms that each realm extends, an order of
    /// them, and the index of the tokens.
    pub fn new(
        alloc: Global,
        book: Book,
        graph: &[Listed<usize>],
        order: &[usize],
        tokens: NameIndex,
    ) -> Result<Policy, AllocError>
        requires sound { IsSound book }
        requires graph { graph.now ≡ graph_of book }
        requires order { IsOrder graph.now order.now }
        requires tokens { IsIndexOf tokens (map (λ u. u.token) book.users) }
        ensures { IfOk result (λ p. p ≡ book) }
    {
        let secret = read_secret(alloc, book.tables().secret.as_slice())?;
        let rights = ranked_rights(alloc, book, graph, order)?;
        Ok(Policy {
            rights,
            secret,
            tokens,
        })
    }

    /// The caller who shows a token, none where it is nobody's.
    pub fn caller_of(&self, token: &[u8]) -> Option<CallerId>
        ensures caller { result ≡ place_of token.now (map (λ u. u.token) self.now.users) }
        ensures there { IfSome result (λ c. c < length self.now.users) }
    {
        match self.tokens.find(token) {
            Some(place) => Some(CallerId::at(place)),
            None => None,
        }
    }

    /// The name of a caller.
    pub fn name_of(&self, caller: CallerId) -> &[u8]
        requires { caller < length self.now.users }
        ensures { result.now ≡ slice_index_or (user_names self.now) caller [] }
    {
        let user = &self.rights.book.tables().users.as_slice()[caller.place()];
        user.name.as_slice()
    }

    /// The secret under which update tokens are made.
    pub fn secret(&self) -> &Secret
        ensures { decode_of self.now.secret ≡ Ok result.now }
    {
        &self.secret
    }

    /// Whether the caller has the permission in the realm: some realm that is this one, or that it
    /// reaches by `extends`, or that is its project's `@root`, or that this one reaches, binds a
    /// role which holds the permission to the caller, or to a group that the caller is in.
    pub fn allows(&self, caller: CallerId, permission: Permission, realm: &Realm) -> bool
        requires { caller < length self.now.users }
        ensures { IsTrue result ↔ Allows self.now caller permission realm.now }
    {
        let mut room = [0u8; 106];
        let len = write_root(&mut room, realm.as_slice());
        let ask = Ask {
            user: caller.place(),
            permission,
        };
        let own = self.rights.binds(realm.as_slice(), ask);
        let root = self.rights.binds(&room[..len], ask);
        own || root
    }

    /// In which realms the caller has the permission, for many asks: one pass over the groups and
    /// the realms, but for realms that have the answer of another one, or that neither extend one
    /// nor are extended. `Err` where there is no memory, a byte for each that the pass comes to.
    pub fn granted(
        &self,
        alloc: Global,
        caller: CallerId,
        permission: Permission,
    ) -> Result<Granted<'_>, AllocError>
        requires { caller < length self.now.users }
        ensures policy { IfOk result (λ granted. granted.policy ≡ self.now) }
        ensures caller { IfOk result (λ granted. granted.caller ≡ caller) }
        ensures permission { IfOk result (λ granted. granted.permission ≡ permission) }
    {
        let ask = Ask {
            user: caller.place(),
            permission,
        };
        let (ranks, ranked) = self.rights.parts();
        let pass = ranked.pass(alloc, ask)?;
        Ok(Granted {
            policy: self,
            caller,
            permission,
            ranks,
            ranked,
            pass,
        })
    }

    /// The place of a realm.
    pub(crate) fn realm(&self, name: &[u8]) -> Option<usize>
        ensures { result ≡ place_of name.now (realm_names self.now) }
    {
        self.rights.book.realm(name)
    }

    /// The tables. They have no fault.
    pub fn tables(&self) -> &PolicyTables
        ensures value { result.now ≡ self.now }
        ensures sound { IsSound self.now }
    {
        self.rights.book.tables()
    }
}
