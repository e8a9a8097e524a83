//! Who is bound in a realm, or in one that it reaches.
ghost use Rattle.std.specs.Prelude.{◌≡◌, ◌<◌, ◌↔◌, true, length};
ghost use Rattle.permissions.specs.Grants.{IsBoundFrom, IsBoundByName};
ghost use Rattle.permissions.specs.Rights.{AreRights};

use crate::ranked::{Ask, Ranked};
use crate::ranks::rank_of;
use policy_checks::Book;
use std::marker::Model;

/// The tables, the ranks of the realms by their places, and what they grant by their ranks.
#[derive(Drop)]
pub(crate) struct Rights {
    pub(crate) book: Book,
    pub(crate) ranks: Vec<Option<usize>>,
    pub(crate) ranked: Ranked,
}

impl Model for Rights {
    ghost use Rattle.policy_tables.specs.declared.tables.PolicyTables.{PolicyTables};
    ghost use Rattle.permissions.specs.Rights.{AreRights};

    ghost Value = { PolicyTables };

    ghost view = { λ r. r.book };

    ghost invariant = { λ r. AreRights r.book r.ranks.items r.ranked };
}

impl Rights {
    /// Whether a place, or one that it reaches, gives what is asked.
    fn binds_from(&self, place: usize, ask: Ask) -> bool
        requires { place < length self.now.realms }
        ensures { (result ≡ true) ↔ IsBoundFrom self.now place ask.user ask.permission }
    {
        match rank_of(self.ranks.as_slice(), place) {
            Some(rank) => self.ranked.binds_from(rank, ask),
            None => false,
        }
    }

    /// Whether the realm of a name, or one that it reaches by `extends`, gives what is asked.
    pub(crate) fn binds(&self, name: &[u8], ask: Ask) -> bool
        ensures { (result ≡ true) ↔ IsBoundByName self.now name.now ask.user ask.permission }
    {
        match self.book.realm(name) {
            Some(place) => self.binds_from(place, ask),
            None => false,
        }
    }

    /// The ranks of the realms by their places, and what they grant by their ranks.
    pub(crate) fn parts(&self) -> (&[Option<usize>], &Ranked)
        ensures { AreRights self.now result.0.now result.1.now }
    {
        (self.ranks.as_slice(), &self.ranked)
    }
}
