//! The journal as a list of commands.
ghost use Rattle.std.specs.Prelude.{◌≡◌, [], ◌∷◌, ◌++◌, map, OnOk, OnErr};

use std::alloc::{AllocError, Global};
use std::marker::Model;

/// What a journal is to do: it keeps commands in order. It is the plain one, in memory.
#[derive(Drop)]
pub struct PlainJournal {
    commands: Vec<Vec<u8>>,
}

impl Model for PlainJournal {
    ghost use Rattle.std.specs.Prelude.{ℕ, List, map};

    ghost Value = { List (List ℕ) };

    ghost view = { λ j. map (λ c. c.items) j.commands.items };
}

impl PlainJournal {
    pub fn new(alloc: Global) -> PlainJournal
        ensures { result ≡ [] }
    {
        PlainJournal {
            commands: Vec::new(alloc),
        }
    }

    pub fn append(&mut self, alloc: Global, command: &[u8]) -> Result<(), AllocError>
        ensures ok { OnOk result (self.new ≡ self.old ++ command.now ∷ []) }
        ensures err { OnErr result (self.new ≡ self.old) }
    {
        let copied = command.to_vec(alloc)?;
        self.commands.push(copied)?;
        Ok(())
    }

    pub fn commands(&self) -> &[Vec<u8>]
        ensures { map (λ c. c.items) result.now ≡ self.now }
    {
        &self.commands
    }
}
