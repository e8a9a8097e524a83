//! The table of kept replies.
ghost use Rattle.std.specs.Prelude.{◌≡◌, ◌≤◌, ◌<◌, ◌++◌, ◌∷◌, [], Some, IfOk, OnOk, length, slice_get};
ghost use Rattle.kept_replies.specs.Kept.{IsAlone, IsFree, IsWord, place_for};
ghost use Rattle.kept_replies.specs.Places.{key_of};

use crate::keys::key_of;
use crate::reply::KeptReply;
use std::alloc::{AllocError, Global};
use std::collections::HashMap;
use std::marker::Model;

/// The kept replies, in order of arrival. No two are for the same number of the same caller.
#[derive(Drop)]
pub struct KeptReplies {
    replies: Vec<KeptReply>,
    places: HashMap<Vec<u8>, usize>,
}

impl Model for KeptReplies {
    ghost use Rattle.std.specs.Prelude.{◌-◌, min, vec_len, vec_capacity, All};
    ghost use Rattle.std.specs.HashMap.{spare};
    ghost use Rattle.kept_replies.specs.Kept.{IsAlone, IsWord, KeptState};
    ghost use Rattle.kept_replies.specs.Places.{IsPlaced};

    ghost Value = { KeptState };

    ghost view = { λ k. record {
      kept = k.replies.items;
      room = min (vec_capacity k.replies - vec_len k.replies) (spare k.places);
    } };

    ghost invariant = { λ k. IsPlaced k.places.entries k.replies.items
        × All (λ reply. IsWord reply.number) k.replies.items × IsAlone k.replies.items };
}

/// A reply that is ready to be kept, with the key under which it will be found.
#[derive(Drop)]
pub struct Ready {
    key: Vec<u8>,
    reply: KeptReply,
}

impl Model for Ready {
    ghost use Rattle.std.specs.Prelude.{◌≡◌};
    ghost use Rattle.kept_replies.specs.declared.reply.KeptReply.{KeptReply};
    ghost use Rattle.kept_replies.specs.Places.{key_of};

    ghost Value = { KeptReply };

    ghost view = { λ r. r.reply };

    ghost invariant = { λ r. r.key.items ≡ key_of r.reply.caller r.reply.number };
}

impl KeptReplies {
    /// No replies.
    pub fn new(alloc: Global) -> KeptReplies
        ensures { result.kept ≡ [] }
    {
        KeptReplies {
            replies: Vec::new(alloc),
            places: HashMap::new(alloc),
        }
    }

    /// The replies, in order of arrival.
    pub fn replies(&self) -> &[KeptReply]
        ensures value { result.now ≡ self.now.kept }
        ensures alone { IsAlone self.now.kept }
    {
        self.replies.as_slice()
    }

    /// The reply at a place, counted from 0.
    pub fn reply(&self, place: usize) -> &KeptReply
        requires { place < length self.now.kept }
        ensures { slice_get self.now.kept place ≡ Some result.now }
    {
        &self.replies[place]
    }

    /// The place of the reply that is kept for a caller's number, which has no blank: none, or the
    /// only one. `Err` where there is no memory for the key.
    pub fn find(
        &self,
        alloc: Global,
        caller: &[u8],
        number: &[u8],
    ) -> Result<Option<usize>, AllocError>
        requires { IsWord number.now }
        ensures { IfOk result (λ found. found
            ≡ place_for caller.now number.now self.now.kept) }
    {
        let key = key_of(alloc, caller, number)?;
        Ok(self.places.get(&key).copied())
    }

    /// Makes a reply ready, with all room that it takes. Nothing is kept yet. `Err` where there is
    /// no memory.
    pub fn prepare(&mut self, alloc: Global, reply: KeptReply) -> Result<Ready, AllocError>
        ensures kept { self.new.kept ≡ self.old.kept }
        ensures roomier { self.old.room ≤ self.new.room }
        ensures room { OnOk result (0 < self.new.room) }
        ensures ready { IfOk result (λ ready. ready ≡ reply) }
    {
        let key = key_of(alloc, reply.caller.as_slice(), reply.number.as_slice())?;
        self.replies.reserve(1)?;
        self.places.reserve(1)?;
        Ok(Ready { key, reply })
    }

    /// Keeps a reply behind the others, where none is kept for its number. It takes no memory.
    pub fn keep(&mut self, ready: Ready)
        requires room { 0 < self.old.room }
        requires word { IsWord ready.number }
        requires free { IsFree self.old.kept ready.caller ready.number }
        ensures { self.new.kept ≡ self.old.kept ++ ready ∷ [] }
    {
        let Ready { key, reply } = ready;
        let place = self.replies.len();
        let _ = self.places.insert(key, place);
        let _ = self.replies.push(reply);
    }
}
