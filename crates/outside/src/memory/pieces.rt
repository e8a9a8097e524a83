//! Bytes that wait to be read.
ghost use Rattle.std.specs.Prelude.{◌≡◌, ◌≤◌, ℕ, List, ◌∷◌, [], ◌++◌, min, map, length, take, drop, IsTrue, ◌↔◌};
ghost use Rattle.outside.specs.Pieces.{without_empty, first_piece, pieces_after};

use std::alloc::Global;
use std::collections::VecDeque;
use std::marker::Model;

/// The bytes of one piece that weren't read yet.
#[derive(Drop)]
pub struct Unread {
    bytes: Vec<u8>,
    place: usize,
}

impl Model for Unread {
    ghost use Rattle.std.specs.Prelude.{◌≤◌, ℕ, List, length, drop};

    ghost Value = { List ℕ };

    ghost view = { λ u. drop u.place u.bytes.items };

    ghost invariant = { λ u. u.place ≤ length u.bytes.items };
}

impl Unread {
    pub fn new(bytes: Vec<u8>) -> Unread
        ensures { result ≡ bytes.items }
    {
        Unread { bytes, place: 0 }
    }

    pub fn is_empty(&self) -> bool
        ensures { IsTrue result ↔ (self.now ≡ []) }
    {
        self.bytes[self.place..].is_empty()
    }

    /// Puts the next bytes at the front of `room`, as many as fit, and answers how many they are.
    pub fn give(&mut self, room: &mut [u8]) -> usize
        ensures count { result ≡ min (length self.old) (length room.new) }
        ensures given { take result room.new ≡ take result self.old }
        ensures rest { self.new ≡ drop result self.old }
    {
        let count = room.len().min(self.bytes.len() - self.place);
        let end = self.place + count;
        room[..count].copy_from_slice(&self.bytes[self.place..end]);
        self.place = end;
        count
    }
}

/// Pieces of bytes, which are read one by one.
#[derive(Drop)]
pub struct Pieces {
    current: Unread,
    others: VecDeque<Vec<u8>>,
}

impl Model for Pieces {
    ghost use Rattle.std.specs.Prelude.{List, ℕ, ◌∷◌, map};
    ghost use Rattle.outside.specs.Pieces.{without_empty};

    ghost Value = { List (List ℕ) };

    ghost view = { λ p. without_empty (p.current ∷ map (λ v. v.items) p.others.items) };
}

impl Pieces {
    pub fn new(alloc: Global, pieces: Vec<Vec<u8>>) -> Pieces
        ensures { result ≡ without_empty (map (λ v. v.items) pieces.items) }
    {
        Pieces {
            current: Unread::new(Vec::new(alloc)),
            others: VecDeque::from(pieces),
        }
    }

    /// Puts bytes of the first piece that isn't empty at the front of `room`, as many as fit, and
    /// answers how many they are.
    pub fn give(&mut self, room: &mut [u8]) -> usize
        ensures count { result ≡ min (length (first_piece self.old)) (length room.new) }
        ensures given { take result room.new ≡ take result (first_piece self.old) }
        ensures rest { self.new ≡ pieces_after result self.old }
        ensures end { first_piece self.old ≡ [] → self.old ≡ [] }
    {
        pass_empty(&mut self.current, &mut self.others);
        self.current.give(room)
    }
}

/// Goes on to the first piece that isn't empty.
fn pass_empty(current: &mut Unread, others: &mut VecDeque<Vec<u8>>)
    ensures same { without_empty (current.new ∷ map (λ v. v.items) others.new.items)
        ≡ without_empty (current.old ∷ map (λ v. v.items) others.old.items) }
    ensures passed { current.new ≡ [] → others.new.items ≡ [] }
{
    while current.is_empty() {
        match others.pop_front() {
            Some(piece) => *current = Unread::new(piece),
            None => break,
        }
    }
}
