//! Replies from a link, one after the other.
ghost use Rattle.std.specs.Prelude.{◌≡◌, ◌≤◌, ◌<◌, [], length, drop, IfOk, OnErr};
ghost use Rattle.outside.specs.Ends.{OnlyReads};
ghost use Rattle.sink_replies.specs.Reads.{FindsHead, Fills, SkipsBody};
ghost use Rattle.sink_replies.specs.Reading.{ReadsReply};

use crate::body::skip;
use crate::heads::{HEAD_LIMIT, Judged, ReplyHead, judge};
use crate::reads::{ReplyEnd, read_at};
use outside::Link;
use std::alloc::{AllocError, Global};
use std::marker::Model;

/// Reads replies from a link, and holds what was read past the last one.
#[derive(Drop)]
pub struct ReplyReader {
    room: Vec<u8>,
    filled: usize,
}

impl Model for ReplyReader {
    ghost use Rattle.std.specs.Prelude.{ℕ, ◌≡◌, ◌≤◌, List, length, take};

    ghost Value = { List ℕ };

    ghost view = { λ r. take r.filled r.room.items };

    ghost invariant = { λ r. (r.filled ≤ length r.room.items)
        × (length r.room.items ≡ 16384) };
}

impl ReplyReader {
    /// A reader that holds nothing. Room for a head is made here, once.
    pub fn new(alloc: Global) -> Result<ReplyReader, AllocError>
        ensures { IfOk result (λ r. r ≡ []) }
    {
        let room = vec![in alloc; 0u8; HEAD_LIMIT]?;
        Ok(ReplyReader { room, filled: 0 })
    }

    /// Reads the next reply whole, and answers its status. What was read past it is held for the
    /// next one.
    ///
    /// `BadReply` comes where the bytes begin no reply, as soon as they do: no other answer without
    /// a reply comes but where some bytes that follow make one. `Ended` comes where the input ended
    /// before the reply did, and `ReadFault` where a read failed. After each nothing is held.
    pub fn next<L: Link>(&mut self, link: &mut L) -> Result<u16, ReplyEnd>
        ensures reply { ReadsReply self.old (L.ends link.old).incoming result self.new
            (L.ends link.new).incoming }
        ensures err { OnErr result (self.new ≡ []) }
        ensures only { OnlyReads (L.ends link.old) (L.ends link.new) }
        ensures holds { L.holds link.new ≡ L.holds link.old }
    {
        let answer = self.read_reply(link);
        if answer.is_err() {
            self.filled = 0;
        }
        answer
    }

    fn read_reply<L: Link>(&mut self, link: &mut L) -> Result<u16, ReplyEnd>
        ensures reply { ReadsReply self.old (L.ends link.old).incoming result self.new
            (L.ends link.new).incoming }
        ensures only { OnlyReads (L.ends link.old) (L.ends link.new) }
        ensures holds { L.holds link.new ≡ L.holds link.old }
    {
        let head = self.find_head(link)?;
        self.advance(head.len);
        self.skip_body(link, head.body)?;
        Ok(head.status)
    }

    /// Reads until a reply's head stands in front.
    fn find_head<L: Link>(&mut self, link: &mut L) -> Result<ReplyHead, ReplyEnd>
        ensures finds { FindsHead self.old (L.ends link.old).incoming result self.new
            (L.ends link.new).incoming }
        ensures only { OnlyReads (L.ends link.old) (L.ends link.new) }
        ensures holds { L.holds link.new ≡ L.holds link.old }
    {
        'search: loop {
            match judge(&self.room.as_slice()[..self.filled]) {
                Judged::Head(head) => return Ok(head),
                Judged::NoReply { end } => return Err(ReplyEnd::BadReply { end }),
                Judged::Unfinished => self.fill(link)?,
            }
        }
    }

    /// Reads once, behind what is held.
    fn fill<L: Link>(&mut self, link: &mut L) -> Result<(), ReplyEnd>
        requires { length self.old < 16384 }
        ensures filled { Fills self.old (L.ends link.old).incoming result self.new
            (L.ends link.new).incoming }
        ensures only { OnlyReads (L.ends link.old) (L.ends link.new) }
        ensures holds { L.holds link.new ≡ L.holds link.old }
    {
        let count = read_at(link, self.room.as_mut_slice(), self.filled)?;
        self.filled += count;
        Ok(())
    }

    /// Passes over bytes in front of what is held.
    fn advance(&mut self, count: usize)
        requires { count ≤ length self.old }
        ensures { self.new ≡ drop count self.old }
    {
        self.room.as_mut_slice().rotate_left(count);
        self.filled -= count;
    }

    /// Passes over the body of so many bytes, of which it reads what isn't held.
    fn skip_body<L: Link>(&mut self, link: &mut L, len: usize) -> Result<(), ReplyEnd>
        ensures skips { SkipsBody self.old (L.ends link.old).incoming len result self.new
            (L.ends link.new).incoming }
        ensures only { OnlyReads (L.ends link.old) (L.ends link.new) }
        ensures holds { L.holds link.new ≡ L.holds link.old }
    {
        if len <= self.filled {
            self.advance(len);
            return Ok(());
        }
        let left = len - self.filled;
        self.filled = 0;
        skip(link, self.room.as_mut_slice(), left)
    }
}
