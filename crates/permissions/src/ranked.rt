//! What realms grant, by their ranks, and what is asked of it.
//!
//! A chain of tens of thousands of realms, each with bindings of its own, has rows of permissions
//! that no memory holds. So each realm keeps its own grants alone. An ask for one realm goes down
//! over the ranks that it reaches. An ask for all goes up once over those that have marks of their
//! own, and leaves those whose own grants tell all to whoever asks for them.
ghost use Rattle.std.specs.Prelude.{◌≡◌, ◌<◌, ◌≤◌, ◌↔◌, ◌==◌, ◌||◌, ℕ, true, false, IfOk, length, unwrap_or};
ghost use Rattle.std.specs.List.{list_any};
ghost use Rattle.std.specs.Ordering.{nat_cmp};
ghost use Rattle.std.specs.BTreeMap.{get};
ghost use Rattle.permissions.specs.Graph.{edges, has};
ghost use Rattle.permissions.specs.Ranks.{IsFalling, IsBoundOn, IsOneBoundOn};
ghost use Rattle.permissions.specs.Rights.{is_marked, AllCome, AreGroupsOf, HasCome, HasShortcuts, IsMark, IsPass};
ghost use Rattle.permissions.specs.Rights.{gives_user, grants_user, binds_user};

use crate::grants::{Grants, GroupGrant};
use crate::graph::edges_of;
use crate::masks::is_in;
use crate::members::{Members, has_member};
use crate::shortcuts::{Shortcut, Shortcuts, shortcut_at};
use policy_checks::Permission;
use policy_tables::Listed;
use std::alloc::{AllocError, Global};

/// By rank the ranks of the realms that each extends, the grants of each, and its shortcut; by
/// their places the members of the groups.
#[derive(Drop)]
pub(crate) struct Ranked {
    pub(crate) rows: Vec<Listed<usize>>,
    pub(crate) grants: Vec<Grants>,
    pub(crate) members: Vec<Members>,
    pub(crate) shortcuts: Shortcuts,
}

/// What is asked: whether a user has a permission.
#[derive(Clone, Copy, Debug)]
pub(crate) struct Ask {
    pub(crate) user: usize,
    pub(crate) permission: Permission,
}

/// What is found for an ask of all ranks: the user's groups, and of each rank with a mark of its
/// own whether it, or one that it leads to, gives what is asked.
#[derive(Drop)]
pub(crate) struct Pass {
    pub(crate) groups: Vec<bool>,
    pub(crate) marks: Vec<bool>,
}

/// The bits of a user.
fn user_mask(grants: &Grants, user: usize) -> u16
    ensures { result ≡ unwrap_or (get nat_cmp grants.now.users user) 0 }
{
    grants.users.get(&user).copied().unwrap_or(0)
}

/// Whether a place is marked.
pub(crate) fn mark_at(marks: &[bool], place: usize) -> bool
    ensures { result ≡ is_marked marks.now place }
{
    match marks.get(place) {
        Some(mark) => *mark,
        None => false,
    }
}

/// No place marked.
fn no_marks<const N: usize>() -> [bool; N]
    ensures { (q : ℕ) → is_marked result q ≡ false }
{
    [false; N]
}

/// Marks places.
pub(crate) fn mark_all(marks: &mut [bool], places: &[usize])
    ensures len { length marks.new ≡ length marks.old }
    ensures marks { (q : ℕ) → q < length marks.old
        → is_marked marks.new q ≡ (is_marked marks.old q || has q places.now) }
{
    for place in places {
        if *place < marks.len() {
            marks[*place] = true;
        }
    }
}

impl Ranked {
    /// Whether one of these grants gives what is asked.
    fn any_gives(&self, grants: &[GroupGrant], ask: Ask) -> bool
        ensures { result
            ≡ list_any (gives_user self.now.members.items ask.user ask.permission) grants.now }
    {
        let members = self.members.as_slice();
        for grant in grants {
            if has_member(members, grant.group, ask.user) && is_in(grant.mask, ask.permission) {
                return true;
            }
        }
        false
    }

    /// Whether the grants at a rank give what is asked.
    fn binds_at(&self, rank: usize, ask: Ask) -> bool
        ensures { result ≡ binds_user self.now ask.user ask.permission rank }
    {
        match self.grants.as_slice().get(rank) {
            Some(grants) => is_in(user_mask(grants, ask.user), ask.permission)
                || self.any_gives(grants.groups.as_slice(), ask),
            None => false,
        }
    }

    /// Whether a rank, or one that it leads to, gives what is asked: each marked rank from this one
    /// down is looked at, and marks those that it leads to, which are lesser.
    fn walk(&self, marks: &mut [bool], start: usize, ask: Ask) -> bool
        requires falling { IsFalling self.now.rows.items }
        requires marks { (q : ℕ) → is_marked marks.old q ≡ (start == q) }
        requires start { start < length marks.old }
        ensures { (result ≡ true) ↔ IsBoundOn self.now.rows.items
            (binds_user self.now ask.user ask.permission) start }
    {
        let mut left = start + 1;
        while left > 0 {
            left -= 1;
            if marks[left] {
                if self.binds_at(left, ask) {
                    return true;
                }
                mark_all(marks, edges_of(self.rows.as_slice(), left));
            }
        }
        false
    }

    /// Whether a rank, or one that it leads to, gives what is asked.
    pub(crate) fn binds_from(&self, start: usize, ask: Ask) -> bool
        requires falling { IsFalling self.now.rows.items }
        requires start { start < 65536 }
        ensures { (result ≡ true) ↔ IsBoundOn self.now.rows.items
            (binds_user self.now ask.user ask.permission) start }
    {
        if edges_of(self.rows.as_slice(), start).is_empty() {
            return self.binds_at(start, ask);
        }
        let mut marks: [bool; 65_536] = no_marks();
        marks[start] = true;
        self.walk(&mut marks, start, ask)
    }

    /// Which groups have a user as a member.
    fn groups_of(&self, alloc: Global, user: usize) -> Result<Vec<bool>, AllocError>
        ensures { IfOk result (λ marks. AreGroupsOf self.now.members.items user marks.items) }
    {
        let mut marks = Vec::new(alloc);
        for members in self.members.as_slice() {
            marks.push(members.places.contains(&user))?;
        }
        Ok(marks)
    }

    /// Whether one of these grants gives what is asked, where the groups of the user are marked.
    fn any_marked(&self, groups: &[bool], grants: &[GroupGrant], ask: Ask) -> bool
        requires { AreGroupsOf self.now.members.items ask.user groups.now }
        ensures { result
            ≡ list_any (gives_user self.now.members.items ask.user ask.permission) grants.now }
    {
        for grant in grants {
            if mark_at(groups, grant.group) && is_in(grant.mask, ask.permission) {
                return true;
            }
        }
        false
    }

    /// Whether grants give what is asked, where the groups of the user are marked.
    fn gives(&self, groups: &[bool], grants: &Grants, ask: Ask) -> bool
        requires { AreGroupsOf self.now.members.items ask.user groups.now }
        ensures { result
            ≡ grants_user self.now.members.items ask.user ask.permission grants.now }
    {
        is_in(user_mask(grants, ask.user), ask.permission)
            || self.any_marked(groups, grants.groups.as_slice(), ask)
    }

    /// Whether the grants at a rank give what is asked, where the groups of the user are marked.
    fn gives_at(&self, groups: &[bool], rank: usize, ask: Ask) -> bool
        requires { AreGroupsOf self.now.members.items ask.user groups.now }
        ensures { result ≡ binds_user self.now ask.user ask.permission rank }
    {
        match self.grants.as_slice().get(rank) {
            Some(grants) => self.gives(groups, grants, ask),
            None => false,
        }
    }

    /// Whether a rank to which a pass came gives what is asked, or leads to one that does.
    pub(crate) fn is_bound(&self, pass: &Pass, rank: usize, ask: Ask) -> bool
        requires pass { IsPass self.now ask.user ask.permission pass.now }
        requires shortcuts { HasShortcuts self.now }
        requires come { HasCome self.now pass.now rank }
        ensures { (result ≡ true) ↔ IsBoundOn self.now.rows.items
            (binds_user self.now ask.user ask.permission) rank }
    {
        match shortcut_at(self.shortcuts.of_ranks.as_slice(), rank) {
            Shortcut::OwnGrants => self.gives_at(pass.groups.as_slice(), rank, ask),
            Shortcut::Mark(place) => mark_at(pass.marks.as_slice(), place),
        }
    }

    /// Whether one of these ranks, to which a pass came, gives it, or leads to one that does.
    fn is_one_bound(&self, pass: &Pass, ranks: &[usize], ask: Ask) -> bool
        requires pass { IsPass self.now ask.user ask.permission pass.now }
        requires shortcuts { HasShortcuts self.now }
        requires come { AllCome self.now pass.now ranks.now }
        ensures { (result ≡ true) ↔ IsOneBoundOn self.now.rows.items
            (binds_user self.now ask.user ask.permission) ranks.now }
    {
        for rank in ranks {
            if self.is_bound(pass, *rank, ask) {
                return true;
            }
        }
        false
    }

    /// The mark of a rank, where a pass came to all that it leads to.
    fn mark_of(&self, pass: &Pass, rank: usize, ask: Ask) -> bool
        requires pass { IsPass self.now ask.user ask.permission pass.now }
        requires shortcuts { HasShortcuts self.now }
        requires come { AllCome self.now pass.now (edges self.now.rows.items rank) }
        ensures { IsMark self.now ask.user ask.permission rank result }
    {
        self.is_one_bound(pass, edges_of(self.rows.as_slice(), rank), ask)
            || self.gives_at(pass.groups.as_slice(), rank, ask)
    }

    /// One pass over the ranks with marks of their own: what a rank leads to comes before it.
    pub(crate) fn pass(&self, alloc: Global, ask: Ask) -> Result<Pass, AllocError>
        requires falling { IsFalling self.now.rows.items }
        requires shortcuts { HasShortcuts self.now }
        ensures pass { IfOk result (IsPass self.now ask.user ask.permission) }
        ensures all { IfOk result
            (λ pass. length pass.marks.items ≡ length self.now.shortcuts.marked.items) }
    {
        let groups = self.groups_of(alloc, ask.user)?;
        let marks = Vec::new(alloc);
        let mut pass = Pass { groups, marks };
        for rank in self.shortcuts.marked.as_slice() {
            let mark = self.mark_of(&pass, *rank, ask);
            pass.marks.push(mark)?;
        }
        Ok(pass)
    }
}
