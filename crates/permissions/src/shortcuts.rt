//! What is known of ranks before anybody asks, so that an ask needn't go over what they lead to.
ghost use Rattle.std.specs.Prelude.{◌≡◌, ℕ, false, IfOk, IfSome, IsTrue, List, length};
ghost use Rattle.policy_checks.specs.declared.permission.Permission.{Permission as PermissionOf};
ghost use Rattle.permissions.specs.declared.members.Members.{Members as MembersOf};
ghost use Rattle.permissions.specs.Ranks.{IsFalling};
ghost use Rattle.permissions.specs.Rights.{AreShortcuts, IsShortcut, binds_by, shortcut_at};

use crate::grants::Grants;
use crate::graph::edges_of;
use crate::ranked::{mark_all, mark_at};
use policy_tables::Listed;
use std::alloc::{AllocError, Global};

/// What tells whether a rank, or one that it leads to, gives what is asked, whoever asks.
#[derive(Clone, Copy, Debug)]
pub(crate) enum Shortcut {
    /// Its own grants alone: it leads nowhere.
    OwnGrants,
    /// The mark that a pass makes at this place: its own, or that of a lesser rank.
    Mark(usize),
}

/// The shortcut of each rank, and the ranks with marks of their own, in their order.
#[derive(Drop)]
pub(crate) struct Shortcuts {
    pub(crate) of_ranks: Vec<Shortcut>,
    pub(crate) marked: Vec<usize>,
}

/// The shortcut of a rank.
pub(crate) fn shortcut_at(shortcuts: &[Shortcut], rank: usize) -> Shortcut
    ensures { result ≡ shortcut_at shortcuts.now rank }
{
    match shortcuts.get(rank) {
        Some(shortcut) => *shortcut,
        None => Shortcut::OwnGrants,
    }
}

/// By rank whether another one leads to it. These a pass marks, since it may come to them often: no
/// clause needs that it does.
fn led_to(alloc: Global, rows: &[Listed<usize>]) -> Result<Vec<bool>, AllocError>
    ensures { IfOk result (λ marks. length marks.items ≡ length rows.now) }
{
    let mut marks = vec![in alloc; false; rows.len()]?;
    for row in rows {
        mark_all(&mut marks, row.as_slice());
    }
    Ok(marks)
}

/// Whether a rank grants nothing itself.
fn gives_nothing(grants: &[Grants], rank: usize) -> bool
    ensures { IsTrue result → (members : List MembersOf) (u : ℕ) (p : PermissionOf)
        → binds_by members grants.now u p rank ≡ false }
{
    match grants.get(rank) {
        Some(grants) => grants.users.is_empty() && grants.groups.as_slice().is_empty(),
        None => true,
    }
}

/// The shortcut of the next rank, where it needs no mark of its own. One that grants nothing and
/// leads to one other is as that one.
fn next_shortcut(
    rows: &[Listed<usize>],
    grants: &[Grants],
    shortcuts: &Shortcuts,
    is_led_to: bool,
) -> Option<Shortcut>
    requires falling { IsFalling rows.now }
    requires shortcuts { AreShortcuts rows.now grants.now shortcuts.now }
    ensures { IfSome result (IsShortcut rows.now grants.now shortcuts.now.marked.items
        (length shortcuts.now.of_ranks.items)) }
{
    let rank = shortcuts.of_ranks.len();
    let targets = edges_of(rows, rank);
    if targets.is_empty() && !is_led_to {
        return Some(Shortcut::OwnGrants);
    }
    if targets.len() == 1 && gives_nothing(grants, rank) {
        if let Shortcut::Mark(place) = shortcut_at(shortcuts.of_ranks.as_slice(), targets[0]) {
            return Some(Shortcut::Mark(place));
        }
    }
    None
}

/// The shortcuts of all ranks.
pub(crate) fn all_shortcuts(
    alloc: Global,
    rows: &[Listed<usize>],
    grants: &[Grants],
) -> Result<Shortcuts, AllocError>
    requires { IsFalling rows.now }
    ensures are { IfOk result (AreShortcuts rows.now grants.now) }
    ensures count { IfOk result
        (λ shortcuts. length shortcuts.of_ranks.items ≡ length rows.now) }
{
    let led = led_to(alloc, rows)?;
    let mut shortcuts = Shortcuts {
        of_ranks: Vec::new(alloc),
        marked: Vec::new(alloc),
    };
    for rank in 0..rows.len() {
        let is_led_to = mark_at(led.as_slice(), rank);
        match next_shortcut(rows, grants, &shortcuts, is_led_to) {
            Some(known) => shortcuts.of_ranks.push(known)?,
            None => {
                let place = shortcuts.marked.len();
                shortcuts.of_ranks.push(Shortcut::Mark(place))?;
                shortcuts.marked.push(rank)?;
            }
        }
    }
    Ok(shortcuts)
}
