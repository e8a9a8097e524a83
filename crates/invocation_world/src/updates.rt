//! Updates of a row.
ghost use Rattle.std.specs.Prelude.{◌≡◌, None};
ghost use Rattle.std.specs.Cmp.Lexicographic.{pointwise};
ghost use Rattle.invocations.specs.Rows.{IsInState, IsRoomier, with_row_changed};
ghost use Rattle.invocation_world.specs.Changes as changes;
ghost use Rattle.invocation_world.specs.Changes.{updated};

use invocations::{Invocation, Table};
use lists::Listed;
use names_realms::{Moment, Pair, State};

/// Whether two pairs are the same.
fn is_same_pair(a: &Pair, b: &Pair) -> bool
    ensures { result ≡ changes.is_same_pair a.now b.now }
{
    a.key.as_slice() == b.key.as_slice() && a.value.as_slice() == b.value.as_slice()
}

/// Whether two lists of pairs are the same.
fn are_same(a: &[Pair], b: &[Pair]) -> bool
    ensures { result ≡ pointwise changes.is_same_pair a.now b.now }
{
    if a.len() != b.len() {
        return false;
    }
    for i in 0..a.len() {
        if !is_same_pair(&a[i], &b[i]) {
            return false;
        }
    }
    true
}

/// Whether a deadline is given, and another one stands.
fn is_other_deadline(deadline: &Option<Moment>, stands: Moment) -> bool
    ensures { result ≡ changes.is_other_deadline deadline.now stands }
{
    match deadline {
        Some(given) => *given != stands,
        None => false,
    }
}

/// Whether tags are given, and others stand.
fn are_other_tags(tags: &Option<Listed<Pair>>, stand: &[Pair]) -> bool
    ensures { result ≡ changes.are_other_tags tags.now stand.now }
{
    match tags {
        Some(given) => !are_same(given.as_slice(), stand),
        None => false,
    }
}

/// Whether an update changes a row.
pub(crate) fn is_update(
    row: &Invocation,
    deadline: &Option<Moment>,
    tags: &Option<Listed<Pair>>,
) -> bool
    ensures { result ≡ changes.is_update deadline.now tags.now row.now }
{
    is_other_deadline(deadline, row.deadline) || are_other_tags(tags, row.tags.as_slice())
}

/// Sets the deadline of an active row, where one is given.
pub(crate) fn set_deadline(table: &mut Table, place: u32, deadline: Option<Moment>)
    requires { IsInState State.Active table.old.rows place }
    ensures { IsRoomier (with_row_changed (updated deadline None) table.old place) table.new }
{
    match deadline {
        Some(deadline) => table.set_deadline(place, deadline),
        None => {}
    }
}

/// Sets the tags of an active row, where some are given.
pub(crate) fn set_tags(table: &mut Table, place: u32, tags: Option<Listed<Pair>>)
    requires { IsInState State.Active table.old.rows place }
    ensures { IsRoomier (with_row_changed (updated None tags) table.old place) table.new }
{
    match tags {
        Some(tags) => table.set_tags(place, tags),
        None => {}
    }
}
