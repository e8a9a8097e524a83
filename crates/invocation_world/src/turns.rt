//! Rows that are retired one after the other.
ghost use Rattle.std.specs.Prelude.{◌≡◌, ◌≤◌, All};
ghost use Rattle.std.specs.List.Sorted.{IsStrictlyIncreasing};
ghost use Rattle.invocations.specs.Rows.{IsInState, begun, with_changed};
ghost use Rattle.invocation_world.specs.Parts.{AreLinked, StayLinked};
ghost use Rattle.invocation_world.specs.Settling.{AreEnded, SettlesRows};
ghost use Rattle.invocation_world.specs.Turns.{RunsTo};

use finaliser::Finaliser;
use invocations::Table;
use names_realms::{Moment, State};

/// How many due rows are few: for these alone it isn't worth while to go over all rows.
const FEW: u32 = 64;

/// Ends the finalization of the rows at these places.
fn end_rows(table: &mut Table, places: &[u32], moment: Moment)
    requires finalizing { All (IsInState State.Finalizing table.old.rows) places.now }
    requires rising { IsStrictlyIncreasing places.now }
    ensures ended { AreEnded moment places.now table.old.rows table.new.rows }
    ensures spare { table.old.spare ≤ table.new.spare }
{
    for place in places {
        table.set_final(*place, moment);
    }
}

/// Begins the finalization of an active row, and settles the rows.
pub(crate) fn retire_row(table: &mut Table, finaliser: &mut Finaliser, place: u32, moment: Moment)
    requires linked { AreLinked table.old finaliser.old }
    requires active { IsInState State.Active table.old.rows place }
    ensures rows { SettlesRows moment finaliser.old.graph.edges
        (with_changed (begun moment) table.old.rows place) table.new.rows }
    ensures parts { StayLinked table.old finaliser.old table.new finaliser.new }
{
    table.begin_final(place, moment);
    finaliser.retire(place);
    end_rows(table, finaliser.finals(), moment);
    finaliser.clear_finals();
}

/// Whether more than a few rows are due at a moment.
fn are_many(table: &Table, moment: Moment) -> bool {
    match table.in_turn(FEW) {
        Some(place) => table.row(place).deadline <= moment,
        None => false,
    }
}

/// Notes for which active row each one waits, for the one that is due last where there are several.
/// It goes over all rows and inclusions once.
fn note_all(table: &Table, finaliser: &mut Finaliser)
    requires { AreLinked table.now finaliser.old }
    ensures parts { StayLinked table.now finaliser.old table.now finaliser.new }
{
    for turn in (0..table.count()).rev() {
        note_turn(table, finaliser, turn);
    }
    finaliser.clear_notes();
}

/// Notes which rows wait for the active one before which so many others are due.
fn note_turn(table: &Table, finaliser: &mut Finaliser, turn: u32)
    requires { AreLinked table.now finaliser.old }
    ensures parts { StayLinked table.now finaliser.old table.now finaliser.new }
{
    if let Some(place) = table.in_turn(turn) {
        finaliser.note(place);
    }
}

/// Notes for which rows all others wait, where many are due.
fn note_if_many(table: &Table, finaliser: &mut Finaliser, moment: Moment)
    requires { AreLinked table.now finaliser.old }
    ensures parts { StayLinked table.now finaliser.old table.now finaliser.new }
{
    if are_many(table, moment) {
        note_all(table, finaliser);
    }
}

/// Retires the rows that are due at a moment, each at its deadline, until nothing is due.
fn take_turns(table: &mut Table, finaliser: &mut Finaliser, moment: Moment)
    requires { AreLinked table.old finaliser.old }
    ensures rows { RunsTo finaliser.old.graph.edges moment table.old.rows table.new.rows }
    ensures parts { StayLinked table.old finaliser.old table.new finaliser.new }
{
    'turns: while let Some(place) = table.next_due(moment) {
        let deadline = table.row(place).deadline;
        retire_row(table, finaliser, place, deadline);
    }
}

/// Retires the rows that are due at a moment, each at its deadline, until nothing is due. Where
/// many are, the finaliser is told before in which order, so that it goes to no row for each of
/// them.
pub(crate) fn carry_out(table: &mut Table, finaliser: &mut Finaliser, moment: Moment)
    requires { AreLinked table.old finaliser.old }
    ensures rows { RunsTo finaliser.old.graph.edges moment table.old.rows table.new.rows }
    ensures parts { StayLinked table.old finaliser.old table.new finaliser.new }
{
    note_if_many(table, finaliser, moment);
    take_turns(table, finaliser, moment);
}
