//! The table of a turnstile: word 0 counts the tickets drawn, word 1 the turns passed, and slot 0
//! has the value.
ghost use Rattle.turnstile.specs.Rule.{Kept, idle, gone};
ghost use Rattle.turnstile.specs.Seats.{first_known, split_left, split_right};
ghost use Rattle.turnstile.specs.Steps.{drew, looked, passed_on, ended, met, settled};
ghost use Rattle.turnstile.specs.Rule.{own_of};
ghost use Rattle.std.specs.Prelude.{List, ℕ};

use crate::Held;
use atomic_table::{Join, Play, Seat, Split, Table, TableRule};
use std::alloc::Global;
use std::collections::LinkedList;
use std::marker::{Brand, PhantomData};
use std::snapshot::Snapshot;

/// What a seat does. No value of it is made.
pub enum Role {
    Idle,
    /// It has drawn this ticket.
    Waits(u64),
    /// It is the turn of this ticket, and the seat has the slot.
    Holds(u64),
    /// It took the value for good, in the turn of this ticket.
    Ends(u64),
}

/// What a seat knows. No value of it is made: it is for contracts.
pub struct Known<E> {
    /// Each entry of the seat has it.
    pub number: u64,
    /// So many seats may still be split off.
    pub splits: u64,
    /// The greatest number of tickets that the seat found drawn.
    pub drawn: u64,
    /// The numbers of the seats that were joined into it, and their ended ones.
    pub ended: LinkedList<u64>,
    /// The history, as far as the seat has seen it.
    pub seen: LinkedList<E>,
}

/// A seat at the table: what one seat knows, or two that are being joined, or none that was joined
/// away.
pub struct View<E> {
    pub role: Role,
    pub known: LinkedList<Known<E>>,
}

pub struct Turns;

impl<T: Held> TableRule<Option<T>, View<T::Entry>, Snapshot<T>> for Turns {
    ghost holds = { λ key. Kept (λ v log. T.stands v (T.start key.value) log) T.by };

    ghost first = { λ _. idle first_known };
}

pub type Board<T> = Table<Option<T>, View<<T as Held>::Entry>, Snapshot<T>, Turns, Global>;

pub type Place<T> = Seat<Option<T>, View<<T as Held>::Entry>>;

pub(crate) struct Draws;

impl<T: Held> Play<Option<T>, View<T::Entry>> for Draws {
    ghost then = { drew };
}

/// For what entries a value stands, from the start of its turnstile.
pub(crate) trait Standing<T, E> {
    ghost stands: { T → List E → Type 0 };
}

impl<T, E> Standing<T, E> for Brand {
    ghost stands = { λ _ _. Unit {0} };
}

pub(crate) struct Looks<J> {
    of: PhantomData<J>,
}

impl<T: Held, J: Standing<T, T::Entry>> Play<Option<T>, View<T::Entry>> for Looks<J> {
    ghost then = { looked J.stands T.by };
}

/// Which entry may be added to which entries.
pub(crate) trait Fits<E> {
    ghost fits: { List E → E → Type 0 };
}

impl<E> Fits<E> for Brand {
    ghost fits = { λ _ _. Unit {0} };
}

pub(crate) struct Passes<J> {
    of: PhantomData<J>,
}

impl<T: Held, J: Fits<T::Entry>> Play<Option<T>, View<T::Entry>> for Passes<J> {
    ghost then = { passed_on J.fits };
}

pub(crate) struct Ending;

impl<T: Held> Play<Option<T>, View<T::Entry>> for Ending {
    ghost then = { ended };
}

pub(crate) struct Splits;

impl<E> Split<View<E>> for Splits {
    ghost left = { λ v. idle (split_left (own_of v)) };

    ghost right = { λ v. idle (split_right (own_of v)) };
}

pub(crate) struct Joins;

impl<E> Join<View<E>> for Joins {
    ghost both = { met };

    ghost spent = { gone };
}

pub(crate) struct Settles<H> {
    of: PhantomData<H>,
}

impl<T: Held> Play<Option<T>, View<T::Entry>> for Settles<T> {
    ghost then = { settled T.by };
}
