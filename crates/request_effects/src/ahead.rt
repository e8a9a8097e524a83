//! An invocation as it will be after an effect, seen before anything is done.
ghost use Rattle.std.specs.Prelude.{◌≡◌, ◌<◌, Some, All, length, slice_get};
ghost use Rattle.inclusion_graph.specs.Edges.{targets_of};
ghost use Rattle.invocations.specs.Rows.{begun};
ghost use Rattle.invocation_world.specs.World.{World};
ghost use Rattle.invocation_world.specs.Changes.{updated};
ghost use Rattle.service_effects.specs.Fitting.{Suits};
ghost use Rattle.request_effects.specs.Foreseen.{Foresees, IsFinalTold, IsHere, Leaves, ended_if};
ghost use Rattle.invocation_world.specs.States.{IsRoomier};
ghost use Rattle.request_effects.specs.Keeps.{as_made};
ghost use Rattle.request_effects.specs.Shows.{ids_at};

use invocation_world::InvocationWorld;
use invocations::Invocation;
use lists::Listed;
use names_realms::{Moment, Pair, State};
use service_effects::{Effect, Tables};
use std::marker::Model;

/// An invocation as it will be: what doesn't change is read from the one that stands.
#[derive(Drop)]
pub(crate) struct Seen<'r> {
    pub row: &'r Invocation,
    pub deadline: Moment,
    pub started: Option<Moment>,
    pub finished: Option<Moment>,
    pub state: State,
    pub tags: &'r [Pair],
}

impl<'r> Model for Seen<'r> {
    ghost use Rattle.invocations.specs.declared.invocation.Invocation.{Invocation};

    ghost Value = { Invocation };

    ghost view = { λ s. record s.row.now {
      deadline = s.deadline;
      started = s.started;
      finished = s.finished;
      state = s.state;
      tags = s.tags.now;
    } };
}

impl<'r> Seen<'r> {
    /// An invocation as it stands.
    fn standing(row: &'r Invocation) -> Seen<'r>
        ensures { result ≡ row.now }
    {
        Seen {
            row,
            deadline: row.deadline,
            started: row.started,
            finished: row.finished,
            state: row.state,
            tags: row.tags.as_slice(),
        }
    }

    /// An invocation as it was made, with this deadline and these tags.
    pub(crate) fn made(row: &'r Invocation, deadline: Moment, tags: &'r [Pair]) -> Seen<'r>
        ensures { result ≡ as_made deadline tags.now row.now }
    {
        Seen {
            row,
            deadline,
            started: None,
            finished: None,
            state: State::Active,
            tags,
        }
    }

    /// An invocation with this deadline and these tags, each where it is given.
    fn updated(
        row: &'r Invocation,
        deadline: Option<Moment>,
        tags: &'r Option<Listed<Pair>>,
    ) -> Seen<'r>
        ensures { result ≡ updated deadline tags.now row.now }
    {
        let mut seen = Seen::standing(row);
        if let Some(deadline) = deadline {
            seen.deadline = deadline;
        }
        if let Some(tags) = tags {
            seen.tags = tags.as_slice();
        }
        seen
    }

    /// An invocation whose finalization begins at a moment, and ends then, too, where it is final.
    fn ended(row: &'r Invocation, moment: Moment, is_final: bool) -> Seen<'r>
        ensures { result ≡ ended_if is_final moment (begun moment row.now) }
    {
        let mut seen = Seen::standing(row);
        seen.started = Some(moment);
        seen.state = State::Finalizing;
        if is_final {
            seen.finished = Some(moment);
            seen.state = State::Finalized;
        }
        seen
    }
}

/// Whether the invocation whose finalization an effect begins will be final at once.
pub(crate) fn ends_at_once(world: &mut InvocationWorld, moment: Moment, effect: &Effect) -> bool
    requires { Suits world.old.world moment effect.now }
    ensures told { IsFinalTold world.old.world moment effect.now result }
    ensures roomier { IsRoomier world.old world.new }
{
    let _ = moment;
    match effect {
        Effect::End(place) => world.would_be_final(*place),
        Effect::Nothing => false,
        Effect::Add(_) => false,
        Effect::Update { .. } => false,
        Effect::Include(_) => false,
        Effect::Results(_) => false,
        Effect::Exonerations(_) => false,
        Effect::Artifacts(_) => false,
    }
}

/// What will be done to what is recorded at a moment, and whether the invocation whose finalization
/// it begins will be final at once.
#[derive(Clone, Copy)]
pub(crate) struct Ahead<'r> {
    pub tables: &'r Tables,
    pub moment: Moment,
    pub effect: &'r Effect,
    pub is_final: bool,
}

impl<'r> Ahead<'r> {
    /// The invocation at a place as it will be, where it is the one that is changed, or nothing is.
    pub(crate) fn row(&self, place: u32) -> Seen<'r>
        requires foresees { Foresees self.now }
        requires here { IsHere self.now.tables.now.world.world self.now.effect.now place }
        ensures { (after : World) → Leaves self.now after
            → slice_get after.invocations place ≡ Some result }
    {
        match self.effect {
            Effect::Nothing => Seen::standing(self.tables.world.row(place)),
            Effect::Add(row) => Seen::standing(row),
            Effect::Update { deadline, tags, .. } => {
                Seen::updated(self.tables.world.row(place), *deadline, tags)
            }
            Effect::End(_) => Seen::ended(self.tables.world.row(place), self.moment, self.is_final),
            Effect::Include(_) => unreachable!(),
            Effect::Results(_) => unreachable!(),
            Effect::Exonerations(_) => unreachable!(),
            Effect::Artifacts(_) => unreachable!(),
        }
    }

    /// The places of the invocations that the one at a place will include.
    pub(crate) fn included(&self, place: u32) -> &'r [u32]
        requires foresees { Foresees self.now }
        requires here { IsHere self.now.tables.now.world.world self.now.effect.now place }
        ensures within { All (λ target. target < length self.now.tables.now.world.world.invocations)
            result.now }
        ensures targets { (after : World) → Leaves self.now after
            → (result.now ≡ targets_of after.inclusions place)
            × (ids_at self.now.tables.now.world.world.invocations result.now
            ≡ ids_at after.invocations result.now) }
    {
        match self.effect {
            Effect::Nothing => self.tables.world.included(place),
            Effect::Add(_) => &[],
            Effect::Update { .. } => self.tables.world.included(place),
            Effect::End(_) => self.tables.world.included(place),
            Effect::Include(_) => unreachable!(),
            Effect::Results(_) => unreachable!(),
            Effect::Exonerations(_) => unreachable!(),
            Effect::Artifacts(_) => unreachable!(),
        }
    }
}
