//! The world of invocations in memory.
ghost use Rattle.std.specs.Prelude.{◌≡◌, ◌≢◌, ◌+◌, ◌<◌, ◌≤◌, ◌≤ℤ◌, ◌<ℤ◌, ◌↔◌, ℤ, Some, All, IfErr, IfOk, IfSome};
ghost use Rattle.std.specs.Prelude.{IsTrue, MatchBool, MatchOption, OnOk, length, slice_get};
ghost use Rattle.std.specs.Option.{ForSome};
ghost use Rattle.inclusion_graph.specs.Edges.{edges_from, targets_of};
ghost use Rattle.inclusion_graph.specs.Plans.{IsEdgeFault, IsElsewhere, new_targets};
ghost use Rattle.invocations.specs.declared.invocation.Invocation.{Invocation};
ghost use Rattle.invocations.specs.Faults.{CanAdd, IsAddFault};
ghost use Rattle.invocations.specs.Rows.{HasId, IsInState, IsPlaceOf};
ghost use Rattle.invocation_world.specs.Advancing.{Advances, IsDueAt, IsQuiet};
ghost use Rattle.invocation_world.specs.Changes.{with_begun, with_edges, with_moment, with_update};
ghost use Rattle.invocation_world.specs.Changes as changes;
ghost use Rattle.invocation_world.specs.Settling.{Settles};
ghost use Rattle.invocation_world.specs.States.{Fits, IsNoLess, IsRoomier, graph_of, without_inclusions, without_row};
ghost use Rattle.invocation_world.specs.World.{IsCallMoment, IsPair, IsRow, IsValid, ReachesActive, empty_world};
ghost use Rattle.invocation_world.specs.World.{latest_deadline, with_row};

use crate::turns::{carry_out, retire_row};
use crate::updates::{is_update, set_deadline, set_tags};
use finaliser::Finaliser;
use inclusion_graph::{EdgeFault, EdgePlan, Graph};
use invocations::{AddFault, Invocation, Table};
use lists::Listed;
use names_realms::{InvocationId, Moment, Pair, State};
use std::alloc::{AllocError, Global};
use std::marker::Model;

/// The invocations with their inclusions and states, and the moment of the last change.
#[derive(Drop)]
pub struct InvocationWorld {
    table: Table,
    finaliser: Finaliser,
    last: Moment,
}

impl Model for InvocationWorld {
    ghost use Rattle.std.specs.Prelude.{min};
    ghost use Rattle.invocation_world.specs.States.{WorldState};
    ghost use Rattle.invocation_world.specs.Parts.{IsKept, world_of};

    ghost Value = { WorldState };

    ghost view = { λ w. record {
      world = world_of w.table w.finaliser w.last;
      room = record {
        rows = min w.table.spare w.finaliser.spare;
        inclusions = w.finaliser.graph.spare_edges;
      };
    } };

    ghost invariant = { λ w. IsKept w.table w.finaliser w.last };
}

impl InvocationWorld {
    /// The empty world. `Err` where there is no memory for it.
    pub fn new(alloc: Global) -> Result<InvocationWorld, AllocError>
        ensures { IfOk result (λ made. made.world ≡ empty_world) }
    {
        Ok(InvocationWorld {
            table: Table::new(alloc)?,
            finaliser: Finaliser::new(alloc)?,
            last: Moment::new(0),
        })
    }

    /// The rows, in order of creation.
    pub fn rows(&self) -> &[Invocation]
        ensures rows { result.now ≡ self.now.world.invocations }
        ensures valid { IsValid self.now.world }
    {
        self.table.rows()
    }

    /// The table of the rows.
    pub fn table(&self) -> &Table
        ensures rows { result.now.rows ≡ self.now.world.invocations }
        ensures valid { IsValid self.now.world }
    {
        &self.table
    }

    /// Which row includes which, by their places.
    pub fn graph(&self) -> &Graph
        ensures edges { result.now.edges ≡ self.now.world.inclusions }
        ensures nodes { result.now.nodes ≡ length self.now.world.invocations }
    {
        self.finaliser.graph()
    }

    /// The row at a place, counted from 0.
    pub fn row(&self, place: u32) -> &Invocation
        requires { place < length self.now.world.invocations }
        ensures row { slice_get self.now.world.invocations place ≡ Some result.now }
        ensures valid { IsValid self.now.world }
    {
        self.table.row(place)
    }

    /// The place of the row with this id, or none where no row has it.
    pub fn find(&self, id: &InvocationId) -> Option<u32>
        ensures place { MatchOption result (¬ HasId self.now.world.invocations id.now)
            (IsPlaceOf self.now.world.invocations id.now) }
        ensures valid { IsValid self.now.world }
    {
        self.table.find(id)
    }

    /// How many rows there are.
    pub fn count(&self) -> u32
        ensures count { result ≡ length self.now.world.invocations }
        ensures valid { IsValid self.now.world }
    {
        self.table.count()
    }

    /// The moment of the last change.
    pub fn last(&self) -> Moment
        ensures last { result ≡ self.now.world.last }
        ensures valid { IsValid self.now.world }
    {
        self.last
    }

    /// The places of the rows that the one at a place includes, in order of arrival.
    pub fn included(&self, place: u32) -> &[u32]
        requires { place < length self.now.world.invocations }
        ensures targets { result.now ≡ targets_of self.now.world.inclusions place }
        ensures within { All (λ target. target < length self.now.world.invocations) result.now }
        ensures valid { IsValid self.now.world }
    {
        self.finaliser.graph().targets(place)
    }

    /// How many inclusions there are.
    pub fn inclusion_count(&self) -> u32
        ensures count { result ≡ length self.now.world.inclusions }
        ensures valid { IsValid self.now.world }
    {
        self.finaliser.graph().edges().len() as u32
    }

    /// Whether something is due at a moment: an active row whose deadline it is, or an earlier one.
    pub fn is_due(&self, moment: Moment) -> bool
        ensures due { MatchBool result (IsDueAt self.now.world moment)
            (IsQuiet self.now.world moment) }
        ensures valid { IsValid self.now.world }
    {
        self.table.next_due(moment).is_some()
    }

    /// Carries out the deadlines that have come at a moment, each at its time. It takes no memory.
    pub fn advance(&mut self, moment: Moment)
        requires moment { IsCallMoment moment }
        requires later { self.old.world.last ≤ℤ moment }
        ensures world { Advances self.old.world moment self.new.world }
        ensures quiet { IsQuiet self.new.world moment }
        ensures valid { IsValid self.new.world }
        ensures room { IsNoLess self.old.room self.new.room }
    {
        if self.table.next_due(moment).is_some() {
            carry_out(&mut self.table, &mut self.finaliser, moment);
            self.last = moment;
        }
    }

    /// Makes room for a row with this id. `Taken` where a row has the id, else `Full` where there
    /// are 65,536 rows, else `Memory` where there is no memory for a row more.
    pub fn prepare_add(&mut self, alloc: Global, id: &InvocationId) -> Result<(), AddFault>
        ensures roomier { IsRoomier self.old self.new }
        ensures room { OnOk result (0 < self.new.room.rows) }
        ensures can { OnOk result (CanAdd self.old.world.invocations id.now) }
        ensures fault { IfErr result (IsAddFault self.old.world.invocations id.now) }
    {
        self.table.prepare_add(alloc, id)?;
        match self.finaliser.reserve(alloc) {
            Ok(()) => Ok(()),
            Err(_) => Err(AddFault::Memory),
        }
    }

    /// Appends an active row, which was made at its create time, and gives its place. It takes no
    /// memory.
    pub fn add_prepared(&mut self, row: Invocation) -> u32
        requires room { 0 < self.old.room.rows }
        requires can { CanAdd self.old.world.invocations row.id }
        requires is_row { IsRow row.created row }
        requires active { row.state ≡ State.Active }
        requires moment { IsCallMoment row.created }
        requires later { self.old.world.last ≤ℤ row.created }
        requires quiet { IsQuiet self.old.world row.created }
        ensures world { self.new.world ≡ with_row self.old.world row }
        ensures place { result ≡ length self.old.world.invocations }
        ensures room { IsNoLess (without_row self.old.room) self.new.room }
    {
        self.last = row.created;
        self.finaliser.add_active();
        self.table.add_prepared(row)
    }

    /// The inclusions in an active row of those of the targets that it doesn't include yet, each
    /// once, in order, with room for them. `Itself` where a target is the row, else `Full` where
    /// the inclusions would be more than 262,144; `Memory` where there is no memory for them.
    pub fn prepare_inclusions(
        &mut self,
        alloc: Global,
        place: u32,
        targets: &[u32],
    ) -> Result<EdgePlan, EdgeFault>
        requires active { IsInState State.Active self.old.world.invocations place }
        requires there { All (λ target. target < length self.old.world.invocations) targets.now }
        ensures roomier { IsRoomier self.old self.new }
        ensures fits { IfOk result (Fits self.new) }
        ensures from { IfOk result (λ plan. plan.from ≡ place) }
        ensures targets { IfOk result
            (λ plan. plan.targets ≡ new_targets (graph_of self.old) place targets.now) }
        ensures elsewhere { OnOk result (IsElsewhere place targets.now) }
        ensures fault { IfErr result (IsEdgeFault (graph_of self.old) place targets.now) }
    {
        self.finaliser.prepare_edges(alloc, place, targets)
    }

    /// Adds inclusions that were prepared. It takes no memory.
    pub fn include(&mut self, plan: EdgePlan, moment: Moment)
        requires fits { Fits self.old plan }
        requires moment { IsCallMoment moment }
        requires later { self.old.world.last ≤ℤ moment }
        requires quiet { IsQuiet self.old.world moment }
        ensures world { self.new.world ≡
            with_edges moment (edges_from plan.from plan.targets) self.old.world }
        ensures room { IsNoLess (without_inclusions (length plan.targets) self.old.room)
            self.new.room }
    {
        let before = self.finaliser.graph().edges().len();
        self.finaliser.add_edges(plan);
        if self.finaliser.graph().edges().len() != before {
            self.last = moment;
        }
    }

    /// Makes a moment that of the last change: something that stands beside the invocations has
    /// changed. It takes no memory.
    pub fn note_change(&mut self, moment: Moment)
        requires moment { IsCallMoment moment }
        requires later { self.old.world.last ≤ℤ moment }
        requires quiet { IsQuiet self.old.world moment }
        ensures world { self.new.world ≡ with_moment moment self.old.world }
        ensures room { self.new.room ≡ self.old.room }
    {
        self.last = moment;
    }

    /// Whether an active row would be final at once, if it were retired now. It takes no memory,
    /// and changes nothing.
    pub fn would_be_final(&mut self, place: u32) -> bool
        requires { IsInState State.Active self.old.world.invocations place }
        ensures answer { (moment : ℤ) → IsTrue result
            ↔ ¬ ReachesActive (with_begun moment place self.old.world) place }
        ensures roomier { IsRoomier self.old self.new }
    {
        self.finaliser.would_be_final(place)
    }

    /// Begins the finalization of an active row. Then each finalizing row that reaches no active
    /// one is ended, all at once. It takes no memory.
    pub fn retire(&mut self, place: u32, moment: Moment)
        requires active { IsInState State.Active self.old.world.invocations place }
        requires moment { IsCallMoment moment }
        requires later { self.old.world.last ≤ℤ moment }
        requires quiet { IsQuiet self.old.world moment }
        ensures world { Settles moment (with_begun moment place self.old.world) self.new.world }
        ensures room { IsNoLess self.old.room self.new.room }
    {
        retire_row(&mut self.table, &mut self.finaliser, place, moment);
        self.last = moment;
    }

    /// Whether an update would change the row at a place.
    pub fn would_update(
        &self,
        place: u32,
        deadline: Option<Moment>,
        tags: &Option<Listed<Pair>>,
    ) -> bool
        requires { place < length self.now.world.invocations }
        ensures { (row : Invocation) → slice_get self.now.world.invocations place ≡ Some row
            → result ≡ changes.is_update deadline tags.now row }
    {
        is_update(self.table.row(place), &deadline, tags)
    }

    /// Sets the deadline and the tags of an active row, each where it is given. An update to what
    /// stands changes nothing, the moment of the last change neither. It takes no memory.
    pub fn update(
        &mut self,
        place: u32,
        deadline: Option<Moment>,
        tags: Option<Listed<Pair>>,
        moment: Moment,
    )
        requires active { IsInState State.Active self.old.world.invocations place }
        requires ahead { ForSome deadline (λ given.
            (moment <ℤ given) × (given ≤ℤ latest_deadline)) }
        requires pairs { ForSome tags (All IsPair) }
        requires moment { IsCallMoment moment }
        requires later { self.old.world.last ≤ℤ moment }
        requires quiet { IsQuiet self.old.world moment }
        ensures world { self.new.world ≡ with_update moment place deadline tags self.old.world }
        ensures room { IsNoLess self.old.room self.new.room }
    {
        if !is_update(self.table.row(place), &deadline, &tags) {
            return;
        }
        set_deadline(&mut self.table, place, deadline);
        set_tags(&mut self.table, place, tags);
        self.last = moment;
    }
}
