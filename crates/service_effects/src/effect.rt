//! What a request does, as data.
ghost use Rattle.std.specs.Prelude.{◌≡◌, ◌↔◌, IsTrue};

use crate::faults::EffectFault;
use artifacts::ArtifactBatch;
use inclusion_graph::EdgePlan;
use invocations::Invocation;
use lists::Listed;
use names_realms::{Moment, Pair};
use test_results::{ExonerationBatch, ResultBatch};

/// What is done to what is recorded, at a moment that stands beside it. A place is that of an
/// invocation in order of creation, counted from 0.
#[derive(Drop)]
pub enum Effect {
    /// Nothing.
    Nothing,
    /// This invocation is added.
    Add(Invocation),
    /// The invocation at a place gets another deadline or other tags, each where it is given.
    Update {
        place: u32,
        deadline: Option<Moment>,
        tags: Option<Listed<Pair>>,
    },
    /// The finalization of the invocation at this place begins.
    End(u32),
    /// These inclusions are added.
    Include(EdgePlan),
    /// These test results are added.
    Results(ResultBatch),
    /// These exonerations are added.
    Exonerations(ExonerationBatch),
    /// These artifacts are added.
    Artifacts(ArtifactBatch),
}

impl Effect {
    /// Whether nothing is done.
    pub fn is_nothing(&self) -> bool
        ensures { IsTrue result ↔ (self.now ≡ Effect.Nothing) }
    {
        match self {
            Effect::Nothing => true,
            Effect::Add(_) => false,
            Effect::Update { .. } => false,
            Effect::End(_) => false,
            Effect::Include(_) => false,
            Effect::Results(_) => false,
            Effect::Exonerations(_) => false,
            Effect::Artifacts(_) => false,
        }
    }
}

/// What is done, and at which moment.
#[derive(Drop)]
pub struct Change {
    pub moment: Moment,
    pub effect: Effect,
}

/// What a request is planned to.
#[derive(Drop)]
pub enum Planned {
    /// It is refused by this rule.
    Refused(EffectFault),
    /// This is ready to be done, without memory.
    Ready(Effect),
}
