//! The core as a machine of a book.
use crate::plans::RecordedPlan;
use call_forms::Answer;
use journal_book::{Machine, ReplayFault};
use service_replay::{Core, ReplayFault as Fault, replay};
use std::alloc::Global;

/// The service: its world is that of the core, and what it answers to a change is the plan's
/// answer, or none for due deadlines.
#[derive(Drop)]
pub struct ServiceMachine {
    pub core: Core,
}

impl Machine for ServiceMachine {
    ghost use Rattle.std.specs.Prelude.{◌≡◌};
    ghost use Rattle.service_replay.specs.ServiceEffects.Service.{ServiceWorld};
    ghost use Rattle.service_replay.specs.ServiceCore.CoreState.{world_in};
    ghost use Rattle.service_machine.specs.Machines.{IsFit, Plays};
    ghost use Rattle.service_machine.specs.Leading.{led, one_way};

    type Plan = RecordedPlan;

    type Answer = Option<Answer>;

    ghost World = { ServiceWorld };

    ghost world = { λ machine. world_in machine.core };

    ghost plays = { Plays };

    ghost one_way = { one_way };

    ghost said = { λ p. p.command };

    ghost gives = { λ p answer. answer ≡ p.plan.answer };

    ghost fits = { λ machine p. IsFit machine.core p };

    ghost is_body = { λ machine p fits. fits.body };

    ghost leads = { λ machine p fits. led machine.core p fits };

    fn command(plan: &RecordedPlan) -> &[u8] {
        plan.command.as_slice()
    }

    fn commit(&mut self, plan: RecordedPlan) -> Option<Answer> {
        self.core.commit(plan.into_plan())
    }

    fn replay(&mut self, alloc: Global, command: &[u8]) -> Result<(), ReplayFault> {
        match replay(alloc, &mut self.core, command) {
            Ok(()) => Ok(()),
            Err(Fault::OutOfPlace) => Err(ReplayFault::OutOfPlace),
            Err(Fault::Memory) => Err(ReplayFault::Memory),
        }
    }
}
