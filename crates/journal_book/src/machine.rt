//! Worlds that are made by commands.
ghost use Rattle.std.specs.Prelude.{◌≡◌, ℕ, List, IfOk, OnOk};
ghost use Rattle.result_journal.specs.Grammar.{IsBody};
ghost use Rattle.journal_book.specs.Worlds.{IsRefused};

use std::alloc::Global;

/// Why a command isn't replayed.
#[derive(Clone, Copy, Debug, PartialEq, Eq, Drop)]
pub enum ReplayFault {
    /// It is no command, or none that leads on from the world as it is.
    OutOfPlace,
    /// There was no memory.
    Memory,
}

/// A world in memory that commands change, each the bytes of one record. A change is planned first,
/// with all memory that it takes; then its command is recorded; then it is made.
pub trait Machine: Drop {
    /// A change that was planned.
    type Plan: Drop;

    /// What is answered when it is made.
    type Answer;

    // The worlds that there can be, and the one that the machine has.
    ghost World: { Type 0 };

    ghost world: { Self → World };

    // A command leads from one world to another, and to no third.
    ghost plays: { World → List ℕ → World → Type 0 };

    ghost one_way: { (w : World) (command : List ℕ) (v x : World) → plays w command v
        → plays w command x → v ≡ x };

    // The command of a plan, the answer that the plan gives, and whether it was made for the
    // machine as it stands.
    ghost said: { Self.Plan → List ℕ };

    ghost gives: { Self.Plan → Self.Answer → Type 0 };

    ghost fits: { Self → Self.Plan → Type 0 };

    // The command of a plan that fits is a body of a record, and leads to some world.
    ghost is_body: { (machine : Self) (plan : Self.Plan) → fits machine plan → IsBody (said plan) };

    ghost leads: { (machine : Self) (plan : Self.Plan) → fits machine plan
        → (v : World) × plays (world machine) (said plan) v };

    /// The command by which a plan is recorded.
    fn command(plan: &Self::Plan) -> &[u8]
        ensures { result.now ≡ said plan.now };

    /// Makes the change. It takes no memory.
    fn commit(&mut self, plan: Self::Plan) -> Self::Answer
        requires { fits self.old plan }
        ensures world { plays (world self.old) (said plan) (world self.new) }
        ensures answer { gives plan result };

    /// Makes the change of a command that was recorded. After an error the machine is given up.
    fn replay(&mut self, alloc: Global, command: &[u8]) -> Result<(), ReplayFault>
        requires { IsBody command.now }
        ensures ok { OnOk result (plays (world self.old) command.now (world self.new)) }
        ensures refused { IsRefused plays (world self.old) command.now result };
}
