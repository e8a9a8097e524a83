//! Laws of plans with their commands. These functions do nothing: what each of them ensures is the
//! law.
ghost use Rattle.service_machine.specs.Laws.{ReplayedIsCarried, ReplaysAreAlone};

/// The world to which the command of a plan that fits leads is the one that the plan makes.
pub fn replayed_is_carried()
    ensures { ReplayedIsCarried }
{}

/// A command that leads to a world leads to no other.
pub fn replays_are_alone()
    ensures { ReplaysAreAlone }
{}
