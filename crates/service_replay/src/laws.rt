//! Laws of recorded commands. These functions do nothing: what each of them ensures is the law.
ghost use Rattle.service_replay.specs.Replay.{RecordedIsReplayed, ReplaysAreUnique, TickIsReplayed};

/// A command leads from a world to one world alone.
pub fn one_replay()
    ensures { ReplaysAreUnique }
{}

/// The world to which an accepted request led is the one to which its command leads.
pub fn recorded_is_replayed()
    ensures { RecordedIsReplayed }
{}

/// So is the world to which due deadlines led, with a tick.
pub fn tick_is_replayed()
    ensures { TickIsReplayed }
{}
