//! Laws of the definitions. The functions change nothing: what each of them ensures is the law.
ghost use Rattle.finaliser.specs.Laws.{InTurnIsAtOnce, SettlesInOneWay};

/// Nodes that are retired in turn leave what is left where all of them are retired at once.
pub fn in_turn_is_at_once()
    ensures { InTurnIsAtOnce }
{}

/// States settle in one way.
pub fn settles_in_one_way()
    ensures { SettlesInOneWay }
{}
