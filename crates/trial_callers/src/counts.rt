//! What is counted of calls.
ghost use Rattle.std.specs.Prelude.{◌≡◌, ◌+◌, ◌<◌, ◌≤◌, ◌^◌, if◌then◌else◌};

/// What was counted of calls.
#[derive(Clone, Copy)]
pub struct Heard {
    /// How many there were.
    pub calls: u64,
    /// How many of them had a turn: all but those that were told that none is left.
    pub turns: u64,
    /// How many creations were accepted.
    pub created: u64,
    /// How many reads showed just what the last creation did.
    pub own: u64,
    ghost few_turns: { turns ≤ calls },
    ghost few_created: { created ≤ calls },
    ghost few_own: { own ≤ calls },
}

impl Heard {
    /// Nothing yet.
    pub fn nothing() -> Heard
        ensures calls { (result.calls ≡ 0) × (result.turns ≡ 0) }
        ensures told { (result.created ≡ 0) × (result.own ≡ 0) }
    {
        Heard {
            calls: 0,
            turns: 0,
            created: 0,
            own: 0,
        }
    }

    /// One call more: whether it had a turn, created an invocation, and showed a caller's own one.
    pub fn with_call(self, turn: bool, created: bool, own: bool) -> Heard
        requires { self.calls < 2 ^ 33 }
        ensures calls { result.calls ≡ self.calls + 1 }
        ensures turns { result.turns ≡ self.turns + (if turn then 1 else 0) }
        ensures created { result.created ≡ self.created + (if created then 1 else 0) }
        ensures own { result.own ≡ self.own + (if own then 1 else 0) }
    {
        Heard {
            calls: self.calls + 1,
            turns: self.turns + u64::from(turn),
            created: self.created + u64::from(created),
            own: self.own + u64::from(own),
        }
    }

    /// This and what another caller counted.
    pub fn with(self, other: Heard) -> Heard
        requires { self.calls + other.calls < 2 ^ 64 }
        ensures calls { result.calls ≡ self.calls + other.calls }
        ensures turns { result.turns ≡ self.turns + other.turns }
        ensures created { result.created ≡ self.created + other.created }
        ensures own { result.own ≡ self.own + other.own }
    {
        Heard {
            calls: self.calls + other.calls,
            turns: self.turns + other.turns,
            created: self.created + other.created,
            own: self.own + other.own,
        }
    }
}
