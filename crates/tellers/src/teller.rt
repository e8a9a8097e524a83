//! Who is asked.
ghost use Rattle.std.specs.Prelude.{◌≡◌, List, [], ◌∷◌, ◌++◌};
ghost use Rattle.std.specs.Borrow.{GName};
ghost use Rattle.tellers.specs.Exchange.{Exchange, StandsForSome};

use call_forms::{Asked, Told};

/// Something that tells an answer to each request that it is asked.
///
/// `stands` says of a teller, of what it became and of a list whether just these requests were
/// asked in between, and what was told to each. `holds` names the references that a teller works
/// through, and no call exchanges them.
pub trait Teller {
    ghost stands: { Self → Self → List Exchange → Type 0 };

    ghost holds: { Self → List GName };

    /// Answers one request. It is asked of a teller that stands for what it was asked before, as a
    /// new one stands for nothing.
    fn tell(&mut self, asked: &Asked) -> Told
        requires { StandsForSome stands self.old }
        ensures told { (first : Self) (before : List Exchange) → stands first self.old before
            → stands first self.new (before ++ record { asked = asked.now; told = result } ∷ []) }
        ensures holds { holds self.new ≡ holds self.old };
}
