//! What replies show of an invocation.
ghost use Rattle.std.specs.Prelude.{◌≡◌};
ghost use Rattle.invocation_forms.specs.Replies.{state_text};

use lists::Bytes;
use names_realms::{InvocationId, Moment, Pair, Realm, State};
use std::marker::Model;

/// An invocation as a reply shows it, by what the service holds. Contracts see it as the values
/// that are shown.
#[derive(Drop)]
pub struct ShownInvocation<'r, 'i> {
    pub id: &'r InvocationId,
    pub realm: &'r Realm,
    /// Who made it.
    pub creator: &'r Bytes,
    pub created: Moment,
    pub deadline: Moment,
    /// When its end began.
    pub started: Option<Moment>,
    /// When it ended.
    pub finished: Option<Moment>,
    pub state: State,
    pub tags: &'r [Pair],
    /// The invocations that it includes, in the order in which they came.
    pub included: &'r [&'i InvocationId],
}

impl<'r, 'i> Model for ShownInvocation<'r, 'i> {
    ghost use Rattle.std.specs.Prelude.{map};
    ghost use Rattle.invocation_forms.specs.Shown.{InvocationShown};

    ghost Value = { InvocationShown };

    ghost view = { λ s. record {
      id = s.id.now;
      realm = s.realm.now;
      creator = s.creator.now;
      created = s.created;
      deadline = s.deadline;
      started = s.started;
      finished = s.finished;
      state = s.state;
      tags = s.tags.now;
      included = map (λ id. id.now) s.included.now;
    } };
}

/// The name of a state, as replies and refusals show it.
pub fn state_name(state: State) -> &'static str
    ensures { result.now ≡ state_text state }
{
    match state {
        State::Active => "ACTIVE",
        State::Finalizing => "FINALIZING",
        State::Finalized => "FINALIZED",
    }
}
