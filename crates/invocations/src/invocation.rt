//! An invocation, as the service keeps it.

use names_realms::{Bytes, InvocationId, Listed, Moment, Pair, Realm, State};

/// An invocation.
#[derive(Drop)]
pub struct Invocation {
    pub id: InvocationId,
    pub realm: Realm,
    /// Who created it.
    pub creator: Bytes,
    pub created: Moment,
    /// When it ends by itself.
    pub deadline: Moment,
    /// When its finalization began, where it has.
    pub started: Option<Moment>,
    /// When it became final, where it has.
    pub finished: Option<Moment>,
    pub state: State,
    pub tags: Listed<Pair>,
}
