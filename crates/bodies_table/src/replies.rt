//! Words for replies, and for a request that no body asks for.
use crate::faults::Fault;
use crate::telling::told_word;
use field_kinds::{Tag, pairs_from};
use json_fields::{
    FaultKind, Name, ReadFault, Why, optional, optional_list, read_body, read_json, required,
};
use lists::{Bytes, Listed};
use message_forms::{
    Reply, Request, ShownInvocation, UpdateInvocation, write_reply, write_request,
};
use names_realms::{InvocationId, Moment, Pair, Realm, State};
use serde_json::Value;
use std::alloc::{AllocError, Global};
use text_kinds::{InvocationName, LimitedText, Message, ids_from};

/// What such a word makes of a body, none for another word.
pub(crate) fn told(alloc: Global, word: &str, body: &[u8]) -> Result<Option<Vec<u8>>, Fault> {
    let text = match word {
        "empty-reply" => write_reply(alloc, &Reply::Empty)?,
        "invocation-reply" => invocation_reply(alloc, body)?,
        "update-of-nothing" => update_of_nothing(alloc, body)?,
        _ => return Ok(None),
    };
    Ok(Some(text.into_vec()))
}

/// An update of the invocation of an id that changes nothing.
fn update_of_nothing(alloc: Global, body: &[u8]) -> Result<Bytes, Fault> {
    let update = UpdateInvocation {
        id: read_body::<InvocationId>(alloc, body)?,
        deadline: None,
        tags: None,
    };
    Ok(write_request(alloc, &Request::UpdateInvocation(update))?)
}

/// What a reply shows of an invocation.
#[derive(Drop)]
struct Held {
    id: InvocationId,
    realm: Realm,
    creator: Bytes,
    created: Moment,
    deadline: Moment,
    started: Option<Moment>,
    finished: Option<Moment>,
    state: State,
    tags: Listed<Pair>,
    included: Listed<InvocationId>,
}

/// The state of a name.
fn state_of(alloc: Global, name: &str) -> Result<State, ReadFault> {
    match name {
        "ACTIVE" => Ok(State::Active),
        "FINALIZING" => Ok(State::Finalizing),
        "FINALIZED" => Ok(State::Finalized),
        _ => Err(ReadFault::here(alloc, FaultKind::BadValue(Why::Unknown))),
    }
}

/// An invocation by the fields of an object.
fn held_of(alloc: Global, value: &Value) -> Result<Held, ReadFault> {
    let creator = required::<LimitedText<Message>>(alloc, value, Name::word("creator"))?;
    let state = required::<LimitedText<Message>>(alloc, value, Name::word("state"))?;
    let tags = optional_list::<Tag>(alloc, value, Name::word("tags"))?;
    let names = optional_list::<InvocationName>(alloc, value, Name::word("included"))?;
    Ok(Held {
        id: required::<InvocationId>(alloc, value, Name::word("id"))?,
        realm: required::<Realm>(alloc, value, Name::word("realm"))?,
        creator: Bytes::new(told_word(alloc, creator.as_str())?),
        created: required::<Moment>(alloc, value, Name::word("created"))?,
        deadline: required::<Moment>(alloc, value, Name::word("deadline"))?,
        started: optional::<Moment>(alloc, value, Name::word("started"))?,
        finished: optional::<Moment>(alloc, value, Name::word("finished"))?,
        state: state_of(alloc, state.as_str())?,
        tags: pairs_from(alloc, tags)?,
        included: ids_from(alloc, names)?,
    })
}

/// The reply that shows the invocation that a body says.
fn invocation_reply(alloc: Global, body: &[u8]) -> Result<Bytes, Fault> {
    let value = read_json(alloc, body)?;
    let held = held_of(alloc, &value)?;
    let included = all_of(alloc, held.included.as_slice())?;
    shown_text(alloc, &held, included.as_slice())
}

/// Each of the ids.
fn all_of(alloc: Global, ids: &[InvocationId]) -> Result<Vec<&InvocationId>, AllocError> {
    let mut all = Vec::new(alloc);
    for id in ids {
        all.push(id)?;
    }
    Ok(all)
}

/// The reply that shows an invocation.
fn shown_text(alloc: Global, held: &Held, included: &[&InvocationId]) -> Result<Bytes, Fault> {
    let shown = ShownInvocation {
        id: &held.id,
        realm: &held.realm,
        creator: &held.creator,
        created: held.created,
        deadline: held.deadline,
        started: held.started,
        finished: held.finished,
        state: held.state,
        tags: held.tags.as_slice(),
        included,
    };
    Ok(write_reply(alloc, &Reply::Invocation(shown))?)
}
