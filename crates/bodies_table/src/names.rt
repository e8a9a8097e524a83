//! Words for ids and names, realms, moments, spans and tags.
use crate::faults::Fault;
use crate::telling::{again, read};
use field_kinds::Tag;
use json_fields::UnbuiltList;
use lists::Listed;
use names_realms::{
    ArtifactId, ArtifactName, InvocationId, Moment, Parent, Realm, ResultId, ResultName, Span,
    TestId,
};
use std::alloc::Global;
use text_kinds::InvocationName;

/// What such a word makes of a body, none for another word.
pub(crate) fn told(alloc: Global, word: &str, body: &[u8]) -> Result<Option<Vec<u8>>, Fault> {
    let told = match word {
        "invocation-id" => again::<InvocationId>(alloc, body)?,
        "test-id" => again::<TestId>(alloc, body)?,
        "result-id" => again::<ResultId>(alloc, body)?,
        "artifact-id" => again::<ArtifactId>(alloc, body)?,
        "realm" => again::<Realm>(alloc, body)?,
        "invocation-name" => again::<InvocationName>(alloc, body)?,
        "result-name" => again::<ResultName>(alloc, body)?,
        "artifact-name" => again::<ArtifactName>(alloc, body)?,
        "parent" => again::<Parent>(alloc, body)?,
        _ => return told_of_rest(alloc, word, body),
    };
    Ok(Some(told))
}

fn told_of_rest(alloc: Global, word: &str, body: &[u8]) -> Result<Option<Vec<u8>>, Fault> {
    let told = match word {
        "moment" => again::<Moment>(alloc, body)?,
        "span" => again::<Span>(alloc, body)?,
        "span-lists" => again::<Listed<Listed<Span>>>(alloc, body)?,
        "tag" => again::<Tag>(alloc, body)?,
        "tags" => again::<Listed<Tag>>(alloc, body)?,
        "unbuilt-list" => read::<UnbuiltList>(alloc, body)?,
        _ => return Ok(None),
    };
    Ok(Some(told))
}
