//! Words for the kinds of `text_kinds`.
use crate::faults::Fault;
use crate::telling::again;
use std::alloc::Global;
use text_kinds::{
    ContentType, Contents, HashText, Html, LimitedText, Message, RequestId, StatusName,
};

/// What such a word makes of a body, none for another word.
pub(crate) fn told(alloc: Global, word: &str, body: &[u8]) -> Result<Option<Vec<u8>>, Fault> {
    let told = match word {
        "status" => again::<StatusName>(alloc, body)?,
        "html" => again::<LimitedText<Html>>(alloc, body)?,
        "message" => again::<LimitedText<Message>>(alloc, body)?,
        "content-type" => again::<LimitedText<ContentType>>(alloc, body)?,
        "request-id" => again::<LimitedText<RequestId>>(alloc, body)?,
        "contents" => again::<Contents>(alloc, body)?,
        "hash" => again::<HashText>(alloc, body)?,
        _ => return Ok(None),
    };
    Ok(Some(told))
}
