//! Words for the kinds of `field_kinds`.
use crate::faults::Fault;
use crate::telling::again;
use field_kinds::{
    ByteSize, Flag, LimitedList, NoMessage, NoText, PageSize, Properties, QueryNames, VariantMap,
    Whole,
};
use std::alloc::Global;
use text_kinds::InvocationName;

/// What such a word makes of a body, none for another word.
pub(crate) fn told(alloc: Global, word: &str, body: &[u8]) -> Result<Option<Vec<u8>>, Fault> {
    let told = match word {
        "page-size" => again::<Whole<PageSize>>(alloc, body)?,
        "byte-size" => again::<Whole<ByteSize>>(alloc, body)?,
        "flag" => again::<Flag>(alloc, body)?,
        "query-names" => again::<LimitedList<InvocationName, QueryNames>>(alloc, body)?,
        "variant" => again::<VariantMap>(alloc, body)?,
        "properties" => again::<Properties>(alloc, body)?,
        "no-message" => again::<NoMessage>(alloc, body)?,
        "no-text" => again::<NoText>(alloc, body)?,
        _ => return Ok(None),
    };
    Ok(Some(told))
}
