//! Words for what is made of a value that is read, for numbers, and for why a value is refused.
use crate::faults::Fault;
use crate::telling::{told_word, written};
use field_kinds::{ByteSize, NumberRule, PageSize, Properties, Tag, VariantMap, Whole, pairs_from};
use json_fields::{Why, read_body};
use lists::Listed;
use names_realms::Pair;
use std::alloc::{AllocError, Global};
use text_kinds::{InvocationName, ids_from};

/// What such a word makes of a body, none for another word.
pub(crate) fn told(alloc: Global, word: &str, body: &[u8]) -> Result<Option<Vec<u8>>, Fault> {
    let told = match word {
        "tag-texts" => tag_texts(alloc, body)?,
        "tag-pairs" => tag_pairs(alloc, body)?,
        "name-ids" => name_ids(alloc, body)?,
        "variant-pairs" => variant_pairs(alloc, body)?,
        "properties-text" => properties_text(alloc, body)?,
        "new-page-size" => new_number::<PageSize>(alloc, body)?,
        "new-byte-size" => new_number::<ByteSize>(alloc, body)?,
        "why" => why(alloc, body)?,
        _ => return Ok(None),
    };
    Ok(Some(told))
}

/// Puts a key and a value behind what is there, and a semicolon.
fn put_pair(key: &[u8], value: &[u8], out: &mut Vec<u8>) -> Result<(), AllocError> {
    out.extend_from_slice(key)?;
    out.extend_from_slice(b"=")?;
    out.extend_from_slice(value)?;
    out.extend_from_slice(b";")
}

/// The keys and values of pairs.
fn pairs_text(alloc: Global, pairs: &[Pair]) -> Result<Vec<u8>, AllocError> {
    let mut out = Vec::new(alloc);
    for pair in pairs {
        put_pair(pair.key.as_slice(), pair.value.as_slice(), &mut out)?;
    }
    Ok(out)
}

/// The keys and values of tags.
fn tag_texts(alloc: Global, body: &[u8]) -> Result<Vec<u8>, Fault> {
    let tags = read_body::<Listed<Tag>>(alloc, body)?;
    let mut out = Vec::new(alloc);
    for tag in tags.as_slice() {
        put_pair(tag.key().as_bytes(), tag.value().as_bytes(), &mut out)?;
    }
    Ok(out)
}

/// The keys and values of the pairs that tags are.
fn tag_pairs(alloc: Global, body: &[u8]) -> Result<Vec<u8>, Fault> {
    let tags = read_body::<Listed<Tag>>(alloc, body)?;
    let pairs = pairs_from(alloc, tags)?;
    Ok(pairs_text(alloc, pairs.as_slice())?)
}

/// The ids of the invocations that are named.
fn name_ids(alloc: Global, body: &[u8]) -> Result<Vec<u8>, Fault> {
    let names = read_body::<Listed<InvocationName>>(alloc, body)?;
    let ids = ids_from(alloc, names)?;
    let mut out = Vec::new(alloc);
    for id in ids.as_slice() {
        out.extend_from_slice(id.as_slice())?;
        out.extend_from_slice(b";")?;
    }
    Ok(out)
}

/// The keys and values of a variant.
fn variant_pairs(alloc: Global, body: &[u8]) -> Result<Vec<u8>, Fault> {
    let variant = read_body::<VariantMap>(alloc, body)?.into_variant();
    Ok(pairs_text(alloc, variant.as_slice())?)
}

/// The text that is kept of properties.
fn properties_text(alloc: Global, body: &[u8]) -> Result<Vec<u8>, Fault> {
    let kept = read_body::<Properties>(alloc, body)?;
    Ok(told_word(alloc, kept.as_str())?)
}

/// The number of a text, and 0 where it is none of 64 bits.
fn number_of(text: &[u8]) -> u64 {
    match std::str::from_utf8(text) {
        Ok(text) => text.parse().unwrap_or(0),
        Err(_) => 0,
    }
}

/// What is written of a number, or the word `none` where it is too great.
fn new_number<R: NumberRule>(alloc: Global, body: &[u8]) -> Result<Vec<u8>, Fault> {
    match Whole::<R>::new(number_of(body)) {
        Some(number) => Ok(written(alloc, &number)?),
        None => Ok(told_word(alloc, "none")?),
    }
}

/// The words for why a value is refused.
fn why(alloc: Global, body: &[u8]) -> Result<Vec<u8>, Fault> {
    let why = match std::str::from_utf8(body).unwrap_or("") {
        "too-many 501" => Why::TooMany(501),
        "bad-form 3" => Why::BadForm(3),
        "other-query" => Why::OtherQuery,
        "out-of-profile" => Why::OutOfProfile,
        _ => return Ok(told_word(alloc, "no such reason")?),
    };
    Ok(why.to_text(alloc)?.into_bytes())
}
