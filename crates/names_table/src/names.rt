//! Ids, realms, pairs, variants, and names of several parts.
use crate::notation::{put_value, undone};
use crate::words::{Stop, Told, put_bar, two, value};
use names_realms::{
    ArtifactId, ArtifactName, InvocationId, Pair, Parent, Realm, ResultId, ResultName, TestId,
    Variant,
};
use std::alloc::{AllocError, Global};

/// A text: the id of an invocation.
pub(crate) fn invocation_id(alloc: Global, subject: &str) -> Told {
    let text = undone(alloc, subject)?;
    let id = InvocationId::parse(alloc, text.as_slice())?;
    let mut written = Vec::new(alloc);
    id.write_to(alloc, &mut written)?;
    value(alloc, written.as_slice())
}

/// A text: the id of a test.
pub(crate) fn test_id(alloc: Global, subject: &str) -> Told {
    let text = undone(alloc, subject)?;
    let id = TestId::parse(alloc, text.as_slice())?;
    let mut written = Vec::new(alloc);
    id.write_to(alloc, &mut written)?;
    value(alloc, written.as_slice())
}

/// A text: the id of a result.
pub(crate) fn result_id(alloc: Global, subject: &str) -> Told {
    let text = undone(alloc, subject)?;
    let id = ResultId::parse(alloc, text.as_slice())?;
    let mut written = Vec::new(alloc);
    id.write_to(alloc, &mut written)?;
    value(alloc, written.as_slice())
}

/// A text: the id of an artifact.
pub(crate) fn artifact_id(alloc: Global, subject: &str) -> Told {
    let text = undone(alloc, subject)?;
    let id = ArtifactId::parse(alloc, text.as_slice())?;
    let mut written = Vec::new(alloc);
    id.write_to(alloc, &mut written)?;
    value(alloc, written.as_slice())
}

/// A text: the realm.
pub(crate) fn realm(alloc: Global, subject: &str) -> Told {
    let text = undone(alloc, subject)?;
    let realm = Realm::parse(alloc, text.as_slice())?;
    let mut written = Vec::new(alloc);
    realm.write_to(alloc, &mut written)?;
    value(alloc, written.as_slice())
}

/// A text: the id that the name of an invocation has.
pub(crate) fn invocation_name(alloc: Global, subject: &str) -> Told {
    let text = undone(alloc, subject)?;
    let id = InvocationId::parse_name(alloc, text.as_slice())?;
    value(alloc, id.as_slice())
}

/// Puts the ids of a result's name behind what is there.
fn put_ids(alloc: Global, name: &ResultName, out: &mut Vec<u8>) -> Result<(), AllocError> {
    put_value(alloc, name.invocation.as_slice(), out)?;
    put_bar(out)?;
    put_value(alloc, name.test.as_slice(), out)?;
    put_bar(out)?;
    put_value(alloc, name.result.as_slice(), out)
}

/// A text: the name of a result, and its ids.
pub(crate) fn result_name(alloc: Global, subject: &str) -> Told {
    let text = undone(alloc, subject)?;
    let name = ResultName::parse(alloc, text.as_slice())?;
    let mut written = Vec::new(alloc);
    name.write_to(alloc, &mut written)?;
    let mut out = value(alloc, written.as_slice())?;
    put_bar(&mut out)?;
    put_ids(alloc, &name, &mut out)?;
    Ok(out)
}

/// What a parent is, and its ids.
fn put_parent(alloc: Global, parent: &Parent, out: &mut Vec<u8>) -> Result<(), AllocError> {
    match parent {
        Parent::Invocation(id) => {
            out.extend_from_slice(b"invocation")?;
            put_bar(out)?;
            put_value(alloc, id.as_slice(), out)
        }
        Parent::Result(name) => {
            out.extend_from_slice(b"result")?;
            put_bar(out)?;
            put_ids(alloc, name, out)
        }
    }
}

/// A text: the name of a parent, what it is, and its ids.
pub(crate) fn parent(alloc: Global, subject: &str) -> Told {
    let text = undone(alloc, subject)?;
    let parent = Parent::parse(alloc, text.as_slice())?;
    let mut written = Vec::new(alloc);
    parent.write_to(alloc, &mut written)?;
    let mut out = value(alloc, written.as_slice())?;
    put_bar(&mut out)?;
    put_parent(alloc, &parent, &mut out)?;
    Ok(out)
}

/// A text: the name of an artifact, what its parent is and that one's ids, and its own id.
pub(crate) fn artifact_name(alloc: Global, subject: &str) -> Told {
    let text = undone(alloc, subject)?;
    let name = ArtifactName::parse(alloc, text.as_slice())?;
    let mut written = Vec::new(alloc);
    name.write_to(alloc, &mut written)?;
    let mut out = value(alloc, written.as_slice())?;
    put_bar(&mut out)?;
    put_parent(alloc, &name.parent, &mut out)?;
    put_bar(&mut out)?;
    put_value(alloc, name.artifact.as_slice(), &mut out)?;
    Ok(out)
}

/// The pair of a word for its key and a word for its value.
fn read_pair(alloc: Global, key: &str, value: &str) -> Result<Pair, Stop> {
    let key = undone(alloc, key)?;
    let value = undone(alloc, value)?;
    Ok(Pair::read(alloc, key.as_slice(), value.as_slice())?)
}

/// Puts a pair as `KEY=VALUE` behind what is there.
fn put_pair(alloc: Global, pair: &Pair, out: &mut Vec<u8>) -> Result<(), AllocError> {
    put_value(alloc, pair.key.as_slice(), out)?;
    out.extend_from_slice(b"=")?;
    put_value(alloc, pair.value.as_slice(), out)
}

/// A key and a value: the pair.
pub(crate) fn pair(alloc: Global, subject: &str) -> Told {
    let (key, value) = two(subject)?;
    let pair = read_pair(alloc, key, value)?;
    let mut out = Vec::new(alloc);
    put_pair(alloc, &pair, &mut out)?;
    Ok(out)
}

/// The pairs of words `KEY=VALUE`.
fn read_pairs(alloc: Global, subject: &str) -> Result<Vec<Pair>, Stop> {
    let mut pairs = Vec::new(alloc);
    if subject.is_empty() {
        return Ok(pairs);
    }
    for word in subject.split(' ') {
        let (key, value) = word.split_once('=').ok_or(Stop::Odd("no pair"))?;
        pairs.push(read_pair(alloc, key, value)?)?;
    }
    Ok(pairs)
}

/// Words `KEY=VALUE`: the label of their variant, and its pairs.
pub(crate) fn variant(alloc: Global, subject: &str) -> Told {
    let variant = Variant::from_pairs(alloc, read_pairs(alloc, subject)?)?;
    let mut out = value(alloc, variant.label().as_slice())?;
    for pair in variant.as_slice() {
        put_bar(&mut out)?;
        put_pair(alloc, pair, &mut out)?;
    }
    Ok(out)
}
