//! The constructs that a report is made of.
ghost use Rattle.std.specs.Prelude.{◌≤◌, ◌<◌, length, IfOk};
ghost use Rattle.junit_parts.specs.Answers.{Gives};
ghost use Rattle.junit_parts.specs.Constructs.{character_from, comment_from, data_from, declared_from, doctype_from};
ghost use Rattle.junit_parts.specs.Constructs.{end_from, ended, instruction_from, marked_from, markup_from, start_from};
ghost use Rattle.junit_parts.specs.Constructs.{token_from, token_of};
ghost use Rattle.junit_parts.specs.Tags.{tag_text};

use crate::bytes::{behind_white, byte, len_before_either, name, parted_at};
use crate::references::{Meaning, reference};
use crate::tags::{Tag, read_tag};
use crate::unread::Unread;
use std::alloc::Global;

/// A construct of a report.
#[derive(Debug, Drop)]
pub enum Construct<'a> {
    /// Bytes up to the next `<` or `&`.
    Text(&'a [u8]),
    /// A reference to a character.
    Reference(char),
    /// The bytes of a CDATA section.
    Data(&'a [u8]),
    Comment,
    /// A start tag.
    Opens(Tag<'a>),
    /// The tag of an element without content.
    Whole(Tag<'a>),
    /// An end tag.
    Closes(&'a [u8]),
    /// A reference to an entity other than the five predefined ones.
    Entity,
    Doctype,
    Instruction,
}

/// Reads the end of a tag.
fn ended<'a>(tag: Tag<'a>, bytes: &'a [u8]) -> Result<(Construct<'a>, &'a [u8]), Unread>
    ensures read { Gives (λ r. (token_of r.0, r.1.now)) result
        (ended (tag_text tag.entry) bytes.now) }
    ensures within { IfOk result (λ r. length r.1.now ≤ length bytes.now) }
{
    match bytes {
        [b'>', rest @ ..] => Ok((Construct::Opens(tag), rest)),
        [b'/', rest @ ..] => {
            let rest = byte(rest, b'>')?;
            Ok((Construct::Whole(tag), rest))
        }
        _ => Err(Unread::Broken),
    }
}

/// Reads a start tag, or the tag of an element without content, behind `<`.
#[tactic(auto, unfolding(crate::specs::Constructs::start_from))]
fn start(alloc: Global, bytes: &[u8]) -> Result<(Construct<'_>, &[u8]), Unread>
    ensures read { Gives (λ r. (token_of r.0, r.1.now)) result (start_from bytes.now) }
    ensures within { IfOk result (λ r. length r.1.now ≤ length bytes.now) }
{
    let (tag, rest) = read_tag(alloc, bytes)?;
    ended(tag, behind_white(rest))
}

/// Reads an end tag behind `</`.
#[tactic(auto, unfolding(crate::specs::Constructs::end_from))]
fn end(bytes: &[u8]) -> Result<(Construct<'_>, &[u8]), Unread>
    ensures read { Gives (λ r. (token_of r.0, r.1.now)) result (end_from bytes.now) }
    ensures within { IfOk result (λ r. length r.1.now ≤ length bytes.now) }
{
    let (name, rest) = name(bytes)?;
    let rest = byte(behind_white(rest), b'>')?;
    Ok((Construct::Closes(name), rest))
}

/// Reads a comment behind `<!--`.
#[tactic(auto, unfolding(crate::specs::Constructs::comment_from))]
fn comment(bytes: &[u8]) -> Result<(Construct<'_>, &[u8]), Unread>
    ensures read { Gives (λ r. (token_of r.0, r.1.now)) result (comment_from bytes.now) }
    ensures within { IfOk result (λ r. length r.1.now ≤ length bytes.now) }
{
    let (_, rest) = parted_at(bytes, b"--")?;
    let rest = byte(rest, b'>')?;
    Ok((Construct::Comment, rest))
}

/// Reads a CDATA section behind `<![CDATA[`.
#[tactic(auto, unfolding(crate::specs::Constructs::data_from))]
fn data(bytes: &[u8]) -> Result<(Construct<'_>, &[u8]), Unread>
    ensures read { Gives (λ r. (token_of r.0, r.1.now)) result (data_from bytes.now) }
    ensures within { IfOk result (λ r. length r.1.now ≤ length bytes.now) }
{
    let (text, rest) = parted_at(bytes, b"]]>")?;
    Ok((Construct::Data(text), rest))
}

/// Reads a document type behind `<!DOCTYPE`.
#[tactic(auto, unfolding(crate::specs::Constructs::doctype_from))]
fn doctype(bytes: &[u8]) -> Result<(Construct<'_>, &[u8]), Unread>
    ensures read { Gives (λ r. (token_of r.0, r.1.now)) result (doctype_from bytes.now) }
    ensures within { IfOk result (λ r. length r.1.now ≤ length bytes.now) }
{
    let (_, rest) = parted_at(bytes, b">")?;
    Ok((Construct::Doctype, rest))
}

/// Reads a processing instruction behind `<?`.
#[tactic(auto, unfolding(crate::specs::Constructs::instruction_from))]
fn instruction(bytes: &[u8]) -> Result<(Construct<'_>, &[u8]), Unread>
    ensures read { Gives (λ r. (token_of r.0, r.1.now)) result (instruction_from bytes.now) }
    ensures within { IfOk result (λ r. length r.1.now ≤ length bytes.now) }
{
    let (_, rest) = parted_at(bytes, b"?>")?;
    Ok((Construct::Instruction, rest))
}

/// Reads a CDATA section or a document type behind `<!`.
fn marked(bytes: &[u8]) -> Result<(Construct<'_>, &[u8]), Unread>
    ensures read { Gives (λ r. (token_of r.0, r.1.now)) result (marked_from bytes.now) }
    ensures within { IfOk result (λ r. length r.1.now ≤ length bytes.now) }
{
    if bytes.starts_with(b"[CDATA[") {
        return data(&bytes[7..]);
    }
    if bytes.starts_with(b"DOCTYPE") {
        return doctype(&bytes[7..]);
    }
    Err(Unread::Broken)
}

/// Reads what begins with `<!`, behind that.
#[tactic(auto, unfolding(crate::specs::Constructs::declared_from))]
fn declared(bytes: &[u8]) -> Result<(Construct<'_>, &[u8]), Unread>
    ensures read { Gives (λ r. (token_of r.0, r.1.now)) result (declared_from bytes.now) }
    ensures within { IfOk result (λ r. length r.1.now ≤ length bytes.now) }
{
    if bytes.starts_with(b"--") {
        return comment(&bytes[2..]);
    }
    marked(bytes)
}

/// Reads what begins with `<`, behind that.
#[tactic(auto, unfolding(crate::specs::Constructs::markup_from))]
fn markup(alloc: Global, bytes: &[u8]) -> Result<(Construct<'_>, &[u8]), Unread>
    ensures read { Gives (λ r. (token_of r.0, r.1.now)) result (markup_from bytes.now) }
    ensures within { IfOk result (λ r. length r.1.now ≤ length bytes.now) }
{
    match bytes {
        [b'/', rest @ ..] => end(rest),
        [b'!', rest @ ..] => declared(rest),
        [b'?', rest @ ..] => instruction(rest),
        [_, ..] => start(alloc, bytes),
        [] => Err(Unread::Broken),
    }
}

/// Reads a reference behind `&`.
#[tactic(auto, unfolding(crate::specs::Constructs::character_from))]
fn character(bytes: &[u8]) -> Result<(Construct<'_>, &[u8]), Unread>
    ensures read { Gives (λ r. (token_of r.0, r.1.now)) result (character_from bytes.now) }
    ensures within { IfOk result (λ r. length r.1.now ≤ length bytes.now) }
{
    match reference(bytes)? {
        (Meaning::Character(c), rest) => Ok((Construct::Reference(c), rest)),
        (Meaning::Foreign, rest) => Ok((Construct::Entity, rest)),
    }
}

/// Reads the construct in front.
#[tactic(auto, unfolding(crate::specs::Constructs::token_from))]
pub fn read_construct(alloc: Global, bytes: &[u8]) -> Result<(Construct<'_>, &[u8]), Unread>
    ensures read { Gives (λ r. (token_of r.0, r.1.now)) result (token_from bytes.now) }
    ensures shorter { IfOk result (λ r. length r.1.now < length bytes.now) }
{
    match bytes {
        [b'<', rest @ ..] => markup(alloc, rest),
        [b'&', rest @ ..] => character(rest),
        [_, ..] => {
            let len = len_before_either(bytes, b'<', b'&');
            Ok((Construct::Text(&bytes[..len]), &bytes[len..]))
        }
        [] => Err(Unread::Broken),
    }
}
