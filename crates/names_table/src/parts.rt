//! Parts of names, their spellings, and what stands behind literals.
use crate::notation::{put_value, undone};
use crate::words::{Stop, Told, put_bar, put_fault, put_place, two, value};
use name_parts::{
    Alphabet, NameFault, PartForm, append_escaped, bad_in_literal, escaped_len, fault_unless_empty,
    first_bad, len_before, read_behind, read_escaped, read_name, read_part, rest_behind, utf8_len,
};
use std::alloc::{AllocError, Global};

/// The most bytes that are escaped.
const MOST_ESCAPED: usize = 65_536;

/// The form of parts that a word names.
fn form_of(word: &str) -> Result<PartForm, Stop> {
    match word {
        "invocation" => Ok(PartForm::Letters(Alphabet::Invocation)),
        "project" => Ok(PartForm::Letters(Alphabet::Project)),
        "subrealm" => Ok(PartForm::Letters(Alphabet::Subrealm)),
        "outcome" => Ok(PartForm::Letters(Alphabet::Outcome)),
        "artifact" => Ok(PartForm::Letters(Alphabet::Artifact)),
        "test-id" => Ok(PartForm::TestId),
        "pair-key" => Ok(PartForm::PairKey),
        _ => Err(Stop::Odd("unknown form")),
    }
}

/// Puts a part that was read, or its fault, behind what is there.
fn put_read(
    alloc: Global,
    read: Result<String, NameFault>,
    out: &mut Vec<u8>,
) -> Result<(), AllocError> {
    match read {
        Ok(part) => put_value(alloc, part.as_bytes(), out),
        Err(fault) => put_fault(alloc, fault, out),
    }
}

/// Puts a fault behind what is there, or `none`.
fn put_any_fault(
    alloc: Global,
    fault: Option<NameFault>,
    out: &mut Vec<u8>,
) -> Result<(), AllocError> {
    match fault {
        Some(fault) => put_fault(alloc, fault, out),
        None => out.extend_from_slice(b"none"),
    }
}

/// A form and a text: the part or its fault, its fault where it may be empty, its first bad place.
pub(crate) fn part(alloc: Global, subject: &str) -> Told {
    let (form, text) = two(subject)?;
    let form = form_of(form)?;
    let text = undone(alloc, text)?;
    let mut out = Vec::new(alloc);
    put_read(alloc, read_part(alloc, form, text.as_slice()), &mut out)?;
    put_bar(&mut out)?;
    put_any_fault(alloc, fault_unless_empty(form, text.as_slice()), &mut out)?;
    put_bar(&mut out)?;
    put_place(alloc, first_bad(form, text.as_slice()), &mut out)?;
    Ok(out)
}

/// The one spelling of bytes, and how many bytes it is told to have.
fn spelling(alloc: Global, bytes: &[u8]) -> Told {
    if bytes.len() > MOST_ESCAPED {
        return Err(Stop::Odd("too long"));
    }
    let mut written = Vec::new(alloc);
    append_escaped(&mut written, bytes)?;
    let mut out = Vec::new(alloc);
    put_value(alloc, written.as_slice(), &mut out)?;
    put_bar(&mut out)?;
    put_place(alloc, Some(escaped_len(bytes)), &mut out)?;
    Ok(out)
}

/// A form and an escaped text: the part that it spells, its one spelling and how long that is.
pub(crate) fn escaped(alloc: Global, subject: &str) -> Told {
    let (form, text) = two(subject)?;
    let text = undone(alloc, text)?;
    let part = read_escaped(alloc, form_of(form)?, text.as_slice())?;
    let mut out = value(alloc, part.as_bytes())?;
    put_bar(&mut out)?;
    out.extend_from_slice(spelling(alloc, part.as_bytes())?.as_slice())?;
    Ok(out)
}

/// A text: its one spelling and how long that is.
pub(crate) fn escape(alloc: Global, subject: &str) -> Told {
    let text = undone(alloc, subject)?;
    spelling(alloc, text.as_slice())
}

/// A literal, the form of a part and a text.
#[derive(Drop)]
struct Sequence {
    literal: Vec<u8>,
    form: PartForm,
    text: Vec<u8>,
}

/// Reads a literal, a form and a text.
fn three(alloc: Global, subject: &str) -> Result<Sequence, Stop> {
    let (literal, rest) = two(subject)?;
    let (form, text) = two(rest)?;
    Ok(Sequence {
        literal: undone(alloc, literal)?,
        form: form_of(form)?,
        text: undone(alloc, text)?,
    })
}

/// A literal, a form and a text: the part behind the literal.
pub(crate) fn name(alloc: Global, subject: &str) -> Told {
    let words = three(alloc, subject)?;
    let read = read_name(
        alloc,
        words.literal.as_slice(),
        words.form,
        words.text.as_slice(),
    );
    value(alloc, read?.as_bytes())
}

/// The same, where a text without bytes is one that lacks the literal.
pub(crate) fn behind(alloc: Global, subject: &str) -> Told {
    let words = three(alloc, subject)?;
    let read = read_behind(
        alloc,
        words.literal.as_slice(),
        words.form,
        words.text.as_slice(),
    );
    value(alloc, read?.as_bytes())
}

/// A literal and a text: what stands behind it, and the first place where the text isn't it.
pub(crate) fn literal(alloc: Global, subject: &str) -> Told {
    let (literal, text) = two(subject)?;
    let literal = undone(alloc, literal)?;
    let text = undone(alloc, text)?;
    let mut out = Vec::new(alloc);
    match rest_behind(literal.as_slice(), text.as_slice()) {
        Ok(rest) => put_value(alloc, rest, &mut out)?,
        Err(fault) => put_fault(alloc, fault, &mut out)?,
    }
    put_bar(&mut out)?;
    put_place(
        alloc,
        bad_in_literal(literal.as_slice(), text.as_slice()),
        &mut out,
    )?;
    Ok(out)
}

/// A byte and a text: how many bytes stand before the first such byte.
pub(crate) fn before(alloc: Global, subject: &str) -> Told {
    let (byte, text) = two(subject)?;
    let byte = undone(alloc, byte)?;
    let text = undone(alloc, text)?;
    let byte = byte.first().ok_or(Stop::Odd("too few words"))?;
    let mut out = Vec::new(alloc);
    put_place(alloc, Some(len_before(text.as_slice(), *byte)), &mut out)?;
    Ok(out)
}

/// A text: how many bytes stand before the first that is no UTF-8.
pub(crate) fn utf8(alloc: Global, subject: &str) -> Told {
    let text = undone(alloc, subject)?;
    let mut out = Vec::new(alloc);
    put_place(alloc, Some(utf8_len(text.as_slice())), &mut out)?;
    Ok(out)
}
