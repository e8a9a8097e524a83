//! Why the value of a field is refused.
ghost use Rattle.std.specs.Prelude.{◌≡◌, ◌++◌, IfOk, OnOk, string_bytes};
ghost use Rattle.json_fields.specs.Whys.{why_of, why_name, why_number, why_text, number_part};

use names_realms::NameFault;
use std::alloc::{AllocError, Global};

/// Why the value of a field is refused. Places and lengths count bytes, from 0.
#[derive(Clone, Copy, Debug, PartialEq, Eq)]
pub enum Why {
    /// A part has no bytes.
    Empty,
    /// A part has so many bytes, more than its limit.
    TooLong(usize),
    /// No text of the grammar goes on like this at this place.
    BadByte(usize),
    /// A second spelling stands at this place.
    NotCanonical(usize),
    /// The value is outside the range of its type.
    OutOfRange,
    /// A number is below zero that must not be.
    Negative,
    /// An enum has no such name.
    Unknown,
    /// A number is no whole one.
    NotWhole,
    /// Lists and objects nest deeper than they may.
    TooDeep,
    /// A list has so many elements, more than its limit.
    TooMany(usize),
    /// The value is another one than that of the whole request.
    Differs,
    /// The text is no standard base64.
    NotBase64,
    /// A page token breaks its form at this place.
    BadForm(usize),
    /// A page token is that of another query.
    OtherQuery,
    /// The profile leaves this out.
    OutOfProfile,
    /// This is not built yet.
    NotBuilt,
    /// A mask names a field that can't be updated.
    NotUpdatable,
    /// A thing is named twice.
    Twice,
}

impl Why {
    /// Why a text is refused by its grammar. `None` where memory was wanting, which is no fault of
    /// the text.
    pub fn of(fault: NameFault) -> Option<Why>
        ensures { result ≡ why_of fault }
    {
        match fault {
            NameFault::Empty => Some(Why::Empty),
            NameFault::TooLong { len } => Some(Why::TooLong(len)),
            NameFault::BadByte { at } => Some(Why::BadByte(at)),
            NameFault::NotCanonical { at } => Some(Why::NotCanonical(at)),
            NameFault::OutOfRange => Some(Why::OutOfRange),
            NameFault::Memory => None,
        }
    }

    fn name(self) -> &'static str
        ensures { result.now ≡ why_name self }
    {
        match self {
            Why::Empty => "Empty",
            Why::TooLong(_) => "TooLong",
            Why::BadByte(_) => "BadByte",
            Why::NotCanonical(_) => "NotCanonical",
            Why::OutOfRange => "OutOfRange",
            Why::Negative => "Negative",
            Why::Unknown => "Unknown",
            Why::NotWhole => "NotWhole",
            Why::TooDeep => "TooDeep",
            Why::TooMany(_) => "TooMany",
            Why::Differs => "Differs",
            Why::NotBase64 => "NotBase64",
            Why::BadForm(_) => "BadForm",
            Why::OtherQuery => "OtherQuery",
            Why::OutOfProfile => "OutOfProfile",
            Why::NotBuilt => "NotBuilt",
            Why::NotUpdatable => "NotUpdatable",
            Why::Twice => "Twice",
        }
    }

    fn number(self) -> Option<usize>
        ensures { result ≡ why_number self }
    {
        match self {
            Why::TooLong(n) => Some(n),
            Why::BadByte(n) => Some(n),
            Why::NotCanonical(n) => Some(n),
            Why::TooMany(n) => Some(n),
            Why::BadForm(n) => Some(n),
            _ => None,
        }
    }

    /// Its name, and behind a space its number where it has one. `Err` where there is no memory for
    /// it.
    pub fn to_text(self, alloc: Global) -> Result<String, AllocError>
        ensures { IfOk result (λ text. string_bytes text ≡ why_text self) }
    {
        let mut text = String::from_str(alloc, self.name())?;
        push_number(alloc, &mut text, self.number())?;
        Ok(text)
    }
}

/// Appends a space and the number, where there is one.
fn push_number(alloc: Global, text: &mut String, number: Option<usize>) -> Result<(), AllocError>
    ensures { OnOk result (string_bytes text.new ≡ string_bytes text.old ++ number_part number) }
{
    match number {
        None => Ok(()),
        Some(n) => {
            let part = format!(in alloc; " {n}")?;
            text.push_str(part.as_str())
        }
    }
}
