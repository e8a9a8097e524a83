//! What is told of a line: values parted by ` | `, or why there are none.
use crate::notation::put_value;
use names_realms::{NameFault, PairFault};
use std::alloc::{AllocError, AllocFailed, Global};

/// What a line comes to.
pub type Told = Result<Vec<u8>, Stop>;

/// Why a line gives no value.
#[derive(Drop)]
pub enum Stop {
    /// The text, or this part of it, has a fault.
    Fault {
        part: &'static str,
        fault: NameFault,
    },
    /// The line isn't of the form that its kind wants: this is wrong with it.
    Odd(&'static str),
    /// There was no memory.
    Memory,
}

/// Why a part gives no value.
fn stop_of(part: &'static str, fault: NameFault) -> Stop {
    match fault {
        NameFault::Memory => Stop::Memory,
        fault => Stop::Fault { part, fault },
    }
}

impl From<AllocError> for Stop {
    fn from(_: AllocError) -> Stop {
        Stop::Memory
    }
}

impl<T: Drop> From<AllocFailed<T>> for Stop {
    fn from(_: AllocFailed<T>) -> Stop {
        Stop::Memory
    }
}

impl From<NameFault> for Stop {
    fn from(fault: NameFault) -> Stop {
        stop_of("", fault)
    }
}

impl From<PairFault> for Stop {
    fn from(fault: PairFault) -> Stop {
        match fault {
            PairFault::Key(fault) => stop_of("Key ", fault),
            PairFault::Value(fault) => stop_of("Value ", fault),
            PairFault::Memory => Stop::Memory,
        }
    }
}

/// Why a line gives no value, in words.
pub(crate) fn stop_text(alloc: Global, stop: Stop) -> Result<Vec<u8>, AllocError> {
    let mut out = Vec::new(alloc);
    match stop {
        Stop::Fault { part, fault } => {
            out.extend_from_slice(part.as_bytes())?;
            put_fault(alloc, fault, &mut out)?;
        }
        Stop::Odd(what) => out.extend_from_slice(what.as_bytes())?,
        Stop::Memory => out.extend_from_slice(b"Memory")?,
    }
    Ok(out)
}

/// Puts a fault behind what is there.
pub(crate) fn put_fault(
    alloc: Global,
    fault: NameFault,
    out: &mut Vec<u8>,
) -> Result<(), AllocError> {
    let text = match fault {
        NameFault::Empty => format!(in alloc; "Empty")?,
        NameFault::TooLong { len } => format!(in alloc; "TooLong {len}")?,
        NameFault::BadByte { at } => format!(in alloc; "BadByte {at}")?,
        NameFault::NotCanonical { at } => format!(in alloc; "NotCanonical {at}")?,
        NameFault::OutOfRange => format!(in alloc; "OutOfRange")?,
        NameFault::Memory => format!(in alloc; "Memory")?,
    };
    out.extend_from_slice(text.as_bytes())
}

/// Puts what parts two values behind what is there.
pub(crate) fn put_bar(out: &mut Vec<u8>) -> Result<(), AllocError> {
    out.extend_from_slice(b" | ")
}

/// Puts a place behind what is there, or `none`.
pub(crate) fn put_place(
    alloc: Global,
    place: Option<usize>,
    out: &mut Vec<u8>,
) -> Result<(), AllocError> {
    match place {
        Some(place) => {
            let text = format!(in alloc; "{place}")?;
            out.extend_from_slice(text.as_bytes())
        }
        None => out.extend_from_slice(b"none"),
    }
}

/// A value alone.
pub(crate) fn value(alloc: Global, bytes: &[u8]) -> Told {
    let mut out = Vec::new(alloc);
    put_value(alloc, bytes, &mut out)?;
    Ok(out)
}

/// A word alone.
pub(crate) fn word(alloc: Global, word: &str) -> Told {
    Ok(Vec::from_slice(alloc, word.as_bytes())?)
}

/// The first word of a subject, and the rest behind a blank.
pub(crate) fn two(subject: &str) -> Result<(&str, &str), Stop> {
    subject.split_once(' ').ok_or(Stop::Odd("too few words"))
}
