//! Why a body comes to nothing, and the text of that.
use json_fields::{BodyFault, FaultKind, FieldFault, ReadFault, path_text};
use std::alloc::{AllocError, Global};

/// Why a body comes to nothing.
#[derive(Drop)]
pub enum Fault {
    /// It is no JSON.
    NotJson,
    /// A field is at fault, or the value itself.
    Field(FieldFault),
    /// There was no memory.
    Memory,
}

impl From<AllocError> for Fault {
    fn from(_: AllocError) -> Fault {
        Fault::Memory
    }
}

impl From<ReadFault> for Fault {
    fn from(fault: ReadFault) -> Fault {
        match fault {
            ReadFault::Field(fault) => Fault::Field(fault),
            ReadFault::Memory => Fault::Memory,
        }
    }
}

impl From<BodyFault> for Fault {
    fn from(fault: BodyFault) -> Fault {
        match fault {
            BodyFault::NotJson => Fault::NotJson,
            BodyFault::In(ReadFault::Field(fault)) => Fault::Field(fault),
            BodyFault::In(ReadFault::Memory) => Fault::Memory,
        }
    }
}

/// The text of a fault: where it is, and what it is.
pub(crate) fn fault_text(alloc: Global, fault: Fault) -> Result<String, AllocError> {
    match fault {
        Fault::NotJson => String::from_str(alloc, "NotJson"),
        Fault::Field(fault) => field_text(alloc, &fault),
        Fault::Memory => Err(AllocError),
    }
}

/// The path of a fault, a blank, and the fault.
fn field_text(alloc: Global, fault: &FieldFault) -> Result<String, AllocError> {
    let mut text = path_text(alloc, fault.path.as_slice())?;
    text.push(' ')?;
    match fault.kind {
        FaultKind::WrongKind => text.push_str("WrongKind")?,
        FaultKind::Missing => text.push_str("Missing")?,
        FaultKind::BadValue(why) => text.push_str(why.to_text(alloc)?.as_str())?,
    }
    Ok(text)
}
