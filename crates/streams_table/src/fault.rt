//! Why a line comes to nothing.
use std::alloc::{AllocError, AllocFailed};

/// Why a line comes to nothing.
#[derive(Drop)]
pub enum Fault {
    /// It has not the form of its kind.
    Form,
    /// There was no memory.
    Memory,
}

impl From<AllocError> for Fault {
    fn from(_: AllocError) -> Fault {
        Fault::Memory
    }
}

impl<T: Drop> From<AllocFailed<T>> for Fault {
    fn from(_: AllocFailed<T>) -> Fault {
        Fault::Memory
    }
}
