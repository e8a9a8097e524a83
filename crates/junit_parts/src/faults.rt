//! What is wrong with a report.
ghost use Rattle.std.specs.Prelude.{◌≡◌};
ghost use Rattle.junit_parts.specs.Faults.{fault_name, fault_number};
ghost use Rattle.junit_parts.specs.declared.faults.Stop.TheVariants.{Memory};

use std::alloc::{AllocError, AllocFailed};

/// A construct of XML that isn't read.
#[derive(Clone, Copy, Debug, PartialEq, Eq)]
pub enum Unsupported {
    /// A document type.
    Doctype,
    /// A processing instruction, or a declaration that isn't at the very start.
    Instruction,
    /// A reference to an entity other than the five predefined ones.
    Entity,
}

/// What is wrong at a place.
#[derive(Clone, Copy, Debug, PartialEq, Eq)]
pub enum Cause {
    NotWellFormed,
    Unsupported(Unsupported),
    NoRoot,
    MissingName,
    BadTime,
    TooDeep,
}

/// What is wrong, and how many bytes there are from its place on.
#[derive(Clone, Copy, Debug, PartialEq, Eq)]
pub struct Flaw {
    pub left: usize,
    pub cause: Cause,
}

/// Why reading stopped.
#[derive(Clone, Copy, Debug, PartialEq, Eq)]
pub enum Stop {
    Memory,
    Flawed(Flaw),
}

impl From<AllocError> for Stop {
    ghost from_gives = { λ _ e. e ≡ Memory };

    fn from(_error: AllocError) -> Stop {
        Stop::Memory
    }
}

impl<T: Drop> From<AllocFailed<T>> for Stop {
    ghost from_gives = { λ _ e. e ≡ Memory };

    fn from(_error: AllocFailed<T>) -> Stop {
        Stop::Memory
    }
}

/// The first fault of a report. Places count bytes of the report from 0.
#[derive(Clone, Copy, Debug, PartialEq, Eq)]
pub enum JunitFault {
    /// A byte that is no UTF-8, or the one behind 64 MiB.
    NotText { at: usize },
    /// A break of the form: the `<` or `&` of the construct at fault, the first byte of text
    /// outside the root, or the length.
    NotWellFormed { at: usize },
    /// A construct of XML that isn't read.
    Unsupported { at: usize, what: Unsupported },
    /// The root is neither `testsuites` nor `testsuite`, or there is none.
    NoRoot,
    /// A case without a name.
    MissingName { at: usize },
    /// A case whose time is none, or longer than 315,576,000,000 seconds.
    BadTime { at: usize },
    /// An element deeper than 32.
    TooDeep { at: usize },
    /// There was no memory.
    Memory,
}

impl JunitFault {
    /// The fault's number, from 1 to 7, and 0 for want of memory.
    pub fn number(&self) -> u8
        ensures { result ≡ fault_number self.now }
    {
        match self {
            JunitFault::NotText { .. } => 1,
            JunitFault::NotWellFormed { .. } => 2,
            JunitFault::Unsupported { .. } => 3,
            JunitFault::NoRoot => 4,
            JunitFault::MissingName { .. } => 5,
            JunitFault::BadTime { .. } => 6,
            JunitFault::TooDeep { .. } => 7,
            JunitFault::Memory => 0,
        }
    }

    /// The fault's name.
    pub fn name(&self) -> &'static str
        ensures { result.now ≡ fault_name self.now }
    {
        match self {
            JunitFault::NotText { .. } => "NotText",
            JunitFault::NotWellFormed { .. } => "NotWellFormed",
            JunitFault::Unsupported { .. } => "Unsupported",
            JunitFault::NoRoot => "NoRoot",
            JunitFault::MissingName { .. } => "MissingName",
            JunitFault::BadTime { .. } => "BadTime",
            JunitFault::TooDeep { .. } => "TooDeep",
            JunitFault::Memory => "Memory",
        }
    }
}
