//! The case that is open.
ghost use Rattle.std.specs.Prelude.{◌≡◌, ◌++◌, ℕ, List, IfOk, OnOk, [], codes};
ghost use Rattle.junit_parts.specs.Bytes.{behind_white};
ghost use Rattle.junit_parts.specs.Cases.{ended_case, text_named};
ghost use Rattle.junit_parts.specs.Tags.{tag_text};
ghost use Rattle.junit_reader.specs.Fronts.{IsKept, front};
ghost use Rattle.junit_reader.specs.Standing.{IsFresh, IsNoted, IsSameCase};

use crate::cases::{Ending, case_duration, case_name, ended_case, told_first};
use crate::fronts::message_front;
use crate::own_text::OwnText;
use junit_parts::Tag;
use names_realms::{Bytes, Case, Span};
use std::alloc::{AllocError, Global};

/// The case that is open, and of it the outcome that is open.
#[derive(Debug, Drop)]
pub(crate) struct Pending {
    pub(crate) name: Vec<u8>,
    pub(crate) duration: Option<Span>,
    /// What the first error tells.
    pub(crate) error: Option<Bytes>,
    /// What the first failure tells.
    pub(crate) failure: Option<Bytes>,
    pub(crate) is_skipped: bool,
    /// The front of the attribute `message` of the outcome that is open.
    pub(crate) message: Vec<u8>,
    /// Its own text so far.
    pub(crate) text: OwnText,
}

impl Pending {
    /// No case.
    pub(crate) fn new(alloc: Global) -> Pending {
        Pending {
            name: Vec::new(alloc),
            duration: None,
            error: None,
            failure: None,
            is_skipped: false,
            message: Vec::new(alloc),
            text: OwnText::new(alloc),
        }
    }

    /// The case of a tag, before its content.
    pub(crate) fn begun(alloc: Global, tag: &Tag<'_>) -> Result<Pending, AllocError>
        ensures { IfOk result (λ p. IsFresh p (tag_text tag.now)) }
    {
        let name = case_name(alloc, tag)?;
        let duration = case_duration(alloc, tag)?;
        Ok(Pending {
            name,
            duration,
            error: None,
            failure: None,
            is_skipped: false,
            message: Vec::new(alloc),
            text: OwnText::new(alloc),
        })
    }

    /// Begins an outcome.
    pub(crate) fn begin_outcome(&mut self, alloc: Global, tag: &Tag<'_>) -> Result<(), AllocError>
        ensures same { OnOk result (IsSameCase self.old self.new) }
        ensures message { OnOk result (self.new.message.items
            ≡ front (text_named (codes "message") (tag_text tag.now))) }
        ensures text { OnOk result (IsKept self.new.text (behind_white [])) }
    {
        self.message = message_front(alloc, tag)?;
        self.text = OwnText::new(alloc);
        Ok(())
    }

    /// Appends own text of the outcome.
    pub(crate) fn add_text(&mut self, text: &[u8]) -> Result<(), AllocError>
        ensures same { OnOk result (IsSameCase self.old self.new) }
        ensures message { OnOk result (self.new.message.items ≡ self.old.message.items) }
        ensures text { OnOk result ((all : List ℕ) → IsKept self.old.text (behind_white all)
            → IsKept self.new.text (behind_white (all ++ text.now))) }
    {
        self.text.push(text)
    }

    /// Ends the outcome of this name.
    pub(crate) fn end_outcome(&mut self, alloc: Global, name: &[u8]) -> Result<(), AllocError>
        ensures { OnOk result (IsNoted self.old self.new name.now) }
    {
        let told = told_first(alloc, self.message.as_slice(), self.text.trimmed())?;
        if name == b"error".as_slice() {
            self.error = self.error.take().or(Some(told));
            return Ok(());
        }
        if name == b"failure".as_slice() {
            self.failure = self.failure.take().or(Some(told));
            return Ok(());
        }
        if name == b"skipped".as_slice() {
            self.is_skipped = true;
        }
        Ok(())
    }

    /// The case, as it ended.
    pub(crate) fn into_case(self, alloc: Global) -> Case
        ensures { result
            ≡ ended_case self.name.items self.duration self.error self.failure self.is_skipped }
    {
        let name = Bytes::new(self.name);
        let duration = self.duration;
        let ending = Ending {
            error: self.error,
            failure: self.failure,
            is_skipped: self.is_skipped,
        };
        ended_case(alloc, name, duration, ending)
    }
}
