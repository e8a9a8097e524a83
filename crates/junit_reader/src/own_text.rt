//! Own text as it comes, of which no more is kept than the front that is told.
ghost use Rattle.std.specs.Prelude.{◌≡◌, ◌++◌, List, ℕ, OnOk, [], take};
ghost use Rattle.junit_parts.specs.Bytes.{behind_white};
ghost use Rattle.junit_reader.specs.Fronts.{IsKept, front};

use crate::fronts::{KEPT, push_front};
use crate::messages::solid_len;
use junit_parts::behind_white;
use std::alloc::{AllocError, Global};

/// Own text without the white space in front: at most `KEPT` bytes of it.
#[derive(Debug, Drop)]
pub(crate) struct OwnText {
    pub(crate) front: Vec<u8>,
    /// Up to where in the front the last byte stands that isn't white space, and `KEPT` where that
    /// stands behind the front.
    pub(crate) solid: usize,
}

impl OwnText {
    /// No text.
    #[tactic(auto, unfolding(junit_parts::specs::Messages::solid_len))]
    pub(crate) fn new(alloc: Global) -> OwnText
        ensures { IsKept result [] }
    {
        OwnText {
            front: Vec::new(alloc),
            solid: 0,
        }
    }

    /// Goes on with these bytes.
    fn grow(&mut self, more: &[u8]) -> Result<(), AllocError>
        ensures { OnOk result ((text : List ℕ)
            → IsKept self.old text → IsKept self.new (text ++ more.now)) }
    {
        let len = self.front.as_slice().len();
        push_front(&mut self.front, more)?;
        let solid = solid_len(more);
        if solid > 0 {
            self.solid = len.saturating_add(solid).min(KEPT);
        }
        Ok(())
    }

    /// Appends own text.
    pub(crate) fn push(&mut self, text: &[u8]) -> Result<(), AllocError>
        ensures { OnOk result ((all : List ℕ) → IsKept self.old (behind_white all)
            → IsKept self.new (behind_white (all ++ text.now))) }
    {
        if self.front.as_slice().is_empty() {
            self.grow(behind_white(text))?;
            Ok(())
        } else {
            self.grow(text)?;
            Ok(())
        }
    }

    /// The front, up to the last byte in it that isn't white space.
    pub(crate) fn trimmed(&self) -> &[u8]
        ensures { result.now ≡ take self.now.solid self.now.front.items }
    {
        let front = self.front.as_slice();
        &front[..self.solid.min(front.len())]
    }
}
