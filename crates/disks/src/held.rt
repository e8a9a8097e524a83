//! Files that one opener at a time has.
ghost use Rattle.std.specs.Prelude.{Bool, IsTrue};

use std::fs::{File, OpenFile};
use std::os::unix::fs::FileExt;

/// A file that can be held, and which no other opening of it can hold meanwhile.
pub trait Holdable: OpenFile + FileExt + Drop {
    // It is held. Of a file of the system nothing is told.
    ghost is_held: { Self → Bool };

    /// Holds the file until it is closed, unless another opening of it holds it: there is no wait.
    fn hold(&self) -> bool
        ensures { IsTrue result → IsTrue (is_held self.now) };
}

/// The lock of the system on the whole file, which goes with the process at the latest.
impl Holdable for File {
    ghost use Rattle.std.specs.Prelude.{true};

    ghost is_held = { λ _. true };

    fn hold(&self) -> bool {
        self.try_lock().is_ok()
    }
}

/// A file that is held. Parts of a disk are read and written through these alone.
#[derive(Drop)]
pub(crate) struct HeldFile<F: Holdable> {
    file: F,
    ghost held: { IsTrue (F.is_held file) },
}

impl<F: Holdable> HeldFile<F> {
    /// Holds an open file, or closes it where another opening holds it.
    pub(crate) fn new(file: F) -> Option<HeldFile<F>> {
        if file.hold() {
            Some(HeldFile { file })
        } else {
            None
        }
    }

    pub(crate) fn file(&self) -> &F
        ensures { IsTrue (F.is_held result.now) }
    {
        &self.file
    }
}
