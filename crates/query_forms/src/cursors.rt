//! Cursors from which a request goes on.
use page_tokens::{Cursor, ResultCursor, VerdictCursor};

/// A kind of cursors from which a request goes on: `fits` says which of them have numbers within
/// their bounds.
pub(crate) trait PageCursor: Cursor {
    ghost fits: { Self → Type 0 };

    /// Nothing: the numbers of a cursor are within their bounds.
    fn keep_bounds(&self)
        ensures { fits self.now };
}

impl PageCursor for ResultCursor {
    ghost use Rattle.std.specs.Prelude.{⊤};

    ghost fits = { λ c. ⊤ };

    fn keep_bounds(&self) {}
}

impl PageCursor for VerdictCursor {
    ghost use Rattle.std.specs.Prelude.{◌<◌, ◌^◌};

    ghost fits = { λ c. c.ordinal < 2 ^ 32 };

    fn keep_bounds(&self) {
        let _ordinal = self.ordinal;
    }
}
