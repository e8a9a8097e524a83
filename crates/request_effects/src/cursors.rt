//! Cursors of page tokens, once more.
ghost use Rattle.std.specs.Prelude.{◌≡◌, IfOk};

use page_tokens::{ResultCursor, VerdictCursor};
use std::alloc::{AllocError, Global};

/// A place among results, where one is given. `Err` where there is no memory for it, as below.
pub(crate) fn copied_result(
    alloc: Global,
    cursor: &Option<ResultCursor>,
) -> Result<Option<ResultCursor>, AllocError>
    ensures { IfOk result (λ copy. copy ≡ cursor.now) }
{
    match cursor {
        Some(cursor) => Ok(Some(ResultCursor {
            invocation: cursor.invocation.try_clone(alloc)?,
            test: cursor.test.try_clone(alloc)?,
            result: cursor.result.try_clone(alloc)?,
        })),
        None => Ok(None),
    }
}

/// A place among verdicts, where one is given.
pub(crate) fn copied_verdict(
    alloc: Global,
    cursor: &Option<VerdictCursor>,
) -> Result<Option<VerdictCursor>, AllocError>
    ensures { IfOk result (λ copy. copy ≡ cursor.now) }
{
    match cursor {
        Some(cursor) => Ok(Some(VerdictCursor {
            status: cursor.status,
            test: cursor.test.try_clone(alloc)?,
            label: cursor.label,
            ordinal: cursor.ordinal,
        })),
        None => Ok(None),
    }
}
