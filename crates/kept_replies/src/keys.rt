//! The keys under which replies are found.
ghost use Rattle.std.specs.Prelude.{◌≡◌, IfOk};
ghost use Rattle.kept_replies.specs.Places.{key_of};

use std::alloc::{AllocError, Global};

/// The key of a caller's number: the name, a blank, and the number. `Err` where there is no memory.
pub(crate) fn key_of(alloc: Global, caller: &[u8], number: &[u8]) -> Result<Vec<u8>, AllocError>
    ensures { IfOk result (λ key. key.items ≡ key_of caller.now number.now) }
{
    let mut key = Vec::from_slice(alloc, caller)?;
    key.push(b' ')?;
    key.extend_from_slice(number)?;
    Ok(key)
}
