//! Writes over bytes.
ghost use Rattle.std.specs.Prelude.{◌≡◌, ◌≤◌, length, IfOk};
ghost use Rattle.disks.specs.Parts.{written_over};

use std::alloc::{AllocError, Global};

/// The bytes with a piece written over them.
pub fn overwritten(
    alloc: Global,
    bytes: &[u8],
    at: usize,
    piece: &[u8],
) -> Result<Vec<u8>, AllocError>
    requires { at ≤ length bytes.now }
    ensures { IfOk result (λ v. v.items ≡ written_over bytes.now at piece.now) }
{
    let mut next = bytes[..at].to_vec(alloc)?;
    next.extend_from_slice(piece)?;
    if piece.len() < bytes.len() - at {
        next.extend_from_slice(&bytes[at + piece.len()..])?;
    }
    Ok(next)
}
