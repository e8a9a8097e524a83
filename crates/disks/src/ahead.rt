//! Bytes that were read ahead.
ghost use Rattle.std.specs.Prelude.{◌≤◌, length};

/// Bytes of a part of a disk that were read ahead, 65,536 at once. Their room is taken once.
#[derive(Drop)]
pub struct ReadAhead {
    pub(crate) room: Vec<u8>,
    /// The place in the part of the first byte that is held, and how many are.
    pub(crate) from: u64,
    pub(crate) count: usize,
    ghost within: { count ≤ length room.items },
}
