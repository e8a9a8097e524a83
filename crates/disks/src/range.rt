//! Places in a part.

/// So many bytes from a place on.
#[derive(Clone, Copy, Debug)]
pub struct Range {
    pub at: u64,
    pub count: u64,
}
