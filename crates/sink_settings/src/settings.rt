//! What a sink's configuration holds.

use lists::Bytes;

/// The two tokens of an upload, which nothing prints.
#[derive(Drop)]
pub struct SinkSettings {
    /// The token of the caller: 1 to 256 visible bytes of ASCII.
    pub token: Bytes,
    /// The token of the invocation: 64 lower-case hex digits.
    pub update_token: Bytes,
}
