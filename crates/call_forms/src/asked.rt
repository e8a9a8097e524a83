//! What a caller asks.
use lists::Bytes;

/// A request as it comes from the wire: two header values, the pRPC service and method, and the
/// body.
#[derive(Drop)]
pub struct Asked {
    pub bearer: Option<Bytes>,
    pub update_token: Option<Bytes>,
    pub service: Bytes,
    pub method: Bytes,
    pub body: Bytes,
}
