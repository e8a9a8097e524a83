//! What is kept of a numbered request.
use names_realms::{Bytes, Listed, Moment, Pair};

/// What the answer to a repeat is made of again: the places of rows, of which what is shown never
/// changes, and what the request gave. Places are counted from 0 in order of arrival.
#[derive(Drop)]
pub enum KeptAnswer {
    /// The invocation at this place as it was made, with the deadline and the tags of its request.
    Created {
        place: u32,
        deadline: Moment,
        tags: Listed<Pair>,
    },
    /// So many test results, one behind the other, from this place on.
    Results {
        first: u32,
        count: u32,
    },
    /// So many exonerations, one behind the other, from this place on.
    Exonerations {
        first: u32,
        count: u32,
    },
    /// So many artifacts, one behind the other, from this place on.
    Artifacts {
        first: u32,
        count: u32,
    },
}

/// An accepted numbered request: its caller's name, its number, the digest by which a repeat is
/// known, and what its answer is made of.
#[derive(Drop)]
pub struct KeptReply {
    pub caller: Bytes,
    pub number: Bytes,
    pub digest: [u8; 32],
    pub answer: KeptAnswer,
}
