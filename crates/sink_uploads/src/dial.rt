//! One link that is dialled, visited and given back.
ghost use Rattle.std.specs.Prelude.{◌≡◌, ◌≤◌, [], length, IfOk, OnErr};
ghost use Rattle.sink_uploads.specs.Dialled.{Dial, Dialled, answered_by, parting_of};
ghost use Rattle.sink_uploads.specs.Visits.{IsDoneAt};

use crate::visit::{Parting, Visited, visit};
use dialers::Dialer;
use lists::Bytes;
use sink_replies::ReplyReader;
use std::alloc::{AllocError, Global};

/// Dials once. A link that is opened is visited with the requests, and given back. Where there is
/// no memory to read replies, nothing is dialled.
pub fn dial<X: Dialer>(
    alloc: Global,
    dialer: &mut X,
    requests: &[Bytes],
) -> Result<Visited, AllocError>
    ensures dialled { IfOk result (λ visited. (d : Dial X.L)
        × Dialled X.L.ends requests.now (X.dials dialer.old) d (X.dials dialer.new)
        × (answered_by d ≡ visited.answered) × (parting_of d ≡ visited.parting)) }
    ensures within { IfOk result (λ visited. visited.answered ≤ length requests.now) }
    ensures done { IfOk result (λ visited.
        IsDoneAt requests.now visited.answered visited.parting) }
    ensures none { OnErr result (X.dials dialer.new ≡ X.dials dialer.old) }
{
    let mut reader = ReplyReader::new(alloc)?;
    Ok(dial_with(dialer, &mut reader, requests))
}

fn dial_with<X: Dialer>(dialer: &mut X, reader: &mut ReplyReader, requests: &[Bytes]) -> Visited
    requires { reader.old ≡ [] }
    ensures dialled { (d : Dial X.L)
        × Dialled X.L.ends requests.now (X.dials dialer.old) d (X.dials dialer.new)
        × (answered_by d ≡ result.answered) × (parting_of d ≡ result.parting) }
    ensures within { result.answered ≤ length requests.now }
    ensures done { IsDoneAt requests.now result.answered result.parting }
{
    match dialer.connect() {
        Ok(mut link) => {
            let visited = visit(&mut link, reader, requests);
            dialer.give_back(link);
            visited
        }
        Err(_) => Visited {
            answered: 0,
            parting: Parting::Fault,
        },
    }
}
