//! The numbers of requests, and whether a request is a repeat.
ghost use Rattle.std.specs.Prelude.{◌≡◌, ◌≢◌, ◌∷◌, ◌++◌, IfOk, None};
ghost use Rattle.sha2.specs.Sha256.{sha256};
ghost use Rattle.call_forms.specs.declared.asked.Asked.{Asked};
ghost use Rattle.request_demands.specs.Demands.{demand_of};
ghost use Rattle.request_demands.specs.Numbered.{IsNumbered, asked_again, digest_of};
ghost use Rattle.request_demands.specs.Understood.{IsCallOf, IsDigested};

use crate::demand::{Demand, demand_of};
use crate::reading::Call;
use call_forms::Asked;
use kept_replies::KeptReplies;
use message_forms::{Method, Request};
use sha2::{Digest, Sha256};
use std::alloc::{AllocError, Global};

/// What the number of a request comes to.
#[derive(Clone, Copy, Debug, PartialEq, Eq)]
pub enum NumberCheck {
    /// It has none, or nothing is kept for it.
    New,
    /// The same request was accepted before under it. What is kept of it stands at this place, in
    /// order of arrival and counted from 0.
    Repeat(usize),
    /// Another request was accepted under it.
    Reused,
}

/// The digest by which a repeat of a request is known: SHA-256 of its service, method and body,
/// with a line feed between.
fn digest_of_texts(service: &[u8], method: &[u8], body: &[u8]) -> [u8; 32]
    ensures { result ≡ sha256 (service.now ++ (10 ∷ (method.now ++ (10 ∷ body.now)))) }
{
    let mut hasher = Sha256::new();
    hasher.update(service);
    hasher.update(b"\n");
    hasher.update(method);
    hasher.update(b"\n");
    hasher.update(body);
    hasher.finalize()
}

/// The digest by which a repeat of a request is known.
fn digest_of(asked: &Asked) -> [u8; 32]
    ensures { result ≡ digest_of asked.now }
{
    digest_of_texts(
        asked.service.as_slice(),
        asked.method.as_slice(),
        asked.body.as_slice(),
    )
}

/// The digest of a request of which this is demanded, where it has a number.
fn digest_if(asked: &Asked, demand: &Demand) -> Option<[u8; 32]>
    ensures { IsDigested asked.now demand.now result }
{
    match demand.number {
        Some(_) => Some(digest_of(asked)),
        None => None,
    }
}

/// The digest of a request, where it has a number.
pub(crate) fn digest_for(asked: &Asked, request: &Request) -> Option<[u8; 32]>
    ensures { IsDigested asked.now (demand_of request.now) result }
{
    digest_if(asked, &demand_of(request))
}

/// The digest by which a repeat is known of a request of this method with this body, of which this
/// is demanded, where it has a number.
pub fn digest_again(method: Method, body: &[u8], demand: &Demand) -> Option<[u8; 32]>
    ensures { IsDigested (asked_again method body.now) demand.now result }
{
    match demand.number {
        Some(_) => Some(digest_of_texts(
            method.service().as_bytes(),
            method.name().as_bytes(),
            body,
        )),
        None => None,
    }
}

/// What the number comes to of a request of a caller of this name, of which this is demanded, and
/// which has this digest. `Err` where there is no memory to look it up.
pub fn check_digest(
    alloc: Global,
    kept: &KeptReplies,
    name: &[u8],
    demand: &Demand,
    digest: &Option<[u8; 32]>,
) -> Result<NumberCheck, AllocError>
    ensures { (asked : Asked) → IsDigested asked demand.now digest.now
        → IfOk result (IsNumbered kept.now.kept name.now asked demand.now) }
{
    let Some(digest) = digest else {
        return Ok(NumberCheck::New);
    };
    let Some(number) = demand.number else {
        return Ok(NumberCheck::New);
    };
    let Some(place) = kept.find(alloc, name, number.as_str().as_bytes())? else {
        return Ok(NumberCheck::New);
    };
    if kept.reply(place).digest == *digest {
        Ok(NumberCheck::Repeat(place))
    } else {
        Ok(NumberCheck::Reused)
    }
}

/// What the number of a call by a caller of this name comes to. `Err` where there is no memory to
/// look it up.
pub fn check_number(
    alloc: Global,
    kept: &KeptReplies,
    name: &[u8],
    call: &Call,
) -> Result<NumberCheck, AllocError>
    ensures { (asked : Asked) → IsDigested asked (demand_of call.now.request) call.now.digest
        → IfOk result (IsNumbered kept.now.kept name.now asked (demand_of call.now.request)) }
{
    check_digest(alloc, kept, name, &demand_of(&call.request), &call.digest)
}
