//! Requests of the one caller, as they are asked.
ghost use Rattle.std.specs.Prelude.{◌≡◌, None, IfOk};
ghost use Rattle.workload_plans.specs.Plans.{asked_of};

use call_forms::Asked;
use message_forms::{Request, write_request};
use std::alloc::{AllocError, Global};
use workload_draws::Bytes;

/// The token of the caller.
const TOKEN: &[u8] = b"load";

/// A request as it is asked, without an update token.
fn written(alloc: Global, request: &Request) -> Result<Asked, AllocError>
    ensures { IfOk result (λ asked. asked ≡ asked_of None request.now) }
{
    let method = request.method();
    Ok(Asked {
        bearer: Some(Bytes::from_slice(alloc, TOKEN)?),
        update_token: None,
        service: Bytes::from_slice(alloc, method.service().as_bytes())?,
        method: Bytes::from_slice(alloc, method.name().as_bytes())?,
        body: write_request(alloc, request)?,
    })
}

/// The same of a request that isn't used any more.
pub(crate) fn asked_of(alloc: Global, request: Request) -> Result<Asked, AllocError>
    ensures { IfOk result (λ asked. asked ≡ asked_of None request) }
{
    written(alloc, &request)
}
