//! The route of the calls, and what it finds in a target.
ghost use Rattle.std.specs.Prelude.{◌≡◌, ℕ, List, MatchOption};
ghost use Rattle.http_routes.specs.Calls.{IsCall};
ghost use Rattle.matchit.specs.declared.error.InsertError.{InsertError};

use matchit::{InsertError, Router};
use std::alloc::{AllocError, Global};
use std::marker::Model;

/// The routes of the service, of which there is one: `/prpc/{service}/{method}`.
#[derive(Drop)]
pub struct Routes {
    router: Router<()>,
}

impl Model for Routes {
    ghost use Rattle.std.specs.Prelude.{◌≡◌};
    ghost use Rattle.http_routes.specs.Rows.{call_rows};

    // All routes are the same.
    ghost Value = { Unit {0} };

    ghost view = { λ r. tt };

    ghost invariant = { λ r. r.router ≡ call_rows };
}

/// The service and the method that a target names, as they stand in it.
#[derive(Clone, Copy)]
pub struct Call<'t> {
    pub service: &'t str,
    pub method: &'t str,
}

impl Routes {
    /// The routes. Only where memory is wanting there are none.
    pub fn new(alloc: Global) -> Result<Routes, AllocError> {
        let mut router = Router::new(alloc);
        match router.insert("/prpc/{service}/{method}", ()) {
            Ok(()) => Ok(Routes { router }),
            Err(fault) => Err(want_of_memory(fault)),
        }
    }

    /// The call that a request target names, or `None` where it names none.
    ///
    /// Nothing in it is decoded: `?` and `%` are bytes like others. It takes no memory.
    pub fn call_of<'t>(&self, target: &'t str) -> Option<Call<'t>>
        ensures { MatchOption result
            ((service method : List ℕ) → ¬ (IsCall target.now service method))
            (λ call. IsCall target.now call.service.now call.method.now) }
    {
        let Ok(found) = self.router.at(target) else {
            return None;
        };
        let service = found.params.get("service")?;
        let method = found.params.get("method")?;
        Some(Call { service, method })
    }
}

/// The one fault of putting the route into an empty router.
fn want_of_memory(fault: InsertError) -> AllocError
    requires { fault ≡ InsertError.OutOfMemory }
{
    let _ = fault;
    AllocError
}

/// A target names one service and one method.
pub fn one_call()
    ensures service { (target a b c d : List ℕ) → IsCall target a b → IsCall target c d → a ≡ c }
    ensures method { (target a b c d : List ℕ) → IsCall target a b → IsCall target c d → b ≡ d }
{}
