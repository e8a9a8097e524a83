//! What a caller may see.
ghost use Rattle.std.specs.Prelude.{◌≡◌, ◌<◌, IfOk, length};
ghost use Rattle.query_pages.specs.Inside.{AreRights};

use crate::queries::Asker;
use permissions::{Granted, Permission};
use std::alloc::{AllocError, Global};

/// In which realms a caller may see results whole, and explanations of exonerations: one pass over
/// the realms for each, however many rows are shown.
#[derive(Drop)]
pub(crate) struct Rights<'p> {
    pub(crate) results: Granted<'p>,
    pub(crate) exonerations: Granted<'p>,
}

impl<'p> Rights<'p> {
    /// What is granted to a caller. `Err` where there is no memory.
    pub(crate) fn of(alloc: Global, asker: &Asker<'p>) -> Result<Rights<'p>, AllocError>
        requires { asker.now.caller < length asker.now.policy.now.users }
        ensures { IfOk result (AreRights asker.now.policy.now asker.now.caller) }
    {
        let policy = asker.policy;
        Ok(Rights {
            results: policy.granted(alloc, asker.caller, Permission::GetTestResult)?,
            exonerations: policy.granted(alloc, asker.caller, Permission::GetTestExoneration)?,
        })
    }
}
