//! The tables of what is recorded.
ghost use Rattle.std.specs.Prelude.{◌≡◌, IfOk};
ghost use Rattle.service_effects.specs.Service.{empty_service, recorded};
ghost use Rattle.service_effects.specs.States.{recorded_in};

use artifacts::ArtifactRows;
use invocation_world::InvocationWorld;
use std::alloc::{AllocError, Global};
use test_results::{ExonerationRows, ResultRows};

/// What is recorded, in memory.
#[derive(Drop)]
pub struct Tables {
    pub world: InvocationWorld,
    pub results: ResultRows,
    pub exonerations: ExonerationRows,
    pub artifacts: ArtifactRows,
}

impl Tables {
    /// Nothing is recorded. `Err` where there is no memory.
    pub fn new(alloc: Global) -> Result<Tables, AllocError>
        ensures { IfOk result (λ tables. recorded_in tables ≡ recorded empty_service) }
    {
        Ok(Tables {
            world: InvocationWorld::new(alloc)?,
            results: ResultRows::new(alloc)?,
            exonerations: ExonerationRows::new(alloc)?,
            artifacts: ArtifactRows::new(alloc)?,
        })
    }
}
