//! What is understood of a request before a book is asked.
ghost use Rattle.std.specs.Prelude.{◌≡◌, IfOk};
ghost use Rattle.service_machine.specs.RequestDemands.Understood.{IsUnderstood};

use call_forms::Asked;
use service_machine::{Policy, Understood, understand};
use std::alloc::{AllocError, Global};

/// What is asked under a policy, and what these two alone say of it, where there was memory.
///
/// It is made before a book is looked at, so that it can be made while others use the book.
#[derive(Drop)]
pub struct Inquiry<'r> {
    pub policy: &'r Policy,
    pub asked: &'r Asked,
    pub understood: Result<Understood, AllocError>,
}

impl<'r> Inquiry<'r> {
    pub fn new(alloc: Global, policy: &'r Policy, asked: &'r Asked) -> Inquiry<'r>
        ensures policy { result.policy.now ≡ policy.now }
        ensures asked { result.asked.now ≡ asked.now }
        ensures understood { IfOk result.understood
            (IsUnderstood (record { policy = result.policy.now }) result.asked.now) }
    {
        Inquiry {
            policy,
            asked,
            understood: understand(alloc, policy, asked),
        }
    }
}
