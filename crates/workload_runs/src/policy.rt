//! The policy of the workload: one user, who may do all in one project.
ghost use Rattle.std.specs.Prelude.{◌≡◌, IfOk};
ghost use Rattle.policy_reading.specs.Reading.{IsPolicyOf};
ghost use Rattle.workload_runs.specs.Policies.{policy_text};

use policy_reading::{Policy, from_toml};
use std::alloc::{AllocError, Global};

/// The configuration.
#[tactic(auto, unfolding(crate::specs::Policies::policy_text))]
fn policy_text() -> &'static str
    ensures { result.now ≡ policy_text }
{
    "secret = '0b0b0b0b0b0b0b0b0b0b0b0b0b0b0b0b0b0b0b0b'\n[user.load]\ntoken = 'load'\n[role.every]\npermissions = ['resultdb.invocations.create', 'resultdb.invocations.createWithReservedID', 'resultdb.invocations.get', 'resultdb.invocations.include', 'resultdb.testResults.get', 'resultdb.testResults.list', 'resultdb.testResults.listLimited', 'resultdb.testExonerations.get', 'resultdb.testExonerations.list', 'resultdb.testExonerations.listLimited', 'resultdb.artifacts.get', 'resultdb.artifacts.list']\n[realm.'work:@root']\nbindings = [{ role = 'every', principals = ['user:load'] }]\n"
}

/// The policy of a text. That it has none, as no text is read here that has none, is told as want
/// of memory.
fn policy_of(alloc: Global, text: &str) -> Result<Policy, AllocError>
    ensures { IfOk result (IsPolicyOf text.now) }
{
    match from_toml(alloc, text.as_bytes()) {
        Ok(policy) => Ok(policy),
        Err(_) => Err(AllocError),
    }
}

/// The policy of the workload. `Err` where there is no memory for it.
pub fn load_policy(alloc: Global) -> Result<Policy, AllocError>
    ensures { IfOk result (IsPolicyOf policy_text) }
{
    policy_of(alloc, policy_text())
}
