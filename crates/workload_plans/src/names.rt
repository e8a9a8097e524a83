//! The names in the requests: a letter or two, and a number. A name that is outside its grammar, of
//! which there is none, is told as want of memory.
ghost use Rattle.std.specs.Prelude.{◌≡◌, ◌++◌, [], decimal, string_bytes, codes, IfOk};
ghost use Rattle.workload_plans.specs.Requests.{load_id};

use message_forms::{LimitedText, RequestId};
use std::alloc::{AllocError, Global};
use workload_draws::{InvocationId, NameFault, Realm, ResultId, TestId, Variant};

/// A text and a number behind it.
fn numbered(alloc: Global, text: &str, number: u64) -> Result<String, AllocError>
    ensures { IfOk result (λ name. string_bytes name ≡ text.now ++ decimal number) }
{
    format!(in alloc; "{text}{number}")
}

/// The id of the invocation of a number.
pub(crate) fn invocation_id(alloc: Global, number: u64) -> Result<InvocationId, AllocError>
    ensures { IfOk result (λ id. id ≡ load_id number) }
{
    let name = numbered(alloc, "u-w", number)?;
    match InvocationId::parse(alloc, name.as_bytes()) {
        Ok(id) => Ok(id),
        Err(_) => Err(AllocError),
    }
}

/// The id of a request: a text, and a number behind it.
pub(crate) fn request_id(
    alloc: Global,
    text: &str,
    number: u64,
) -> Result<LimitedText<RequestId>, AllocError>
    ensures { IfOk result (λ id. id ≡ text.now ++ decimal number) }
{
    let name = numbered(alloc, text, number)?;
    match LimitedText::parse(alloc, name.as_str()) {
        Ok(id) => Ok(id),
        Err(_) => Err(AllocError),
    }
}

/// The realm of all invocations.
pub(crate) fn realm(alloc: Global) -> Result<Realm, AllocError>
    ensures { IfOk result (λ realm. realm ≡ codes "work:load") }
{
    match Realm::parse(alloc, b"work:load") {
        Ok(realm) => Ok(realm),
        Err(_) => Err(AllocError),
    }
}

/// The id of the test of a number.
pub(crate) fn test_id(alloc: Global, number: u64) -> Result<TestId, AllocError>
    ensures { IfOk result (λ id. id ≡ codes "t" ++ decimal number) }
{
    let name = numbered(alloc, "t", number)?;
    match TestId::parse(alloc, name.as_bytes()) {
        Ok(id) => Ok(id),
        Err(_) => Err(AllocError),
    }
}

/// The id of the result of a number.
pub(crate) fn result_id(alloc: Global, number: u64) -> Result<ResultId, AllocError>
    ensures { IfOk result (λ id. id ≡ codes "r" ++ decimal number) }
{
    let name = numbered(alloc, "r", number)?;
    match ResultId::parse(alloc, name.as_bytes()) {
        Ok(id) => Ok(id),
        Err(_) => Err(AllocError),
    }
}

/// A variant without a pair.
pub(crate) fn no_variant(alloc: Global) -> Result<Variant, AllocError>
    ensures { IfOk result (λ v. v ≡ []) }
{
    match Variant::from_pairs(alloc, Vec::new(alloc)) {
        Ok(variant) => Ok(variant),
        Err(NameFault::Memory) => Err(AllocError),
        Err(_) => unreachable!(),
    }
}
