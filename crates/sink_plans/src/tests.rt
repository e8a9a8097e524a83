//! Plans of a report without cases, and of one more case than a batch takes.
use crate::{Destination, SinkPlan, plan_of};
use lists::Bytes;
use names_realms::{Case, InvocationId, NameFault, Status};
use std::alloc::{AllocError, Global};
use std::test::Fail;

fn destination(alloc: Global) -> Result<Destination, NameFault> {
    Ok(Destination {
        invocation: InvocationId::parse(alloc, b"u-a")?,
        bearer: Bytes::new(b"tok-a".to_vec(alloc)?),
        update_token: Bytes::new(b"0123".to_vec(alloc)?),
    })
}

fn failed_case(alloc: Global) -> Result<Case, AllocError> {
    Ok(Case {
        name: Bytes::new(b"bad".to_vec(alloc)?),
        status: Status::Fail,
        expected: false,
        duration: None,
        message: Bytes::new(b"boom".to_vec(alloc)?),
    })
}

fn plan_of_failures(alloc: Global, count: usize) -> Result<SinkPlan, Fail> {
    let mut cases = Vec::new(alloc);
    for _ in 0..count {
        cases.push(failed_case(alloc)?)?;
    }
    let to = destination(alloc)?;
    Ok(plan_of(alloc, b"TAP version 14\n", cases, "suite/", to)?)
}

#[test]
fn no_cases_make_no_batch(rt: HostRuntime) -> Result<(), Fail> {
    let plan = plan_of_failures(rt.alloc(), 0)?;
    assert!(rt; plan.batches.is_empty());
    assert_eq!(rt; plan.invocation.as_slice(), b"u-a".as_slice());
    assert_eq!(rt; plan.bearer.as_slice(), b"tok-a".as_slice());
    assert_eq!(rt; plan.update_token.as_slice(), b"0123".as_slice());
    Ok(())
}

#[test]
fn a_case_too_many_for_a_batch_begins_the_next(rt: HostRuntime) -> Result<(), Fail> {
    let plan = plan_of_failures(rt.alloc(), 201)?;
    let mut sizes = Vec::new(rt.alloc());
    for batch in plan.batches.as_slice() {
        sizes.push(batch.results.len())?;
    }
    assert_eq!(rt; sizes.as_slice(), [200, 1].as_slice());
    if let [_, last] = plan.batches.as_slice() {
        assert_eq!(rt;
            last.request_id.as_slice(),
            b"bb3ed27c637c105be1c00d4d-2".as_slice()
        );
        for row in last.results.as_slice() {
            assert_eq!(rt; row.result.as_slice(), b"bb3ed27c-201".as_slice());
            assert_eq!(rt; row.test.as_slice(), b"suite/bad".as_slice());
            assert_eq!(rt; row.message.as_slice(), b"boom".as_slice());
            assert_eq!(rt; (row.status, row.expected), (Status::Fail, false));
        }
    }
    Ok(())
}
