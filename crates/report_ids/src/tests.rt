//! Ids whose digits were made by another implementation of SHA-256, and the ids of tests.
use crate::{ReportDigest, test_id};
use names_realms::InvocationId;
use std::process::Abort;
use std::test::Fail;

/// A prefix, a name, and the id of the test.
const IDS: [(&str, &[u8], &str); 7] = [
    ("", b"group > inner", "group > inner"),
    ("suite/", b"a\tb\x7fc", "suite/a b c"),
    ("a\u{85}", b"b\xc2\x9fc\xc2\xa0", "a b c\u{a0}"),
    ("", b"", "unnamed"),
    ("p", b"", "p"),
    ("p", b"a\xffb", "pa"),
    ("", b"\n", " "),
];

fn check_id(rt: &impl Abort, id: &str, expected: &str) {
    assert_eq!(rt; id, expected);
}

#[test]
fn names_become_ids_of_tests(rt: HostRuntime) -> Result<(), Fail> {
    for (prefix, name, expected) in &IDS {
        check_id(&rt, test_id(rt.alloc(), prefix, name)?.as_str(), expected);
    }
    let long = vec![in rt.alloc(); b'x'; 511]?;
    let cut = test_id(rt.alloc(), "", long.as_slice())?;
    assert_eq!(rt; cut.as_slice().len(), 511);
    let text = String::from_utf8(long)?;
    assert_eq!(rt;
        test_id(rt.alloc(), text.as_str(), b"\xc3\xa9e")?
            .as_slice()
            .len(),
        511
    );
    assert_eq!(rt;
        test_id(rt.alloc(), text.as_str(), b"e\xc3\xa9")?
            .as_slice()
            .len(),
        512
    );
    Ok(())
}

#[test]
fn digests_number_results_and_requests(rt: HostRuntime) -> Result<(), Fail> {
    let invocation = InvocationId::parse(rt.alloc(), b"u-a")?;
    let digest = ReportDigest::new(&invocation, b"TAP version 14\n");
    let result = digest.result_id(rt.alloc(), 201)?;
    check_id(&rt, result.as_str(), "bb3ed27c-201");
    let request = digest.request_id(rt.alloc(), 2)?;
    assert_eq!(rt;
        request.as_slice(),
        b"bb3ed27c637c105be1c00d4d-2".as_slice()
    );
    Ok(())
}
