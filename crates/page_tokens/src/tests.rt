//! Texts that were computed outside, and each fault.
use crate::{
    ArtifactCursor, Cursor, Query, ResultCursor, TokenFault, VerdictCursor, read_token, write_token,
};
use name_parts::Bytes;
use names_realms::{ArtifactId, InvocationId, ResultId, TestId};
use std::alloc::Global;
use std::test::Fail;

const VERDICT: &str =
    "AQLHmDo+rtNkxzIScGWC0Za2wPbUdW/BkP3Pjwf0Ue+sAQECAHQzZTNiMGM0NDI5OGZjMWMxNAcAAAA=";

const RESULT: &str = "AQLHmDo+rtNkxzIScGWC0Za2wPbUdW/BkP3Pjwf0Ue+sAgMAdS12AgB0MwIAcjE=";

const ARTIFACT: &str = "AQLHmDo+rtNkxzIScGWC0Za2wPbUdW/BkP3Pjwf0Ue+sAwoAbG9ncy9hLnR4dA==";

/// Texts that are no tokens of verdicts, and why.
const FAULTS: [(&str, TokenFault); 5] = [
    ("AR==", TokenFault::NotBase64),
    ("AQ==", TokenFault::BadForm { at: 1 }),
    (
        "AXAzQwpyhxwf5BH9YvbENMnnFkSp+KgAVrFdQO4h2/8p",
        TokenFault::OtherQuery,
    ),
    (
        "AQLHmDo+rtNkxzIScGWC0Za2wPbUdW/BkP3Pjwf0Ue+s",
        TokenFault::BadForm { at: 33 },
    ),
    (
        "AQLHmDo+rtNkxzIScGWC0Za2wPbUdW/BkP3Pjwf0Ue+sAQEAAA==",
        TokenFault::BadForm { at: 36 },
    ),
];

fn query(alloc: Global) -> Result<Query, Fail> {
    let name = Bytes::from_slice(alloc, b"invocations/u-v")?;
    Ok(Query::of(b"QueryTestVariants", &[name]))
}

/// Whether the cursor has this text, and the text is read as a cursor with the same text.
fn has_text<C: Cursor>(alloc: Global, cursor: &C, text: &str) -> Result<bool, Fail> {
    let query = query(alloc)?;
    let written = write_token(alloc, cursor, &query)?;
    let read: C = read_token(alloc, text.as_bytes(), &query)?;
    let again = write_token(alloc, &read, &query)?;
    Ok(written.as_str() == text && again.as_str() == text)
}

#[test]
fn each_kind_has_its_text(rt: HostRuntime) -> Result<(), Fail> {
    let alloc = rt.alloc();
    let verdict = VerdictCursor {
        status: 1,
        test: TestId::parse(alloc, b"t3")?,
        label: *b"e3b0c44298fc1c14",
        ordinal: 7,
    };
    assert!(rt; has_text(alloc, &verdict, VERDICT)?);
    let result = ResultCursor {
        invocation: InvocationId::parse(alloc, b"u-v")?,
        test: TestId::parse(alloc, b"t3")?,
        result: ResultId::parse(alloc, b"r1")?,
    };
    assert!(rt; has_text(alloc, &result, RESULT)?);
    let artifact = ArtifactCursor {
        artifact: ArtifactId::parse(alloc, b"logs/a.txt")?,
    };
    assert!(rt; has_text(alloc, &artifact, ARTIFACT)?);
    Ok(())
}

/// Whether the text is refused by this fault as a token of a verdict.
fn is_refused(alloc: Global, text: &str, fault: TokenFault) -> Result<bool, Fail> {
    match read_token::<VerdictCursor>(alloc, text.as_bytes(), &query(alloc)?) {
        Ok(_) => Ok(false),
        Err(found) => Ok(found == fault),
    }
}

#[test]
fn each_fault_has_its_place(rt: HostRuntime) -> Result<(), Fail> {
    for (text, fault) in FAULTS {
        assert!(rt; is_refused(rt.alloc(), text, fault)?, "{text}");
    }
    Ok(())
}
