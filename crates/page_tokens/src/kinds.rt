//! The kinds of cursors. A further kind is a struct, its parts, and what they hold.
ghost use Rattle.std.specs.Prelude.{◌≡◌, IfOk, length};
ghost use Rattle.std.specs.Int.{w32, to_le_bytes};
ghost use Rattle.name_parts.specs.declared.alphabets.Alphabet.TheVariants as alphabet;
ghost use Rattle.names_realms.specs.Names.{IsArtifactId, IsInvocationId, IsResultId, IsTestId};

use crate::keys::{KeyPart, append_parts};
use crate::tokens::Cursor;
use name_parts::{Alphabet, PartForm};
use names_realms::{ArtifactId, InvocationId, NameFault, ResultId, TestId};
use std::alloc::{AllocError, Global};

/// A place among verdicts, which stand by status, test, label and ordinal.
#[derive(Debug, Drop)]
pub struct VerdictCursor {
    pub status: u8,
    pub test: TestId,
    /// The label of the test's variant.
    pub label: [u8; 16],
    pub ordinal: u32,
}

/// A place among results, which stand by invocation, test and result.
#[derive(Debug, Drop)]
pub struct ResultCursor {
    /// The invocation that holds the result.
    pub invocation: InvocationId,
    pub test: TestId,
    pub result: ResultId,
}

/// A place among artifacts, which stand by their ids.
#[derive(Debug, Drop)]
pub struct ArtifactCursor {
    pub artifact: ArtifactId,
}

const VERDICT_PARTS: [KeyPart; 4] = [
    KeyPart::Plain(1),
    KeyPart::Text(PartForm::TestId),
    KeyPart::Plain(16),
    KeyPart::Plain(4),
];

const RESULT_PARTS: [KeyPart; 3] = [
    KeyPart::Text(PartForm::Letters(Alphabet::Invocation)),
    KeyPart::Text(PartForm::TestId),
    KeyPart::Text(PartForm::Letters(Alphabet::Outcome)),
];

const ARTIFACT_PARTS: [KeyPart; 1] = [KeyPart::Text(PartForm::Letters(Alphabet::Artifact))];

fn invocation_id(alloc: Global, text: &[u8]) -> Result<InvocationId, AllocError>
    requires { IsInvocationId text.now }
    ensures { IfOk result (λ id. id ≡ text.now) }
{
    match InvocationId::parse(alloc, text) {
        Ok(id) => Ok(id),
        Err(NameFault::Memory) => Err(AllocError),
        Err(_) => unreachable!(),
    }
}

fn test_id(alloc: Global, text: &[u8]) -> Result<TestId, AllocError>
    requires { IsTestId text.now }
    ensures { IfOk result (λ id. id ≡ text.now) }
{
    match TestId::parse(alloc, text) {
        Ok(id) => Ok(id),
        Err(NameFault::Memory) => Err(AllocError),
        Err(_) => unreachable!(),
    }
}

fn result_id(alloc: Global, text: &[u8]) -> Result<ResultId, AllocError>
    requires { IsResultId text.now }
    ensures { IfOk result (λ id. id ≡ text.now) }
{
    match ResultId::parse(alloc, text) {
        Ok(id) => Ok(id),
        Err(NameFault::Memory) => Err(AllocError),
        Err(_) => unreachable!(),
    }
}

fn artifact_id(alloc: Global, text: &[u8]) -> Result<ArtifactId, AllocError>
    requires { IsArtifactId text.now }
    ensures { IfOk result (λ id. id ≡ text.now) }
{
    match ArtifactId::parse(alloc, text) {
        Ok(id) => Ok(id),
        Err(NameFault::Memory) => Err(AllocError),
        Err(_) => unreachable!(),
    }
}

/// Writes bytes over a slice as long.
fn fill(room: &mut [u8], bytes: &[u8])
    requires { length bytes.now ≡ length room.old }
    ensures { room.new ≡ bytes.now }
{
    room.copy_from_slice(bytes);
}

fn label_of(bytes: &[u8]) -> [u8; 16]
    requires { length bytes.now ≡ 16 }
    ensures { result ≡ bytes.now }
{
    let mut label = [0u8; 16];
    fill(&mut label, bytes);
    label
}

fn ordinal_of(bytes: &[u8]) -> u32
    requires { length bytes.now ≡ 4 }
    ensures { to_le_bytes w32 result ≡ bytes.now }
{
    let mut ordinal = [0u8; 4];
    fill(&mut ordinal, bytes);
    u32::from_le_bytes(ordinal)
}

impl Cursor for VerdictCursor {
    ghost use Rattle.page_tokens.specs.Cursors.{verdict_contents, verdict_parts};

    ghost number = { 1 };

    ghost form = { verdict_parts };

    ghost held = { verdict_contents };

    fn kind() -> u8 {
        1
    }

    fn parts() -> &'static [KeyPart] {
        &VERDICT_PARTS
    }

    fn of_contents(alloc: Global, contents: &[&[u8]]) -> Result<VerdictCursor, AllocError> {
        Ok(VerdictCursor {
            status: contents[0][0],
            test: test_id(alloc, contents[1])?,
            label: label_of(contents[2]),
            ordinal: ordinal_of(contents[3]),
        })
    }

    fn append_key(&self, key: &mut Vec<u8>) -> Result<(), AllocError> {
        let status = [self.status];
        let ordinal = self.ordinal.to_le_bytes();
        let held = [
            status.as_slice(),
            self.test.as_slice(),
            self.label.as_slice(),
            ordinal.as_slice(),
        ];
        append_parts(key, &VERDICT_PARTS, &held)
    }
}

impl Cursor for ResultCursor {
    ghost use Rattle.page_tokens.specs.Cursors.{result_contents, result_parts};

    ghost number = { 2 };

    ghost form = { result_parts };

    ghost held = { result_contents };

    fn kind() -> u8 {
        2
    }

    fn parts() -> &'static [KeyPart] {
        &RESULT_PARTS
    }

    fn of_contents(alloc: Global, contents: &[&[u8]]) -> Result<ResultCursor, AllocError> {
        Ok(ResultCursor {
            invocation: invocation_id(alloc, contents[0])?,
            test: test_id(alloc, contents[1])?,
            result: result_id(alloc, contents[2])?,
        })
    }

    fn append_key(&self, key: &mut Vec<u8>) -> Result<(), AllocError> {
        let held = [
            self.invocation.as_slice(),
            self.test.as_slice(),
            self.result.as_slice(),
        ];
        append_parts(key, &RESULT_PARTS, &held)
    }
}

impl Cursor for ArtifactCursor {
    ghost use Rattle.page_tokens.specs.Cursors.{artifact_contents, artifact_parts};

    ghost number = { 3 };

    ghost form = { artifact_parts };

    ghost held = { artifact_contents };

    fn kind() -> u8 {
        3
    }

    fn parts() -> &'static [KeyPart] {
        &ARTIFACT_PARTS
    }

    fn of_contents(alloc: Global, contents: &[&[u8]]) -> Result<ArtifactCursor, AllocError> {
        Ok(ArtifactCursor {
            artifact: artifact_id(alloc, contents[0])?,
        })
    }

    fn append_key(&self, key: &mut Vec<u8>) -> Result<(), AllocError> {
        append_parts(key, &ARTIFACT_PARTS, &[self.artifact.as_slice()])
    }
}
