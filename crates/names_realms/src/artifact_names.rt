//! Names of artifacts.
ghost use Rattle.std.specs.Prelude.{◌≡◌, ◌≢◌, ◌≤◌, ◌++◌, length, take, IfOk, IfErr, OnOk, OnErr, Some};
ghost use Rattle.name_parts.specs.Pieces.{AreParts, name_text};
ghost use Rattle.names_realms.specs.declared.artifact_names.ArtifactName.{ArtifactName};
ghost use Rattle.names_realms.specs.ArtifactNames.{IsArtifactName, artifact_name, artifact_name_fault};
ghost use Rattle.names_realms.specs.ArtifactNames.{goes_to_tests, long_pieces, short_pieces};

use crate::ids::{ArtifactId, InvocationId, ResultId, TestId};
use crate::parents::{Parent, behind_id, parent_name_len, push_parent_name};
use crate::result_names::ResultName;
use name_parts::{
    NameFault, NameParts, Piece, all_or_nothing, append_piece, piece_len, read_name_parts,
};
use std::alloc::{AllocError, Global};

/// The name of an artifact: `{parent}/artifacts/{escaped artifact id}`.
#[derive(Debug, Drop)]
pub struct ArtifactName {
    pub parent: Parent,
    pub artifact: ArtifactId,
}

/// Whether the text has a longer front in common with `/tests/` than with `/artifacts/`.
fn is_tests(text: &[u8]) -> bool
    ensures { result ≡ goes_to_tests text.now }
{
    match text {
        [first, second, ..] => *first == b'/' && *second == b't',
        _ => false,
    }
}

/// The name of an artifact of an invocation with these parts.
fn of_invocation(mut parts: NameParts) -> ArtifactName
    requires { AreParts short_pieces parts }
    ensures { IsArtifactName result (name_text short_pieces parts) }
{
    let invocation = parts.take_first();
    let artifact = parts.take_first();
    ArtifactName {
        parent: Parent::Invocation(InvocationId::of_text(invocation)),
        artifact: ArtifactId::of_text(artifact),
    }
}

/// The name of an artifact of a result with these parts.
fn of_result(mut parts: NameParts) -> ArtifactName
    requires { AreParts long_pieces parts }
    ensures { IsArtifactName result (name_text long_pieces parts) }
{
    let invocation = parts.take_first();
    let test = parts.take_first();
    let result = parts.take_first();
    let artifact = parts.take_first();
    let parent = ResultName {
        invocation: InvocationId::of_text(invocation),
        test: TestId::of_text(test),
        result: ResultId::of_text(result),
    };
    ArtifactName {
        parent: Parent::Result(parent),
        artifact: ArtifactId::of_text(artifact),
    }
}

/// How many bytes the name of an artifact has.
#[tactic(auto, unfolding(crate::specs::ArtifactNames::artifact_name))]
fn artifact_name_len(name: &ArtifactName) -> usize
    ensures len { result ≡ length (artifact_name name.now) }
    ensures named { IsArtifactName name.now (artifact_name name.now) }
{
    let parent = parent_name_len(&name.parent);
    parent + piece_len(Piece::Artifact, name.artifact.as_slice())
}

/// Appends the name of an artifact, or only a front of it.
#[tactic(auto, unfolding(crate::specs::ArtifactNames::artifact_name))]
fn push_artifact_name(out: &mut Vec<u8>, name: &ArtifactName) -> Result<(), AllocError>
    ensures ok { OnOk result (out.new.items ≡ out.old.items ++ artifact_name name.now) }
    ensures front { take (length out.old.items) out.new.items ≡ out.old.items }
{
    push_parent_name(out, &name.parent)?;
    append_piece(out, Piece::Artifact, name.artifact.as_slice())
}

impl ArtifactName {
    /// Reads the name of an artifact, all of the text. `Memory` where there is none for the name.
    pub fn parse(alloc: Global, text: &[u8]) -> Result<ArtifactName, NameFault>
        ensures ok { IfOk result (λ a. IsArtifactName a text.now) }
        ensures refused { IfErr result
            (λ f. f ≢ NameFault.Memory → (a : ArtifactName) → ¬ IsArtifactName a text.now) }
        ensures fault { IfErr result
            (λ f. f ≢ NameFault.Memory → artifact_name_fault text.now ≡ Some f) }
    {
        if is_tests(behind_id(text)) {
            let pieces = [
                Piece::Invocation,
                Piece::Test,
                Piece::Result,
                Piece::Artifact,
            ];
            return match read_name_parts(alloc, &pieces, text) {
                Ok(parts) => Ok(of_result(parts)),
                Err(fault) => Err(fault),
            };
        }
        match read_name_parts(alloc, &[Piece::Invocation, Piece::Artifact], text) {
            Ok(parts) => Ok(of_invocation(parts)),
            Err(fault) => Err(fault),
        }
    }

    /// Appends the one spelling of the name, all of it or nothing.
    pub fn write_to(&self, alloc: Global, out: &mut Vec<u8>) -> Result<(), AllocError>
        ensures named { IsArtifactName self.now (artifact_name self.now) }
        ensures ok { OnOk result (out.new.items ≡ out.old.items ++ artifact_name self.now) }
        ensures err { OnErr result (out.new.items ≡ out.old.items) }
    {
        let _ = alloc;
        out.reserve(artifact_name_len(self))?;
        let before = out.len();
        let pushed = push_artifact_name(out, self);
        all_or_nothing(out, before, pushed)
    }
}
