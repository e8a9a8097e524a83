//! Names of results.
ghost use Rattle.std.specs.Prelude.{◌≡◌, ◌≢◌, ◌≤◌, ◌++◌, ◌∷◌, [], length, take, IfOk, IfErr, OnOk, OnErr, Some};
ghost use Rattle.name_parts.specs.Pieces.{AreParts, name_text};
ghost use Rattle.names_realms.specs.declared.result_names.ResultName.{ResultName};
ghost use Rattle.names_realms.specs.ResultNames.{IsResultName, result_name, result_name_fault, result_pieces};

use crate::ids::{InvocationId, ResultId, TestId};
use name_parts::{
    NameFault, NameParts, Piece, all_or_nothing, append_piece, piece_len, read_name_parts,
};
use std::alloc::{AllocError, Global};

/// The name of a result: `invocations/{id}/tests/{escaped test id}/results/{result id}`.
#[derive(Debug, Drop)]
pub struct ResultName {
    pub invocation: InvocationId,
    pub test: TestId,
    pub result: ResultId,
}

/// The name with these parts.
#[tactic(auto, unfolding(crate::specs::ResultNames::result_name))]
pub(crate) fn result_of(mut parts: NameParts) -> ResultName
    requires { AreParts result_pieces parts }
    ensures { IsResultName result (name_text result_pieces parts) }
{
    let invocation = parts.take_first();
    let test = parts.take_first();
    let result = parts.take_first();
    ResultName {
        invocation: InvocationId::of_text(invocation),
        test: TestId::of_text(test),
        result: ResultId::of_text(result),
    }
}

/// How many bytes the name of a result has.
#[tactic(auto, unfolding(crate::specs::ResultNames::result_name))]
pub(crate) fn result_name_len(name: &ResultName) -> usize
    ensures len { result ≡ length (result_name name.now) }
    ensures few { result ≤ 2000 }
    ensures named { IsResultName name.now (result_name name.now) }
{
    let invocation = piece_len(Piece::Invocation, name.invocation.as_slice());
    let test = piece_len(Piece::Test, name.test.as_slice());
    let id = piece_len(Piece::Result, name.result.as_slice());
    invocation + test + id
}

/// Appends the name of a result, or only a front of it.
#[tactic(auto, unfolding(crate::specs::ResultNames::result_name))]
pub(crate) fn push_result_name(out: &mut Vec<u8>, name: &ResultName) -> Result<(), AllocError>
    ensures ok { OnOk result (out.new.items ≡ out.old.items ++ result_name name.now) }
    ensures front { take (length out.old.items) out.new.items ≡ out.old.items }
{
    append_piece(out, Piece::Invocation, name.invocation.as_slice())?;
    append_piece(out, Piece::Test, name.test.as_slice())?;
    append_piece(out, Piece::Result, name.result.as_slice())
}

impl ResultName {
    /// Reads the name of a result, all of the text. `Memory` where there is none for the name.
    pub fn parse(alloc: Global, text: &[u8]) -> Result<ResultName, NameFault>
        ensures ok { IfOk result (λ r. IsResultName r text.now) }
        ensures refused { IfErr result
            (λ f. f ≢ NameFault.Memory → (r : ResultName) → ¬ IsResultName r text.now) }
        ensures fault { IfErr result
            (λ f. f ≢ NameFault.Memory → result_name_fault text.now ≡ Some f) }
    {
        let pieces = [Piece::Invocation, Piece::Test, Piece::Result];
        match read_name_parts(alloc, &pieces, text) {
            Ok(parts) => Ok(result_of(parts)),
            Err(fault) => Err(fault),
        }
    }

    /// The name in memory of its own. `Err` where there is none for it.
    pub fn try_clone(&self, alloc: Global) -> Result<ResultName, AllocError>
        ensures { IfOk result (λ name. name ≡ self.now) }
    {
        Ok(ResultName {
            invocation: self.invocation.try_clone(alloc)?,
            test: self.test.try_clone(alloc)?,
            result: self.result.try_clone(alloc)?,
        })
    }

    /// Appends the one spelling of the name, all of it or nothing.
    pub fn write_to(&self, alloc: Global, out: &mut Vec<u8>) -> Result<(), AllocError>
        ensures named { IsResultName self.now (result_name self.now) }
        ensures ok { OnOk result (out.new.items ≡ out.old.items ++ result_name self.now) }
        ensures err { OnErr result (out.new.items ≡ out.old.items) }
    {
        let _ = alloc;
        out.reserve(result_name_len(self))?;
        let before = out.len();
        let pushed = push_result_name(out, self);
        all_or_nothing(out, before, pushed)
    }
}
