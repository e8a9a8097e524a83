//! What holds artifacts.
ghost use Rattle.std.specs.Prelude.{◌≡◌, ◌≢◌, ◌≤◌, ◌++◌, ◌∷◌, [], length, take, IfOk, IfErr, OnOk, OnErr, Some};
ghost use Rattle.name_parts.specs.Pieces.{AreParts, name_text};
ghost use Rattle.name_parts.specs.declared.names.Piece.{Piece};
ghost use Rattle.names_realms.specs.declared.parents.Parent.{Parent};
ghost use Rattle.names_realms.specs.Names.{IsInvocationName};
ghost use Rattle.names_realms.specs.Parents.{IsParentName, behind_id, from_slash, parent_fault, parent_name};

use crate::ids::InvocationId;
use crate::result_names::{ResultName, push_result_name, result_name_len, result_of};
use name_parts::{
    NameFault, NameParts, Piece, all_or_nothing, append_piece, len_before, piece_len,
    read_name_parts,
};
use std::alloc::{AllocError, Global};

/// What holds artifacts: an invocation, or a result.
#[derive(Debug, Drop)]
pub enum Parent {
    Invocation(InvocationId),
    /// A result, by its name.
    Result(ResultName),
}

/// What stands in a name behind an invocation's id, from its `/` on.
pub(crate) fn behind_id(text: &[u8]) -> &[u8]
    ensures { result.now ≡ behind_id text.now }
{
    if text.len() < 12 {
        return b"";
    }
    let rest = &text[12..];
    &rest[len_before(rest, b'/')..]
}

/// The invocation with this one part.
fn invocation_of(mut parts: NameParts) -> InvocationId
    requires { AreParts (Piece.Invocation ∷ []) parts }
    ensures { IsInvocationName result (name_text (Piece.Invocation ∷ []) parts) }
{
    InvocationId::of_text(parts.take_first())
}

/// How many bytes a parent's name has.
pub(crate) fn parent_name_len(parent: &Parent) -> usize
    ensures len { result ≡ length (parent_name parent.now) }
    ensures few { result ≤ 2000 }
    ensures named { IsParentName parent.now (parent_name parent.now) }
{
    match parent {
        Parent::Invocation(id) => piece_len(Piece::Invocation, id.as_slice()),
        Parent::Result(name) => result_name_len(name),
    }
}

/// Appends a parent's name, or only a front of it.
pub(crate) fn push_parent_name(out: &mut Vec<u8>, parent: &Parent) -> Result<(), AllocError>
    ensures ok { OnOk result (out.new.items ≡ out.old.items ++ parent_name parent.now) }
    ensures front { take (length out.old.items) out.new.items ≡ out.old.items }
{
    match parent {
        Parent::Invocation(id) => append_piece(out, Piece::Invocation, id.as_slice()),
        Parent::Result(name) => push_result_name(out, name),
    }
}

impl Parent {
    /// Reads the name of an invocation or of a result, all of the text. `Memory` where there is
    /// none for the name.
    pub fn parse(alloc: Global, text: &[u8]) -> Result<Parent, NameFault>
        ensures ok { IfOk result (λ p. IsParentName p text.now) }
        ensures refused { IfErr result
            (λ f. f ≢ NameFault.Memory → (p : Parent) → ¬ IsParentName p text.now) }
        ensures fault { IfErr result (λ f. f ≢ NameFault.Memory → parent_fault text.now ≡ Some f) }
    {
        if behind_id(text).is_empty() {
            return match read_name_parts(alloc, &[Piece::Invocation], text) {
                Ok(parts) => Ok(Parent::Invocation(invocation_of(parts))),
                Err(fault) => Err(fault),
            };
        }
        let pieces = [Piece::Invocation, Piece::Test, Piece::Result];
        match read_name_parts(alloc, &pieces, text) {
            Ok(parts) => Ok(Parent::Result(result_of(parts))),
            Err(fault) => Err(fault),
        }
    }

    /// The parent in memory of its own. `Err` where there is none for it.
    pub fn try_clone(&self, alloc: Global) -> Result<Parent, AllocError>
        ensures { IfOk result (λ parent. parent ≡ self.now) }
    {
        match self {
            Parent::Invocation(id) => Ok(Parent::Invocation(id.try_clone(alloc)?)),
            Parent::Result(name) => Ok(Parent::Result(name.try_clone(alloc)?)),
        }
    }

    /// Appends the one spelling of the name, all of it or nothing.
    pub fn write_to(&self, alloc: Global, out: &mut Vec<u8>) -> Result<(), AllocError>
        ensures named { IsParentName self.now (parent_name self.now) }
        ensures ok { OnOk result (out.new.items ≡ out.old.items ++ parent_name self.now) }
        ensures err { OnErr result (out.new.items ≡ out.old.items) }
    {
        let _ = alloc;
        out.reserve(parent_name_len(self))?;
        let before = out.len();
        let pushed = push_parent_name(out, self);
        all_or_nothing(out, before, pushed)
    }
}
