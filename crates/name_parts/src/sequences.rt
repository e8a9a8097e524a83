//! Names of several parts.
ghost use Rattle.std.specs.Prelude.{◌≡◌, ◌≢◌, ◌≤◌, ◌++◌, length, IfOk, IfErr, Some, string_bytes, nat_eq};
ghost use Rattle.std.specs.List.{common_prefix_len};
ghost use Rattle.name_parts.specs.Parts.{IsPart, part_fault, place_of};
ghost use Rattle.name_parts.specs.Sequences.{behind, unless_empty};

use crate::NameFault;
use crate::parts::{PartForm, moved, read_part};
use crate::texts::common_len;
use std::alloc::Global;

/// What stands behind a literal that the text begins with. `BadByte` where it begins otherwise, at
/// the first other byte or at the end.
pub fn rest_behind<'t>(literal: &[u8], text: &'t [u8]) -> Result<&'t [u8], NameFault>
    ensures ok { IfOk result (λ rest. text.now ≡ literal.now ++ rest.now) }
    ensures same { IfOk result
        (λ rest. common_prefix_len nat_eq text.now literal.now ≡ length literal.now) }
    ensures err { IfErr result
        (λ f. f ≡ NameFault.BadByte (common_prefix_len nat_eq text.now literal.now)) }
    ensures other { IfErr result
        (λ f. common_prefix_len nat_eq text.now literal.now ≢ length literal.now) }
    ensures within { IfErr result (λ f. place_of f ≤ length text.now) }
{
    let at = common_len(text, literal);
    if at == literal.len() {
        return Ok(&text[at..]);
    }
    Err(NameFault::BadByte { at })
}

/// Reads a part behind a literal, all of the text. The first fault, at its place in the text, and
/// `Memory` where there is none for the part.
#[tactic(auto, unfolding(crate::specs::Sequences::behind))]
pub fn read_behind(
    alloc: Global,
    literal: &[u8],
    form: PartForm,
    text: &[u8],
) -> Result<String, NameFault>
    ensures ok { IfOk result
        (λ t. (text.now ≡ literal.now ++ string_bytes t) × IsPart form (string_bytes t)) }
    ensures fault { IfErr result
        (λ f. f ≢ NameFault.Memory → behind literal.now (part_fault form) text.now ≡ Some f) }
    ensures within { IfErr result (λ f. place_of f ≤ length text.now) }
{
    let rest = match rest_behind(literal, text) {
        Ok(rest) => rest,
        Err(fault) => return Err(fault),
    };
    match read_part(alloc, form, rest) {
        Ok(part) => Ok(part),
        Err(fault) => Err(moved(literal.len(), fault)),
    }
}

/// Reads a literal and a part, all of the text. `Empty` where there are no bytes, else the first
/// fault, and `Memory` where there is none for the part.
pub fn read_name(
    alloc: Global,
    literal: &[u8],
    form: PartForm,
    text: &[u8],
) -> Result<String, NameFault>
    ensures ok { IfOk result
        (λ t. (text.now ≡ literal.now ++ string_bytes t) × IsPart form (string_bytes t)) }
    ensures fault { IfErr result
        (λ f. f ≢ NameFault.Memory
        → unless_empty (behind literal.now (part_fault form)) text.now ≡ Some f) }
{
    if text.is_empty() {
        return Err(NameFault::Empty);
    }
    read_behind(alloc, literal, form, text)
}
