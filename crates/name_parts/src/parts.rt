//! A part of a name: which bytes it may have, and how many.
ghost use Rattle.std.specs.Prelude.{◌≡◌, ◌≢◌, ◌+◌, ◌^◌, ◌<◌, ◌≤◌, not, option_map, length, IfOk, IfErr, IfSome, None};
ghost use Rattle.std.specs.Prelude.{Some, string_bytes};
ghost use Rattle.std.specs.List.{position};
ghost use Rattle.name_parts.specs.Alphabets.{may_begin, may_follow, most_letters};
ghost use Rattle.name_parts.specs.Parts.{IsPart, alphabet_place, bad_place, limited_fault, most_bytes, part_fault};
ghost use Rattle.name_parts.specs.Parts.{place_of, shifted, unempty_fault};

use crate::NameFault;
use crate::alphabets::Alphabet;
use crate::texts::{bad_in_key, bad_in_text, owned_text};
use std::alloc::Global;

/// The forms of parts.
#[derive(Clone, Copy)]
pub enum PartForm {
    /// Bytes of an alphabet.
    Letters(Alphabet),
    /// A test's id: UTF-8 without control characters.
    TestId,
    /// A pair's key: words of lower-case letters, digits and `_`, parted by `/`, each of which
    /// begins with a letter.
    PairKey,
}

/// The first place whose byte may not follow others.
fn first_that_may_not_follow(alphabet: Alphabet, text: &[u8]) -> Option<usize>
    ensures place { result ≡ position (λ b. not (may_follow alphabet b)) text.now }
    ensures within { IfSome result (λ place. place < length text.now) }
{
    text.iter().position(|byte| !alphabet.goes_on_with(*byte))
}

/// The first place whose byte the alphabet doesn't have there, or 0 where there are no bytes.
fn first_outside(alphabet: Alphabet, text: &[u8]) -> Option<usize>
    ensures place { result ≡ alphabet_place alphabet text.now }
    ensures within { IfSome result (λ place. place ≤ length text.now) }
{
    let Some((first, rest)) = text.split_first() else {
        return Some(0);
    };
    if !alphabet.begins_with(*first) {
        return Some(0);
    }
    match first_that_may_not_follow(alphabet, rest) {
        Some(place) => Some(place + 1),
        None => None,
    }
}

/// The first bad place of a part, 0 where there are no bytes.
pub fn first_bad(form: PartForm, text: &[u8]) -> Option<usize>
    ensures place { result ≡ bad_place form text.now }
    ensures within { IfSome result (λ place. place ≤ length text.now) }
{
    match form {
        PartForm::Letters(alphabet) => first_outside(alphabet, text),
        PartForm::TestId => bad_in_text(text),
        PartForm::PairKey => bad_in_key(text),
    }
}

impl PartForm {
    /// How many bytes a part may have.
    pub(crate) fn most(self) -> usize
        ensures { result ≡ most_bytes self }
    {
        match self {
            PartForm::Letters(alphabet) => alphabet.most(),
            PartForm::TestId => 512,
            PartForm::PairKey => 64,
        }
    }
}

/// The fault of a text of this length with this limit and this first bad place: that it is too
/// long, or else its bad place.
pub fn limited(most: usize, len: usize, bad: Option<usize>) -> Option<NameFault>
    requires { IfSome bad (λ at. at ≤ len) }
    ensures value { result ≡ limited_fault most len bad }
    ensures within { IfSome result (λ f. place_of f ≤ len) }
{
    if len > most {
        return Some(NameFault::TooLong { len });
    }
    match bad {
        Some(at) => Some(NameFault::BadByte { at }),
        None => None,
    }
}

/// The fault of a text, where the text stands behind so many bytes of a longer one: its place is
/// moved by so many.
pub fn moved(behind: usize, fault: NameFault) -> NameFault
    requires { place_of fault + behind < 2 ^ 64 }
    ensures { result ≡ shifted behind fault }
{
    match fault {
        NameFault::BadByte { at } => NameFault::BadByte { at: behind + at },
        NameFault::NotCanonical { at } => NameFault::NotCanonical { at: behind + at },
        other => other,
    }
}

/// The fault of a text, if it has one, where the text stands behind so many bytes of a longer one.
pub fn shifted_fault(behind: usize, fault: Option<NameFault>) -> Option<NameFault>
    requires { IfSome fault (λ f. place_of f + behind < 2 ^ 64) }
    ensures { result ≡ option_map (shifted behind) fault }
{
    match fault {
        Some(fault) => Some(moved(behind, fault)),
        None => None,
    }
}

/// What is wrong with a part, where it is no fault of its own to be empty: that it is too long,
/// else its first bad place, which is 0 where it is empty.
pub fn fault_unless_empty(form: PartForm, text: &[u8]) -> Option<NameFault>
    ensures value { result ≡ unempty_fault form text.now }
    ensures within { IfSome result (λ f. place_of f ≤ length text.now) }
{
    if text.len() > form.most() {
        return Some(NameFault::TooLong { len: text.len() });
    }
    match first_bad(form, text) {
        Some(at) => Some(NameFault::BadByte { at }),
        None => None,
    }
}

/// What is wrong with a part: that it is empty, else too long, else its first bad place.
pub fn fault_of_part(form: PartForm, text: &[u8]) -> Option<NameFault>
    ensures value { result ≡ part_fault form text.now }
    ensures within { IfSome result (λ f. place_of f ≤ length text.now) }
{
    if text.is_empty() {
        return Some(NameFault::Empty);
    }
    fault_unless_empty(form, text)
}

/// Reads a part, all of the text. Its fault where it is none, and `Memory` where there is none for
/// the part.
pub fn read_part(alloc: Global, form: PartForm, text: &[u8]) -> Result<String, NameFault>
    ensures ok { IfOk result (λ t. (string_bytes t ≡ text.now) × IsPart form text.now) }
    ensures none { IfOk result (λ _. part_fault form text.now ≡ None) }
    ensures refused { IfErr result (λ f. f ≢ NameFault.Memory → ¬ IsPart form text.now) }
    ensures fault { IfErr result (λ f. f ≢ NameFault.Memory → part_fault form text.now ≡ Some f) }
    ensures within { IfErr result (λ f. place_of f ≤ length text.now) }
{
    if let Some(fault) = fault_of_part(form, text) {
        return Err(fault);
    }
    let text = owned_text(alloc, text)?;
    Ok(text)
}
