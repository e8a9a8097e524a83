//! Names of several parts: pieces one behind another, each a word and a part.
ghost use Rattle.std.specs.Prelude.{◌≡◌, ◌≢◌, ◌+◌, ◌*◌, ◌++◌, ◌∷◌, ◌<◌, ◌≤◌, ◌^◌, IfOk, IfErr, OnOk, OnErr, List, ℕ};
ghost use Rattle.std.specs.Prelude.{[], length, string_bytes, take, None, Some};
ghost use Rattle.name_parts.specs.Parts.{IsPart, place_of};
ghost use Rattle.name_parts.specs.Pieces.{AreParts, form_of, is_escaped, name_fault, name_text, piece_fault};
ghost use Rattle.name_parts.specs.Pieces.{piece_text, word_of, written};
ghost use Rattle.name_parts.specs.Sequences.{unless_empty, up_to_slash};

use crate::NameFault;
use crate::alphabets::Alphabet;
use crate::escapes::{append_escaped, escaped_len, read_escaped};
use crate::parts::{PartForm, moved, read_part};
use crate::sequences::rest_behind;
use crate::texts::{append, len_before};
use std::alloc::{AllocError, Global};
use std::marker::Model;

/// The pieces of names: each is a word, and the part behind it.
#[derive(Clone, Copy)]
pub enum Piece {
    /// `invocations/` and an invocation's id.
    Invocation,
    /// `/tests/` and a test's id, which is escaped.
    Test,
    /// `/results/` and a result's id.
    Result,
    /// `/artifacts/` and an artifact's id, which is escaped.
    Artifact,
}

impl Piece {
    /// The word in front of the part.
    fn word(self) -> &'static [u8]
        ensures text { result.now ≡ word_of self }
        ensures few { length result.now ≤ 12 }
    {
        match self {
            Piece::Invocation => b"invocations/",
            Piece::Test => b"/tests/",
            Piece::Result => b"/results/",
            Piece::Artifact => b"/artifacts/",
        }
    }

    /// The form of the part.
    fn form(self) -> PartForm
        ensures { result ≡ form_of self }
    {
        match self {
            Piece::Invocation => PartForm::Letters(Alphabet::Invocation),
            Piece::Test => PartForm::TestId,
            Piece::Result => PartForm::Letters(Alphabet::Outcome),
            Piece::Artifact => PartForm::Letters(Alphabet::Artifact),
        }
    }

    /// Whether the part is written escaped.
    fn is_escaped(self) -> bool
        ensures { result ≡ is_escaped self }
    {
        match self {
            Piece::Test | Piece::Artifact => true,
            Piece::Invocation | Piece::Result => false,
        }
    }
}

/// The parts of a name that was read, to be taken from the first to the last.
#[derive(Debug, Drop)]
pub struct NameParts {
    /// The last part stands first.
    backwards: Vec<String>,
}

impl Model for NameParts {
    ghost use Rattle.std.specs.Prelude.{ℕ, List, map, reverse, string_bytes};

    ghost Value = { List (List ℕ) };

    ghost view = { λ p. map string_bytes (reverse p.backwards.items) };
}

impl NameParts {
    /// The one part.
    fn of_last(alloc: Global, part: String) -> Result<NameParts, AllocError>
        ensures { IfOk result (λ p. p ≡ string_bytes part ∷ []) }
    {
        let mut backwards = Vec::new(alloc);
        backwards.push(part)?;
        Ok(NameParts { backwards })
    }

    /// The part and, behind it, these.
    fn behind(self, part: String) -> Result<NameParts, AllocError>
        ensures { IfOk result (λ p. p ≡ string_bytes part ∷ self) }
    {
        let NameParts { mut backwards } = self;
        backwards.push(part)?;
        Ok(NameParts { backwards })
    }

    /// Takes the first part.
    pub fn take_first(&mut self) -> String
        requires { 0 < length self.old }
        ensures { self.old ≡ string_bytes result ∷ self.new }
    {
        match self.backwards.pop() {
            Some(part) => part,
            None => unreachable!(),
        }
    }
}

/// Reads the part of a piece, all of the text.
fn read_written(alloc: Global, piece: Piece, text: &[u8]) -> Result<String, NameFault>
    ensures ok { IfOk result (λ t. (text.now ≡ written piece (string_bytes t))
        × IsPart (form_of piece) (string_bytes t)) }
    ensures none { IfOk result (λ _. piece_fault piece text.now ≡ None) }
    ensures fault { IfErr result (λ f. f ≢ NameFault.Memory → piece_fault piece text.now ≡ Some f) }
    ensures within { IfErr result (λ f. place_of f ≤ length text.now) }
{
    if piece.is_escaped() {
        read_escaped(alloc, piece.form(), text)
    } else {
        read_part(alloc, piece.form(), text)
    }
}

/// Reads the last piece of a name, all of the text.
#[tactic(auto, unfolding(crate::specs::Sequences::behind))]
fn read_last(alloc: Global, piece: Piece, text: &[u8]) -> Result<NameParts, NameFault>
    ensures ok { IfOk result
        (λ p. (text.now ≡ name_text (piece ∷ []) p) × AreParts (piece ∷ []) p) }
    ensures fault { IfErr result
        (λ f. f ≢ NameFault.Memory → name_fault (piece ∷ []) text.now ≡ Some f) }
    ensures within { IfErr result (λ f. place_of f ≤ length text.now) }
{
    let word = piece.word();
    let rest = match rest_behind(word, text) {
        Ok(rest) => rest,
        Err(fault) => return Err(fault),
    };
    match read_written(alloc, piece, rest) {
        Ok(part) => Ok(NameParts::of_last(alloc, part)?),
        Err(fault) => Err(moved(word.len(), fault)),
    }
}

/// Reads a part up to the next `/`, and the pieces of a name from there on.
#[cycle(pieces)]
#[tactic(auto, unfolding(crate::specs::Sequences::up_to_slash))]
fn read_to_slash(
    alloc: Global,
    piece: Piece,
    others: &[Piece],
    text: &[u8],
) -> Result<NameParts, NameFault>
    requires { 0 < length others.now }
    ensures ok { IfOk result
        (λ p. (part : List ℕ) × (parts : List (List ℕ)) × (p ≡ part ∷ parts)
        × (text.now ≡ written piece part ++ name_text others.now parts)
        × IsPart (form_of piece) part × AreParts others.now parts) }
    ensures fault { IfErr result
        (λ f. f ≢ NameFault.Memory
        → up_to_slash (piece_fault piece) (name_fault others.now) text.now ≡ Some f) }
    ensures within { IfErr result (λ f. place_of f ≤ length text.now) }
{
    let end = len_before(text, b'/');
    let (front, rest) = text.split_at(end);
    let part = read_written(alloc, piece, front)?;
    match read_pieces(alloc, others, rest) {
        Ok(parts) => Ok(parts.behind(part)?),
        Err(fault) => Err(moved(end, fault)),
    }
}

/// Reads pieces one behind another, all of the text.
#[cycle(pieces)]
#[tactic(auto, unfolding(crate::specs::Sequences::behind))]
fn read_pieces(alloc: Global, pieces: &[Piece], text: &[u8]) -> Result<NameParts, NameFault>
    requires { 0 < length pieces.now }
    ensures ok { IfOk result (λ p. (text.now ≡ name_text pieces.now p) × AreParts pieces.now p) }
    ensures fault { IfErr result
        (λ f. f ≢ NameFault.Memory → name_fault pieces.now text.now ≡ Some f) }
    ensures within { IfErr result (λ f. place_of f ≤ length text.now) }
{
    let Some((piece, others)) = pieces.split_first() else {
        unreachable!()
    };
    if others.is_empty() {
        return read_last(alloc, *piece, text);
    }
    let word = piece.word();
    let rest = match rest_behind(word, text) {
        Ok(rest) => rest,
        Err(fault) => return Err(fault),
    };
    match read_to_slash(alloc, *piece, others, rest) {
        Ok(parts) => Ok(parts),
        Err(fault) => Err(moved(word.len(), fault)),
    }
}

/// Reads a name of these pieces, all of the text. `Empty` where there are no bytes, else the first
/// fault, at its place in the text, and `Memory` where there is none for the parts.
pub fn read_name_parts(alloc: Global, pieces: &[Piece], text: &[u8]) -> Result<NameParts, NameFault>
    requires { 0 < length pieces.now }
    ensures ok { IfOk result (λ p. (text.now ≡ name_text pieces.now p) × AreParts pieces.now p) }
    ensures fault { IfErr result
        (λ f. f ≢ NameFault.Memory → unless_empty (name_fault pieces.now) text.now ≡ Some f) }
{
    if text.is_empty() {
        return Err(NameFault::Empty);
    }
    read_pieces(alloc, pieces, text)
}

/// How many bytes the part of a piece has as its name spells it.
#[tactic(auto, using(crate::proofs::WritingLemmas::escaped_few))]
fn written_len(piece: Piece, part: &[u8]) -> usize
    requires { length part.now < 2 ^ 32 }
    ensures len { result ≡ length (written piece part.now) }
    ensures few { result ≤ 3 * length part.now }
{
    if piece.is_escaped() {
        escaped_len(part)
    } else {
        part.len()
    }
}

/// How many bytes a piece with this part has.
pub fn piece_len(piece: Piece, part: &[u8]) -> usize
    requires { length part.now < 2 ^ 32 }
    ensures len { result ≡ length (piece_text piece part.now) }
    ensures few { result ≤ 12 + 3 * length part.now }
{
    piece.word().len() + written_len(piece, part)
}

/// Appends the part of a piece as its name spells it, all of it or nothing.
fn append_written(out: &mut Vec<u8>, piece: Piece, part: &[u8]) -> Result<(), AllocError>
    ensures ok { OnOk result (out.new.items ≡ out.old.items ++ written piece part.now) }
    ensures err { OnErr result (out.new.items ≡ out.old.items) }
{
    if piece.is_escaped() {
        append_escaped(out, part)
    } else {
        append(out, part)
    }
}

/// Appends a piece with this part, or only a front of it.
pub fn append_piece(out: &mut Vec<u8>, piece: Piece, part: &[u8]) -> Result<(), AllocError>
    ensures ok { OnOk result (out.new.items ≡ out.old.items ++ piece_text piece part.now) }
    ensures front { take (length out.old.items) out.new.items ≡ out.old.items }
{
    append(out, piece.word())?;
    append_written(out, piece, part)
}
