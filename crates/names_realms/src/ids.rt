//! Ids of invocations, tests, results and artifacts.
ghost use Rattle.std.specs.Prelude.{◌≡◌, ◌≢◌, ◌++◌, ◌↔◌, IfOk, IfErr, OnOk, OnErr, IsTrue, Some, ℕ, List, string_bytes};
ghost use Rattle.name_parts.specs.Parts.{IsPart, part_fault};
ghost use Rattle.name_parts.specs.declared.alphabets.Alphabet.TheVariants as alphabet;
ghost use Rattle.name_parts.specs.declared.parts.PartForm.{PartForm};
ghost use Rattle.name_parts.specs.declared.parts.PartForm.TheVariants.{Letters, TestId};
ghost use Rattle.names_realms.specs.Names.{IsInvocationName, invocation_name_fault};

use name_parts::{Alphabet, NameFault, PartForm, append, read_name, read_part, same};
use std::alloc::{AllocError, Global};
use std::marker::{Model, PhantomData};

/// What an id is of, which says by which form it is read.
pub trait IdGrammar: Drop {
    ghost form: { PartForm };

    /// The form of the ids.
    fn form() -> PartForm
        ensures { result ≡ form };
}

/// Of an invocation: `[a-z][a-z0-9_\-:.]{0,99}`.
#[derive(Debug, Drop)]
pub struct OfInvocation;

impl IdGrammar for OfInvocation {
    ghost form = { Letters alphabet.Invocation };

    fn form() -> PartForm {
        PartForm::Letters(Alphabet::Invocation)
    }
}

/// Of a test: 1 to 512 bytes of UTF-8 without the control characters U+0000 to U+001F and U+007F to
/// U+009F.
#[derive(Debug, Drop)]
pub struct OfTest;

impl IdGrammar for OfTest {
    ghost form = { TestId };

    fn form() -> PartForm {
        PartForm::TestId
    }
}

/// Of a result: `[a-z0-9\-_.]{1,32}`.
#[derive(Debug, Drop)]
pub struct OfResult;

impl IdGrammar for OfResult {
    ghost form = { Letters alphabet.Outcome };

    fn form() -> PartForm {
        PartForm::Letters(Alphabet::Outcome)
    }
}

/// Of an artifact: 1 to 256 bytes, each a letter, a digit or one of `- _ . /`, the first not `/`.
#[derive(Debug, Drop)]
pub struct OfArtifact;

impl IdGrammar for OfArtifact {
    ghost form = { Letters alphabet.Artifact };

    fn form() -> PartForm {
        PartForm::Letters(Alphabet::Artifact)
    }
}

/// An id. Contracts see it as its bytes.
#[derive(Debug, Drop)]
pub struct Id<G: IdGrammar> {
    text: String,
    of: PhantomData<G>,
}

/// The id of an invocation.
pub type InvocationId = Id<OfInvocation>;

/// The id of a test.
pub type TestId = Id<OfTest>;

/// The id of a result.
pub type ResultId = Id<OfResult>;

/// The id of an artifact.
pub type ArtifactId = Id<OfArtifact>;

impl<G: IdGrammar> Model for Id<G> {
    ghost use Rattle.std.specs.Prelude.{ℕ, List, string_bytes};
    ghost use Rattle.name_parts.specs.Parts.{IsPart};

    ghost Value = { List ℕ };

    ghost view = { λ i. string_bytes i.text };

    ghost invariant = { λ i. IsPart G.form (string_bytes i.text) };
}

impl<G: IdGrammar> Id<G> {
    /// The id with this text.
    pub(crate) fn of_text(text: String) -> Id<G>
        requires { IsPart G.form (string_bytes text) }
        ensures { result ≡ string_bytes text }
    {
        Id {
            text,
            of: PhantomData,
        }
    }

    /// Reads an id, all of the text. `Memory` where there is none for the id.
    pub fn parse(alloc: Global, text: &[u8]) -> Result<Id<G>, NameFault>
        ensures ok { IfOk result (λ id. (id ≡ text.now) × IsPart G.form text.now) }
        ensures refused { IfErr result (λ f. f ≢ NameFault.Memory → ¬ IsPart G.form text.now) }
        ensures fault { IfErr result
            (λ f. f ≢ NameFault.Memory → part_fault G.form text.now ≡ Some f) }
    {
        let text = read_part(alloc, G::form(), text)?;
        Ok(Id::of_text(text))
    }

    /// The bytes of the id.
    pub fn as_slice(&self) -> &[u8]
        ensures text { result.now ≡ self.now }
        ensures grammar { IsPart G.form self.now }
    {
        self.text.as_bytes()
    }

    /// The text of the id.
    pub fn as_str(&self) -> &str
        ensures text { result.now ≡ self.now }
        ensures grammar { IsPart G.form self.now }
    {
        self.text.as_str()
    }

    /// The id in memory of its own. `Err` where there is none for it.
    pub fn try_clone(&self, alloc: Global) -> Result<Id<G>, AllocError>
        ensures { IfOk result (λ id. id ≡ self.now) }
    {
        let text = String::from_str(alloc, self.as_str())?;
        Ok(Id::of_text(text))
    }

    /// Appends the id, all of it or nothing.
    pub fn write_to(&self, alloc: Global, out: &mut Vec<u8>) -> Result<(), AllocError>
        ensures grammar { IsPart G.form self.now }
        ensures ok { OnOk result (out.new.items ≡ out.old.items ++ self.now) }
        ensures err { OnErr result (out.new.items ≡ out.old.items) }
    {
        let _ = alloc;
        append(out, self.as_slice())
    }

    /// Whether the other id has the same bytes.
    pub fn same_as(&self, other: &Id<G>) -> bool
        ensures { IsTrue result ↔ (self.now ≡ other.now) }
    {
        same(self.as_str(), other.as_str())
    }
}

impl InvocationId {
    /// Reads `invocations/` and an id, all of the text. `Memory` where there is none for the id.
    pub fn parse_name(alloc: Global, text: &[u8]) -> Result<InvocationId, NameFault>
        ensures ok { IfOk result (λ id. IsInvocationName id text.now) }
        ensures refused { IfErr result
            (λ f. f ≢ NameFault.Memory → (id : List ℕ) → ¬ IsInvocationName id text.now) }
        ensures fault { IfErr result
            (λ f. f ≢ NameFault.Memory → invocation_name_fault text.now ≡ Some f) }
    {
        match read_name(
            alloc,
            b"invocations/",
            PartForm::Letters(Alphabet::Invocation),
            text,
        ) {
            Ok(text) => Ok(Id::of_text(text)),
            Err(fault) => Err(fault),
        }
    }
}
