//! Texts that are read by a grammar: ids, realms, names, moments and spans.
#![tactic(auto, using(crate::proofs::SpellLaws::spellings))]

ghost use Rattle.std.specs.Prelude.{◌≡◌, ◌≢◌, false, ℕ, List, Option, None, Some, IfOk, IfErr, string_bytes};
ghost use Rattle.serde_json.specs.Data.{string};
ghost use Rattle.serde_json.specs.View.{view};
ghost use Rattle.names_realms.specs.NameParts.declared.faults.NameFault.{NameFault};
ghost use Rattle.json_fields.specs.Faults.{Says};
ghost use Rattle.json_fields.specs.Kinds.{empty_text};
ghost use Rattle.json_fields.specs.Texts.{a_text, IsText, refused};
ghost use Rattle.json_fields.specs.Writing.{IsSpelled, IsWritten};

use crate::faults::{FaultKind, ReadFault};
use crate::fields::Form;
use crate::whys::Why;
use crate::writing::Written;
use names_realms::{
    ArtifactName, Id, IdGrammar, Moment, NameFault, Parent, Realm, ResultName, Span, owned_text,
};
use serde_json::Value;
use std::alloc::{AllocError, Global};
use std::marker::Model;

/// What a text is read as by a grammar: `text_fault` is what is wrong with a text, and `spells`
/// which value it spells.
pub trait Spelled: Sized + Drop {
    ghost text_fault: { List ℕ → Option NameFault };

    ghost spells: { List ℕ → Self → Type 0 };

    /// Reads all of the text.
    fn parse_text(alloc: Global, text: &[u8]) -> Result<Self, NameFault>
        ensures ok { IfOk result (λ x. (text_fault text.now ≡ None) × spells text.now x) }
        ensures fault { IfErr result (λ f. f ≢ NameFault.Memory → text_fault text.now ≡ Some f) };
}

/// A value with one text, by which it is read again.
pub trait SpelledOut: Spelled {
    ghost spelling: { Self → List ℕ };

    /// The text. `Err` where there is no memory for it.
    fn to_spelling(&self, alloc: Global) -> Result<String, AllocError>
        ensures text { IfOk result (λ t. string_bytes t ≡ spelling self.now) }
        ensures again { IsSpelled Self.text_fault Self.spells (spelling self.now) self.now };
}

/// Whether a value is the empty text.
pub fn is_empty_text(value: &Value) -> bool
    ensures { result ≡ empty_text (view value.now) }
{
    match value {
        Value::String(text) => text.is_empty(),
        _ => false,
    }
}

/// What is told of a text that its grammar refuses.
fn refused(alloc: Global, fault: NameFault) -> ReadFault
    ensures { Says result (refused (Some fault)) }
{
    match Why::of(fault) {
        Some(why) => ReadFault::here(alloc, FaultKind::BadValue(why)),
        None => ReadFault::Memory,
    }
}

/// Reads a text by its grammar.
pub fn read_text<T: Spelled>(alloc: Global, value: &Value) -> Result<T, ReadFault>
    ensures ok { IfOk result (λ x. (a_text T.text_fault (view value.now) ≡ None)
        × IsText T.spells (view value.now) x) }
    ensures err { IfErr result (λ e. Says e (a_text T.text_fault (view value.now))) }
{
    match value {
        Value::String(text) => match T::parse_text(alloc, text.as_bytes()) {
            Ok(x) => Ok(x),
            Err(fault) => Err(refused(alloc, fault)),
        },
        _ => Err(ReadFault::here(alloc, FaultKind::WrongKind)),
    }
}

/// Each text is of a kind that reads it by its grammar.
impl<T: Spelled> Form for T {
    ghost fault = { a_text T.text_fault };

    ghost means = { IsText T.spells };

    ghost empty = { empty_text };

    fn is_empty(value: &Value) -> bool {
        is_empty_text(value)
    }

    fn read(alloc: Global, value: &Value) -> Result<T, ReadFault> {
        read_text(alloc, value)
    }
}

/// The JSON text of a value with one text.
pub fn write_text<T: SpelledOut>(alloc: Global, x: &T) -> Result<Value, AllocError>
    ensures value { IfOk result (λ v. view v ≡ string (T.spelling x.now)) }
    ensures again { IsWritten (a_text T.text_fault) (IsText T.spells) empty_text (λ _. false) x.now
        (string (T.spelling x.now)) }
{
    let text = x.to_spelling(alloc)?;
    Ok(Value::String(text))
}

/// Each value with one text is written as that text.
impl<T: SpelledOut> Written for T {
    ghost json = { λ x. string (T.spelling x) };

    ghost blank = { λ _. false };

    fn write(&self, alloc: Global) -> Result<Value, AllocError> {
        write_text(alloc, self)
    }
}

impl<G: IdGrammar> Spelled for Id<G> {
    ghost use Rattle.json_fields.specs.Texts.{IsSame};
    ghost use Rattle.names_realms.specs.NameParts.Parts.{part_fault};

    ghost text_fault = { part_fault G.form };

    ghost spells = { IsSame };

    fn parse_text(alloc: Global, text: &[u8]) -> Result<Id<G>, NameFault> {
        Id::parse(alloc, text)
    }
}

impl<G: IdGrammar> SpelledOut for Id<G> {
    ghost spelling = { λ x. x };

    fn to_spelling(&self, alloc: Global) -> Result<String, AllocError> {
        String::from_str(alloc, self.as_str())
    }
}

impl Spelled for Realm {
    ghost use Rattle.json_fields.specs.Texts.{IsSame};
    ghost use Rattle.names_realms.specs.Realms.{realm_fault};

    ghost text_fault = { realm_fault };

    ghost spells = { IsSame };

    fn parse_text(alloc: Global, text: &[u8]) -> Result<Realm, NameFault> {
        Realm::parse(alloc, text)
    }
}

impl SpelledOut for Realm {
    ghost spelling = { λ x. x };

    fn to_spelling(&self, alloc: Global) -> Result<String, AllocError> {
        String::from_str(alloc, self.as_str())
    }
}

impl Spelled for ResultName {
    ghost use Rattle.names_realms.specs.ResultNames.{result_name_fault, IsResultName};

    ghost text_fault = { result_name_fault };

    ghost spells = { λ text x. IsResultName x text };

    fn parse_text(alloc: Global, text: &[u8]) -> Result<ResultName, NameFault> {
        ResultName::parse(alloc, text)
    }
}

impl SpelledOut for ResultName {
    ghost use Rattle.names_realms.specs.ResultNames.{result_name};

    ghost spelling = { result_name };

    fn to_spelling(&self, alloc: Global) -> Result<String, AllocError> {
        let mut bytes = Vec::new(alloc);
        self.write_to(alloc, &mut bytes)?;
        owned_text(alloc, bytes.as_slice())
    }
}

impl Spelled for ArtifactName {
    ghost use Rattle.names_realms.specs.ArtifactNames.{artifact_name_fault, IsArtifactName};

    ghost text_fault = { artifact_name_fault };

    ghost spells = { λ text x. IsArtifactName x text };

    fn parse_text(alloc: Global, text: &[u8]) -> Result<ArtifactName, NameFault> {
        ArtifactName::parse(alloc, text)
    }
}

impl SpelledOut for ArtifactName {
    ghost use Rattle.names_realms.specs.ArtifactNames.{artifact_name};

    ghost spelling = { artifact_name };

    fn to_spelling(&self, alloc: Global) -> Result<String, AllocError> {
        let mut bytes = Vec::new(alloc);
        self.write_to(alloc, &mut bytes)?;
        owned_text(alloc, bytes.as_slice())
    }
}

impl Spelled for Parent {
    ghost use Rattle.names_realms.specs.Parents.{parent_fault, IsParentName};

    ghost text_fault = { parent_fault };

    ghost spells = { λ text x. IsParentName x text };

    fn parse_text(alloc: Global, text: &[u8]) -> Result<Parent, NameFault> {
        Parent::parse(alloc, text)
    }
}

impl SpelledOut for Parent {
    ghost use Rattle.names_realms.specs.Parents.{parent_name};

    ghost spelling = { parent_name };

    fn to_spelling(&self, alloc: Global) -> Result<String, AllocError> {
        let mut bytes = Vec::new(alloc);
        self.write_to(alloc, &mut bytes)?;
        owned_text(alloc, bytes.as_slice())
    }
}

impl Spelled for Moment {
    ghost use Rattle.json_fields.specs.Texts.{moment_fault};
    ghost use Rattle.names_realms.specs.MomentsSpans.MomentGrammar.{IsMomentText};

    ghost text_fault = { moment_fault };

    ghost spells = { IsMomentText };

    fn parse_text(alloc: Global, text: &[u8]) -> Result<Moment, NameFault> {
        match Moment::parse(alloc, text) {
            Ok(moment) => {
                let _in_years = moment.micros();
                Ok(moment)
            }
            Err(fault) => Err(fault),
        }
    }
}

impl Spelled for Span {
    ghost use Rattle.json_fields.specs.Texts.{span_fault};
    ghost use Rattle.names_realms.specs.MomentsSpans.SpanGrammar.{IsSpanText};

    ghost text_fault = { span_fault };

    ghost spells = { IsSpanText };

    fn parse_text(alloc: Global, text: &[u8]) -> Result<Span, NameFault> {
        match Span::parse(alloc, text) {
            Ok(span) => {
                let _in_range = span.micros();
                Ok(span)
            }
            Err(fault) => Err(fault),
        }
    }
}

impl SpelledOut for Span {
    ghost use Rattle.names_realms.specs.MomentsSpans.Spans.{span_text};

    ghost spelling = { span_text };

    fn to_spelling(&self, alloc: Global) -> Result<String, AllocError> {
        self.to_text(alloc)
    }
}

impl SpelledOut for Moment {
    ghost use Rattle.names_realms.specs.MomentsSpans.Moments.{moment_text};

    ghost spelling = { moment_text };

    fn to_spelling(&self, alloc: Global) -> Result<String, AllocError> {
        self.to_text(alloc)
    }
}
