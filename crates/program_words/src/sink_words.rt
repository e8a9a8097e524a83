//! What the words of an upload say.
ghost use Rattle.std.specs.Prelude.{◌≡◌, ◌≢◌, ℕ, List, [], Some, codes, IfOk, IfErr, option_map, string_bytes};
ghost use Rattle.std.specs.Prelude.{unwrap_or};
ghost use Rattle.clap.specs.Words.{first_value, found_of};
ghost use Rattle.names_realms.specs.Names.{IsInvocationId};
ghost use Rattle.program_words.specs.Sinks.{AreSinkValues, format_word};

use crate::command::WordFault;
use crate::values::named_text;
use clap::ArgMatches;
use lists::Bytes;
use names_realms::{InvocationId, NameFault};
use std::alloc::{AllocError, Global};
use std::marker::Model;

/// The form of a report.
#[derive(Clone, Copy, Debug, PartialEq, Eq)]
pub enum ReportFormat {
    /// The Test Anything Protocol.
    Tap,
    /// JUnit XML.
    Junit,
}

/// A text that stands before the names of cases. It may be empty.
#[derive(Debug, Drop)]
pub struct Prefix {
    text: String,
}

impl Model for Prefix {
    ghost use Rattle.std.specs.Prelude.{ℕ, List, string_bytes};

    ghost Value = { List ℕ };

    ghost view = { λ p. string_bytes p.text };
}

impl Prefix {
    /// A prefix of this text.
    pub fn new(text: String) -> Prefix
        ensures { result ≡ string_bytes text }
    {
        Prefix { text }
    }

    /// The text.
    pub fn as_str(&self) -> &str
        ensures { result.now ≡ self.now }
    {
        self.text.as_str()
    }
}

/// What is uploaded to which invocation of which server.
#[derive(Debug, Drop)]
pub struct SinkWords {
    /// The path of the configuration.
    pub config: Bytes,
    /// The address of the server.
    pub server: Bytes,
    /// The invocation that gets the results.
    pub invocation: InvocationId,
    /// The form of the report.
    pub format: ReportFormat,
    /// What stands before the names of its cases.
    pub prefix: Prefix,
}

/// The invocation that a text is the id of.
fn invocation_of(alloc: Global, text: &str) -> Result<InvocationId, WordFault>
    ensures ok { IfOk result (λ id. (id ≡ text.now) × IsInvocationId text.now) }
    ensures refused { result ≡ Err WordFault.Refused → ¬ IsInvocationId text.now }
{
    match InvocationId::parse(alloc, text.as_bytes()) {
        Ok(id) => Ok(id),
        Err(NameFault::Memory) => Err(WordFault::Memory),
        Err(_) => Err(WordFault::Refused),
    }
}

/// The invocation that is named.
fn named_invocation(alloc: Global, found: &ArgMatches<'_>) -> Result<InvocationId, WordFault>
    ensures ok { IfOk result (λ id.
        (first_value (found_of found.now) (codes "invocation") ≡ Some id) × IsInvocationId id) }
    ensures refused { result ≡ Err WordFault.Refused → (id : List ℕ)
        → first_value (found_of found.now) (codes "invocation") ≡ Some id → ¬ IsInvocationId id }
{
    match found.get_str("invocation") {
        Some(text) => invocation_of(alloc, text),
        None => Err(WordFault::Memory),
    }
}

/// The form of reports that a word names.
fn format_of(word: &str) -> Result<ReportFormat, WordFault>
    ensures ok { IfOk result (λ format. word.now ≡ format_word format) }
    ensures refused { IfErr result (λ f. (format : ReportFormat) → word.now ≢ format_word format) }
{
    match word {
        "tap" => Ok(ReportFormat::Tap),
        "junit" => Ok(ReportFormat::Junit),
        _ => Err(WordFault::Refused),
    }
}

/// The form of reports that is named.
fn named_format(found: &ArgMatches<'_>) -> Result<ReportFormat, WordFault>
    ensures ok { IfOk result (λ format.
        first_value (found_of found.now) (codes "format") ≡ Some (format_word format)) }
    ensures refused { result ≡ Err WordFault.Refused → (format : ReportFormat)
        → first_value (found_of found.now) (codes "format") ≢ Some (format_word format) }
{
    match found.get_str("format") {
        Some(word) => format_of(word),
        None => Err(WordFault::Memory),
    }
}

fn prefix_of(alloc: Global, text: &str) -> Result<Prefix, WordFault>
    ensures ok { IfOk result (λ p. p ≡ text.now) }
    ensures memory { result ≢ Err WordFault.Refused }
{
    match String::from_str(alloc, text) {
        Ok(text) => Ok(Prefix::new(text)),
        Err(AllocError) => Err(WordFault::Memory),
    }
}

/// The prefix that is named, or an empty one.
fn named_prefix(alloc: Global, found: &ArgMatches<'_>) -> Result<Prefix, WordFault>
    ensures ok { IfOk result (λ p.
        unwrap_or (first_value (found_of found.now) (codes "prefix")) [] ≡ p) }
    ensures memory { result ≢ Err WordFault.Refused }
{
    match found.get_str("prefix") {
        Some(text) => prefix_of(alloc, text),
        None => Ok(Prefix::new(String::new(alloc))),
    }
}

/// The values of `sink`.
pub(crate) fn sink_of(alloc: Global, found: &ArgMatches<'_>) -> Result<SinkWords, WordFault>
    ensures ok { IfOk result (AreSinkValues (first_value (found_of found.now))) }
    ensures refused { result ≡ Err WordFault.Refused → (words : SinkWords)
        → ¬ AreSinkValues (first_value (found_of found.now)) words }
{
    let config = named_text(alloc, found, "config")?;
    let server = named_text(alloc, found, "server")?;
    let invocation = named_invocation(alloc, found)?;
    let format = named_format(found)?;
    let prefix = named_prefix(alloc, found)?;
    Ok(SinkWords {
        config,
        server,
        invocation,
        format,
        prefix,
    })
}
