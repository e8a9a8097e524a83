//! The words of the command line, as clap reads them.
ghost use Rattle.std.specs.Prelude.{◌≡◌, ◌≢◌, ℕ, List, ◌∷◌, codes, IfOk, IfErr};
ghost use Rattle.std.specs.Prelude.{map, string_bytes, true, false};
ghost use Rattle.std.specs.List.{list_any};
ghost use Rattle.clap.specs.Words.{app_of, new_app, rule_of, kind_of, with_rule};
ghost use Rattle.program_words.specs.Options.{Given, OptionRow};
ghost use Rattle.program_words.specs.Grammar.{AreWordsOf, IsAnswer, IsCheck, IsServe, IsSink, IsWorkload, Says};
ghost use Rattle.program_words.specs.Grammar.{answer_options, check_options, serve_options, sink_options};
ghost use Rattle.program_words.specs.Grammar.{workload_options};
ghost use Rattle.program_words.specs.Clap.{HasValues, IsPlain};
ghost use Rattle.program_words.specs.Clap.{made_app, made_rule, with_options, is_named, is_stray};

use crate::command::{Command, WordFault};
use crate::serve_words::{ServeWords, serve_of};
use crate::sink_words::{SinkWords, sink_of};
use crate::workload_words::{WorkloadWords, workload_of};
use clap::builder::ValueParser;
use clap::error::ErrorKind;
use clap::{Arg, ArgAction, ArgMatches, Error};
use lists::Bytes;
use std::alloc::{AllocError, Global};

/// An option with one value that isn't empty.
fn option_with<'a>(alloc: Global, name: &'a str, is_required: bool) -> Arg<'a>
    ensures rule { rule_of result ≡ made_rule name.entry.now is_required }
    ensures own { result.global ≡ false }
{
    Arg::new(alloc, name)
        .long(name)
        .required(is_required)
        .action(ArgAction::Set)
        .value_parser(ValueParser::NonEmptyString)
}

/// The command `answer`.
fn answer_command<'a>(alloc: Global) -> Result<clap::Command<'a>, Error>
    ensures app { IfOk result (λ c. app_of c ≡ made_app (codes "answer") answer_options) }
    ensures err { IfErr result (λ e. kind_of e ≡ ErrorKind.OutOfMemory) }
{
    let config = option_with(alloc, "config", true);
    let journal = option_with(alloc, "journal", true);
    let command = clap::Command::new(alloc, "answer")
        .arg(config)?
        .arg(journal)?;
    Ok(command.disable_help_flag(true))
}

/// The command `check`.
fn check_command<'a>(alloc: Global) -> Result<clap::Command<'a>, Error>
    ensures app { IfOk result (λ c. app_of c ≡ made_app (codes "check") check_options) }
    ensures err { IfErr result (λ e. kind_of e ≡ ErrorKind.OutOfMemory) }
{
    let journal = option_with(alloc, "journal", true);
    let command = clap::Command::new(alloc, "check").arg(journal)?;
    Ok(command.disable_help_flag(true))
}

/// The command with an option more.
fn with_option<'a>(
    alloc: Global,
    command: clap::Command<'a>,
    name: &'a str,
    is_required: bool,
) -> Result<clap::Command<'a>, AllocError>
    ensures { IfOk result
        (λ c. app_of c ≡ with_rule (app_of command.entry) (made_rule name.entry.now is_required)) }
{
    command.arg(option_with(alloc, name, is_required))
}

/// The command `serve`, with its options.
fn with_serve_options<'a>(alloc: Global) -> Result<clap::Command<'a>, AllocError>
    ensures { IfOk result
        (λ c. app_of c ≡ with_options (new_app (codes "serve")) serve_options) }
{
    let command = clap::Command::new(alloc, "serve");
    let command = with_option(alloc, command, "config", true)?;
    let command = with_option(alloc, command, "journal", true)?;
    let command = with_option(alloc, command, "listen", true)?;
    let command = with_option(alloc, command, "workers", true)?;
    with_option(alloc, command, "connections", false)
}

/// The command `serve`.
fn serve_command<'a>(alloc: Global) -> Result<clap::Command<'a>, Error>
    ensures app { IfOk result (λ c. app_of c ≡ made_app (codes "serve") serve_options) }
    ensures err { IfErr result (λ e. kind_of e ≡ ErrorKind.OutOfMemory) }
{
    let command = with_serve_options(alloc)?;
    Ok(command.disable_help_flag(true))
}

/// The command `sink`, with its options.
fn with_sink_options<'a>(alloc: Global) -> Result<clap::Command<'a>, AllocError>
    ensures { IfOk result
        (λ c. app_of c ≡ with_options (new_app (codes "sink")) sink_options) }
{
    let command = clap::Command::new(alloc, "sink");
    let command = with_option(alloc, command, "config", true)?;
    let command = with_option(alloc, command, "server", true)?;
    let command = with_option(alloc, command, "invocation", true)?;
    let command = with_option(alloc, command, "format", true)?;
    with_option(alloc, command, "prefix", false)
}

/// The command `sink`.
fn sink_command<'a>(alloc: Global) -> Result<clap::Command<'a>, Error>
    ensures app { IfOk result (λ c. app_of c ≡ made_app (codes "sink") sink_options) }
    ensures err { IfErr result (λ e. kind_of e ≡ ErrorKind.OutOfMemory) }
{
    let command = with_sink_options(alloc)?;
    Ok(command.disable_help_flag(true))
}

/// The command `workload`, with its options.
fn with_workload_options<'a>(alloc: Global) -> Result<clap::Command<'a>, AllocError>
    ensures { IfOk result
        (λ c. app_of c ≡ with_options (new_app (codes "workload")) workload_options) }
{
    let command = clap::Command::new(alloc, "workload");
    let command = with_option(alloc, command, "journal", true)?;
    let command = with_option(alloc, command, "number", true)?;
    with_option(alloc, command, "count", true)
}

/// The command `workload`.
fn workload_command<'a>(alloc: Global) -> Result<clap::Command<'a>, Error>
    ensures app { IfOk result
        (λ c. app_of c ≡ made_app (codes "workload") workload_options) }
    ensures err { IfErr result (λ e. kind_of e ≡ ErrorKind.OutOfMemory) }
{
    let command = with_workload_options(alloc)?;
    Ok(command.disable_help_flag(true))
}

/// Whether a dash is the first of two before a name.
fn is_named(rest: &[u8]) -> bool
    ensures { result ≡ is_named rest.now }
{
    match rest {
        [first, _, ..] => *first == b'-',
        _ => false,
    }
}

/// Whether a word begins with a dash and isn't an option: clap takes some of these words, and the
/// grammar none.
fn is_stray(word: &str) -> bool
    ensures { result ≡ is_stray word.now }
{
    match word.as_bytes().split_first() {
        Some((first, rest)) => *first == b'-' && !is_named(rest),
        None => false,
    }
}

fn has_stray(words: &[String]) -> bool
    ensures { result ≡ list_any (λ w. is_stray (string_bytes w)) words.now }
{
    words.iter().any(|word| is_stray(word.as_str()))
}

/// What clap finds in the words of a command, of which the first is its name.
fn read_options<'a>(
    command: clap::Command<'a>,
    words: &'a [String],
) -> Result<ArgMatches<'a>, WordFault>
    ensures ok { (name : List ℕ) (table : List OptionRow) (rest : List (List ℕ))
        → IsPlain name table → app_of command.entry ≡ made_app name table
        → map string_bytes words.entry.now ≡ name ∷ rest
        → IfOk result (λ found. (givens : List Given)
        × AreWordsOf name table (map string_bytes words.entry.now) givens
        × HasValues givens found) }
    ensures refused { (name : List ℕ) (table : List OptionRow) (givens : List Given)
        → IsPlain name table → app_of command.entry ≡ made_app name table
        → result ≡ Err WordFault.Refused
        → ¬ AreWordsOf name table (map string_bytes words.entry.now) givens }
{
    if has_stray(words) {
        return Err(WordFault::Refused);
    }
    match command.try_get_matches_from(words) {
        Ok(found) => Ok(found),
        Err(error) => {
            if error.kind() == ErrorKind::OutOfMemory {
                return Err(WordFault::Memory);
            }
            Err(WordFault::Refused)
        }
    }
}

/// The values of `answer`.
fn answer_of(alloc: Global, config: &str, journal: &str) -> Result<Command, WordFault>
    ensures value { IfOk result (λ c. c ≡ Command.Answer config.now journal.now) }
    ensures memory { result ≢ Err WordFault.Refused }
{
    match (
        Bytes::from_slice(alloc, config.as_bytes()),
        Bytes::from_slice(alloc, journal.as_bytes()),
    ) {
        (Ok(config), Ok(journal)) => Ok(Command::Answer { config, journal }),
        _ => Err(WordFault::Memory),
    }
}

/// The value of `check`.
fn check_of(alloc: Global, journal: &str) -> Result<Command, WordFault>
    ensures value { IfOk result (λ c. c ≡ Command.Check journal.now) }
    ensures memory { result ≢ Err WordFault.Refused }
{
    match Bytes::from_slice(alloc, journal.as_bytes()) {
        Ok(journal) => Ok(Command::Check { journal }),
        Err(AllocError) => Err(WordFault::Memory),
    }
}

/// The words of `answer`, of which the first is the command's.
fn read_answer(alloc: Global, words: &[String]) -> Result<Command, WordFault>
    requires { (rest : List (List ℕ)) × (map string_bytes words.now ≡ codes "answer" ∷ rest) }
    ensures ok { IfOk result (Says (map string_bytes words.now)) }
    ensures refused { result ≡ Err WordFault.Refused
        → (config journal : List ℕ) → ¬ IsAnswer (map string_bytes words.now) config journal }
{
    let Ok(command) = answer_command(alloc) else {
        return Err(WordFault::Memory);
    };
    let found = read_options(command, words)?;
    match (found.get_str("config"), found.get_str("journal")) {
        (Some(config), Some(journal)) => answer_of(alloc, config, journal),
        _ => Err(WordFault::Memory),
    }
}

/// The words of `check`, of which the first is the command's.
fn read_check(alloc: Global, words: &[String]) -> Result<Command, WordFault>
    requires { (rest : List (List ℕ)) × (map string_bytes words.now ≡ codes "check" ∷ rest) }
    ensures ok { IfOk result (Says (map string_bytes words.now)) }
    ensures refused { result ≡ Err WordFault.Refused
        → (journal : List ℕ) → ¬ IsCheck (map string_bytes words.now) journal }
{
    let Ok(command) = check_command(alloc) else {
        return Err(WordFault::Memory);
    };
    let found = read_options(command, words)?;
    match found.get_str("journal") {
        Some(journal) => check_of(alloc, journal),
        None => Err(WordFault::Memory),
    }
}

/// The words of `serve`, of which the first is the command's.
fn read_serve(alloc: Global, words: &[String]) -> Result<Command, WordFault>
    requires { (rest : List (List ℕ)) × (map string_bytes words.now ≡ codes "serve" ∷ rest) }
    ensures ok { IfOk result (Says (map string_bytes words.now)) }
    ensures refused { result ≡ Err WordFault.Refused
        → (serve : ServeWords) → ¬ IsServe (map string_bytes words.now) serve }
{
    let Ok(command) = serve_command(alloc) else {
        return Err(WordFault::Memory);
    };
    let found = read_options(command, words)?;
    match serve_of(alloc, &found) {
        Ok(serve) => Ok(Command::Serve(serve)),
        Err(fault) => Err(fault),
    }
}

/// The words of `sink`, of which the first is the command's.
fn read_sink(alloc: Global, words: &[String]) -> Result<Command, WordFault>
    requires { (rest : List (List ℕ)) × (map string_bytes words.now ≡ codes "sink" ∷ rest) }
    ensures ok { IfOk result (Says (map string_bytes words.now)) }
    ensures refused { result ≡ Err WordFault.Refused
        → (sink : SinkWords) → ¬ IsSink (map string_bytes words.now) sink }
{
    let Ok(command) = sink_command(alloc) else {
        return Err(WordFault::Memory);
    };
    let found = read_options(command, words)?;
    match sink_of(alloc, &found) {
        Ok(sink) => Ok(Command::Sink(sink)),
        Err(fault) => Err(fault),
    }
}

/// The words of `workload`, of which the first is the command's.
fn read_workload(alloc: Global, words: &[String]) -> Result<Command, WordFault>
    requires { (rest : List (List ℕ)) × (map string_bytes words.now ≡ codes "workload" ∷ rest) }
    ensures ok { IfOk result (Says (map string_bytes words.now)) }
    ensures refused { result ≡ Err WordFault.Refused
        → (load : WorkloadWords) → ¬ IsWorkload (map string_bytes words.now) load }
{
    let Ok(command) = workload_command(alloc) else {
        return Err(WordFault::Memory);
    };
    let found = read_options(command, words)?;
    match workload_of(alloc, &found) {
        Ok(load) => Ok(Command::Workload(load)),
        Err(fault) => Err(fault),
    }
}

/// What the words say, which are those behind the program's name.
///
/// The first word is the command. Behind it each option stands exactly once, in any order, as
/// `--x v` or `--x=v`; `--prefix` and `--connections` may be left out. A value isn't empty, and one
/// that begins with `-` stands behind `=`. That of `--invocation` is the id of one, and that of
/// `--format` is `tap` or `junit`; those of `--workers`, `--connections`, `--number` and `--count`
/// are decimal digits without a sign or a leading zero: 1 to 64, 1 to 1,000,000, any of 64 bits,
/// and 1 to 2,000. All else is `Refused`, and `Memory` comes for want of memory alone.
pub fn read_words(alloc: Global, words: &[String]) -> Result<Command, WordFault>
    ensures said { IfOk result (Says (map string_bytes words.now)) }
    ensures refused { result ≡ Err WordFault.Refused
        → (command : Command) → ¬ Says (map string_bytes words.now) command }
{
    match words {
        [command, ..] if command.as_str() == "answer" => read_answer(alloc, words),
        [command, ..] if command.as_str() == "check" => read_check(alloc, words),
        [command, ..] if command.as_str() == "serve" => read_serve(alloc, words),
        [command, ..] if command.as_str() == "sink" => read_sink(alloc, words),
        [command, ..] if command.as_str() == "workload" => read_workload(alloc, words),
        [word] if word.as_str() == "--help" => Ok(Command::Help),
        [word] if word.as_str() == "--version" => Ok(Command::Version),
        _ => Err(WordFault::Refused),
    }
}

/// The law that words say one command at most, with one value of each option. It does nothing.
pub fn words_say_one_command()
    ensures { (words : List (List ℕ)) (one other : Command) → Says words one → Says words other
        → one ≡ other }
{}
