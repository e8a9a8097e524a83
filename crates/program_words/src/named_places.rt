//! The places that the words name.
ghost use Rattle.std.specs.Prelude.{◌≡◌, [], IfOk, map, string_bytes};
ghost use Rattle.program_words.specs.Grammar.{Says};
ghost use Rattle.program_words.specs.Places.{places_of};

use crate::command::{Command, Places, WordFault};
use crate::reading::read_words;
use crate::serve_words::ServeWords;
use crate::sink_words::SinkWords;
use crate::workload_words::WorkloadWords;
use lists::Bytes;
use std::alloc::Global;

fn nothing(alloc: Global) -> Bytes
    ensures { result ≡ [] }
{
    Bytes::new(Vec::new(alloc))
}

fn of_sink(alloc: Global, words: SinkWords) -> Places
    ensures { result ≡ places_of (Command.Sink words) }
{
    let SinkWords {
        config,
        server,
        invocation: _,
        format: _,
        prefix: _,
    } = words;
    Places {
        config,
        journal: nothing(alloc),
        listen: nothing(alloc),
        server,
        workers: 0,
        connections: None,
    }
}

fn of_serve(alloc: Global, words: ServeWords) -> Places
    ensures { result ≡ places_of (Command.Serve words) }
{
    let ServeWords {
        config,
        journal,
        listen,
        workers,
        connections,
    } = words;
    Places {
        config,
        journal,
        listen,
        server: nothing(alloc),
        workers,
        connections,
    }
}

fn of_workload(alloc: Global, words: WorkloadWords) -> Places
    ensures { result ≡ places_of (Command.Workload words) }
{
    let WorkloadWords {
        journal,
        number: _,
        count: _,
    } = words;
    of_paths(alloc, nothing(alloc), journal)
}

fn of_paths(alloc: Global, config: Bytes, journal: Bytes) -> Places
    ensures { result ≡ places_of (Command.Answer config journal) }
{
    Places {
        config,
        journal,
        listen: nothing(alloc),
        server: nothing(alloc),
        workers: 0,
        connections: None,
    }
}

/// The values of the words, which `read_words` reads: empty, 0 and `None` where the words don't
/// have them.
pub fn places(alloc: Global, words: &[String]) -> Result<Places, WordFault>
    ensures said { IfOk result (λ p. (command : Command)
        × Says (map string_bytes words.now) command × (p ≡ places_of command)) }
    ensures refused { result ≡ Err WordFault.Refused
        → (command : Command) → ¬ Says (map string_bytes words.now) command }
{
    match read_words(alloc, words)? {
        Command::Answer { config, journal } => Ok(of_paths(alloc, config, journal)),
        Command::Check { journal } => Ok(of_paths(alloc, nothing(alloc), journal)),
        Command::Serve(words) => Ok(of_serve(alloc, words)),
        Command::Sink(words) => Ok(of_sink(alloc, words)),
        Command::Workload(words) => Ok(of_workload(alloc, words)),
        Command::Help | Command::Version => Ok(of_paths(alloc, nothing(alloc), nothing(alloc))),
    }
}
