//! What words say, in two lines: the command with its values, and the places with theirs.
//!
//! A value stands behind its name and `=`. What isn't there is empty, 0 or `-`. Words that say
//! nothing are `refused`.
use program_words::{
    Command, Places, ReportFormat, ServeWords, SinkWords, WordFault, WorkloadWords, places,
    read_words,
};
use std::alloc::{AllocError, Global};

/// What the words say, and which places they name.
pub(crate) fn tell_words(alloc: Global, words: &[String]) -> Result<Vec<u8>, AllocError> {
    let mut out = Vec::new(alloc);
    out.extend_from_slice(b"  ")?;
    match read_words(alloc, words) {
        Ok(command) => put_command(alloc, &command, &mut out)?,
        Err(fault) => put_fault(fault, &mut out)?,
    }
    out.extend_from_slice(b"\n  places")?;
    match places(alloc, words) {
        Ok(places) => put_places(alloc, &places, &mut out)?,
        Err(fault) => {
            out.extend_from_slice(b" ")?;
            put_fault(fault, &mut out)?;
        }
    }
    out.extend_from_slice(b"\n")?;
    Ok(out)
}

/// Puts that the words are refused; want of memory is handed on.
fn put_fault(fault: WordFault, out: &mut Vec<u8>) -> Result<(), AllocError> {
    match fault {
        WordFault::Refused => out.extend_from_slice(b"refused"),
        WordFault::Memory => Err(AllocError),
    }
}

/// Puts a value behind its name.
fn put_value(name: &str, value: &[u8], out: &mut Vec<u8>) -> Result<(), AllocError> {
    out.extend_from_slice(b" ")?;
    out.extend_from_slice(name.as_bytes())?;
    out.extend_from_slice(b"=")?;
    out.extend_from_slice(value)
}

/// Puts how many workers there are, and how many connections each of them serves.
fn put_counts(
    alloc: Global,
    workers: u32,
    connections: Option<u64>,
    out: &mut Vec<u8>,
) -> Result<(), AllocError> {
    let workers = format!(in alloc; "{workers}")?;
    put_value("workers", workers.as_bytes(), out)?;
    match connections {
        Some(count) => {
            let count = format!(in alloc; "{count}")?;
            put_value("connections", count.as_bytes(), out)
        }
        None => put_value("connections", b"-", out),
    }
}

/// Puts a command and its values.
fn put_command(alloc: Global, command: &Command, out: &mut Vec<u8>) -> Result<(), AllocError> {
    match command {
        Command::Answer { config, journal } => {
            out.extend_from_slice(b"answer")?;
            put_value("config", config.as_slice(), out)?;
            put_value("journal", journal.as_slice(), out)
        }
        Command::Check { journal } => {
            out.extend_from_slice(b"check")?;
            put_value("journal", journal.as_slice(), out)
        }
        Command::Serve(serve) => put_serve(alloc, serve, out),
        Command::Sink(sink) => put_sink(sink, out),
        Command::Workload(load) => put_workload(alloc, load, out),
        Command::Help => out.extend_from_slice(b"help"),
        Command::Version => out.extend_from_slice(b"version"),
    }
}

fn put_serve(alloc: Global, serve: &ServeWords, out: &mut Vec<u8>) -> Result<(), AllocError> {
    out.extend_from_slice(b"serve")?;
    put_value("config", serve.config.as_slice(), out)?;
    put_value("journal", serve.journal.as_slice(), out)?;
    put_value("listen", serve.listen.as_slice(), out)?;
    put_counts(alloc, serve.workers, serve.connections, out)
}

fn put_sink(sink: &SinkWords, out: &mut Vec<u8>) -> Result<(), AllocError> {
    out.extend_from_slice(b"sink")?;
    put_value("config", sink.config.as_slice(), out)?;
    put_value("server", sink.server.as_slice(), out)?;
    put_value("invocation", sink.invocation.as_slice(), out)?;
    let format: &[u8] = match sink.format {
        ReportFormat::Tap => b"tap",
        ReportFormat::Junit => b"junit",
    };
    put_value("format", format, out)?;
    put_value("prefix", sink.prefix.as_str().as_bytes(), out)
}

fn put_workload(alloc: Global, load: &WorkloadWords, out: &mut Vec<u8>) -> Result<(), AllocError> {
    let WorkloadWords { number, count, .. } = load;
    out.extend_from_slice(b"workload")?;
    put_value("journal", load.journal.as_slice(), out)?;
    put_value("number", format!(in alloc; "{number}")?.as_bytes(), out)?;
    put_value("count", format!(in alloc; "{count}")?.as_bytes(), out)
}

/// Puts all places, also those that the words don't name.
fn put_places(alloc: Global, places: &Places, out: &mut Vec<u8>) -> Result<(), AllocError> {
    put_value("config", places.config.as_slice(), out)?;
    put_value("journal", places.journal.as_slice(), out)?;
    put_value("listen", places.listen.as_slice(), out)?;
    put_value("server", places.server.as_slice(), out)?;
    put_counts(alloc, places.workers, places.connections, out)
}
