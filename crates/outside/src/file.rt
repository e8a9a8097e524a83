//! A file that is read from its beginning.
ghost use Rattle.std.specs.Prelude.{◌≡◌, MatchResult, None};
ghost use Rattle.fault_counts.specs.Causes.{counted};
ghost use Rattle.outside.specs.Ends.{ReadsOnce, IsOpened, ReadsFile, file_ends};

use crate::stream::StreamSource;
use crate::{Failed, Source};
use fault_counts::Count;
use std::fs::OpenOptions;
use std::rt::Files;

/// A file as a source. It is opened at the first read, so that a missing file is a fault of that
/// read. Its reads are those of its stream.
#[derive(Drop)]
pub struct FileSource<R: Files + Drop> {
    rt: R,
    path: String,
    stream: Option<StreamSource<R::File>>,
    faults: Count,
}

impl<R: Files + Drop> FileSource<R> {
    pub fn new(rt: R, path: String) -> FileSource<R>
        ensures { result.faults ≡ 0 }
    {
        FileSource {
            rt,
            path,
            stream: None,
            faults: Count::new(),
        }
    }

    /// How many reads failed.
    pub fn faults(&self) -> u64
        ensures { result ≡ self.now.faults }
    {
        self.faults.value()
    }

    /// Takes the file's stream, which is opened where it wasn't yet, or none where it can't be
    /// opened.
    fn opened(&mut self) -> Option<StreamSource<R::File>>
        ensures opened { IsOpened self.old.stream result }
        ensures taken { self.new.stream ≡ None }
        ensures faults { self.new.faults ≡ self.old.faults }
    {
        if let Some(stream) = self.stream.take() {
            return Some(stream);
        }
        match OpenOptions::new()
            .read(true)
            .open(&self.rt, self.path.as_str())
        {
            Ok(file) => Some(StreamSource::new(file)),
            Err(_) => None,
        }
    }
}

impl<R: Files + Drop> Source for FileSource<R> {
    ghost ends = { λ s. file_ends s.stream s.faults };

    /// Reads once. A read that fails, also one that can't open the file, is counted, and no other.
    fn read(&mut self, room: &mut [u8]) -> Result<usize, Failed>
        ensures read { ReadsOnce (file_ends self.old.stream self.old.faults) room.new result
            (file_ends self.new.stream self.new.faults) }
        ensures stream { ReadsFile self.old.stream room.new result self.new.stream }
        ensures faults { MatchResult result (λ _. self.new.faults ≡ self.old.faults)
            (λ _. self.new.faults ≡ counted self.old.faults) }
    {
        let Some(mut stream) = self.opened() else {
            return self.faults.failed();
        };
        let answer = stream.read(room);
        self.stream = Some(stream);
        match answer {
            Ok(count) => Ok(count),
            Err(_) => self.faults.failed(),
        }
    }
}
