//! Files as the parts of a disk.
ghost use Rattle.std.specs.Prelude.{◌≡◌, ◌≢◌, ◌≤◌, None, IfOk, MatchResult};
ghost use Rattle.std.specs.Io.{ReadsAtMost};
ghost use Rattle.fault_counts.specs.Causes.{HasCause, counted};

use crate::held::HeldFile;
use crate::{Disk, Failed, Holdable};
use fault_counts::Count;
use std::alloc::{AllocError, Global};
use std::fs::{OpenFile, OpenOptions};
use std::io;
use std::os::unix::fs::FileExt;
use std::rt::Files;

/// Two files as a disk: part 0 at a path, and part 1 at that path with `.1` behind it.
///
/// The file of a part is opened and held at the first call on that part, made empty where it is
/// missing, and let go of when the disk is dropped. Where it can't be held, since another disk
/// holds it, the call fails, and nothing is read or written. It tells nothing of what it holds.
#[derive(Drop)]
pub struct FileDisk<R: Files + Drop>
where
    R::File: Holdable,
{
    rt: R,
    first: PartFile<R::File>,
    second: PartFile<R::File>,
    faults: Count,
}

/// The file of a part.
#[derive(Drop)]
struct PartFile<F: Holdable> {
    path: String,
    file: Option<HeldFile<F>>,
    is_folder_synced: bool,
}

impl<R: Files + Drop> FileDisk<R>
where
    R::File: Holdable,
{
    pub fn new(rt: R, alloc: Global, path: &str) -> Result<FileDisk<R>, AllocError>
        ensures { IfOk result (λ d. d.faults ≡ 0) }
    {
        Ok(FileDisk {
            rt,
            first: PartFile::new(String::from_str(alloc, path)?),
            second: PartFile::new(format!(in alloc; "{path}.1")?),
            faults: Count::new(),
        })
    }

    /// How many calls failed.
    pub fn faults(&self) -> u64
        ensures { result ≡ self.now.faults }
    {
        self.faults.value()
    }

    // Opens the file of a part and holds it, unless it is open: what is open stays.
    fn open(&mut self, part: u8) -> bool
        ensures faults { self.new.faults ≡ self.old.faults }
        ensures first { self.old.first.file ≢ None → self.new.first.file ≡ self.old.first.file }
        ensures second { self.old.second.file ≢ None → self.new.second.file ≡ self.old.second.file }
    {
        match part {
            0 => self.first.open(&self.rt),
            _ => self.second.open(&self.rt),
        }
    }

    fn sync_file(&mut self, part: u8) -> bool
        ensures { self.new.faults ≡ self.old.faults }
    {
        let answer = match part {
            0 => self.first.sync(&self.rt),
            _ => self.second.sync(&self.rt),
        };
        answer.is_ok()
    }

    fn file(&self, part: u8) -> Option<&R::File> {
        match part {
            0 => self.first.held(),
            _ => self.second.held(),
        }
    }
}

impl<F: Holdable> PartFile<F> {
    fn new(path: String) -> PartFile<F> {
        PartFile {
            path,
            file: None,
            is_folder_synced: false,
        }
    }

    /// Opens the file and holds it, unless it is open: what is open stays.
    fn open<R: Files<File = F>>(&mut self, rt: &R) -> bool
        ensures stays { self.old.file ≢ None → self.new.file ≡ self.old.file }
    {
        if self.file.is_none() {
            let opened = OpenOptions::new()
                .read(true)
                .write(true)
                .create(true)
                .open(rt, self.path.as_str());
            self.file = opened.ok().and_then(HeldFile::new);
        }
        self.file.is_some()
    }

    /// The file, where it is open.
    fn held(&self) -> Option<&F> {
        match &self.file {
            Some(held) => Some(held.file()),
            None => None,
        }
    }

    /// Brings the file's bytes and its length to the device. The first sync brings all that is kept
    /// of the file, and the folder's entry for it, since the process that made the file may have
    /// died before it did so. Later ones leave out its times: where a byte is written over, that
    /// saves a write.
    fn sync<R: Files<File = F>>(&mut self, rt: &R) -> io::Result<()> {
        let Some(file) = self.held() else {
            return Ok(());
        };
        if self.is_folder_synced {
            return file.sync_data();
        }
        file.sync_all()?;
        sync_folder(rt, self.path.as_str())?;
        self.is_folder_synced = true;
        Ok(())
    }
}

fn sync_folder<R: Files>(rt: &R, path: &str) -> io::Result<()> {
    let folder = folder_of(path);
    let folder = OpenOptions::new().read(true).open(rt, folder)?;
    folder.sync_all()
}

// The folder of a file, by its path.
fn folder_of(path: &str) -> &str {
    match path.rfind('/') {
        Some(0) => "/",
        Some(end) => path.get(..end).unwrap_or("."),
        None => ".",
    }
}

impl<R: Files + Drop> Disk for FileDisk<R>
where
    R::File: Holdable,
{
    ghost use Rattle.std.specs.Prelude.{None};

    ghost faults = { λ d. d.faults };

    ghost use Rattle.disks.specs.Files.{nothing_told};

    ghost told = { λ _. None };

    ghost reads_as_image = { λ _ t is. nothing_told t is };

    fn len(&mut self, part: u8) -> Result<u64, Failed> {
        self.open(part);
        let found = match self.file(part) {
            Some(file) => file.metadata().map(|m| m.len()).ok(),
            None => None,
        };
        match found {
            Some(len) => Ok(len),
            None => self.faults.failed(),
        }
    }

    fn read(&mut self, part: u8, at: u64, room: &mut [u8]) -> Result<usize, Failed> {
        self.open(part);
        let given = match self.file(part) {
            Some(file) => file.read_at(room, at).ok(),
            None => None,
        };
        match given {
            Some(count) => Ok(count),
            None => self.faults.failed(),
        }
    }

    fn write_at(&mut self, part: u8, at: u64, piece: &[u8]) -> Result<(), Failed> {
        self.open(part);
        let is_done = match self.file(part) {
            Some(file) => file.write_all_at(piece, at).is_ok(),
            None => false,
        };
        if is_done {
            Ok(())
        } else {
            self.faults.failed()
        }
    }

    fn cut(&mut self, part: u8, end: u64) -> Result<(), Failed> {
        self.open(part);
        let is_done = match self.file(part) {
            Some(file) => file.set_len(end).is_ok(),
            None => false,
        };
        if is_done {
            Ok(())
        } else {
            self.faults.failed()
        }
    }

    fn sync(&mut self, part: u8) -> Result<(), Failed> {
        let is_open = self.open(part);
        let is_done = is_open && self.sync_file(part);
        if is_done {
            Ok(())
        } else {
            self.faults.failed()
        }
    }
}
