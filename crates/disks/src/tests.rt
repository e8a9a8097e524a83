//! Disks in memory and over files.
ghost use Rattle.std.specs.Prelude.{◌≡◌, ◌≤◌, length};
ghost use Rattle.disks.specs.Aheads.{HoldsNothing};

use crate::*;
use std::alloc::{AllocError, Allocator, Global};
use std::cell::Cell;
use std::fs::{Metadata, OpenFile, OpenOptions};
use std::io::{self, Error, ErrorKind, Read, Seek, SeekFrom, Write};
use std::os::unix::fs::FileExt;
use std::process::Abort;
use std::rt::Files;
use std::test::Fail;

fn disk_of(
    alloc: Global,
    bytes: &[u8],
    fails: &[u64],
    stop: Option<u64>,
) -> Result<MemoryDisk, AllocError> {
    MemoryDisk::new(
        alloc,
        bytes.to_vec(alloc)?,
        Vec::new(alloc),
        fails.to_vec(alloc)?,
        stop,
    )
}

/// Writes and reads back over any disk.
fn write_and_read<D: Disk>(disk: &mut D, piece: &[u8], room: &mut [u8]) -> Result<usize, Failed> {
    disk.write_at(0, 0, piece)?;
    disk.sync(0)?;
    disk.cut(0, 0)?;
    disk.write_at(0, 0, piece)?;
    disk.sync(0)?;
    if disk.len(0)? != piece.len() as u64 {
        return Ok(0);
    }
    disk.read(0, 0, room)
}

fn check_images(
    rt: &impl Abort,
    alloc: Global,
    disk: &MemoryDisk,
    expected: &[(u64, &[u8])],
) -> Result<(), Fail> {
    for (choice, bytes) in expected {
        let image = disk.image(alloc, *choice)?;
        assert_eq!(rt; image.bytes(0), *bytes);
    }
    Ok(())
}

const OF_A_WRITE: [(u64, &[u8]); 9] = [
    (0, b"ABCDEFGH"),
    (1, b"abcdef"),
    (2, b"ABCDef\xA5\xA5"),
    (3, b"abcdEFGH"),
    (4, b"abcdef\xA5\xA5"),
    (5, &[0xA5; 8]),
    (6, b"ABCDEF"),
    (7, b"AbCdEf"),
    (15, b"aBcDeF\xA5"),
];

const OF_A_CUT: [(u64, &[u8]); 3] = [(0, b""), (1, b"abcdef"), (4, b"abcdef")];

const OF_A_FAILED_WRITE: [(u64, &[u8]); 4] = [
    (0, b"abcdef"),
    (1, b"abcdef"),
    (4, b"abcdef\xA5\xA5"),
    (5, &[0xA5; 8]),
];

const OF_A_FAILED_CUT: [(u64, &[u8]); 3] = [(0, b"abcdef"), (1, b"abcdef"), (6, b"")];

#[test]
fn images_are_those_of_their_choices(rt: HostRuntime) -> Result<(), Fail> {
    let alloc = rt.alloc();
    let mut disk = disk_of(alloc, b"abcdef", &[], None)?;
    assert!(rt; disk.write_at(0, 0, b"ABCDEFGH").is_ok());
    check_images(&rt, alloc, &disk, &OF_A_WRITE)?;
    assert!(rt; disk.sync(0).is_ok());
    check_images(&rt, alloc, &disk, &[(1, b"ABCDEFGH"), (5, b"ABCDEFGH")])?;
    let mut disk = disk_of(alloc, b"abcdef", &[], None)?;
    assert!(rt; disk.cut(0, 0).is_ok());
    check_images(&rt, alloc, &disk, &OF_A_CUT)?;
    let mut disk = disk_of(alloc, b"abcdef", &[1], None)?;
    assert!(rt; disk.write_at(0, 0, b"ABCDEFGH").is_err());
    check_images(&rt, alloc, &disk, &OF_A_FAILED_WRITE)?;
    let mut disk = disk_of(alloc, b"abcdef", &[1], None)?;
    assert!(rt; disk.cut(0, 0).is_err());
    check_images(&rt, alloc, &disk, &OF_A_FAILED_CUT)
}

#[test]
fn calls_fail_where_they_are_listed(rt: HostRuntime) -> Result<(), Fail> {
    let alloc = rt.alloc();
    let mut room = [0u8; 4];
    let mut disk = disk_of(alloc, b"", &[2], None)?;
    assert!(rt; write_and_read(&mut disk, b"abc", &mut room).is_err());
    assert_eq!(rt; write_and_read(&mut disk, b"abc", &mut room).ok(), Some(3));
    assert_eq!(rt; (&room[..3], disk.faults()), (b"abc".as_slice(), 1));
    let mut disk = disk_of(alloc, b"", &[], Some(1))?;
    assert!(rt; write_and_read(&mut disk, b"abc", &mut room).is_err());
    assert_eq!(rt; disk.bytes(0), b"abc".as_slice());
    Ok(())
}

#[test]
fn files_are_parts(rt: HostRuntime) -> Result<(), Fail> {
    let alloc = rt.alloc();
    let mut room = [0u8; 4];
    let mut disk = FileDisk::new(&rt, alloc, "disk_of_a_test")?;
    assert_eq!(rt; write_and_read(&mut disk, b"abc", &mut room).ok(), Some(3));
    assert_eq!(rt; (&room[..3], disk.faults()), (b"abc".as_slice(), 0));
    assert_eq!(rt; disk.len(1).ok(), Some(0));
    moments_add_up();
    parts_are_two();
    for path in ["disk_of_a_test", "disk_of_a_test.1"] {
        std::fs::remove_file(&rt, path)?;
    }
    let mut nowhere = FileDisk::new(&rt, alloc, "no/such/folder")?;
    assert!(rt; nowhere.len(0).is_err());
    assert_eq!(rt; nowhere.faults(), 1);
    Ok(())
}

/// What a script does to a call on a file.
#[derive(Clone, Copy, Debug)]
enum Act {
    /// At most so many bytes are written.
    Short(usize),
    Interrupted,
    Fails,
}

/// A file and its folder. The calls on them are counted and go by a script, and those behind it
/// work.
#[derive(Drop)]
struct Script<'a> {
    acts: &'a [Act],
    calls: Cell<usize>,
    bytes: Cell<[u8; 8]>,
    syncs: Cell<u64>,
    folder_syncs: Cell<u64>,
    data_syncs: Cell<u64>,
}

impl<'a> Script<'a> {
    fn new(acts: &'a [Act]) -> Script<'a> {
        Script {
            acts,
            calls: Cell::new(0),
            bytes: Cell::new([0; 8]),
            syncs: Cell::new(0),
            folder_syncs: Cell::new(0),
            data_syncs: Cell::new(0),
        }
    }

    /// How many bytes the coming call may write, where it is a write.
    fn most(&self) -> io::Result<usize> {
        let number = self.calls.get();
        self.calls.set(number.saturating_add(1));
        match self.acts.get(number) {
            Some(Act::Short(most)) => Ok(*most),
            Some(Act::Interrupted) => Err(Error::from(ErrorKind::Interrupted)),
            Some(Act::Fails) => Err(Error::from(ErrorKind::Other)),
            None => Ok(8),
        }
    }
}

#[derive(Clone, Copy)]
struct ScriptedFiles<'a> {
    script: &'a Script<'a>,
    is_free: bool,
}

#[derive(Drop)]
struct ScriptedFile<'a> {
    script: &'a Script<'a>,
    is_folder: bool,
    /// Whether nothing else holds it.
    is_free: bool,
}

fn unsupported<T>() -> io::Result<T> {
    Err(Error::from(ErrorKind::Unsupported))
}

impl<'a> Read for ScriptedFile<'a> {
    fn read(&mut self, _buf: &mut [u8]) -> io::Result<usize> {
        Ok(0)
    }
}

impl<'a> Write for ScriptedFile<'a> {
    fn write(&mut self, _buf: &[u8]) -> io::Result<usize> {
        Ok(0)
    }

    fn flush(&mut self) -> io::Result<()> {
        unsupported()
    }
}

impl<'a> Seek for ScriptedFile<'a> {
    fn seek(&mut self, _to: SeekFrom) -> io::Result<u64> {
        unsupported()
    }
}

impl<'a> OpenFile for ScriptedFile<'a> {
    fn metadata(&self) -> io::Result<Metadata> {
        self.script.most()?;
        unsupported()
    }

    fn set_len(&self, _size: u64) -> io::Result<()> {
        self.script.most()?;
        Ok(())
    }

    fn sync_all(&self) -> io::Result<()> {
        self.script.most()?;
        let count = if self.is_folder {
            &self.script.folder_syncs
        } else {
            &self.script.syncs
        };
        count.set(count.get().saturating_add(1));
        Ok(())
    }

    fn sync_data(&self) -> io::Result<()> {
        self.script.most()?;
        let count = &self.script.data_syncs;
        count.set(count.get().saturating_add(1));
        Ok(())
    }
}

impl<'a> FileExt for ScriptedFile<'a> {
    fn read_at(&self, _buf: &mut [u8], _offset: u64) -> io::Result<usize> {
        self.script.most()?;
        Ok(0)
    }

    fn write_at(&self, buf: &[u8], offset: u64) -> io::Result<usize> {
        let count = self.script.most()?.min(buf.len());
        let mut bytes = self.script.bytes.get();
        for (place, byte) in bytes.iter_mut().enumerate() {
            let from = (place as u64).checked_sub(offset);
            if let Some(from) = from.filter(|from| *from < count as u64) {
                *byte = buf[from as usize];
            }
        }
        self.script.bytes.set(bytes);
        Ok(count)
    }
}

impl<'a> Holdable for ScriptedFile<'a> {
    ghost is_held = { λ f. f.is_free };

    fn hold(&self) -> bool {
        self.is_free
    }
}

impl<'a> Files for ScriptedFiles<'a> {
    type File = ScriptedFile<'a>;

    type Dir = ScriptedFile<'a>;

    fn open_file(&self, how: &OpenOptions, _path: &str) -> io::Result<ScriptedFile<'a>> {
        Ok(ScriptedFile {
            script: self.script,
            is_folder: !how.asks_write(),
            is_free: self.is_free,
        })
    }

    fn open_dir(&self, _path: &str) -> io::Result<ScriptedFile<'a>> {
        unsupported()
    }

    fn metadata(&self, _path: &str) -> io::Result<Metadata> {
        unsupported()
    }

    fn symlink_metadata(&self, _path: &str) -> io::Result<Metadata> {
        unsupported()
    }

    fn copy(&self, _from: &str, _to: &str) -> io::Result<u64> {
        unsupported()
    }

    fn rename(&self, _from: &str, _to: &str) -> io::Result<()> {
        unsupported()
    }

    fn remove_file(&self, _path: &str) -> io::Result<()> {
        unsupported()
    }

    fn create_dir(&self, _path: &str) -> io::Result<()> {
        unsupported()
    }

    fn remove_dir(&self, _path: &str) -> io::Result<()> {
        unsupported()
    }

    fn remove_dir_all<B: Allocator>(&self, _alloc: B, _path: &str) -> io::Result<()> {
        unsupported()
    }
}

/// A script; which of a write, a sync and another sync work by it; how often all that is kept of
/// the file was synced, its folder, and the file's bytes alone.
type Row = (&'static [Act], [bool; 3], [u64; 3]);

const ROWS: [Row; 7] = [
    (&[], [true, true, true], [1, 1, 1]),
    (
        &[Act::Short(2), Act::Interrupted, Act::Short(1)],
        [true, true, true],
        [1, 1, 1],
    ),
    (&[Act::Short(2), Act::Fails], [false, true, true], [1, 1, 1]),
    (&[Act::Short(0)], [false, true, true], [1, 1, 1]),
    (&[Act::Short(6), Act::Fails], [true, false, true], [1, 1, 0]),
    (
        &[Act::Short(6), Act::Short(0), Act::Fails],
        [true, false, true],
        [2, 1, 0],
    ),
    (
        &[Act::Short(6), Act::Short(0), Act::Short(0), Act::Fails],
        [true, true, false],
        [1, 1, 0],
    ),
];

#[test]
fn files_are_written_whole_and_synced(rt: HostRuntime) -> Result<(), Fail> {
    for (acts, works, syncs) in ROWS {
        let script = Script::new(acts);
        let files = ScriptedFiles {
            script: &script,
            is_free: true,
        };
        let mut disk = FileDisk::new(files, rt.alloc(), "part")?;
        let written = disk.write_at(0, 0, b"abcdef").is_ok();
        let answers = [written, disk.sync(0).is_ok(), disk.sync(0).is_ok()];
        assert_eq!(rt; answers, works);
        assert!(rt; !written || script.bytes.get() == *b"abcdef\0\0");
        let counts = [
            script.syncs.get(),
            script.folder_syncs.get(),
            script.data_syncs.get(),
        ];
        assert_eq!(rt; counts, syncs);
        assert_eq!(rt; disk.faults() == 0, works == [true, true, true]);
    }
    Ok(())
}

#[test]
fn a_file_that_is_not_held_is_left_alone(rt: HostRuntime) -> Result<(), Fail> {
    let script = Script::new(&[]);
    let files = ScriptedFiles {
        script: &script,
        is_free: false,
    };
    let mut disk = FileDisk::new(files, rt.alloc(), "part")?;
    let mut room = [0u8; 4];
    assert!(rt; disk.len(0).is_err() && disk.read(0, 0, &mut room).is_err());
    assert!(rt; disk.write_at(0, 0, b"abc").is_err() && disk.cut(0, 0).is_err());
    assert!(rt; disk.sync(0).is_err());
    assert_eq!(rt; (disk.faults(), script.calls.get()), (5, 0));
    Ok(())
}

/// Whether each call of a disk works, on its first part.
fn which_work<D: Disk>(disk: &mut D) -> [bool; 5] {
    let mut room = [0u8; 4];
    [
        disk.len(0).is_ok(),
        disk.read(0, 0, &mut room).is_ok(),
        disk.write_at(0, 0, b"abc").is_ok(),
        disk.cut(0, 0).is_ok(),
        disk.sync(0).is_ok(),
    ]
}

#[test]
fn one_disk_at_a_time_has_a_file(rt: HostRuntime) -> Result<(), Fail> {
    let path = "held_by_a_test";
    let mut first = FileDisk::new(&rt, rt.alloc(), path)?;
    assert_eq!(rt; which_work(&mut first), [true; 5]);
    let mut second = FileDisk::new(&rt, rt.alloc(), path)?;
    assert_eq!(rt; which_work(&mut second), [false; 5]);
    assert_eq!(rt; which_work(&mut first), [true; 5]);
    drop(first);
    assert_eq!(rt; which_work(&mut second), [true; 5]);
    assert_eq!(rt; second.faults(), 5);
    std::fs::remove_file(&rt, path)?;
    Ok(())
}

/// The first and the last two bytes of six, what stands behind them, and the last and one more.
fn read_through<D: Disk>(
    disk: &mut D,
    ahead: &mut ReadAhead,
    room: &mut [u8; 4],
) -> [Option<bool>; 4]
    requires { HoldsNothing ahead.old }
{
    let first = ahead.read_exact_at(disk, 0, 0, &mut room[..2]).ok();
    let last = ahead.read_exact_at(disk, 0, 4, &mut room[2..]).ok();
    let mut none = [0u8; 2];
    let behind = ahead.read_exact_at(disk, 0, 6, &mut none).ok();
    let half = ahead.read_exact_at(disk, 0, 5, &mut none).ok();
    [first, last, behind, half]
}

#[test]
fn what_is_held_is_not_read_again(rt: HostRuntime) -> Result<(), Fail> {
    // The second call on the disk is the one behind the six bytes.
    let mut disk = disk_of(rt.alloc(), b"abcdef", &[2], None)?;
    let mut ahead = ReadAhead::new(rt.alloc())?;
    let mut room = [0u8; 4];
    let answers = read_through(&mut disk, &mut ahead, &mut room);
    assert_eq!(rt; answers, [Some(true), Some(true), None, Some(false)]);
    assert_eq!(rt; (room, disk.faults()), (*b"abef", 1));
    ahead.forget();
    Ok(())
}
