//! A journal over disks in memory that fail, stop and crash.
ghost use Rattle.std.specs.Prelude.{◌≡◌, ◌≤◌, ◌^◌, length, true, IfOk};
ghost use Rattle.result_journal.specs.Journals.{StandsForSome, is_settled, is_prepared};
ghost use Rattle.result_journal.specs.Openings.{HasGivenSome};

use crate::*;
use disks::{Disk, MemoryDisk};
use std::alloc::{AllocError, Global};
use std::process::Abort;
use std::test::Fail;

const SCRIPT: [&[u8]; 3] = [b"a", b"bcd", &[b'e'; 200]];

fn disk_of(
    alloc: Global,
    bytes: &[u8],
    fails: &[u64],
    stop: Option<u64>,
) -> Result<MemoryDisk, AllocError> {
    MemoryDisk::new(
        alloc,
        bytes.to_vec(alloc)?,
        Vec::new(alloc),
        fails.to_vec(alloc)?,
        stop,
    )
}

/// Appends a command, and once more where that failed. Answers whether it is acknowledged.
fn append_twice<D: Disk>(journal: &mut Journal<D>) -> bool
    requires stands { StandsForSome D.told journal.old }
    requires prepared { is_prepared journal.old ≡ true }
    requires settled { is_settled journal.old ≡ true }
    ensures stands { StandsForSome D.told journal.new }
    ensures settled { result ≡ true → is_settled journal.new ≡ true }
{
    if journal.append().is_ok() {
        return true;
    }
    if journal.settle().is_err() {
        return false;
    }
    journal.append().is_ok()
}

/// The commands that a disk's journal holds, each behind its length. The first one is read twice.
fn read_back<D: Disk + Drop>(alloc: Global, disk: D) -> Result<Vec<u8>, Fail> {
    let mut opening = match Opening::begin(alloc, disk) {
        Ok(opening) => opening,
        Err((fault, _)) => return Err(Fail::from(fault)),
    };
    let mut first = Vec::new(alloc);
    opening.next(alloc, &mut first)?;
    opening.restart();
    let mut read = Vec::new(alloc);
    for _ in 0..8 {
        let mut body = Vec::new(alloc);
        if opening.next(alloc, &mut body)?.is_none() {
            break;
        }
        read.push(body.len().min(255) as u8)?;
        read.extend_from_slice(&body)?;
    }
    Ok(read)
}

/// Begins a journal and runs the script over it. The plain journal gets what is acknowledged.
/// Answers the disk as it is then, and how many commands were begun.
fn run_script(
    alloc: Global,
    disk: MemoryDisk,
    plain: &mut PlainJournal,
) -> Result<(MemoryDisk, usize), Fail> {
    let mut opening = match Opening::begin(alloc, disk) {
        Ok(opening) => opening,
        Err((_, disk)) => return Ok((disk, 0)),
    };
    let mut body = Vec::new(alloc);
    if !matches!(opening.next(alloc, &mut body), Ok(None)) {
        return Ok((opening.give_up(), 0));
    }
    let mut journal = opening.ready();
    let begun = run_commands(alloc, &mut journal, plain)?;
    Ok((journal.close(), begun))
}

/// Appends the script's commands until one is refused. Answers how many were begun.
fn run_commands<D: Disk>(
    alloc: Global,
    journal: &mut Journal<D>,
    plain: &mut PlainJournal,
) -> Result<usize, Fail>
    requires stands { StandsForSome D.told journal.old }
    requires settled { is_settled journal.old ≡ true }
{
    for (place, command) in SCRIPT.iter().enumerate() {
        if command.is_empty() || command.len() > 200 {
            continue;
        }
        if journal.prepare_record(alloc, command).is_err() {
            return Err(Fail::from("no room"));
        }
        if !append_twice(journal) {
            return Ok(place + 1);
        }
        plain.append(alloc, command)?;
    }
    Ok(3)
}

/// The first commands of the script, each behind its length.
fn script_bytes(alloc: Global, count: usize) -> Result<Vec<u8>, AllocError> {
    let mut bytes = Vec::new(alloc);
    for (place, command) in SCRIPT.iter().enumerate() {
        if place < count {
            bytes.push(command.len().min(255) as u8)?;
            bytes.extend_from_slice(command)?;
        }
    }
    Ok(bytes)
}

/// Each image holds what is acknowledged, and maybe the command that was begun last.
fn check_images(
    rt: &impl Abort,
    alloc: Global,
    disk: &MemoryDisk,
    kept: usize,
    begun: usize,
) -> Result<(), Fail> {
    let acknowledged = script_bytes(alloc, kept)?;
    let with_begun = script_bytes(alloc, begun)?;
    for choice in 0..8 {
        let found = read_back(alloc, disk.image(alloc, choice)?)?;
        assert!(rt; found == acknowledged || found == with_begun);
    }
    Ok(())
}

#[test]
fn each_image_holds_what_is_acknowledged(rt: HostRuntime) -> Result<(), Fail> {
    let alloc = rt.alloc();
    for number in 0..20u64 {
        let mut plain = PlainJournal::new(alloc);
        let disk = disk_of(alloc, b"", &[number], None)?;
        let (disk, begun) = run_script(alloc, disk, &mut plain)?;
        assert!(rt; number < 7 || plain.commands().len() == 3);
        check_images(&rt, alloc, &disk, plain.commands().len(), begun)?;
        let mut plain = PlainJournal::new(alloc);
        let disk = disk_of(alloc, b"", &[], Some(number))?;
        let (disk, begun) = run_script(alloc, disk, &mut plain)?;
        assert!(rt; number < 8 || plain.commands().len() == 3);
        check_images(&rt, alloc, &disk, plain.commands().len(), begun)?;
    }
    Ok(())
}

/// The fault of a journal of these bytes, if its head or its first record has one.
fn first_fault(alloc: Global, bytes: &[u8]) -> Result<Option<OpenFault>, AllocError> {
    let disk = disk_of(alloc, bytes, &[], None)?;
    let mut opening = match Opening::begin(alloc, disk) {
        Ok(opening) => opening,
        Err((fault, _)) => return Ok(Some(fault)),
    };
    let mut body = Vec::new(alloc);
    Ok(opening.next(alloc, &mut body).err())
}

const FAULTS: [(&[u8], Option<OpenFault>); 12] = [
    (
        b"RDBJRNL1\x01\xff\xff\xff\xff\x00",
        Some(OpenFault::Damaged { at: 9, byte: 255 }),
    ),
    (
        b"RDBJRNL9\x00\x00",
        Some(OpenFault::NewerVersion { found: 57 }),
    ),
    (b"hello world", Some(OpenFault::NotAJournal { at: 0 })),
    (b"RDBJRNL0\x00\x00", Some(OpenFault::NotAJournal { at: 7 })),
    (b"RDBJ", None),
    (b"RDBJRNL1\x01", None),
    (b"RDBJRNL1\x07", None),
    (b"RDBJRNL1\x00\x01", None),
    (b"RDBJRNL1\x01\x01\x00\x00\x00x\x00", None),
    (
        b"RDBJRNL1\x01\x01\x00\x00\x00x",
        Some(OpenFault::Damaged { at: 9, byte: 1 }),
    ),
    (
        b"RDBJRNL1\x01\x00\x00\x00\x00x\x00",
        Some(OpenFault::Damaged { at: 9, byte: 0 }),
    ),
    (b"RDBJRNL1\x00\x00\x00\x00\x00", None),
];

#[test]
fn heads_and_records_show_their_faults(rt: HostRuntime) -> Result<(), Fail> {
    for (bytes, fault) in FAULTS {
        assert_eq!(rt; first_fault(rt.alloc(), bytes)?, fault);
    }
    Ok(())
}

#[test]
fn a_gate_that_was_not_synced_is_closed_again(rt: HostRuntime) -> Result<(), Fail> {
    let alloc = rt.alloc();
    // Beginning takes the calls 1 to 5, and reading the end the sixth.
    let disk = disk_of(alloc, b"", &[10], None)?;
    let Ok(mut opening) = Opening::begin(alloc, disk) else {
        return Err(Fail::from("begin"));
    };
    let mut body = Vec::new(alloc);
    assert!(rt; matches!(opening.next(alloc, &mut body), Ok(None)));
    let mut journal = opening.ready();
    assert!(rt; journal.prepare_record(alloc, b"x").is_ok());
    assert!(rt; journal.append().is_err());
    assert!(rt; !journal.is_settled());
    assert_eq!(rt; journal.end(), 8);
    assert!(rt; journal.settle().is_ok());
    assert!(rt; journal.append().is_ok());
    assert_eq!(rt; journal.end(), 14);
    let disk = journal.close();
    assert_eq!(rt; disk.faults(), 1);
    assert_eq!(rt;
        disk.bytes(0),
        b"RDBJRNL1\x01\x01\x00\x00\x00x\x00".as_slice()
    );
    assert_eq!(rt; read_back(alloc, disk)?, [1, b'x'].to_vec(alloc)?);
    one_reading();
    Ok(())
}
