//! Numbered records in a journal: a machine whose world is how many there are.
ghost use Rattle.std.specs.Prelude.{◌≡◌, ◌++◌, IfOk, IfSome, codes, decimal, string_bytes};
ghost use Rattle.journal_book.specs.Books.{StandsForSome};
ghost use Rattle.journal_trial.specs.Counting.{Counts, IsCounted};

use disks::Disk;
use journal_book::{Book, Machine, ReplayFault};
use std::alloc::{AllocError, Global};

const GREATEST_SIZE: usize = 1 << 23;

/// How many records there are. The command of each is its number, a point, and any bytes.
#[derive(Drop)]
pub struct Records {
    count: u64,
}

/// One record more.
#[derive(Drop)]
pub struct Next {
    command: Vec<u8>,
}

/// How the command of the record with this number begins.
fn front_of(alloc: Global, number: u64) -> Result<String, AllocError>
    ensures { IfOk result (λ text. string_bytes text ≡ decimal number ++ codes ".") }
{
    format!(in alloc; "{number}.")
}

impl Machine for Records {
    ghost use Rattle.std.specs.Prelude.{ℕ, ⊤};
    ghost use Rattle.journal_trial.specs.Counting.{Counts, IsCounted, counted_on, counted_once};

    type Plan = Next;

    type Answer = u64;

    ghost World = { ℕ };

    ghost world = { λ records. records.count };

    ghost plays = { Counts };

    ghost one_way = { counted_once };

    ghost said = { λ next. next.command.items };

    ghost gives = { λ next answer. ⊤ };

    ghost fits = { λ records next. IsCounted records.count next.command.items };

    ghost is_body = { λ records next fits. fits.body };

    ghost leads = { λ records next fits. counted_on records.count next.command.items fits };

    fn command(plan: &Next) -> &[u8] {
        &plan.command
    }

    fn commit(&mut self, _plan: Next) -> u64 {
        let number = self.count;
        self.count += 1;
        number
    }

    fn replay(&mut self, alloc: Global, command: &[u8]) -> Result<(), ReplayFault> {
        let Ok(front) = front_of(alloc, self.count) else {
            return Err(ReplayFault::Memory);
        };
        if self.count == u64::MAX || !command.starts_with(front.as_bytes()) {
            return Err(ReplayFault::OutOfPlace);
        }
        self.count += 1;
        Ok(())
    }
}

impl Records {
    /// How many records there are.
    pub fn count(&self) -> u64
        ensures { result ≡ self.now.count }
    {
        self.count
    }

    /// The next record, of so many bytes, or a few more; none where it can't be one, or there is no
    /// memory.
    fn next(&self, alloc: Global, size: u64) -> Option<Next>
        ensures { IfSome result (λ next. IsCounted self.now.count next.command.items) }
    {
        let front = front_of(alloc, self.count).ok()?;
        let command = numbered(alloc, &front, size).ok()?;
        let is_body = !command.is_empty() && command.len() <= GREATEST_SIZE;
        if self.count < u64::MAX && is_body && command.starts_with(front.as_bytes()) {
            return Some(Next { command });
        }
        None
    }
}

/// A body of so many bytes, or a few more, that begins so.
fn numbered(alloc: Global, front: &str, size: u64) -> Result<Vec<u8>, AllocError> {
    let mut body = front.as_bytes().to_vec(alloc)?;
    body.resize(
        (size.min(GREATEST_SIZE as u64) as usize).max(front.len()),
        b'.',
    )?;
    Ok(body)
}

/// Opens a journal, and reads all of its records. None where a call failed, or a record has another
/// number than its place.
pub fn read_records<D: Disk + Drop>(alloc: Global, disk: D) -> Option<Book<Records, D>>
    ensures { IfSome result (λ book. StandsForSome D.told Counts book.machine.count book.journal) }
{
    Book::open(alloc, Records { count: 0 }, disk).ok()
}

/// Appends records behind those that are there, and prints each number once it is acknowledged.
/// None where a call failed.
pub fn append_records<D: Disk + Drop, R: Print>(
    rt: &R,
    alloc: Global,
    disk: D,
    count: u64,
    size: u64,
) -> Option<Book<Records, D>>
    ensures { IfSome result (λ book. StandsForSome D.told Counts book.machine.count book.journal) }
{
    let mut book = read_records(alloc, disk)?;
    for _ in 0..count {
        let next = book.machine.next(alloc, size)?;
        let number = book.record(alloc, next).ok()?;
        rt.println(number).ok()?;
    }
    Some(book)
}
