//! How many bytes the names of a report's cases have together, counted before any of them is made.
ghost use Rattle.std.specs.Prelude.{◌≡◌, ◌+◌, [], ◌∷◌, ◌++◌, map, length, nat_le, IfOk, OnOk};
ghost use Rattle.std.specs.List.{sum};
ghost use Rattle.tap_reader.specs.Entries.{line_of, said_of};
ghost use Rattle.tap_reader.specs.Cases.{name_for_subtest, names_len};
ghost use Rattle.tap_reader.specs.Naming.{named};
ghost use Rattle.tap_reader.specs.NameLengths.{Leaves, fitted, name_len};

use crate::cases::{append_number, append_parent, append_point};
use crate::entries::{Entry, Says};
use std::alloc::{AllocError, Global};

/// How many bytes the names of all cases of a report have at most together.
const MOST: usize = 536_870_912;

/// How many bytes a parent without a point has, with what parts it from the next.
const UNFINISHED: usize = 13;

/// What is left of so many bytes behind a name under parents of these lengths, if it is enough.
fn left_behind(left: usize, parents: &[usize], own: usize) -> Option<usize>
    ensures { Leaves result left (sum parents.now + own) }
{
    let mut rest = left.checked_sub(own)?;
    for len in parents {
        rest = rest.checked_sub(*len)?;
    }
    Some(rest)
}

/// What is left of so many bytes behind the name of a line's case, if it is enough.
fn count_case(
    alloc: Global,
    left: usize,
    parents: &[usize],
    says: &Says,
) -> Result<Option<usize>, AllocError>
    ensures { IfOk result (λ rest. Leaves rest left
        (name_len (sum parents.now) (said_of says.now))) }
{
    let mut name = Vec::new(alloc);
    match says {
        Says::Tested(point) => append_point(alloc, &mut name, point)?,
        Says::Lacking(number) => append_number(alloc, &mut name, *number)?,
        _ => return Ok(Some(left)),
    }
    Ok(left_behind(left, parents, name.len()))
}

/// Counts the name of the case of a line that stands before those that were counted, and keeps the
/// line as the parent of a subtest before it. Gives what is left of so many bytes, if it is enough.
fn count_entry(
    alloc: Global,
    left: usize,
    parents: &mut Vec<usize>,
    entry: &Entry,
) -> Result<Option<usize>, AllocError>
    ensures left { IfOk result (λ rest. Leaves rest left
        (name_len (sum (fitted (line_of entry.now).level parents.old.items))
        (line_of entry.now).said)) }
    ensures parents { OnOk result (parents.new.items
        ≡ fitted (line_of entry.now).level parents.old.items
        ++ (length (name_for_subtest (line_of entry.now).said) + 3) ∷ []) }
{
    parents.resize(entry.level, UNFINISHED)?;
    let rest = count_case(alloc, left, parents, &entry.says)?;
    let mut name = Vec::new(alloc);
    append_parent(alloc, &mut name, &entry.says)?;
    parents.push(name.len() + 3)?;
    Ok(rest)
}

/// Whether the names of the cases of these lines have at most 512 MiB together. The lines are gone
/// through from the last to the first, and of a name nothing is kept but its length.
pub(crate) fn do_names_fit(alloc: Global, entries: &[Entry]) -> Result<bool, AllocError>
    ensures { IfOk result (λ fit. fit
        ≡ nat_le (names_len (named (map line_of entries.now))) 536870912) }
{
    let mut parents = Vec::new(alloc);
    let mut left = MOST;
    let mut at = entries.len();
    while at > 0 {
        at -= 1;
        match count_entry(alloc, left, &mut parents, &entries[at])? {
            Some(rest) => left = rest,
            None => return Ok(false),
        }
    }
    Ok(true)
}
