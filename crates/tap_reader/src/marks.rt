//! Which numbers of a plan points have.
ghost use Rattle.std.specs.Prelude.{◌≡◌, ℕ, ◌+◌, ◌<◌, ◌++◌, map, length, slice_index_or, false, IfOk, OnOk};
ghost use Rattle.std.specs.List.{list_any};
ghost use Rattle.tap_reader.specs.Entries.{line_of};
ghost use Rattle.tap_reader.specs.Streams.{says_number};
ghost use Rattle.tap_reader.specs.Completing.{at_level, missing_line};
ghost use Rattle.tap_reader.specs.MarkWords.{marked, unmarked};

use crate::entries::{Entry, Says};
use std::alloc::{AllocError, Global};

/// Marks a number, if it is one of the plan's.
fn mark(marks: &mut [bool], number: u64)
    ensures { marks.new ≡ marked marks.old number }
{
    if number > 0 && number - 1 < marks.len() as u64 {
        marks[(number - 1) as usize] = true;
    }
}

/// A mark for each number from 1 to a plan's, which is set where a point at the level has the
/// number.
pub(crate) fn numbers_marked(
    alloc: Global,
    entries: &[Entry],
    level: usize,
    count: u64,
) -> Result<Vec<bool>, AllocError>
    ensures len { IfOk result (λ v. length v.items ≡ count) }
    ensures marks { IfOk result (λ v. (i : ℕ) → i < count → slice_index_or v.items i false
        ≡ list_any (λ l. says_number (1 + i) l.said) (at_level level (map line_of entries.now))) }
{
    let mut marks = vec![in alloc; false; count as usize]?;
    for entry in entries {
        if entry.level == level
            && let Says::Tested(point) = entry.says
        {
            mark(&mut marks, point.number.unwrap_or(0));
        }
    }
    Ok(marks)
}

/// Writes a line for each number that isn't marked.
pub(crate) fn push_missing(
    entries: &mut Vec<Entry>,
    level: usize,
    marks: &[bool],
) -> Result<(), AllocError>
    ensures { OnOk result (map line_of entries.new.items
        ≡ map line_of entries.old.items ++ map (missing_line level) (unmarked 1 marks.now)) }
{
    for (at, is_marked) in marks.iter().enumerate() {
        if !*is_marked {
            entries.push(Entry::new(0, level, Says::Lacking(at as u64 + 1)))?;
        }
    }
    Ok(())
}
