//! Openings that get the numbers of a list, and the system's.
ghost use Rattle.std.specs.Prelude.{◌≡◌, Some, IfOk};
ghost use Rattle.fault_counts.specs.Causes.{HasCause};

use crate::*;
use fault_counts::Count;
use std::alloc::AllocError;
use std::test::Fail;

/// Openings that get the numbers of a list, the last one first, and then fail.
#[derive(Drop)]
struct ListedNumbers {
    numbers: Vec<u32>,
    newest: Option<u32>,
    faults: Count,
}

impl OpensNull for ListedNumbers {
    type File = ();

    ghost faults = { λ n. n.faults };

    ghost newest = { λ n. n.newest };

    fn open_null(&mut self) -> Result<OpenedFile<()>, Failed> {
        match self.numbers.pop() {
            Some(number) => {
                self.newest = Some(number);
                Ok(OpenedFile { number, file: () })
            }
            None => self.faults.failed(),
        }
    }
}

/// How many files are held.
fn count<F: Drop>(held: Result<Held<F>, Failed>) -> Option<usize> {
    let held = held.ok()?;
    let all = [
        held.first.is_some(),
        held.second.is_some(),
        held.third.is_some(),
    ];
    Some(all.iter().filter(|is_held| **is_held).count())
}

fn listed(rt: &HostRuntime, numbers: &[u32]) -> Result<ListedNumbers, AllocError> {
    Ok(ListedNumbers {
        numbers: numbers.to_vec(rt.alloc())?,
        newest: None,
        faults: Count::new(),
    })
}

/// The numbers that are given, the last one first; how many files are held, and how many numbers
/// are left over.
const ROWS: [(&[u32], Option<usize>, usize); 7] = [
    (&[7, 3], Some(0), 1),
    (&[7, 3, 0], Some(1), 1),
    (&[7, 3, 2], Some(1), 1),
    (&[7, 3, 2, 1], Some(2), 1),
    (&[7, 3, 2, 1, 0], Some(3), 2),
    (&[], None, 0),
    (&[1, 0], None, 0),
];

#[test]
fn files_are_held_up_to_the_first_number_above(rt: HostRuntime) -> Result<(), Fail> {
    for (numbers, held, left) in ROWS {
        let mut nulls = listed(&rt, numbers)?;
        assert_eq!(rt; count(hold_standard(&mut nulls)), held);
        assert_eq!(rt; nulls.numbers.len(), left);
    }
    Ok(())
}

#[test]
fn the_system_gives_a_file(rt: HostRuntime) -> Result<(), Fail> {
    assert!(rt; count(hold_standard(&mut DevNull::new(&rt))).is_some());
    Ok(())
}
