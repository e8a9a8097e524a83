//! The lines of a report that count, as they are kept while it is read.
ghost use Rattle.std.specs.Prelude.{◌≡◌};
ghost use Rattle.tap_reader.specs.Entries.{line_of, said_of};

/// What a point is marked as.
#[derive(Clone, Copy, Debug, PartialEq, Eq)]
pub(crate) enum Directive {
    Skip,
    Todo,
}

/// A test point.
#[derive(Clone, Copy)]
pub(crate) struct TestPoint<'a> {
    pub(crate) passed: bool,
    pub(crate) number: Option<u64>,
    pub(crate) directive: Option<Directive>,
    /// The description as it is written, without spaces at its ends.
    pub(crate) description: &'a [u8],
    /// The report from the first line of the diagnostic on.
    pub(crate) diagnostic: &'a [u8],
    /// How many lines the diagnostic has.
    pub(crate) diagnostic_lines: usize,
}

/// What a line says.
#[derive(Clone, Copy)]
pub(crate) enum Says<'a> {
    /// A plan of so many points.
    Planned(u64),
    /// A point.
    Tested(TestPoint<'a>),
    /// The run was given up.
    GivenUp,
    /// A diagnostic begins which doesn't end.
    Opened,
    /// A number of a plan that no point has.
    Lacking(u64),
}

/// A line that counts.
#[derive(Clone, Copy)]
pub(crate) struct Entry<'a> {
    /// Its number in the report, or 0 for a number that no point has.
    pub(crate) line: usize,
    pub(crate) level: usize,
    pub(crate) says: Says<'a>,
}

impl<'a> Entry<'a> {
    pub(crate) fn new(line: usize, level: usize, says: Says<'a>) -> Entry<'a>
        ensures { line_of result
            ≡ record { number = line; level = level; said = said_of says.entry } }
    {
        Entry { line, level, says }
    }
}
