//! The cases of a report's lines, each under the names of its parents.
ghost use Rattle.std.specs.Prelude.{◌≡◌, ◌≤◌, ◌++◌, ◌∷◌, [], length, map, codes, IfOk, OnOk};
ghost use Rattle.std.specs.List.{flat_map};
ghost use Rattle.tap_reader.specs.Entries.{line_of, said_of, test_of};
ghost use Rattle.tap_reader.specs.Cases.{case_said, name_for_subtest, name_in, number_name, missing_case, point_case, point_name, status_of, unescaped};
ghost use Rattle.tap_reader.specs.NameLengths.{after_run};
ghost use Rattle.tap_reader.specs.Naming.{named, resized};
ghost use Rattle.tap_reader.specs.NamingViews.{names_of};

use crate::entries::{Directive, Entry, Says, TestPoint};
use crate::messages::read_message;
use name_parts::{append, len_before};
use names_realms::{Bytes, Case, Status};
use std::alloc::{AllocError, Global};

/// Appends what stands before the first backslash, and gives the rest.
fn append_run<'a>(out: &mut Vec<u8>, text: &'a [u8]) -> Result<&'a [u8], AllocError>
    ensures kept { OnOk result
        (out.new.items ++ unescaped (after_run text.now) ≡ out.old.items ++ unescaped text.now) }
    ensures rest { IfOk result (λ rest. rest.now ≡ after_run text.now) }
    ensures shorter { IfOk result (λ rest. length rest.now ≤ length text.now) }
{
    let run = len_before(text, b'\\');
    append(out, &text[..run])?;
    Ok(&text[run..])
}

/// Appends a description as it is meant: `\#` stands for `#`, and `\\` for `\`.
fn append_unescaped(out: &mut Vec<u8>, text: &[u8]) -> Result<(), AllocError>
    ensures { OnOk result (out.new.items ≡ out.old.items ++ unescaped text.now) }
{
    let mut rest = text;
    loop {
        rest = append_run(out, rest)?;
        match rest {
            [b'\\', second, behind @ ..] if *second == b'#' || *second == b'\\' => {
                out.push(*second)?;
                rest = behind;
            }
            [first, behind @ ..] => {
                out.push(*first)?;
                rest = behind;
            }
            [] => return Ok(()),
        }
    }
}

/// Appends the name of a point by its number.
pub(crate) fn append_number(alloc: Global, out: &mut Vec<u8>, number: u64) -> Result<(), AllocError>
    ensures { OnOk result (out.new.items ≡ out.old.items ++ number_name number) }
{
    let digits = number.to_string(alloc)?;
    append(out, b"point ")?;
    append(out, digits.as_bytes())
}

/// Appends the name of a point.
#[tactic(auto, unfolding(crate::specs::Cases::point_name))]
pub(crate) fn append_point(
    alloc: Global,
    out: &mut Vec<u8>,
    point: &TestPoint,
) -> Result<(), AllocError>
    ensures { OnOk result (out.new.items ≡ out.old.items ++ point_name (test_of point.now)) }
{
    if point.description.is_empty() {
        append_number(alloc, out, point.number.unwrap_or(0))
    } else {
        append_unescaped(out, point.description)
    }
}

/// Appends the name that a line gives to the subtest before it.
pub(crate) fn append_parent(alloc: Global, out: &mut Vec<u8>, says: &Says) -> Result<(), AllocError>
    ensures { OnOk result (out.new.items ≡ out.old.items ++ name_for_subtest (said_of says.now)) }
{
    match says {
        Says::Tested(point) => append_point(alloc, out, point),
        _ => append(out, b"unfinished"),
    }
}

/// The names of the parents, each with what parts it from the next.
fn read_path(alloc: Global, path: &[Says]) -> Result<Vec<u8>, AllocError>
    ensures { IfOk result (λ v. v.items
        ≡ flat_map (λ name. name ++ codes " > ") (names_of path.now)) }
{
    let mut out = Vec::new(alloc);
    for says in path {
        append_parent(alloc, &mut out, says)?;
        append(&mut out, b" > ")?;
    }
    Ok(out)
}

/// How a point ended.
fn status_of_point(point: &TestPoint) -> Status
    ensures { result ≡ status_of (test_of point.now) }
{
    match point.directive {
        Some(Directive::Skip) => Status::Skip,
        _ if point.passed => Status::Pass,
        _ => Status::Fail,
    }
}

/// The case of a point.
#[tactic(auto, unfolding(crate::specs::Cases::point_case, crate::specs::Cases::name_in))]
fn case_of_point(
    alloc: Global,
    path: &[Says],
    level: usize,
    point: &TestPoint,
) -> Result<Case, AllocError>
    ensures { IfOk result (λ c. c ≡ point_case (names_of path.now) level (test_of point.now)) }
{
    let mut name = read_path(alloc, path)?;
    append_point(alloc, &mut name, point)?;
    let status = status_of_point(point);
    let message = if status == Status::Fail {
        read_message(alloc, level, point.diagnostic_lines, point.diagnostic)?
    } else {
        Vec::new(alloc)
    };
    Ok(Case {
        name: Bytes::new(name),
        status,
        expected: point.directive.is_some() || point.passed,
        duration: None,
        message: Bytes::new(message),
    })
}

/// The case of a number that no point has.
fn case_of_missing(alloc: Global, path: &[Says], number: u64) -> Result<Case, AllocError>
    ensures { IfOk result (λ c. c ≡ missing_case (names_of path.now) number) }
{
    let mut name = read_path(alloc, path)?;
    append_number(alloc, &mut name, number)?;
    Ok(Case {
        name: Bytes::new(name),
        status: Status::Skip,
        expected: false,
        duration: None,
        message: Bytes::new(Vec::new(alloc)),
    })
}

/// Appends the case of a line, if it has one.
fn append_case(
    alloc: Global,
    cases: &mut Vec<Case>,
    path: &[Says],
    entry: &Entry,
) -> Result<(), AllocError>
    ensures { OnOk result (cases.new.items ≡ cases.old.items
        ++ case_said (names_of path.now) (line_of entry.now).level (line_of entry.now).said) }
{
    let case = match &entry.says {
        Says::Tested(point) => case_of_point(alloc, path, entry.level, point)?,
        Says::Lacking(number) => case_of_missing(alloc, path, *number)?,
        _ => return Ok(()),
    };
    cases.push(case)?;
    Ok(())
}

/// Cuts the parents to so many, or fills them up with ones that have no point.
fn fit_path(path: &mut Vec<Says>, level: usize) -> Result<(), AllocError>
    ensures { OnOk result (names_of path.new.items ≡ resized level (names_of path.old.items)) }
{
    path.resize(level, Says::Opened)?;
    Ok(())
}

/// Writes the case of a line that stands before those that were read, and keeps it as the parent of
/// a subtest before it.
fn take_entry<'a>(
    alloc: Global,
    path: &mut Vec<Says<'a>>,
    cases: &mut Vec<Case>,
    entry: &Entry<'a>,
) -> Result<(), AllocError>
    ensures cases { OnOk result (cases.new.items ≡ cases.old.items
        ++ case_said (resized (line_of entry.now).level (names_of path.old.items))
        (line_of entry.now).level (line_of entry.now).said) }
    ensures path { OnOk result (names_of path.new.items
        ≡ resized (line_of entry.now).level (names_of path.old.items)
        ++ name_for_subtest (line_of entry.now).said ∷ []) }
{
    fit_path(path, entry.level)?;
    append_case(alloc, cases, path, entry)?;
    path.push(entry.says)?;
    Ok(())
}

/// The cases of these lines. The lines are gone through from the last to the first, so that a
/// parent's name is known when its subtest comes, and each name is written once.
pub(crate) fn name_cases(alloc: Global, entries: &[Entry]) -> Result<Vec<Case>, AllocError>
    ensures { IfOk result (λ v. v.items ≡ named (map line_of entries.now)) }
{
    let mut cases = Vec::new(alloc);
    let mut path = Vec::new(alloc);
    let mut at = entries.len();
    while at > 0 {
        at -= 1;
        take_entry(alloc, &mut path, &mut cases, &entries[at])?;
    }
    cases.reverse();
    Ok(cases)
}
