//! The lines of a text, and what each comes to.
ghost use Rattle.std.specs.Prelude.{◌≡◌, ℕ, List, IfOk};
ghost use Rattle.line_tables.specs.Rows.{IsRow, PrintsRows, is_remark};

use std::alloc::{AllocError, Global};

/// What says what a line comes to.
pub trait Teller {
    /// Whether a line may come to a text.
    ghost tells: { Self → List ℕ → List ℕ → Type 0 } = { λ _ _ _. Unit {0} };

    /// What a line comes to, with the ends of its lines. It isn't asked for a remark.
    fn tell(&self, alloc: Global, line: &str) -> Result<Vec<u8>, AllocError>
        ensures { IfOk result (λ told. tells self.now line.now told.items) };
}

/// Whether a line is only printed: it is empty or begins with `#`.
fn is_remark_line(line: &str) -> bool
    ensures { result ≡ is_remark line.now }
{
    match line.as_bytes() {
        [first, ..] => *first == b'#',
        [] => true,
    }
}

/// A line, its end, and what it comes to.
fn row_of<T: Teller>(alloc: Global, teller: &T, line: &str) -> Result<Vec<u8>, AllocError>
    ensures { IfOk result (λ row. IsRow (T.tells teller.now) line.now row.items) }
{
    let mut row = Vec::from_slice(alloc, line.as_bytes())?;
    row.push(b'\n')?;
    if !is_remark_line(line) {
        let told = teller.tell(alloc, line)?;
        row.extend_from_slice(told.as_slice())?;
    }
    Ok(row)
}

/// Each line of a text, and behind it what it comes to. Lines that are empty or begin with `#` come
/// to nothing.
pub fn tell_rows<T: Teller>(alloc: Global, teller: &T, text: &str) -> Result<Vec<u8>, AllocError>
    ensures { IfOk result (λ out. PrintsRows (T.tells teller.now) text.now out.items) }
{
    let mut out = Vec::new(alloc);
    let mut rest = text;
    while let Some((line, behind)) = rest.split_once('\n') {
        let row = row_of(alloc, teller, line)?;
        out.extend_from_slice(row.as_slice())?;
        rest = behind;
    }
    if rest.is_empty() {
        return Ok(out);
    }
    let last = row_of(alloc, teller, rest)?;
    out.extend_from_slice(last.as_slice())?;
    Ok(out)
}
