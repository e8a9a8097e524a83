//! How what a line comes to is printed: `same` where it is the body again, and else its bytes, with
//! `\n` for each end of a line and `\\` for each backslash.
use crate::faults::Fault;
use json_fields::{Form, Written, read_body};
use std::alloc::{AllocError, Global};

/// Puts a line behind what is there.
pub(crate) fn put_line(line: &str, out: &mut Vec<u8>) -> Result<(), AllocError> {
    out.extend_from_slice(line.as_bytes())?;
    out.extend_from_slice(b"\n")
}

/// Puts what a body comes to behind what is there.
pub(crate) fn put_told(body: &[u8], told: &[u8], out: &mut Vec<u8>) -> Result<(), AllocError> {
    if told == body {
        return put_line("same", out);
    }
    for byte in told {
        match *byte {
            b'\n' => out.extend_from_slice(b"\\n")?,
            b'\\' => out.extend_from_slice(b"\\\\")?,
            other => out.push(other)?,
        }
    }
    out.extend_from_slice(b"\n")
}

/// A word, as what a body comes to.
pub(crate) fn told_word(alloc: Global, word: &str) -> Result<Vec<u8>, AllocError> {
    Vec::from_slice(alloc, word.as_bytes())
}

/// What is written of a value.
pub(crate) fn written<T: Written>(alloc: Global, value: &T) -> Result<Vec<u8>, AllocError> {
    value.write(alloc)?.to_vec(alloc)
}

/// What is written of the value that a body is.
pub(crate) fn again<T: Written>(alloc: Global, body: &[u8]) -> Result<Vec<u8>, Fault> {
    let value = read_body::<T>(alloc, body)?;
    Ok(written(alloc, &value)?)
}

/// The word `read`, where a body is read.
pub(crate) fn read<T: Form>(alloc: Global, body: &[u8]) -> Result<Vec<u8>, Fault> {
    let _value = read_body::<T>(alloc, body)?;
    Ok(told_word(alloc, "read")?)
}
