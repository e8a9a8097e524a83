//! How an answer is printed: `STATUS CODE TOKEN BODY` on one line.
//!
//! The code is that of gRPC, and the update token `-` where none is given. The body has `\n` for
//! each end of a line and `\\` for each backslash, and else its bytes as they are.
ghost use Rattle.std.specs.Prelude.{◌≡◌, [], ◌∷◌, ◌++◌, OnOk, IfOk, codes, decimal, string_bytes};
ghost use Rattle.requests_table.specs.Telling.{answer_text, body_text, escaped, front_text, told_text, token_text};

use call_forms::{Answer, Told};
use std::alloc::{AllocError, Global};

/// Puts a line behind what is there.
pub fn put_line(front: &str, line: &str, out: &mut Vec<u8>) -> Result<(), AllocError>
    ensures { OnOk result (out.new.items
        ≡ ((out.old.items ++ front.now) ++ line.now) ++ codes "\n") }
{
    out.extend_from_slice(front.as_bytes())?;
    out.extend_from_slice(line.as_bytes())?;
    out.extend_from_slice(b"\n")
}

/// Puts what is told behind what is there; a stand-in as the word `standin` and its whole reply.
pub fn put_told(alloc: Global, told: &Told, out: &mut Vec<u8>) -> Result<(), AllocError>
    ensures { OnOk result (out.new.items ≡ out.old.items ++ told_text told.now) }
{
    match told {
        Told::Made(answer) => put_answer(alloc, answer, out),
        Told::Standin(standin) => {
            out.extend_from_slice(b"standin ")?;
            put_body(standin.bytes(false), out)?;
            out.extend_from_slice(b"\n")
        }
    }
}

/// The status and the code of an answer, with a blank behind each.
fn front_of(alloc: Global, answer: &Answer) -> Result<String, AllocError>
    ensures { IfOk result (λ text. string_bytes text ≡ front_text answer.now) }
{
    let (status, code) = (answer.status, answer.code);
    format!(in alloc; "{status} {code} ")
}

fn put_answer(alloc: Global, answer: &Answer, out: &mut Vec<u8>) -> Result<(), AllocError>
    ensures { OnOk result (out.new.items ≡ out.old.items ++ answer_text answer.now) }
{
    let front = front_of(alloc, answer)?;
    out.extend_from_slice(front.as_bytes())?;
    put_token(&answer.token, out)?;
    out.extend_from_slice(b" ")?;
    put_body(answer.body.as_slice(), out)?;
    out.extend_from_slice(b"\n")
}

fn put_token(token: &Option<[u8; 64]>, out: &mut Vec<u8>) -> Result<(), AllocError>
    ensures { OnOk result (out.new.items ≡ out.old.items ++ token_text token.now) }
{
    match token {
        Some(token) => out.extend_from_slice(token.as_slice()),
        None => out.extend_from_slice(b"-"),
    }
}

fn put_byte(byte: u8, out: &mut Vec<u8>) -> Result<(), AllocError>
    ensures { OnOk result (out.new.items ≡ out.old.items ++ escaped byte) }
{
    match byte {
        b'\n' => out.extend_from_slice(b"\\n"),
        b'\\' => out.extend_from_slice(b"\\\\"),
        other => out.extend_from_slice(&[other]),
    }
}

fn put_body(body: &[u8], out: &mut Vec<u8>) -> Result<(), AllocError>
    ensures { OnOk result (out.new.items ≡ out.old.items ++ body_text body.now) }
{
    for byte in body {
        put_byte(*byte, out)?;
    }
    Ok(())
}
