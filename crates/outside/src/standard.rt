//! The program's standard streams.
use crate::stream::{StreamSink, StreamSource};
use std::rt;

/// Standard input, as `StdIn::new(rt.stdin())`.
pub type StdIn = StreamSource<rt::Stdin>;

/// Standard output, as `StdOut::new(rt.stdout())`.
pub type StdOut = StreamSink<rt::Stdout>;

/// Standard error, as `StdErr::new(rt.stderr())`.
pub type StdErr = StreamSink<rt::Stderr>;
