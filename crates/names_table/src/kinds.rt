//! The kinds of lines.
use crate::words::{Stop, Told};
use crate::{names, parts, times};
use std::alloc::Global;

/// What a subject of a kind comes to.
pub(crate) fn told(alloc: Global, kind: &str, subject: &str) -> Told {
    match kind {
        "part" => parts::part(alloc, subject),
        "escaped" => parts::escaped(alloc, subject),
        "escape" => parts::escape(alloc, subject),
        "name" => parts::name(alloc, subject),
        "behind" => parts::behind(alloc, subject),
        "literal" => parts::literal(alloc, subject),
        "before" => parts::before(alloc, subject),
        "utf8" => parts::utf8(alloc, subject),
        "moment" => times::moment(alloc, subject),
        "moment-of" => times::moment_of(alloc, subject),
        "moment-order" => times::moment_order(alloc, subject),
        "span" => times::span(alloc, subject),
        "span-of" => times::span_of(alloc, subject),
        "span-order" => times::span_order(alloc, subject),
        "invocation-id" => names::invocation_id(alloc, subject),
        "test-id" => names::test_id(alloc, subject),
        "result-id" => names::result_id(alloc, subject),
        "artifact-id" => names::artifact_id(alloc, subject),
        "realm" => names::realm(alloc, subject),
        "invocation-name" => names::invocation_name(alloc, subject),
        "result-name" => names::result_name(alloc, subject),
        "parent" => names::parent(alloc, subject),
        "artifact-name" => names::artifact_name(alloc, subject),
        "pair" => names::pair(alloc, subject),
        "variant" => names::variant(alloc, subject),
        _ => Err(Stop::Odd("unknown kind")),
    }
}
