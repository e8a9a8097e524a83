//! What is wrong with a tag where it stands.
ghost use Rattle.std.specs.Prelude.{◌≡◌, IfOk, map, is_none, codes};
ghost use Rattle.junit_parts.specs.Flaws.{case_cause, cause_by_role, depth_cause, first_flaw, flaw_of_attribute};
ghost use Rattle.junit_parts.specs.Flaws.{is_bad_time, is_missing, is_root_name, root_cause, tag_cause, tag_flaw};
ghost use Rattle.junit_parts.specs.Tags.{attribute_text, tag_text};
ghost use Rattle.junit_parts.specs.Times.{time_from};
ghost use Rattle.junit_parts.specs.Values.{named_text};

use crate::faults::{Cause, Flaw, Stop};
use crate::roles::{Role, role_in};
use crate::tags::{Attribute, Tag};
use crate::times::time;
use crate::unread::Unread;
use crate::values::{flaw_in, named_text};
use std::alloc::{AllocError, Global};

/// Where a tag stands.
#[derive(Clone, Copy, Debug)]
pub struct Spot {
    pub outer: Role,
    pub has_root: bool,
    pub depth: usize,
}

fn is_root_name(name: &[u8]) -> bool
    ensures { result ≡ is_root_name name.now }
{
    if name == b"testsuites".as_slice() {
        return true;
    }
    name == b"testsuite".as_slice()
}

fn root_cause(outer: Role, has_root: bool, name: &[u8]) -> Option<Cause>
    ensures { result ≡ root_cause outer has_root name.now }
{
    match outer {
        Role::Top => {
            if has_root {
                return Some(Cause::NotWellFormed);
            }
            if is_root_name(name) {
                None
            } else {
                Some(Cause::NoRoot)
            }
        }
        Role::Suites => None,
        Role::Suite => None,
        Role::Testcase => None,
        Role::Outcome => None,
        Role::Passed => None,
    }
}

/// Whether a case has no name. A name with a faulty reference is one.
fn is_missing(alloc: Global, tag: &Tag<'_>) -> Result<bool, AllocError>
    ensures { IfOk result (λ b. b ≡ is_missing (named_text (codes "name") (tag_text tag.now))) }
{
    match named_text(alloc, tag, b"name") {
        Ok(text) => match text.as_slice() {
            [] => Ok(true),
            _ => Ok(false),
        },
        Err(Stop::Flawed(_)) => Ok(false),
        Err(Stop::Memory) => Err(AllocError),
    }
}

/// Whether the time of a case is none.
fn is_bad_time(alloc: Global, tag: &Tag<'_>) -> Result<bool, AllocError>
    ensures { IfOk result (λ b. b ≡ is_bad_time (named_text (codes "time") (tag_text tag.now))) }
{
    match named_text(alloc, tag, b"time") {
        Ok(text) => is_no_time(alloc, text.as_slice()),
        Err(Stop::Flawed(_)) => Ok(false),
        Err(Stop::Memory) => Err(AllocError),
    }
}

fn is_no_time(alloc: Global, text: &[u8]) -> Result<bool, AllocError>
    ensures { IfOk result (λ b. b ≡ is_none (time_from text.now)) }
{
    match time(alloc, text) {
        Ok(_) => Ok(false),
        Err(Unread::Broken) => Ok(true),
        Err(Unread::Memory) => Err(AllocError),
    }
}

fn case_cause(alloc: Global, tag: &Tag<'_>) -> Result<Option<Cause>, AllocError>
    ensures { IfOk result (λ o. o ≡ case_cause (tag_text tag.now)) }
{
    if is_missing(alloc, tag)? {
        return Ok(Some(Cause::MissingName));
    }
    if is_bad_time(alloc, tag)? {
        return Ok(Some(Cause::BadTime));
    }
    Ok(None)
}

fn cause_by_role(alloc: Global, role: Role, tag: &Tag<'_>) -> Result<Option<Cause>, AllocError>
    ensures { IfOk result (λ o. o ≡ cause_by_role role (tag_text tag.now)) }
{
    match role {
        Role::Testcase => case_cause(alloc, tag),
        Role::Top => Ok(None),
        Role::Suites => Ok(None),
        Role::Suite => Ok(None),
        Role::Outcome => Ok(None),
        Role::Passed => Ok(None),
    }
}

fn depth_cause(depth: usize) -> Option<Cause>
    ensures { result ≡ depth_cause depth }
{
    if depth >= 32 {
        Some(Cause::TooDeep)
    } else {
        None
    }
}

/// What is wrong with a tag at its own place.
fn tag_cause(alloc: Global, spot: Spot, tag: &Tag<'_>) -> Result<Option<Cause>, AllocError>
    ensures { IfOk result (λ o. o
        ≡ tag_cause spot.outer spot.has_root spot.depth (tag_text tag.now)) }
{
    let root = root_cause(spot.outer, spot.has_root, tag.name);
    let case = cause_by_role(alloc, role_in(spot.outer, tag.name), tag)?;
    Ok(root.or(case.or(depth_cause(spot.depth))))
}

/// The faulty reference of an attribute, at its own place.
fn flaw_of_attribute(attribute: &Attribute<'_>) -> Option<Flaw>
    ensures { result ≡ flaw_of_attribute (attribute_text attribute.now) }
{
    match flaw_in(attribute.value) {
        Some(flaw) => {
            let before = attribute.value.len().saturating_sub(flaw.left);
            Some(Flaw {
                left: attribute.left.saturating_sub(before),
                cause: flaw.cause,
            })
        }
        None => None,
    }
}

/// The first faulty reference of attributes.
fn first_flaw(attributes: &[Attribute<'_>]) -> Option<Flaw>
    ensures { result ≡ first_flaw (map attribute_text attributes.now) }
{
    for attribute in attributes {
        if let Some(flaw) = flaw_of_attribute(attribute) {
            return Some(flaw);
        }
    }
    None
}

/// What is wrong with a tag, so many bytes before the end.
pub fn tag_flaw(
    alloc: Global,
    spot: Spot,
    left: usize,
    tag: &Tag<'_>,
) -> Result<Option<Flaw>, AllocError>
    ensures { IfOk result (λ o. o
        ≡ tag_flaw spot.outer spot.has_root spot.depth left (tag_text tag.now)) }
{
    match tag_cause(alloc, spot, tag)? {
        Some(cause) => Ok(Some(Flaw { left, cause })),
        None => Ok(first_flaw(tag.attributes.as_slice())),
    }
}
