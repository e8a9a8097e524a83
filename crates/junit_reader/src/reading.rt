//! A report as far as it was read.
ghost use Rattle.std.specs.Prelude.{◌≡◌, ◌++◌, ◌∷◌, ℕ, List, Option, OnOk, IfNone, IfSome, Err, []};
ghost use Rattle.junit_parts.specs.Cases.{leaf_text, role_of};
ghost use Rattle.junit_parts.specs.Constructs.{Leaf, Text, Reference, Data, Comment, Stands, Opens, Whole, Closes};
ghost use Rattle.junit_parts.specs.Constructs.{Entity, token_of};
ghost use Rattle.junit_reader.specs.Standing.{Begins, Ends, Finishes, IsJudged, StandsFor, Takes};
ghost use Rattle.junit_parts.specs.Flaws.{flaw_at, tag_flaw};
ghost use Rattle.junit_reader.specs.declared.reading.Open.{Open};
ghost use Rattle.junit_parts.specs.Tags.{TagText, tag_text};
ghost use Rattle.junit_parts.specs.Tree.{Content, Nothing, Outside, Then, Unfinished, Within, closed, content_of};
ghost use Rattle.junit_parts.specs.Tree.{depth_of, has_root, put};

use crate::pending::Pending;
use junit_parts::{
    Cause, Construct, Flaw, Role, Spot, Stop, Tag, Unsupported, role_in, tag_flaw, white_len,
};
use names_realms::Case;
use std::alloc::{AllocError, Global};
use std::mem;

/// An element that is open.
#[derive(Clone, Copy, Debug)]
pub(crate) struct Open<'a> {
    pub(crate) name: &'a [u8],
    pub(crate) role: Role,
}

/// What is kept of a report as far as it was read: the open elements, the cases, and the case that
/// is open.
#[derive(Debug, Drop)]
pub(crate) struct Reading<'a> {
    pub(crate) opened: Vec<Open<'a>>,
    pub(crate) has_root: bool,
    pub(crate) cases: Vec<Case>,
    pub(crate) pending: Pending,
}

/// Begins what an element is to its case.
fn begin_role(
    pending: &mut Pending,
    alloc: Global,
    role: Role,
    tag: &Tag<'_>,
) -> Result<(), AllocError>
    ensures { OnOk result (Begins role pending.old pending.new (tag_text tag.now)) }
{
    match role {
        Role::Testcase => {
            *pending = Pending::begun(alloc, tag)?;
            Ok(())
        }
        Role::Outcome => pending.begin_outcome(alloc, tag),
        Role::Top => Ok(()),
        Role::Suites => Ok(()),
        Role::Suite => Ok(()),
        Role::Passed => Ok(()),
    }
}

/// Ends what an element is to its case, and adds the case that it ends.
fn end_role(
    pending: &mut Pending,
    alloc: Global,
    cases: &mut Vec<Case>,
    element: Open<'_>,
) -> Result<(), AllocError>
    ensures { OnOk result (Ends element.entry.role pending.old pending.new
        cases.old.items cases.new.items element.entry.name.now) }
{
    match element.role {
        Role::Testcase => {
            let ended = mem::replace(pending, Pending::new(alloc));
            cases.push(ended.into_case(alloc))?;
            Ok(())
        }
        Role::Outcome => pending.end_outcome(alloc, element.name),
        Role::Top => Ok(()),
        Role::Suites => Ok(()),
        Role::Suite => Ok(()),
        Role::Passed => Ok(()),
    }
}

/// A flaw as the reason to stop.
fn flawed(left: usize, cause: Cause) -> Result<(), Stop>
    ensures { result ≡ Err (Stop.Flawed (flaw_at left cause)) }
{
    Err(Stop::Flawed(Flaw { left, cause }))
}

impl<'a> Reading<'a> {
    /// Nothing was read.
    pub(crate) fn new(alloc: Global) -> Reading<'a>
        ensures { StandsFor result (Outside Nothing) }
    {
        Reading {
            opened: Vec::new(alloc),
            has_root: false,
            cases: Vec::new(alloc),
            pending: Pending::new(alloc),
        }
    }

    /// The innermost open element.
    fn innermost(&self) -> Option<Open<'a>>
        ensures none { IfNone result (self.now.opened.items ≡ []) }
        ensures some { IfSome result (λ o. (before : List Open)
            × (self.now.opened.items ≡ before ++ o ∷ [])) }
    {
        self.opened.last().copied()
    }

    /// What the innermost open element is.
    fn role(&self) -> Role
        ensures { (u : Unfinished) → StandsFor self.now u → result ≡ role_of u }
    {
        match self.innermost() {
            Some(element) => element.role,
            None => Role::Top,
        }
    }

    /// Where a tag stands.
    fn spot(&self) -> Spot
        ensures { (u : Unfinished) → StandsFor self.now u
            → result ≡ record { outer = role_of u; has_root = has_root u; depth = depth_of u } }
    {
        Spot {
            outer: self.role(),
            has_root: self.has_root,
            depth: self.opened.as_slice().len(),
        }
    }

    /// Opens an element.
    fn open_element(&mut self, alloc: Global, tag: &Tag<'a>) -> Result<(), AllocError>
        ensures { OnOk result ((u : Unfinished) (left : ℕ) → StandsFor self.old u
            → StandsFor self.new (Within u left (tag_text tag.now) Nothing)) }
    {
        let role = role_in(self.role(), tag.name);
        begin_role(&mut self.pending, alloc, role, tag)?;
        self.opened.push(Open {
            name: tag.name,
            role,
        })?;
        self.has_root = true;
        Ok(())
    }

    /// Closes the innermost element.
    fn close_element(&mut self, alloc: Global) -> Result<(), AllocError>
        ensures { OnOk result ((outer : Unfinished) (left : ℕ) (tag : TagText) (content : Content)
            (end : Option (ℕ × List ℕ)) → StandsFor self.old (Within outer left tag content)
            → StandsFor self.new (closed outer left tag content end)) }
    {
        match self.opened.pop() {
            Some(element) => {
                end_role(&mut self.pending, alloc, &mut self.cases, element)?;
                Ok(())
            }
            None => Ok(()),
        }
    }

    /// Adds own text of what is open.
    fn add_text(&mut self, text: &[u8]) -> Result<(), AllocError>
        ensures { OnOk result ((u : Unfinished) (left : ℕ) (leaf : Leaf) → leaf_text leaf ≡ text.now
            → StandsFor self.old u → StandsFor self.new (put u (Then (content_of u) left leaf))) }
    {
        match self.role() {
            Role::Outcome => self.pending.add_text(text),
            _ => Ok(()),
        }
    }

    /// Takes text.
    fn take_text(&mut self, left: usize, text: &[u8]) -> Result<(), Stop>
        ensures { Takes self.old result self.new left (Stands (Text text.now)) }
    {
        if self.opened.is_empty() {
            let white = white_len(text);
            if white < text.len() {
                return flawed(left.saturating_sub(white), Cause::NotWellFormed);
            }
        }
        self.add_text(text)?;
        Ok(())
    }

    /// Takes a reference to a character.
    fn take_reference(&mut self, left: usize, c: char) -> Result<(), Stop>
        ensures { Takes self.old result self.new left (Stands (Reference c)) }
    {
        if self.opened.is_empty() {
            return flawed(left, Cause::NotWellFormed);
        }
        let mut buffer = [0u8; 4];
        let encoded = c.encode_utf8(&mut buffer);
        self.add_text(encoded.as_bytes())?;
        Ok(())
    }

    /// Takes a CDATA section.
    fn take_data(&mut self, left: usize, text: &[u8]) -> Result<(), Stop>
        ensures { Takes self.old result self.new left (Stands (Data text.now)) }
    {
        if self.opened.is_empty() {
            return flawed(left, Cause::NotWellFormed);
        }
        self.add_text(text)?;
        Ok(())
    }

    /// Takes a comment.
    fn take_comment(&mut self, left: usize) -> Result<(), Stop>
        ensures { Takes self.old result self.new left (Stands Comment) }
    {
        let _ = left;
        self.add_text(b"")?;
        Ok(())
    }

    /// Judges a tag where it stands.
    fn judge(&self, alloc: Global, left: usize, tag: &Tag<'a>) -> Result<(), Stop>
        ensures { (u : Unfinished) → StandsFor self.now u
            → IsJudged result
            (tag_flaw (role_of u) (has_root u) (depth_of u) left (tag_text tag.now)) }
    {
        match tag_flaw(alloc, self.spot(), left, tag)? {
            Some(flaw) => Err(Stop::Flawed(flaw)),
            None => Ok(()),
        }
    }

    /// Takes a start tag.
    fn take_start(&mut self, alloc: Global, left: usize, tag: &Tag<'a>) -> Result<(), Stop>
        ensures { Takes self.old result self.new left (Opens (tag_text tag.now)) }
    {
        self.judge(alloc, left, tag)?;
        self.open_element(alloc, tag)?;
        Ok(())
    }

    /// Takes the tag of an element without content.
    fn take_whole(&mut self, alloc: Global, left: usize, tag: &Tag<'a>) -> Result<(), Stop>
        ensures { Takes self.old result self.new left (Whole (tag_text tag.now)) }
    {
        self.judge(alloc, left, tag)?;
        self.open_element(alloc, tag)?;
        self.close_element(alloc)?;
        Ok(())
    }

    /// Takes an end tag.
    fn take_end(&mut self, alloc: Global, left: usize, name: &[u8]) -> Result<(), Stop>
        ensures { Takes self.old result self.new left (Closes name.now) }
    {
        match self.innermost() {
            Some(element) => {
                if element.name != name {
                    return flawed(left, Cause::NotWellFormed);
                }
                self.close_element(alloc)?;
                Ok(())
            }
            None => flawed(left, Cause::NotWellFormed),
        }
    }

    /// Takes a reference to an entity that isn't read.
    fn take_entity(&mut self, left: usize) -> Result<(), Stop>
        ensures { Takes self.old result self.new left Entity }
    {
        if self.opened.is_empty() {
            return flawed(left, Cause::NotWellFormed);
        }
        flawed(left, Cause::Unsupported(Unsupported::Entity))
    }

    /// Takes a construct, so many bytes before the end.
    pub(crate) fn take(
        &mut self,
        alloc: Global,
        left: usize,
        construct: Construct<'a>,
    ) -> Result<(), Stop>
        ensures { Takes self.old result self.new left (token_of construct.entry) }
    {
        match construct {
            Construct::Text(text) => self.take_text(left, text),
            Construct::Reference(c) => self.take_reference(left, c),
            Construct::Data(text) => self.take_data(left, text),
            Construct::Comment => self.take_comment(left),
            Construct::Opens(tag) => self.take_start(alloc, left, &tag),
            Construct::Whole(tag) => self.take_whole(alloc, left, &tag),
            Construct::Closes(name) => self.take_end(alloc, left, name),
            Construct::Entity => self.take_entity(left),
            Construct::Doctype => flawed(left, Cause::Unsupported(Unsupported::Doctype)),
            Construct::Instruction => flawed(left, Cause::Unsupported(Unsupported::Instruction)),
        }
    }

    /// The cases of what was read to its end, where nothing is open and there was a root.
    pub(crate) fn end(self) -> Result<Vec<Case>, Stop>
        ensures { Finishes self.entry result }
    {
        if !self.opened.is_empty() {
            return Err(Stop::Flawed(Flaw {
                left: 0,
                cause: Cause::NotWellFormed,
            }));
        }
        if self.has_root {
            Ok(self.cases)
        } else {
            Err(Stop::Flawed(Flaw {
                left: 0,
                cause: Cause::NoRoot,
            }))
        }
    }
}
