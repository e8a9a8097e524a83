//! The pages of verdicts, read to the last one.
ghost use Rattle.std.specs.Prelude.{◌≡◌, ◌≢◌, None, Err, IfOk, IfErr, MatchOption, MatchResult};
ghost use Rattle.serde_json.specs.Data.{Data};
ghost use Rattle.serde_json.specs.View.{view};
ghost use Rattle.tellers.specs.Exchange.{StandsForSome};
ghost use Rattle.workload_plans.specs.Requests.{page_query};
ghost use Rattle.workload_turns.specs.Pages.{HasJson, IsCursorOf, IsNext, Page as PageOf, Shows, ShowsJson, next_of, verdicts_of};
ghost use Rattle.workload_turns.specs.Courses.{IsTurned, ReadsPages};
ghost use Rattle.workload_turns.specs.Tallies.{Counts};

use crate::asking::ask;
use crate::stops::Stop;
use crate::tally::Tally;
use json_fields::{BodyFault, read_json};
use page_tokens::{Query, TokenFault, VerdictCursor, read_token};
use serde_json::Value;
use std::alloc::{AllocError, Global};
use tellers::Teller;
use workload_plans::{Answer, Asking, query_of};

/// What every reply in JSON begins with.
const PREFIX: &[u8] = b")]}'\n";

/// The JSON of a reply's body, where it has some.
fn json_in(alloc: Global, body: &[u8]) -> Result<Option<Value>, AllocError>
    ensures { IfOk result (λ found. MatchOption found
        ((d : Data) → ¬ HasJson body.now d) (λ value. HasJson body.now (view value))) }
{
    let Some(text) = body.strip_prefix(PREFIX) else {
        return Ok(None);
    };
    match read_json(alloc, text) {
        Ok(value) => Ok(Some(value)),
        Err(BodyFault::NotJson) => Ok(None),
        Err(BodyFault::In(_)) => Err(AllocError),
    }
}

/// What a reply shows, where it is a whole one.
fn shown_in(alloc: Global, answer: &Answer) -> Result<Option<Value>, AllocError>
    ensures { IfOk result (λ found. MatchOption found
        ((d : Data) → ¬ ShowsJson answer.now d) (λ value. ShowsJson answer.now (view value))) }
{
    if answer.status != 200 {
        return Ok(None);
    }
    json_in(alloc, answer.body.as_slice())
}

/// Counts the verdicts of a page.
fn count_page(tally: &mut Tally, page: &Value)
    ensures { Counts tally.old 0 (verdicts_of (view page.now)) tally.new }
{
    if let Some(Value::Array(verdicts)) = page.get("testVariants") {
        tally.count_verdicts(verdicts.as_slice());
    }
}

/// What a text that isn't read as a token is the token of: of no cursor, unless memory was wanting.
fn unread(fault: TokenFault) -> Result<Option<VerdictCursor>, AllocError>
    ensures { IfOk result (λ cursor. (cursor ≡ None) × (fault ≢ TokenFault.Memory)) }
{
    match fault {
        TokenFault::Memory => Err(AllocError),
        _ => Ok(None),
    }
}

/// The cursor that a text is the token of, where it is one of the query.
fn cursor_of(alloc: Global, query: &Query, text: &str) -> Result<Option<VerdictCursor>, AllocError>
    ensures { IfOk result (IsCursorOf query.now text.now) }
{
    match read_token::<VerdictCursor>(alloc, text.as_bytes(), query) {
        Ok(cursor) => Ok(Some(cursor)),
        Err(fault) => unread(fault),
    }
}

/// Behind which verdict the next page begins, where a page tells of one.
fn next_in(alloc: Global, query: &Query, page: &Value) -> Result<Option<VerdictCursor>, AllocError>
    ensures { IfOk result (IsNext query.now (next_of (view page.now))) }
{
    match page.get("nextPageToken") {
        Some(Value::String(token)) => cursor_of(alloc, query, token.as_str()),
        _ => Ok(None),
    }
}

/// Counts the verdicts that a reply shows, and finds behind which one the next page begins.
fn read_page(
    alloc: Global,
    query: &Query,
    tally: &mut Tally,
    answer: &Answer,
) -> Result<Option<VerdictCursor>, AllocError>
    ensures { MatchResult result
        (λ next. (page : PageOf) × Shows answer.now page × IsNext query.now page.next next
        × Counts tally.old 0 page.verdicts tally.new)
        (λ _. tally.new ≡ tally.old) }
{
    let Some(page) = shown_in(alloc, answer)? else {
        return Ok(None);
    };
    let next = next_in(alloc, query, &page)?;
    count_page(tally, &page);
    Ok(next)
}

/// The pages of the verdicts that an invocation reaches.
#[derive(Drop)]
struct Pages<'s> {
    asking: Asking<'s>,
    /// The number of the invocation.
    number: u64,
    query: Query,
}

impl<'s> Pages<'s> {
    /// Asks for a page, and reads it.
    fn turn<T: Teller>(
        &self,
        teller: &mut T,
        tally: &mut Tally,
        behind: Option<VerdictCursor>,
    ) -> Result<Option<VerdictCursor>, Stop>
        requires stands { StandsForSome T.stands teller.old }
        requires query { self.now.query ≡ page_query self.now.number }
        ensures ok { IfOk result (λ next. IsTurned T.stands self.now.number teller.old tally.old
            behind next teller.new tally.new) }
        ensures err { IfErr result (λ stop. ReadsPages T.stands self.now.number teller.old
            tally.old behind (Err stop) teller.new tally.new) }
        ensures stands { StandsForSome T.stands teller.new }
        ensures holds { T.holds teller.new ≡ T.holds teller.old }
    {
        let asked = self.asking.page(self.number, behind)?;
        let answer = match ask(teller, tally, &asked) {
            Ok(answer) => answer,
            Err(stop) => return Err(stop),
        };
        match read_page(self.asking.alloc, &self.query, tally, &answer) {
            Ok(next) => Ok(next),
            Err(_) => Err(Stop::Memory),
        }
    }

    /// Asks for each page behind the one before, until one tells of none behind it.
    fn read<T: Teller>(&self, teller: &mut T, tally: &mut Tally) -> Result<(), Stop>
        requires stands { StandsForSome T.stands teller.old }
        requires query { self.now.query ≡ page_query self.now.number }
        ensures reads { ReadsPages T.stands self.now.number teller.old tally.old None result
            teller.new tally.new }
        ensures stands { StandsForSome T.stands teller.new }
        ensures holds { T.holds teller.new ≡ T.holds teller.old }
    {
        let mut behind = None;
        'pages: for _ in 0..u64::MAX {
            match self.turn(teller, tally, behind) {
                Ok(Some(next)) => behind = Some(next),
                Ok(None) => return Ok(()),
                Err(stop) => return Err(stop),
            }
        }
        Err(Stop::Memory)
    }
}

/// Reads the pages of the verdicts that the invocation of a number reaches, to the last one.
pub(crate) fn read_pages<T: Teller>(
    teller: &mut T,
    tally: &mut Tally,
    asking: Asking<'_>,
    number: u64,
) -> Result<(), Stop>
    requires { StandsForSome T.stands teller.old }
    ensures reads { ReadsPages T.stands number teller.old tally.old None result
        teller.new tally.new }
    ensures stands { StandsForSome T.stands teller.new }
    ensures holds { T.holds teller.new ≡ T.holds teller.old }
{
    let query = query_of(asking.alloc, number)?;
    let pages = Pages {
        asking,
        number,
        query,
    };
    pages.read(teller, tally)
}
