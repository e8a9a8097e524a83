//! The requests of the workload, as they are asked.
ghost use Rattle.std.specs.Prelude.{◌≡◌, ◌++◌, ◌∷◌, [], Some, IfOk, OnOk};
ghost use Rattle.workload_plans.specs.Requests.{finalise_request, load_id, page_query};
ghost use Rattle.update_tokens.specs.Hash.{token_text};
ghost use Rattle.workload_plans.specs.Plans.{change_asked, end_asked, including_asked, invocation_asked, page_asked};

use crate::asking::asked_of;
use crate::names::invocation_id;
use crate::requests::{batch, create, finalise, include, page};
use call_forms::Asked;
use message_forms::Request;
use page_tokens::{Query, VerdictCursor};
use std::alloc::{AllocError, Global};
use update_tokens::{Secret, update_token};
use workload_draws::{Bytes, DrawnInvocation};

/// Who asks: the one caller, to whom the update tokens under a secret are known.
#[derive(Clone, Copy)]
pub struct Asking<'s> {
    pub alloc: Global,
    pub secret: &'s Secret,
}

impl<'s> Asking<'s> {
    /// The update token of the invocation of a number.
    fn token(self, number: u64) -> Result<Bytes, AllocError>
        ensures { IfOk result
            (λ token. token ≡ token_text self.entry.secret.now (load_id number)) }
    {
        let id = invocation_id(self.alloc, number)?;
        let token = update_token(self.secret, &id);
        Bytes::from_slice(self.alloc, token.as_slice())
    }

    /// What changes the invocation of a number, with its update token.
    fn change(self, number: u64, request: Request) -> Result<Asked, AllocError>
        ensures { IfOk result
            (λ asked. asked ≡ change_asked self.entry.secret.now number request) }
    {
        let mut asked = asked_of(self.alloc, request)?;
        asked.update_token = Some(self.token(number)?);
        Ok(asked)
    }

    /// Puts that an invocation include another one, where that was drawn.
    fn put_including(
        self,
        list: &mut Vec<Asked>,
        number: u64,
        includes: Option<u64>,
    ) -> Result<(), AllocError>
        ensures { OnOk result (list.new.items
            ≡ list.old.items ++ including_asked self.entry.secret.now number includes) }
    {
        match includes {
            None => Ok(()),
            Some(other) => {
                let request = include(self.alloc, number, other)?;
                list.push(self.change(number, request)?)?;
                Ok(())
            }
        }
    }

    /// Puts that an invocation end, where that was drawn.
    fn put_end(self, list: &mut Vec<Asked>, number: u64, finalises: bool) -> Result<(), AllocError>
        ensures { OnOk result (list.new.items
            ≡ list.old.items ++ end_asked self.entry.secret.now number finalises) }
    {
        if finalises {
            list.push(self.end(number)?)?;
        }
        Ok(())
    }

    /// What is asked for the invocation of a number, of which this was drawn.
    pub fn invocation(self, number: u64, drawn: &DrawnInvocation) -> Result<Vec<Asked>, AllocError>
        ensures { IfOk result
            (λ list. list.items ≡ invocation_asked self.entry.secret.now number drawn.now) }
    {
        let mut list = Vec::with_capacity(self.alloc, 4)?;
        let creation = create(self.alloc, number)?;
        list.push(asked_of(self.alloc, creation)?)?;
        self.put_including(&mut list, number, drawn.includes)?;
        let batch = batch(self.alloc, number, drawn.results.as_slice())?;
        list.push(self.change(number, batch)?)?;
        self.put_end(&mut list, number, drawn.finalises)?;
        Ok(list)
    }

    /// That the invocation of a number end.
    pub fn end(self, number: u64) -> Result<Asked, AllocError>
        ensures { IfOk result
            (λ asked. asked ≡ change_asked self.entry.secret.now number (finalise_request number)) }
    {
        let request = finalise(self.alloc, number)?;
        self.change(number, request)
    }

    /// A page of the verdicts that the invocation of a number reaches.
    pub fn page(self, number: u64, behind: Option<VerdictCursor>) -> Result<Asked, AllocError>
        ensures { IfOk result (λ asked. asked ≡ page_asked number behind) }
    {
        let query = page(self.alloc, number, behind)?;
        asked_of(self.alloc, Request::QueryTestVariants(query))
    }
}

/// The query of these pages, of which their tokens are.
pub fn query_of(alloc: Global, number: u64) -> Result<Query, AllocError>
    ensures { IfOk result (λ query. query ≡ page_query number) }
{
    page(alloc, number, None)?.query(alloc)
}
