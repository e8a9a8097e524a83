//! Rules of what a request does, which are asked after those of what it demands.
ghost use Rattle.std.specs.Prelude.{◌≡◌, IfOk};
ghost use Rattle.call_forms.specs.Rules.{refusal_answer};
ghost use Rattle.service_effects.specs.Planned.{refusal_of, refusal_of_full};
ghost use Rattle.service_effects.specs.Refused.{hash_wrong};

use call_forms::{Answer, Refusal, write_refusal};
use lists::Bytes;
use std::alloc::{AllocError, Global};

/// A table that is full, with how many it has: of results, exonerations and artifacts, how many the
/// holder has.
#[derive(Clone, Copy, Debug, PartialEq, Eq)]
pub enum FullTable {
    Invocations { count: u32 },
    Inclusions { count: u32 },
    Results { count: usize },
    Exonerations { count: usize },
    Artifacts { count: usize },
}

impl FullTable {
    /// The table, and how many it has.
    fn subject(self, alloc: Global) -> Result<Vec<u8>, AllocError>
        ensures { IfOk result (λ text. text.items ≡ (refusal_of_full self).subject) }
    {
        let text = match self {
            FullTable::Invocations { count } => format!(in alloc; "invocations {count}")?,
            FullTable::Inclusions { count } => format!(in alloc; "inclusions {count}")?,
            FullTable::Results { count } => format!(in alloc; "results {count}")?,
            FullTable::Exonerations { count } => format!(in alloc; "exonerations {count}")?,
            FullTable::Artifacts { count } => format!(in alloc; "artifacts {count}")?,
        };
        Ok(text.into_bytes())
    }
}

/// A rule that a request breaks by what it does.
#[derive(Drop)]
pub enum EffectFault {
    /// A batch has more rows than there may be in one, this many.
    TooMany {
        count: usize,
    },
    /// Two rows of a batch, counted from 0, have the same name: the second that of the first.
    Repeated {
        first: usize,
        second: usize,
    },
    /// Of the artifact at this place, counted from 0, another size is said than it has.
    SizeWrong {
        index: usize,
        said: u64,
        found: u64,
    },
    /// Of the artifact at this place another SHA-256 is said than it has.
    HashWrong {
        index: usize,
        said: [u8; 32],
        found: [u8; 32],
    },
    /// There is a result or an artifact with this name, which a row of the batch has.
    Taken {
        name: Bytes,
    },
    /// There is no place in a table.
    Full(FullTable),
}

/// The refusal by a rule with this number.
pub(crate) fn refusal(rule: u8, subject: Vec<u8>) -> Refusal
    ensures { result ≡ record { rule = rule; subject = subject.items } }
{
    Refusal {
        rule,
        subject: Bytes::new(subject),
    }
}

/// The place of an artifact, the hash that is said of it, and the one that it has.
fn hashes_told(
    alloc: Global,
    index: usize,
    said: &[u8; 32],
    found: &[u8; 32],
) -> Result<Vec<u8>, AllocError>
    ensures { IfOk result (λ text. text.items ≡ (hash_wrong index said.now found.now).subject) }
{
    let said = hex::encode(alloc, said.as_slice())?;
    let found = hex::encode(alloc, found.as_slice())?;
    Ok(format!(in alloc; "{index} sha256:{said} sha256:{found}")?.into_bytes())
}

impl EffectFault {
    /// The refusal that names the rule, and what breaks it.
    fn refusal(self, alloc: Global) -> Result<Refusal, AllocError>
        ensures { IfOk result (λ r. r ≡ refusal_of self) }
    {
        match self {
            EffectFault::TooMany { count } => {
                Ok(refusal(15, format!(in alloc; "{count}")?.into_bytes()))
            }
            EffectFault::Repeated { first, second } => {
                let rows = format!(in alloc; "{first} {second}")?;
                Ok(refusal(16, rows.into_bytes()))
            }
            EffectFault::SizeWrong { index, said, found } => {
                let sizes = format!(in alloc; "{index} {said} {found}")?;
                Ok(refusal(17, sizes.into_bytes()))
            }
            EffectFault::HashWrong { index, said, found } => {
                Ok(refusal(18, hashes_told(alloc, index, &said, &found)?))
            }
            EffectFault::Taken { name } => Ok(refusal(19, name.into_vec())),
            EffectFault::Full(table) => Ok(refusal(20, table.subject(alloc)?)),
        }
    }

    /// The answer that refuses the request. `Err` where there is no memory for its text.
    pub fn answer(self, alloc: Global) -> Result<Answer, AllocError>
        ensures { IfOk result (λ answer. answer ≡ refusal_answer (refusal_of self)) }
    {
        write_refusal(alloc, &self.refusal(alloc)?)
    }
}
