//! How much of a journal the records take.
ghost use Rattle.std.specs.Prelude.{◌≡◌, IfOk, IfNone, IfSome};
ghost use Rattle.call_forms.specs.Rules.{refusal_answer};
ghost use Rattle.service_effects.specs.Storing.{IsStorable, StoreRefused, bytes_of, store_full};

use crate::effect::Effect;
use crate::faults::refusal;
use call_forms::{Answer, Refusal, write_refusal};
use std::alloc::{AllocError, Global};

/// How many bytes the records of requests may take: 2^30 - 2^22.
const MOST_STORED: u64 = 1_069_547_520;

/// There is no place for a record of this length in a journal whose records take so many bytes.
#[derive(Clone, Copy, Debug, PartialEq, Eq)]
pub struct StoreFull {
    pub stored: u64,
    pub length: u64,
}

impl StoreFull {
    /// The refusal that names the rule, and what breaks it.
    fn refusal(self, alloc: Global) -> Result<Refusal, AllocError>
        ensures { IfOk result (λ r. r ≡ store_full self.stored self.length) }
    {
        let StoreFull { stored, length } = self;
        Ok(refusal(21, format!(in alloc; "{stored} {length}")?.into_bytes()))
    }

    /// The answer that refuses the request. `Err` where there is no memory for its text.
    pub fn answer(self, alloc: Global) -> Result<Answer, AllocError>
        ensures { IfOk result (λ answer. answer
            ≡ refusal_answer (store_full self.stored self.length)) }
    {
        write_refusal(alloc, &self.refusal(alloc)?)
    }

    /// Whether there is no place for a record of so many bytes behind those that take so many.
    pub fn of(stored: u64, length: u64) -> Option<StoreFull>
        ensures some { IfSome result (λ full.
            StoreRefused stored length (store_full full.stored full.length)) }
        ensures none { IfNone result (IsStorable stored length) }
    {
        if length > 0 && (length > MOST_STORED || stored > MOST_STORED - length) {
            return Some(StoreFull { stored, length });
        }
        None
    }
}

impl Effect {
    /// How many bytes its record takes, where that of a call takes so many: what does nothing isn't
    /// recorded.
    pub fn bytes_of(&self, length: u64) -> u64
        ensures { result ≡ bytes_of self.now length }
    {
        if self.is_nothing() { 0 } else { length }
    }
}
