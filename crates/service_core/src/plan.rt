//! What is planned and not yet carried out.
ghost use Rattle.std.specs.Prelude.{◌≡◌};

use call_forms::Answer;
use kept_replies::Ready;
use names_realms::Moment;
use request_effects::Numbered;
use service_effects::Change;
use std::marker::Model;

/// What is to be done.
#[derive(Drop)]
pub enum Work {
    /// The deadlines that are due at this moment are carried out.
    Tick(Moment),
    /// A request's change is made.
    Change(Change),
}

/// What is ready to be done and to be kept, the answer that it gives, where it answers a request,
/// and how many bytes its record takes.
#[derive(Drop)]
pub struct Plan {
    work: Work,
    keep: Option<Ready>,
    answer: Option<Answer>,
    length: u64,
    made_at: u64,
}

/// What the record of a call says beside its request: the number of the request, if it has one, and
/// how many bytes the record takes.
#[derive(Drop)]
pub struct CallRecord {
    pub numbered: Option<Numbered>,
    pub length: u64,
}

impl Model for Plan {
    ghost use Rattle.service_core.specs.CoreState.{PlanState};

    ghost Value = { PlanState };

    ghost view = { λ p. record {
      work = p.work;
      keep = p.keep;
      answer = p.answer;
      length = p.length;
      made_at = p.made_at;
    } };
}

impl Plan {
    /// The plan of what is to be done and to be kept, with its answer, and with a record of so many
    /// bytes, made after this many changes.
    pub(crate) fn new(
        work: Work,
        keep: Option<Ready>,
        answer: Option<Answer>,
        length: u64,
        made_at: u64,
    ) -> Plan
        ensures { result ≡ record {
          work = work;
          keep = keep;
          answer = answer;
          length = length;
          made_at = made_at;
        } }
    {
        Plan {
            work,
            keep,
            answer,
            length,
            made_at,
        }
    }

    /// How many bytes its record takes.
    pub(crate) fn length(&self) -> u64
        ensures { result ≡ self.now.length }
    {
        self.length
    }

    /// What is to be done and to be kept, and the answer.
    pub(crate) fn into_parts(self) -> (Work, Option<Ready>, Option<Answer>)
        ensures work { result.0 ≡ self.work }
        ensures keep { result.1 ≡ self.keep }
        ensures answer { result.2 ≡ self.answer }
    {
        (self.work, self.keep, self.answer)
    }
}

/// What a request comes to.
#[derive(Drop)]
pub enum Prepared {
    /// It is refused, by this answer.
    Refused(Answer),
    /// It is a repeat, and this is the answer that it got before.
    Repeated(Answer),
    /// It is accepted and changes nothing, and this is its answer.
    Answered(Answer),
    /// It is accepted, and this is left to be done.
    Change(Plan),
}
