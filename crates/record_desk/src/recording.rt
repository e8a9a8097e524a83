//! One call on a book of the service: what it changes is recorded first, and made then.
ghost use Rattle.std.specs.Prelude.{◌≡◌, ◌≢◌, ◌⊎◌, ℕ, ◌≤ℤ◌, List, Err, IfOk, OnErr, OnOk};
ghost use Rattle.call_forms.specs.declared.forms.Answer.{Answer as AnswerOf};
ghost use Rattle.invocation_world.specs.Advancing.{IsDueAt};
ghost use Rattle.invocation_world.specs.World.{IsCallMoment};
ghost use Rattle.service_machine.specs.RequestDemands.Understood.{IsUnderstood};
ghost use Rattle.result_journal.specs.Journals.{disk_of};
ghost use Rattle.service_machine.specs.ServiceEffects.Fitting.{IsTimely};
ghost use Rattle.service_machine.specs.ServiceCore.CoreState.{world_in};
ghost use Rattle.service_machine.specs.ServiceCore.History.{Serves, entry_at};
ghost use Rattle.service_machine.specs.ServiceCore.Plans.{Carries, Fits, IsPlanOf};
ghost use Rattle.service_machine.specs.Machines.{Plays};
ghost use Rattle.service_machine.specs.ServiceCore.Service.{CatchesUp};
ghost use Rattle.service_machine.specs.ServiceCore.Step.{IsTold};
ghost use Rattle.service_machine.specs.Machines.{IsFit};
ghost use Rattle.record_desk.specs.Standing.{IsTried, RoseIf};
ghost use Rattle.record_desk.specs.Recording.{IsToldBy, KeepsBook, StandsFromNothing, TriesAtMost};
ghost use Rattle.record_desk.specs.Recording.{has_failed, is_unavailable, standin_of};

use crate::Inquiry;
use call_forms::{Answer, Standin, Told};
use disks::Disk;
use journal_book::{Book, RecordFault};
use names_realms::Moment;
use service_machine::{Plan, Policy, Prepared, RecordedPlan, ServiceMachine, Understood, Wanted};
use std::alloc::{AllocError, Global};

/// What is told where a change isn't recorded. That the journal is full can't be told apart from
/// want of memory yet.
fn standin_of(fault: RecordFault) -> Standin
    ensures { result ≡ standin_of fault }
{
    match fault {
        RecordFault::DiskFailed => Standin::Unavailable,
        RecordFault::Full { .. } | RecordFault::Memory => Standin::Memory,
    }
}

/// Records a change, and makes it. `Err` says what is told in its place, and then the world is as
/// before.
fn record_change<D: Disk>(
    alloc: Global,
    book: &mut Book<ServiceMachine, D>,
    plan: RecordedPlan,
) -> Result<Option<Answer>, Standin>
    requires stands { StandsFromNothing D.told Plays (world_in book.old.machine.core)
        book.old.journal }
    requires fits { IsFit book.old.machine.core plan }
    ensures answer { IfOk result (λ answer. answer ≡ plan.plan.answer) }
    ensures world { OnOk result (Carries (world_in book.old.machine.core) plan.plan
        (world_in book.new.machine.core)) }
    ensures same { OnErr result
        (world_in book.new.machine.core ≡ world_in book.old.machine.core) }
    ensures keeps { KeepsBook D.told Plays (world_in book.old.machine.core) book.old.journal
        (λ next. (result ≡ Err Standin.Unavailable)
        × Carries (world_in book.old.machine.core) plan.plan next)
        (world_in book.new.machine.core) book.new.journal }
    ensures any_moment { TriesAtMost D.told Plays (world_in book.old.machine.core) book.old.journal
        (Carries (world_in book.old.machine.core) plan.plan) book.new.journal }
    ensures rose { RoseIf (has_failed result) (D.faults (disk_of book.old.journal))
        (D.faults (disk_of book.new.journal)) }
    ensures unspent { result ≢ Err Standin.Spent }
{
    match book.record(alloc, plan) {
        Ok(answer) => Ok(answer),
        Err(fault) => Err(standin_of(fault)),
    }
}

/// Carries out the deadlines that are due at a moment, if there are any, by a tick that is recorded
/// first. `Err` says what the call is told, and then the world is as before.
#[tactic(auto, using(crate::proofs::RecordingLaws::tries_nothing))]
fn catch_up<D: Disk>(
    alloc: Global,
    book: &mut Book<ServiceMachine, D>,
    moment: Moment,
) -> Result<(), Standin>
    requires stands { StandsFromNothing D.told Plays (world_in book.old.machine.core)
        book.old.journal }
    requires in_range { IsCallMoment moment }
    requires later { book.old.machine.core.held.world.world.last ≤ℤ moment }
    ensures ok { OnOk result (CatchesUp (world_in book.old.machine.core) moment
        (world_in book.new.machine.core)) }
    ensures timely { OnOk result (IsTimely book.new.machine.core.held.world.world moment) }
    ensures due { OnOk result (IsDueAt book.old.machine.core.held.world.world moment
        ⊎ (world_in book.new.machine.core ≡ world_in book.old.machine.core)) }
    ensures same { OnErr result
        (world_in book.new.machine.core ≡ world_in book.old.machine.core) }
    ensures was_due { OnErr result (IsDueAt book.old.machine.core.held.world.world moment) }
    ensures keeps { KeepsBook D.told Plays (world_in book.old.machine.core) book.old.journal
        (λ next. (result ≡ Err Standin.Unavailable)
        × (IsDueAt book.old.machine.core.held.world.world moment
        × CatchesUp (world_in book.old.machine.core) moment next))
        (world_in book.new.machine.core) book.new.journal }
    ensures any_moment { TriesAtMost D.told Plays (world_in book.old.machine.core) book.old.journal
        (λ next. IsDueAt book.old.machine.core.held.world.world moment
        × CatchesUp (world_in book.old.machine.core) moment next) book.new.journal }
    ensures rose { RoseIf (has_failed result) (D.faults (disk_of book.old.journal))
        (D.faults (disk_of book.new.journal)) }
    ensures unspent { result ≢ Err Standin.Spent }
{
    if !book.machine.core.is_due(moment) {
        return Ok(());
    }
    let Ok(plan) = RecordedPlan::tick(alloc, &mut book.machine.core, moment) else {
        return Err(Standin::Memory);
    };
    record_change(alloc, book, plan)?;
    Ok(())
}

/// Records the change of an accepted request, makes it, and tells its answer.
#[tactic(auto, using(crate::proofs::RecordingLaws::tries_nothing))]
fn change<D: Disk>(
    alloc: Global,
    book: &mut Book<ServiceMachine, D>,
    wanted: &Wanted,
    plan: Plan,
) -> Told
    requires stands { StandsFromNothing D.told Plays (world_in book.old.machine.core)
        book.old.journal }
    requires timely { IsTimely book.old.machine.core.held.world.world wanted.now.moment }
    requires plan { IsPlanOf (record { policy = wanted.now.policy.now })
        (world_in book.old.machine.core) wanted.now.moment wanted.now.asked.now plan }
    requires fits { Fits book.old.machine.core plan }
    ensures told { IsToldBy (record { policy = wanted.now.policy.now })
        (world_in book.old.machine.core) wanted.now.moment wanted.now.asked.now result
        (world_in book.new.machine.core) }
    ensures keeps { KeepsBook D.told Plays (world_in book.old.machine.core) book.old.journal
        (λ next. (result ≡ Told.Standin Standin.Unavailable)
        × ((answer : AnswerOf) × IsTold (record { policy = wanted.now.policy.now })
        (world_in book.old.machine.core) wanted.now.moment wanted.now.asked.now next answer))
        (world_in book.new.machine.core) book.new.journal }
    ensures any_moment { TriesAtMost D.told Plays (world_in book.old.machine.core) book.old.journal
        (λ next. (answer : AnswerOf) × IsTold (record { policy = wanted.now.policy.now })
        (world_in book.old.machine.core) wanted.now.moment wanted.now.asked.now next answer)
        book.new.journal }
    ensures rose { RoseIf (is_unavailable result) (D.faults (disk_of book.old.journal))
        (D.faults (disk_of book.new.journal)) }
{
    let Ok(recorded) = RecordedPlan::change(alloc, &book.machine.core, wanted, plan) else {
        return Told::Standin(Standin::Memory);
    };
    match record_change(alloc, book, recorded) {
        Ok(Some(answer)) => Told::Made(answer),
        Ok(None) => unreachable!(),
        Err(standin) => Told::Standin(standin),
    }
}

/// Answers a request at a moment at which nothing is due. Only what changes the world touches the
/// disk.
#[tactic(auto, using(crate::proofs::RecordingLaws::tries_nothing))]
fn answer<D: Disk>(
    alloc: Global,
    book: &mut Book<ServiceMachine, D>,
    wanted: &Wanted,
    understood: Result<Understood, AllocError>,
) -> Told
    requires stands { StandsFromNothing D.told Plays (world_in book.old.machine.core)
        book.old.journal }
    requires timely { IsTimely book.old.machine.core.held.world.world wanted.now.moment }
    requires understood { IfOk understood (IsUnderstood (record { policy = wanted.now.policy.now })
        wanted.now.asked.now) }
    ensures told { IsToldBy (record { policy = wanted.now.policy.now })
        (world_in book.old.machine.core) wanted.now.moment wanted.now.asked.now result
        (world_in book.new.machine.core) }
    ensures keeps { KeepsBook D.told Plays (world_in book.old.machine.core) book.old.journal
        (λ next. (result ≡ Told.Standin Standin.Unavailable)
        × ((answer : AnswerOf) × IsTold (record { policy = wanted.now.policy.now })
        (world_in book.old.machine.core) wanted.now.moment wanted.now.asked.now next answer))
        (world_in book.new.machine.core) book.new.journal }
    ensures any_moment { TriesAtMost D.told Plays (world_in book.old.machine.core) book.old.journal
        (λ next. (answer : AnswerOf) × IsTold (record { policy = wanted.now.policy.now })
        (world_in book.old.machine.core) wanted.now.moment wanted.now.asked.now next answer)
        book.new.journal }
    ensures rose { RoseIf (is_unavailable result) (D.faults (disk_of book.old.journal))
        (D.faults (disk_of book.new.journal)) }
{
    let Ok(understood) = understood else {
        return Told::Standin(Standin::Memory);
    };
    let moment = wanted.moment;
    match book
        .machine
        .core
        .prepare(alloc, wanted.policy, moment, understood)
    {
        Ok(Prepared::Refused(answer)) => Told::Made(answer),
        Ok(Prepared::Repeated(answer)) => Told::Made(answer),
        Ok(Prepared::Answered(answer)) => Told::Made(answer),
        Ok(Prepared::Change(plan)) => change(alloc, book, wanted, plan),
        Err(AllocError) => Told::Standin(Standin::Memory),
    }
}

/// Serves a request at the moment that this answer of the clock makes, in microseconds since 1970:
/// the deadlines that are due are carried out, and then the request is judged.
///
/// Where there is no memory for that, or the disk fails, the stand-in for it is told, and nothing
/// but due deadlines is carried out.
pub fn serve<D: Disk>(
    alloc: Global,
    book: &mut Book<ServiceMachine, D>,
    now: i64,
    inquiry: Inquiry,
) -> Told
    requires stands { StandsFromNothing D.told Plays (world_in book.old.machine.core)
        book.old.journal }
    requires understood { IfOk inquiry.understood (IsUnderstood
        (record { policy = inquiry.policy.now }) inquiry.asked.now) }
    ensures serves { (seat : ℕ) → Serves (record { policy = inquiry.entry.policy.now })
        (world_in book.old.machine.core) seat now inquiry.entry.asked.now result
        (is_unavailable result) (world_in book.new.machine.core) }
    ensures keeps { (seat : ℕ) → KeepsBook D.told Plays (world_in book.old.machine.core)
        book.old.journal (λ next. (result ≡ Told.Standin Standin.Unavailable)
        × IsTried (record { policy = inquiry.entry.policy.now }) (world_in book.old.machine.core)
        (entry_at (world_in book.old.machine.core) seat now inquiry.entry.asked.now result
        (is_unavailable result)) next)
        (world_in book.new.machine.core) book.new.journal }
    ensures any_moment { (seat : ℕ) → TriesAtMost D.told Plays (world_in book.old.machine.core)
        book.old.journal (IsTried (record { policy = inquiry.entry.policy.now })
        (world_in book.old.machine.core) (entry_at (world_in book.old.machine.core) seat now
        inquiry.entry.asked.now result (is_unavailable result))) book.new.journal }
    ensures rose { RoseIf (is_unavailable result) (D.faults (disk_of book.old.journal))
        (D.faults (disk_of book.new.journal)) }
{
    let Inquiry {
        policy,
        asked,
        understood,
    } = inquiry;
    let moment = book.machine.core.moment_of(now);
    match catch_up(alloc, book, moment) {
        Ok(()) => {
            let wanted = Wanted {
                policy,
                moment,
                asked,
            };
            answer(alloc, book, &wanted, understood)
        }
        Err(standin) => Told::Standin(standin),
    }
}
