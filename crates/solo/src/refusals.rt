//! What a domain answers, in the words of one hand: why the engine gives no answer, and what was queued.
ghost use Rattle.std.specs.Prelude.{◌^◌, ◌≤◌, IfOk};
ghost use Rattle.solo.specs.Refusals.{IsNotBusy, NoneIsBusy, IsToldAs, IsStartedAs, IsQueuedAs};

use crate::queued::Queued;
use calls::{CallRefusal, Receipt};
use domain::AdvanceRefusal;
use scan::{NotStarted, PeriodsExhausted, Progress};
use sseq::Number;

/// The answer of a step, or of several. Nobody else has the engine.
pub(crate) fn told(answer: Result<Progress, AdvanceRefusal>) -> Result<Progress, PeriodsExhausted>
    requires { IsNotBusy answer }
    ensures { IsToldAs answer result }
{
    match answer {
        Ok(progress) => Ok(progress),
        Err(AdvanceRefusal::Exhausted) => Err(PeriodsExhausted),
        Err(AdvanceRefusal::Busy) => unreachable!(),
    }
}

/// The answer of a start. Nobody else has the engine.
pub(crate) fn started(answer: Result<Number, domain::StartRefusal>) -> Result<Number, NotStarted>
    requires { NoneIsBusy answer }
    ensures { IsStartedAs answer result }
{
    match answer {
        Ok(number) => Ok(number),
        Err(domain::StartRefusal::Running) => Err(NotStarted::Running),
        Err(domain::StartRefusal::Exhausted) => Err(NotStarted::Exhausted),
        Err(domain::StartRefusal::Busy) => unreachable!(),
    }
}

/// The answer of a call. Nothing else is told of a job that was queued, and one that is refused comes back.
pub(crate) fn queued<J>(
    answer: Result<Receipt<J>, (J, CallRefusal)>,
) -> Result<Queued, (J, CallRefusal)>
    ensures told { IsQueuedAs answer result }
    ensures small { IfOk result (λ job. job.cookie ≤ 2 ^ 61) }
{
    match answer {
        Ok(receipt) => Ok(Queued {
            k: receipt.k(),
            cookie: receipt.cookie(),
        }),
        Err(refused) => Err(refused),
    }
}
