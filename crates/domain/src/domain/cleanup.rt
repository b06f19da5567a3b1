//! Taking a domain down.
ghost use Rattle.std.specs.Prelude.{◌≡◌, ◌<◌, ◌≤◌, IfErr, MatchResult, length};
ghost use Rattle.domain.specs.Views.{IsOf};
ghost use Rattle.domain.specs.Parts.{Each};
ghost use Rattle.domain.specs.Counts.{AreAllThere};
ghost use Rattle.domain.specs.Cleanup.{is_there, missing_of, IsJudged, IsTakenDown, IsRefused, IsHandedBack, IsNothingLeft, IsLeft};

use crate::cpu::Cpu;
use crate::domain::Domain;
use sseq::{Number, Phase, completed, state};
use std::alloc::Allocator;
use thiserror::Error;

/// Why a domain was not taken down. Of several causes it is the first in this order.
#[derive(Clone, Copy, Debug, Error, PartialEq, Eq)]
pub enum InUse {
    /// So many of its processors were not handed in.
    #[error("processors that are out: {0}; hand in all of them")]
    Missing(u16),
    /// So many of its sections are open.
    #[error("sections that are open: {0}; close them before")]
    Sections(u64),
    /// A grace period runs.
    #[error("a grace period runs: drive it to its end before")]
    Period,
    /// So many callbacks are queued and not finished. Those of a batch that is out are among them.
    #[error("callbacks that are not finished: {0}; wait in a barrier before")]
    Callbacks(u128),
}

/// What was done in a domain, from when it was made until it was taken down.
#[derive(Clone, Copy, Debug, PartialEq, Eq)]
pub struct Totals {
    /// How many sections were begun.
    pub opened: u64,
    /// How many sections have ended.
    pub closed: u64,
    /// How many callbacks were queued.
    pub queued: u128,
    /// How many callbacks were finished.
    pub finished: u128,
    /// How many grace periods have ended.
    pub periods: u64,
}

/// The totals, where nothing is left; and else the first of what is.
fn judge(totals: Totals, number: Number) -> Result<Totals, InUse>
    requires closed { totals.closed ≤ totals.opened }
    requires finished { totals.finished ≤ totals.queued }
    ensures { MatchResult result (λ t. (t ≡ totals) × IsNothingLeft totals number) (λ cause. IsLeft totals number cause) }
{
    let open = totals.opened - totals.closed;
    if open > 0 {
        return Err(InUse::Sections(open));
    }
    let Phase::Idle = state(number) else {
        return Err(InUse::Period);
    };
    let waiting = totals.queued - totals.finished;
    if waiting > 0 {
        return Err(InUse::Callbacks(waiting));
    }
    Ok(totals)
}

/// Whether the processor of this number is among these. It is looked for at this place first.
fn is_among<J, A: Allocator>(cpus: &[Cpu<J, A>], place: usize, processor: u16) -> bool
    ensures { result ≡ is_there processor cpus.now }
{
    if let Some(cpu) = cpus.get(place) {
        if cpu.processor() == processor {
            return true;
        }
    }
    cpus.iter().any(|cpu| cpu.processor() == processor)
}

impl<J, A: Allocator> Domain<J, A> {
    /// How many processors of this domain are not among these.
    fn count_missing(&self, cpus: &[Cpu<J, A>]) -> u16
        ensures count { result ≡ missing_of self.now.processors cpus.now }
        ensures some { 0 < self.now.processors }
    {
        let mut missing = 0;
        for processor in 0..self.processors {
            // Where they are in order, as mostly, those below it that are not missing stand before it.
            let place = usize::from(processor - missing);
            if !is_among(cpus, place, processor) {
                missing += 1;
            }
        }
        missing
    }

    /// The totals, or why the domain is in use, where no processor is missing.
    fn judge_all(&self, cpus: &mut [Cpu<J, A>]) -> Result<Totals, InUse>
        requires here { Each (IsOf self.now) cpus.old }
        requires all { AreAllThere self.now cpus.old }
        requires some { 0 < length cpus.old }
        ensures { IsJudged self.now cpus.old result cpus.new }
    {
        let (first, others) = cpus.split_first_mut().unwrap();
        let (opened, closed, number) = self.count_history(first, others);
        let calls = self.count_calls(first, others);
        let totals = Totals {
            opened,
            closed,
            queued: calls.queued,
            finished: calls.finished,
            periods: completed(number),
        };
        judge(totals, number)
    }
}

impl<J: Drop, A: Allocator> Domain<J, A> {
    /// Takes the domain down (`cleanup_srcu_struct`), and tells what was done in it. It is refused where a processor of it
    /// is not handed in, a section is open, a grace period runs, or a callback is queued and not finished: the first of
    /// these, with its count. Then all is handed back, and may be used as before. It takes no memory and does not wait.
    pub fn cleanup(
        self,
        mut cpus: Vec<Cpu<J, A>, A>,
    ) -> Result<Totals, (InUse, Domain<J, A>, Vec<Cpu<J, A>, A>)>
        requires { Each (IsOf self) cpus.items }
        ensures answer { MatchResult result
            (λ totals. IsTakenDown self cpus.items totals)
            (λ refused. IsRefused self cpus.items refused.0 refused.1 refused.2.items) }
        ensures back { IfErr result (λ refused. IsHandedBack self cpus.items refused.1 refused.2.items) }
    {
        let missing = self.count_missing(cpus.as_slice());
        if missing > 0 {
            return Err((InUse::Missing(missing), self, cpus));
        }
        match self.judge_all(cpus.as_mut_slice()) {
            Ok(totals) => Ok(totals),
            Err(cause) => Err((cause, self, cpus)),
        }
    }
}
