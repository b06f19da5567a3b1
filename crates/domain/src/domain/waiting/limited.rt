//! Waiting for a grace period, up to a limit of time.
ghost use Rattle.std.specs.Prelude.{IfOk, MatchResult};
ghost use Rattle.domain.specs.Views.{IsOf, IsSameProcessor};
ghost use Rattle.domain.specs.Waiting.{HasNoneOpen, Synchronizes, WaitedFor};
ghost use Rattle.domain.specs.Limited.{IsCutShort};

use super::give_way;
use crate::cpu::Cpu;
use crate::domain::Domain;
use crate::limit::Limit;
use crate::pause::Pause;
use scan::PeriodsExhausted;
use sections::Cookie;
use std::alloc::Allocator;
use std::fmt;
use std::sync::Wait;
use std::time::{Clock, Duration};

/// Why [`Domain::synchronize_for`] came back before its grace period had ended.
#[derive(Drop)]
pub enum WaitRefusal {
    /// The time was over. The grace period stays asked for. Once the cookie is done, each section is closed that was open when
    /// the call began: poll it, or drop it.
    TimedOut(Cookie),
    /// A turn of the call found that no more grace periods may start.
    Exhausted,
}

impl fmt::Display for WaitRefusal {
    fn fmt<W: fmt::Write>(&self, f: &mut fmt::Formatter<W>) -> fmt::Result {
        match self {
            WaitRefusal::TimedOut(_) => f.write_str(
                "the time is over: find who holds it up, and poll the cookie",
            ),
            WaitRefusal::Exhausted => f.write_str(
                "no more grace periods may start: make a new domain",
            ),
        }
    }
}

impl<J, A: Allocator> Domain<J, A> {
    /// As [`Domain::synchronize`], for so long at most. One turn and one poll are made whatever the limit is. The clock is
    /// looked at after each poll, and the pause before may sleep for a millisecond. Where the clock can't be read, the time is
    /// over. `TimedOut` has the cookie of the call, by which one may poll on: nothing is asked for twice, and nothing is lost.
    pub fn synchronize_for<R: Wait + Clock>(
        &self,
        rt: &R,
        cpu: &mut Cpu<J, A>,
        limit: Duration,
    ) -> Result<(), WaitRefusal>
        requires domain { IsOf self.now cpu.old }
        requires none { HasNoneOpen cpu.old }
        ensures here { IsOf self.now cpu.new }
        ensures same { IsSameProcessor cpu.old cpu.new }
        ensures still_none { HasNoneOpen cpu.new }
        ensures waits { MatchResult result (λ _. Synchronizes cpu.old cpu.new) (λ refusal. IsCutShort refusal cpu.old cpu.new) }

        // So no section that was open at a moment of the call is open when it returns Ok.
        ensures closed { IfOk result (λ _. WaitedFor cpu.old cpu.new) }
    {
        let limit = Limit::new(rt, limit);
        let mut cookie = self.start_poll(cpu);
        let mut pause = Pause::new();
        for _ in rt.forever() {
            let turn = match self.turn(cpu) {
                Ok(turn) => turn,
                Err(PeriodsExhausted) => return Err(WaitRefusal::Exhausted),
            };
            if cpu.poll(&mut cookie) {
                return Ok(());
            }
            if limit.is_over(rt) {
                return Err(WaitRefusal::TimedOut(cookie));
            }
            give_way(rt, &mut pause, turn);
        }
        unreachable!()
    }
}
