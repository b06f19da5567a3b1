//! Waiting for a grace period.
ghost use Rattle.std.specs.Prelude.{IfOk, MatchResult};
ghost use Rattle.domain.specs.Views.{IsOf, IsSameProcessor};
ghost use Rattle.domain.specs.Turns.{FindsExhaustedIn};
ghost use Rattle.domain.specs.Waiting.{HasNoneOpen, Turns, Synchronizes, WaitsInVain, WaitedFor};

use crate::cpu::Cpu;
use crate::domain::Domain;
use crate::pause::Pause;
use scan::refusals::AdvanceRefusal;
use scan::{PeriodsExhausted, Progress};
use std::alloc::Allocator;
use std::sync::Wait;

pub(crate) mod limited;

/// What a thread does behind a turn before it tries again. Where another call has the engine, that one drives the
/// period, and where the engine waits for a section, a reader is at work. Then the thread lets others run, and sleeps
/// longer and longer, so that many of them don't burn their cores. Behind any other answer there is something to do at
/// once.
fn give_way<R: Wait>(rt: &R, pause: &mut Pause, turn: Option<Progress>) {
    match turn {
        None | Some(Progress::Waiting(_)) => pause.pause(rt),
        Some(_) => pause.reset(),
    }
}

impl<J, A: Allocator> Domain<J, A> {
    /// One turn with the engine, and its last answer. `None` where another call has it.
    fn turn(&self, cpu: &mut Cpu<J, A>) -> Result<Option<Progress>, PeriodsExhausted>
        requires { IsOf self.now cpu.old }
        ensures here { IsOf self.now cpu.new }
        ensures turns { MatchResult result (λ turn. Turns turn cpu.old cpu.new) (λ _. FindsExhaustedIn cpu.old cpu.new) }
    {
        match self.drive(cpu) {
            Ok(answer) => Ok(Some(answer)),
            Err(AdvanceRefusal::Busy) => Ok(None),
            Err(AdvanceRefusal::Exhausted) => Err(PeriodsExhausted),
        }
    }

    /// Waits until every section is closed that is open now (`synchronize_srcu`): it asks for one grace period, once, and
    /// then drives the engine and polls in turn until the cookie is done. Where another call has the engine it polls,
    /// since that call may have ended the period meanwhile, and tries again. On the processor itself no reading may be
    /// open, or the call would wait for itself. It is refused where a turn of its own found that no more grace periods
    /// may start: that turn is the last thing that it did, and what it asked for stays asked for.
    pub fn synchronize<R: Wait>(&self, rt: &R, cpu: &mut Cpu<J, A>) -> Result<(), PeriodsExhausted>
        requires domain { IsOf self.now cpu.old }
        requires none { HasNoneOpen cpu.old }
        ensures here { IsOf self.now cpu.new }
        ensures same { IsSameProcessor cpu.old cpu.new }
        ensures still_none { HasNoneOpen cpu.new }
        ensures waits { MatchResult result (λ _. Synchronizes cpu.old cpu.new) (λ _. WaitsInVain cpu.old cpu.new) }

        // So no section that was open at a moment of the call is open when it returns.
        ensures closed { IfOk result (λ _. WaitedFor cpu.old cpu.new) }
    {
        let mut cookie = self.start_poll(cpu);
        let mut pause = Pause::new();
        for _ in rt.forever() {
            let turn = match self.turn(cpu) {
                Ok(turn) => turn,
                Err(PeriodsExhausted) => return Err(PeriodsExhausted),
            };
            if cpu.poll(&mut cookie) {
                return Ok(());
            }
            give_way(rt, &mut pause, turn);
        }
        unreachable!()
    }
}
