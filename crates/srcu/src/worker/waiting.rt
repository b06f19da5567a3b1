//! Grace periods: waiting for one, or polling.
ghost use Rattle.std.specs.Prelude.{◌≡◌, IfOk, IsTrue, MatchResult};
ghost use Rattle.sections.specs.Calls.{Asks, AllClosed, GivesCookie};
ghost use Rattle.sections.specs.Views.{IsKnownIn};
ghost use Rattle.scan.specs.Standings.{IsWithin};
ghost use Rattle.domain.specs.Views.{IsSameProcessor, with_cpu};
ghost use Rattle.domain.specs.Acting.{asks_for, asks_whether, notes, ActsAs};
ghost use Rattle.domain.specs.Limited.{IsCutShort};
ghost use Rattle.domain.specs.Turns.{AdvancesIn, CarriesOnIn, IsRefused, SaysOf, SaysAtLast, SaysWhy};
ghost use Rattle.domain.specs.Waiting.{StartsPoll, Synchronizes, WaitsInVain, WaitedFor};
ghost use Rattle.srcu.specs.Workers.{IsSameWorker};

use super::Worker;
use domain::{AdvanceRefusal, Cookie, PeriodsExhausted, Progress, WaitRefusal};
use std::alloc::Allocator;
use std::sync::Wait;
use std::time::{Clock, Duration};

impl<'a, J, A: Allocator> Worker<'a, J, A> {
    /// Waits until every section is closed that is open now (`synchronize_srcu`), and drives the grace period meanwhile.
    /// `PeriodsExhausted` where no more grace periods may start.
    pub fn synchronize<R: Wait>(&mut self, rt: &R) -> Result<(), PeriodsExhausted>
        ensures same { IsSameWorker self.old self.new }
        ensures processor { IsSameProcessor self.old.cpu self.new.cpu }
        ensures waits { MatchResult result
            (λ _. Synchronizes self.old.cpu self.new.cpu)
            (λ _. WaitsInVain self.old.cpu self.new.cpu) }

        // So no section that was open at a moment of the call is open when it returns Ok.
        ensures closed { IfOk result (λ _. WaitedFor self.old.cpu self.new.cpu) }
    {
        self.domain.synchronize(rt, &mut self.cpu)
    }

    /// As [`Worker::synchronize`], for so long at most. Where the time is over the cookie comes back, to poll on by.
    pub fn synchronize_for<R: Wait + Clock>(
        &mut self,
        rt: &R,
        limit: Duration,
    ) -> Result<(), WaitRefusal>
        ensures same { IsSameWorker self.old self.new }
        ensures processor { IsSameProcessor self.old.cpu self.new.cpu }
        ensures waits { MatchResult result
            (λ _. Synchronizes self.old.cpu self.new.cpu)
            (λ refusal. IsCutShort refusal self.old.cpu self.new.cpu) }
        ensures closed { IfOk result (λ _. WaitedFor self.old.cpu self.new.cpu) }
    {
        self.domain.synchronize_for(rt, &mut self.cpu, limit)
    }

    /// The cookie of now (`get_state_synchronize_srcu`). It asks for no grace period.
    pub fn cookie(&mut self) -> Cookie
        ensures same { IsSameWorker self.old self.new }
        ensures gives { GivesCookie self.old.cpu.cpu self.new.cpu.cpu result }
        ensures known { IsKnownIn self.old.domain.domain result }
        ensures rest { self.new.cpu ≡ with_cpu self.new.cpu.cpu self.old.cpu }
        ensures acts { ActsAs (notes result.number) self.old.cpu self.new.cpu }
    {
        self.cpu.cookie()
    }

    /// Asks for a grace period, and returns the cookie that is done once it has ended (`start_poll_synchronize_srcu`).
    pub fn start_poll(&mut self) -> Cookie
        ensures same { IsSameWorker self.old self.new }
        ensures starts { StartsPoll self.old.cpu result self.new.cpu }
        ensures acts { ActsAs (asks_for result.number 0) self.old.cpu self.new.cpu }
        ensures here { result.domain ≡ self.old.domain.domain }
        ensures known { IsKnownIn self.old.domain.domain result }
    {
        self.domain.start_poll(&mut self.cpu)
    }

    /// Whether the cookie is done (`poll_state_synchronize_srcu`): then no section is open that was open when it was given.
    pub fn poll(&mut self, cookie: &mut Cookie) -> bool
        requires { IsKnownIn self.old.domain.domain cookie.old }
        ensures same { IsSameWorker self.old self.new }
        ensures asks { Asks cookie.old.seen cookie.old.changes cookie.old.number result self.old.cpu.cpu self.new.cpu.cpu }
        ensures cookie { cookie.new ≡ cookie.old }
        ensures closed { IsTrue result → AllClosed cookie.old.seen self.new.cpu.cpu.seen }
        ensures rest { self.new.cpu ≡ with_cpu self.new.cpu.cpu self.old.cpu }
        ensures acts { ActsAs (asks_whether cookie.old.number result) self.old.cpu self.new.cpu }
    {
        self.cpu.poll(cookie)
    }

    /// Drives grace periods for one turn (`process_srcu`): until one has ended, waits for a section, or nothing is to do.
    pub fn drive(&mut self) -> Result<Progress, AdvanceRefusal>
        ensures same { IsSameWorker self.old self.new }
        ensures drives { MatchResult result
            (λ answer. CarriesOnIn self.old.cpu answer self.new.cpu)
            (λ refusal. IsRefused self.old.cpu refusal self.new.cpu) }
        ensures says { MatchResult result
            (λ answer. SaysAtLast self.old.domain answer self.old.cpu self.new.cpu)
            (λ refusal. SaysWhy self.old.domain refusal self.old.cpu self.new.cpu) }
        ensures within { IfOk result (λ answer. IsWithin self.old.domain.periods answer) }
    {
        self.domain.drive(&mut self.cpu)
    }

    /// Drives grace periods up to the next answer (`srcu_advance_state`): a start, a flip and an end are one each.
    pub fn advance(&mut self) -> Result<Progress, AdvanceRefusal>
        ensures same { IsSameWorker self.old self.new }
        ensures advances { MatchResult result
            (λ answer. AdvancesIn self.old.cpu answer self.new.cpu)
            (λ refusal. IsRefused self.old.cpu refusal self.new.cpu) }
        ensures says { MatchResult result
            (λ answer. SaysOf self.old.domain answer self.old.cpu self.new.cpu)
            (λ refusal. SaysWhy self.old.domain refusal self.old.cpu self.new.cpu) }
        ensures within { IfOk result (λ answer. IsWithin self.old.domain.periods answer) }
    {
        self.domain.advance(&mut self.cpu)
    }
}
