//! A driver, and the sign that ends it.
ghost use Rattle.std.specs.Prelude.{◌≡◌, IfErr, IfOk, MatchResult};
ghost use Rattle.calls.specs.Calls.{IsSameSeat};
ghost use Rattle.domain.specs.Views.{IsSameProcessor, with_calls};
ghost use Rattle.domain.specs.Acting.{loads, ActsAs};
ghost use Rattle.driver.specs.Serving.{Works, EndsInVain, IsStopped, AllFinished};
ghost use Rattle.driver.specs.Signs.{IsServed, SaysGiven};
ghost use Rattle.srcu.specs.Workers.{IsSameWorker};
ghost use Rattle.srcu.specs.Telling.{Tells};

use super::Worker;
use domain::PeriodsExhausted;
use driver::{GiveRefusal, Served, Stop, Stopped, Told};
use std::alloc::Allocator;
use std::sync::Wait;

impl<'a, J: Drop, A: Allocator + Copy> Worker<'a, J, A> {
    /// Drives grace periods and runs each job by `work`, until the sign is given (`srcu_invoke_callbacks`). Then it goes on
    /// until each job is finished whose queueing this worker had seen before the call, or the processor that gave the sign
    /// ([`Worker::tell`]). It returns early, with what it did so far, where no more grace periods may start.
    pub fn serve<R: Wait, F: FnMut(J)>(
        &mut self,
        rt: &R,
        stop: &Stop<J, A>,
        work: F,
    ) -> Result<Stopped<J, A>, (Served, PeriodsExhausted)>
        requires stop { stop.now.domain ≡ self.old.domain }
        requires work { F.IsAlwaysCallable work }
        ensures same { IsSameWorker self.old self.new }
        ensures processor { IsSameProcessor self.old.cpu self.new.cpu }
        ensures works { MatchResult result
            (λ stopped. (last : F) × Works (λ p x q. F.step p x tt q) self.old.domain work self.old.cpu stopped.served last self.new.cpu)
            (λ ended. (last : F) × Works (λ p x q. F.step p x tt q) self.old.domain work self.old.cpu ended.0 last self.new.cpu) }
        ensures vain { IfErr result (λ ended. (last : F) × EndsInVain (λ p x q. F.step p x tt q) self.old.domain work self.old.cpu ended.0 last self.new.cpu) }
        ensures told { IfOk result (λ stopped. IsServed stop.now stopped.told self.new.cpu.calls.seen) }
        ensures stopped { IfOk result (λ _. IsStopped self.old.cpu self.new.cpu) }
        ensures finished { IfOk result (λ _. AllFinished self.old.domain.processors self.old.cpu self.new.cpu) }
    {
        driver::serve(rt, self.domain, &mut self.cpu, stop, work)
    }

    /// Gives the sign that ends a driver. True where a ticket of this worker lies in it: then a driver ends once each job is
    /// finished whose queueing this worker has seen. False where there is no memory for a ticket, or the sign was given before,
    /// and stays as it was: then a driver may end earlier. It is given in each case.
    pub fn tell<R: Wait>(&mut self, rt: &R, stop: &Stop<J, A>) -> (bool, Told<J, A>)
        requires { stop.now.domain ≡ self.old.domain }
        ensures same { IsSameWorker self.old self.new }
        ensures seat { IsSameSeat self.old.cpu.calls self.new.cpu.calls }
        ensures rest { self.new.cpu ≡ with_calls self.new.cpu.calls self.old.cpu }
        ensures acts { ActsAs loads self.old.cpu self.new.cpu }
        ensures tells { Tells stop.now self.old.cpu result.0 result.1 self.new.cpu }
        ensures given { SaysGiven stop.now result.1 }
    {
        match stop.give(rt, self.domain, &mut self.cpu) {
            Ok(told) => (true, told),
            Err(GiveRefusal::Given(told)) => (false, told),
            Err(GiveRefusal::Memory) => (false, stop.give_alone(rt, self.domain)),
        }
    }
}
