//! A device is removed, and comes back once no section can use it.
ghost use Rattle.std.specs.Prelude.{◌≡◌, IfErr, MatchResult};
ghost use Rattle.domain.specs.Views.{IsOf, IsSameProcessor};
ghost use Rattle.domain.specs.Waiting.{HasNoneOpen};
ghost use Rattle.boxes.specs.Boxes.{IsCellIn, cell_of};
ghost use Rattle.registry.specs.Waiting.{HasNoLimit, Regains, RegainsNone};

use crate::refusals::WaitRefusal;
use crate::registry::Registry;
use crate::removing::Until;
use domain::{Cpu, Domain, WaitRefusal as Cut};
use std::alloc::Allocator;
use std::sync::Wait;
use std::time::{Clock, Duration};

impl<K: Ord + Copy, V: Drop, A: Allocator + Copy> Registry<K, V, A> {
    /// Removes the device of a key, and waits until no section can use it any more: it returns the device itself. It drives
    /// grace periods, also while no slot is free. After `NotRemoved` the device is still there. After `Exhausted` it leaves, and
    /// [`Registry::reclaim`] returns it, if it comes back.
    pub fn remove_and_wait<R: Wait, J, B: Allocator>(
        &mut self,
        rt: &R,
        domain: &Domain<J, B>,
        cpu: &mut Cpu<J, B>,
        key: K,
    ) -> Result<V, WaitRefusal>
        requires domain { IsOf domain.now cpu.old }
        requires none { HasNoneOpen cpu.old }
        requires cell { IsCellIn domain.now (cell_of self.old.writer) }
        ensures here { IsOf domain.now cpu.new }
        ensures same { cell_of self.new.writer ≡ cell_of self.old.writer }
        ensures same_cpu { IsSameProcessor cpu.old cpu.new }
        ensures still_none { HasNoneOpen cpu.new }
        ensures regains { MatchResult result
            (λ value. Regains K.cmp key value self.old cpu.old self.new cpu.new)
            (λ refusal. RegainsNone K.cmp key refusal self.old cpu.old self.new cpu.new) }
        ensures no_limit { IfErr result HasNoLimit }
    {
        match self.remove_at_last(rt, domain, cpu, key) {
            Ok(()) => {}
            Err(refusal) => return Err(WaitRefusal::NotRemoved(refusal)),
        }
        for _ in rt.forever() {
            match domain.synchronize(rt, cpu) {
                Ok(()) => {}
                Err(_) => return Err(WaitRefusal::Exhausted),
            }
            if let Some(value) = self.regain(cpu) {
                return Ok(value);
            }
        }
        unreachable!()
    }

    /// As [`Registry::remove_and_wait`], for so long at most in both waits. After `TimedOut` the device leaves, and
    /// [`Registry::reclaim`] returns it once no section can use it any more.
    pub fn remove_and_wait_for<R: Wait + Clock, J, B: Allocator>(
        &mut self,
        rt: &R,
        domain: &Domain<J, B>,
        cpu: &mut Cpu<J, B>,
        key: K,
        limit: Duration,
    ) -> Result<V, WaitRefusal>
        requires domain { IsOf domain.now cpu.old }
        requires none { HasNoneOpen cpu.old }
        requires cell { IsCellIn domain.now (cell_of self.old.writer) }
        ensures here { IsOf domain.now cpu.new }
        ensures same { cell_of self.new.writer ≡ cell_of self.old.writer }
        ensures same_cpu { IsSameProcessor cpu.old cpu.new }
        ensures still_none { HasNoneOpen cpu.new }
        ensures regains { MatchResult result
            (λ value. Regains K.cmp key value self.old cpu.old self.new cpu.new)
            (λ refusal. RegainsNone K.cmp key refusal self.old cpu.old self.new cpu.new) }
    {
        let until = Until::new(rt, limit);
        match self.remove_until(rt, domain, cpu, key, &until) {
            Ok(()) => {}
            Err(refusal) => return Err(WaitRefusal::NotRemoved(refusal)),
        }
        match domain.synchronize_for(rt, cpu, until.rest(rt)) {
            Ok(()) => {}
            Err(Cut::TimedOut(_cookie)) => return Err(WaitRefusal::TimedOut),
            Err(Cut::Exhausted) => return Err(WaitRefusal::Exhausted),
        }
        match self.regain(cpu) {
            Some(value) => Ok(value),
            None => Err(WaitRefusal::TimedOut),
        }
    }
}
