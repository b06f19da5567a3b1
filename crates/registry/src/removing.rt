//! A device is removed once a slot is free.
ghost use Rattle.std.specs.Prelude.{◌≡◌, ◌≢◌, IfErr, MatchOption, MatchResult};
ghost use Rattle.domain.specs.Views.{IsOf, IsSameProcessor};
ghost use Rattle.domain.specs.Waiting.{HasNoneOpen};
ghost use Rattle.boxes.specs.Boxes.{IsCellIn, cell_of};
ghost use Rattle.boxes.specs.Writing.{NoneFree};
ghost use Rattle.registry.specs.declared.refusals.StayRefusal.TheVariants.{TimedOut};
ghost use Rattle.registry.specs.Names.{names_of};
ghost use Rattle.registry.specs.Changing.{Refuses, Removes};
ghost use Rattle.registry.specs.Refusing.{IsTaken, StaysAtOnce};
ghost use Rattle.registry.specs.Waiting.{RemovesAtLast, StaysThere};

use crate::refusals::{RemoveRefusal, StayRefusal};
use crate::registry::Registry;
use domain::{Cpu, Domain, WaitRefusal as Cut};
use std::alloc::Allocator;
use std::sync::Wait;
use std::time::{Clock, Duration, Instant};

/// A limit of time that began at this moment. None where the clock can't be read: then the time is over.
#[derive(Clone, Copy)]
pub(crate) struct Until {
    start: Option<Instant>,
    limit: Duration,
}

impl Until {
    pub(crate) fn new<R: Clock>(rt: &R, limit: Duration) -> Until {
        let start = Instant::now(rt).ok();
        Until { start, limit }
    }

    /// What is left of it.
    pub(crate) fn rest<R: Clock>(&self, rt: &R) -> Duration {
        match &self.start {
            Some(start) => match start.elapsed(rt) {
                Ok(elapsed) => self.limit.saturating_sub(elapsed),
                Err(_) => Duration::ZERO,
            },
            None => Duration::ZERO,
        }
    }
}

impl<K: Ord + Copy, V: Drop, A: Allocator + Copy> Registry<K, V, A> {
    /// Removes the device of a key, or says why it stays. None where no slot is free, and one may come free.
    fn try_remove<J, B: Allocator>(
        &mut self,
        domain: &Domain<J, B>,
        cpu: &mut Cpu<J, B>,
        key: K,
    ) -> Option<Result<(), StayRefusal>>
        requires domain { IsOf domain.now cpu.old }
        requires cell { IsCellIn domain.now (cell_of self.old.writer) }
        ensures here { IsOf domain.now cpu.new }
        ensures same { cell_of self.new.writer ≡ cell_of self.old.writer }
        ensures still_none { HasNoneOpen cpu.old → HasNoneOpen cpu.new }
        ensures tries { MatchOption result
            (Refuses self.old cpu.old self.new cpu.new × IsTaken K.cmp key (names_of self.old.here) × NoneFree self.new.writer)
            (λ r. MatchResult r
            (λ _. Removes K.cmp key self.old cpu.old self.new cpu.new)
            (λ why. Refuses self.old cpu.old self.new cpu.new × StaysAtOnce K.cmp key why (names_of self.old.here) self.new.writer)) }
    {
        match self.remove(domain, cpu, key) {
            Ok(()) => Some(Ok(())),
            Err(RemoveRefusal::NotThere) => Some(Err(StayRefusal::NotThere)),
            Err(RemoveRefusal::Memory) => Some(Err(StayRefusal::Memory)),
            Err(RemoveRefusal::NoSlot) => {
                if self.is_spent() {
                    return Some(Err(StayRefusal::Spent));
                }
                None
            }
        }
    }

    /// Removes the device of a key once a slot is free: it drives grace periods meanwhile.
    pub(crate) fn remove_at_last<R: Wait, J, B: Allocator>(
        &mut self,
        rt: &R,
        domain: &Domain<J, B>,
        cpu: &mut Cpu<J, B>,
        key: K,
    ) -> Result<(), StayRefusal>
        requires domain { IsOf domain.now cpu.old }
        requires none { HasNoneOpen cpu.old }
        requires cell { IsCellIn domain.now (cell_of self.old.writer) }
        ensures here { IsOf domain.now cpu.new }
        ensures same { cell_of self.new.writer ≡ cell_of self.old.writer }
        ensures same_cpu { IsSameProcessor cpu.old cpu.new }
        ensures still_none { HasNoneOpen cpu.new }
        ensures removes { MatchResult result
            (λ _. RemovesAtLast K.cmp key self.old cpu.old self.new cpu.new)
            (λ why. StaysThere K.cmp key why self.old cpu.old self.new cpu.new) }
        ensures no_limit { IfErr result (λ why. why ≢ TimedOut) }
    {
        for _ in rt.forever() {
            match self.try_remove(domain, cpu, key) {
                Some(answer) => return answer,
                None => {}
            }
            match domain.synchronize(rt, cpu) {
                Ok(()) => {}
                Err(_) => return Err(StayRefusal::Periods),
            }
        }
        unreachable!()
    }

    /// The same within a limit.
    pub(crate) fn remove_until<R: Wait + Clock, J, B: Allocator>(
        &mut self,
        rt: &R,
        domain: &Domain<J, B>,
        cpu: &mut Cpu<J, B>,
        key: K,
        until: &Until,
    ) -> Result<(), StayRefusal>
        requires domain { IsOf domain.now cpu.old }
        requires none { HasNoneOpen cpu.old }
        requires cell { IsCellIn domain.now (cell_of self.old.writer) }
        ensures here { IsOf domain.now cpu.new }
        ensures same { cell_of self.new.writer ≡ cell_of self.old.writer }
        ensures same_cpu { IsSameProcessor cpu.old cpu.new }
        ensures still_none { HasNoneOpen cpu.new }
        ensures removes { MatchResult result
            (λ _. RemovesAtLast K.cmp key self.old cpu.old self.new cpu.new)
            (λ why. StaysThere K.cmp key why self.old cpu.old self.new cpu.new) }
    {
        for _ in rt.forever() {
            match self.try_remove(domain, cpu, key) {
                Some(answer) => return answer,
                None => {}
            }
            match domain.synchronize_for(rt, cpu, until.rest(rt)) {
                Ok(()) => {}
                Err(Cut::TimedOut(_cookie)) => return Err(StayRefusal::TimedOut),
                Err(Cut::Exhausted) => return Err(StayRefusal::Periods),
            }
        }
        unreachable!()
    }
}
