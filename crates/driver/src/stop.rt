//! A sign that tells drivers to stop.
ghost use Rattle.std.specs.Prelude.{◌≡◌, ◌↔◌, true, IfOk, IfSome, IsSome, MatchResult};
ghost use Rattle.calls.specs.Calls.{IsSameSeat};
ghost use Rattle.calls.specs.Tallies.{IsBeginning};
ghost use Rattle.domain.specs.Views.{IsOf, with_calls};
ghost use Rattle.domain.specs.Acting.{loads, ActsAs};
ghost use Rattle.driver.specs.Signs.{Word, Says, SaysGiven, Gives, IsServed, MayPoll};
ghost use Rattle.driver.specs.GiveRefusals.{IsRefusedBy};

use crate::refusals::GiveRefusal;
use crate::sign::Sign;
use domain::{Cpu, Domain, Ticket};
use std::alloc::{AllocError, Allocator, Global};
use std::marker::Model;
use std::sync::Wait;
use std::sync::atomic::AtomicU64;
use std::sync::atomic::Ordering::SeqCst;
use std::time::Duration;
use trail::{Sight, Trail};

/// What was seen of a sign: whether it was given, and with which ticket. It has no bytes.
pub type Told<J, A = Global> = Sight<Domain<J, A>, Option<Option<Ticket<J, A>>>>;

/// Tells drivers to stop: those that look at it, and those that sleep on it. Threads share it by reference. Once it is given,
/// it stays as it was given. Contracts see which sign it is, and of which domain.
///
/// Whoever gives it by a processor leaves a ticket in it, which covers each job whose queueing that processor had seen. A
/// driver that is told to stop ends when these jobs are finished.
#[derive(Drop)]
pub struct Stop<J, A: Allocator = Global> {
    pub(crate) trail: Trail<Sign<J, A>, Domain<J, A>, Option<Option<Ticket<J, A>>>, A>,
    /// 1 from when it is given. Drivers sleep on it.
    given: AtomicU64,
}

impl<J, A: Allocator> Model for Stop<J, A> {
    ghost use Rattle.driver.specs.Signs.{StopView};

    ghost Value = { StopView };

    ghost use Rattle.driver.specs.SignInsides.{view_of_stop};

    ghost view = { view_of_stop };
}

impl<J, A: Allocator + Copy> Stop<J, A> {
    /// A sign that is not given, for the drivers of this domain. `alloc` gives the memory.
    pub fn new(alloc: A, domain: &Domain<J, A>) -> Result<Stop<J, A>, AllocError>
        ensures { IfOk result (λ stop. stop.domain ≡ domain.now) }
    {
        let trail = Trail::new(alloc, alloc, Sign { told: None }, domain)?;
        Ok(Stop {
            trail,
            given: AtomicU64::new(0),
        })
    }

    /// Gives the sign, and wakes all drivers that sleep. It starts a barrier by this processor, whose ticket it leaves in the
    /// sign: so each job whose queueing the processor had seen is finished before a driver ends. Refused where there is no
    /// memory for a ticket: then the processor stays as it was. Refused too where it was given before: then the sign stays as
    /// it was.
    pub fn give<R: Wait>(
        &self,
        rt: &R,
        domain: &Domain<J, A>,
        cpu: &mut Cpu<J, A>,
    ) -> Result<Told<J, A>, GiveRefusal<J, A>>
        requires domain { self.now.domain ≡ domain.now }
        requires here { IsOf domain.now cpu.old }
        ensures here { IsOf domain.now cpu.new }
        ensures same { IsSameSeat cpu.old.calls cpu.new.calls }
        ensures rest { cpu.new ≡ with_calls cpu.new.calls cpu.old }
        ensures acts { ActsAs loads cpu.old cpu.new }
        ensures gives { MatchResult result (λ told. Gives self.now cpu.old told cpu.new) (λ refusal. IsRefusedBy self.now cpu.old refusal cpu.new) }
    {
        let Ok(ticket) = domain.barrier_start(cpu) else {
            return Err(GiveRefusal::Memory);
        };
        let (sign, loan) = self.trail.take(rt);
        if sign.told.is_some() {
            let told = self.trail.put_back(sign, loan);
            return Err(GiveRefusal::Given(told));
        }
        let given = Sign {
            told: Some(Some(ticket)),
        };
        let told = self.trail.put_back(given, loan);
        self.wake(domain);
        Ok(told)
    }
}

impl<J, A: Allocator> Stop<J, A> {
    /// Gives the sign where no processor is at hand, and wakes all drivers that sleep. So a driver ends when what it had itself
    /// seen is finished. Where the sign was given before, it stays as it was. It takes no memory.
    pub fn give_alone<R: Wait>(&self, rt: &R, domain: &Domain<J, A>) -> Told<J, A>
        requires { self.now.domain ≡ domain.now }
        ensures { SaysGiven self.now result }
    {
        let (sign, loan) = self.trail.take(rt);
        let given = Sign {
            told: Some(sign.told.unwrap_or(None)),
        };
        let told = self.trail.put_back(given, loan);
        self.wake(domain);
        told
    }

    /// Whether it is given, and what was seen of it.
    pub fn is_given<R: Wait>(&self, rt: &R) -> (bool, Told<J, A>)
        ensures { (word : Word) × Says self.now word result.1 × (result.0 ≡ true ↔ IsSome word) }
    {
        let (sign, loan) = self.trail.take(rt);
        let given = sign.told.is_some();
        (given, self.trail.put_back(sign, loan))
    }

    /// Two that were told by one sign were told the same.
    pub fn agree(&self, told: Told<J, A>, other: Told<J, A>)
        requires told { told.lock ≡ self.now.stop }
        requires other { other.lock ≡ self.now.stop }
        ensures { (by : _) (also : _) → Says self.now (Some by) told → Says self.now (Some also) other → by ≡ also }
    {
        self.trail.hear(told, other);
    }

    /// Looks at the sign, and polls the ticket in it. What was told, once it is given and the ticket is done.
    pub(crate) fn poll<R: Wait>(
        &self,
        rt: &R,
        domain: &Domain<J, A>,
        cpu: &mut Cpu<J, A>,
    ) -> Option<Told<J, A>>
        requires domain { self.now.domain ≡ domain.now }
        requires here { IsOf domain.now cpu.old }
        ensures here { IsOf domain.now cpu.new }
        ensures same { IsSameSeat cpu.old.calls cpu.new.calls }
        ensures rest { cpu.new ≡ with_calls cpu.new.calls cpu.old }
        ensures later { IsBeginning cpu.old.calls.seen cpu.new.calls.seen }
        ensures polled { MayPoll cpu.old cpu.new }
        ensures served { IfSome result (λ told. IsServed self.now told cpu.new.calls.seen) }
    {
        let (sign, loan) = self.trail.take(rt);
        let done = sign.is_done(domain, cpu);
        let told = self.trail.put_back(sign, loan);
        if done { Some(told) } else { None }
    }

    /// Wakes all drivers that sleep, those that wait for a section and those that wait until somebody asks, and lets none of
    /// them sleep on.
    fn wake(&self, domain: &Domain<J, A>) {
        self.given.store(1, SeqCst);
        self.given.wake_all();
        domain.ring();
    }

    /// Sleeps so long, or until the sign is given, or shorter for no reason.
    pub(crate) fn sleep<R: Wait>(&self, rt: &R, length: Duration) {
        self.given.park_timeout(rt, 0, length);
    }
}
