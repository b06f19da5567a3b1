//! The calls of a domain's callbacks. But for `call`, they lock a processor's list, and hand on to it.
ghost use Rattle.std.specs.Prelude.{◌≡◌, ◌<◌, All, IfOk, IfSome, MatchResult};
ghost use Rattle.sections.specs.Calls.{IsSameCpu, AllClosed};
ghost use Rattle.calls.specs.Calls.{IsSameSeat, IsOfProcessor, FitsIn, QueuesIn, RefusesIn, MayTakeIn, TakesIn, AreHanded, TakesNothingIn, MayFinishIn, FinishesIn, LacksRoomIn, FindsLensIn};

use super::Calls;
use crate::batch::Batch;
use crate::receipt::Receipt;
use crate::refusals::{CallRefusal, Memory, TakeRefusal};
use crate::seat::CallSeat;
use sections::Cpu;
use std::alloc::Allocator;
use std::sync::Wait;

impl<J: Drop, A: Allocator + Copy> Calls<J, A> {
    /// Queues a job on this processor (`call_srcu`). It is given out after a full grace period that starts later. Where it
    /// is refused, the job comes back. No lock is touched; the handle is for the queue at which jobs come in.
    pub fn call<R: Wait, B: Allocator, C: Allocator + Copy>(
        &self,
        rt: &R,
        cpu: &mut Cpu<B>,
        seat: &mut CallSeat<J, C>,
        job: J,
    ) -> Result<Receipt<J>, (J, CallRefusal)>
        requires { FitsIn self.now cpu.old seat.old }
        ensures queues { MatchResult result
            (λ receipt. QueuesIn self.now cpu.old seat.old job receipt cpu.new seat.new)
            (λ refused. RefusesIn self.now cpu.old seat.old job refused cpu.new seat.new) }
        ensures same { IsSameCpu cpu.old cpu.new × IsSameSeat seat.old seat.new }
    {
        seat.queue(rt, cpu, job)
    }

    /// Takes out what is ready on a processor: at most `max` jobs and at most eight, the first ones first
    /// (`srcu_invoke_callbacks`). `None` where nothing is. Any processor of the domain may do it, for any processor. All
    /// calls that are counted as queued there are moved to the processor's list first. It is refused where a batch is out
    /// there, and where there was no memory for a call that was to be moved: nothing is taken then, and nothing is lost. It
    /// waits while another thread has that processor's list.
    pub fn take_ready<R: Wait, B: Allocator, C: Allocator>(
        &self,
        rt: &R,
        cpu: &mut Cpu<B>,
        seat: &mut CallSeat<J, C>,
        processor: u16,
        max: usize,
    ) -> Result<Option<Batch<J, A>>, TakeRefusal>
        requires { MayTakeIn self.now cpu.old seat.old processor }
        ensures takes { MatchResult result
            (λ taken. TakesIn self.now processor max cpu.old seat.old taken cpu.new seat.new)
            (λ refusal. TakesNothingIn processor cpu.old seat.old refusal cpu.new seat.new) }
        ensures same { IsSameCpu cpu.old cpu.new × IsSameSeat seat.old seat.new }
        ensures batch { IfOk result (λ taken. IfSome taken (λ batch. IsOfProcessor self.now processor batch)) }

        // Each job is given out after a full grace period that started behind its queueing.
        ensures handed { IfOk result (λ taken. IfSome taken (λ batch. AreHanded batch.entries cpu.new.seen)) }

        // So no section that was begun before a job was queued is open when it is given out.
        ensures closed { IfOk result (λ taken. IfSome taken (λ batch. All (λ e. AllClosed e.cookie.seen cpu.new.seen) batch.entries)) }
    {
        let lock = &self.lists[processor as usize];
        let (mut list, loan) = lock.take(rt);
        let result = list.take(rt, cpu, seat, max);
        lock.put_back(list, loan);
        result
    }

    /// The batch is over, and empty: its count is added to the finished word of its processor. It waits while another
    /// thread has that processor's list.
    pub fn finish<R: Wait, C: Allocator>(
        &self,
        rt: &R,
        seat: &mut CallSeat<J, C>,
        batch: Batch<J, A>,
    )
        requires { MayFinishIn self.now seat.old batch }
        ensures finishes { FinishesIn self.now seat.old batch seat.new }
        ensures same { IsSameSeat seat.old seat.new }
    {
        let lock = &self.lists[batch.processor as usize];
        let (mut list, loan) = lock.take(rt);
        list.finish(seat, batch);
        lock.put_back(list, loan);
    }

    /// How many entries of a processor are done, wait for the first and for the second number, and have none yet; and
    /// the two numbers, 0 where there is none. What is out isn't counted. All calls that are counted as queued are moved to
    /// the list first; where there is no memory for one, nothing is answered, and nothing is lost. A load by the seat, which
    /// is a deed of its own, shows that this is the processor's list. It waits while another thread has the list.
    pub fn lens<R: Wait, C: Allocator>(
        &self,
        rt: &R,
        seat: &mut CallSeat<J, C>,
        processor: u16,
    ) -> Result<([usize; 4], [u64; 2]), Memory>
        requires { (processor < self.now.processors) × (seat.old.tallies ≡ self.now.tallies) }
        ensures found { MatchResult result
            (λ found. FindsLensIn processor seat.old found seat.new)
            (λ _. LacksRoomIn processor seat.old seat.new) }
    {
        let lock = &self.lists[processor as usize];
        let (mut list, loan) = lock.take(rt);
        let lens = list.lens(rt, seat);
        lock.put_back(list, loan);
        lens
    }
}
