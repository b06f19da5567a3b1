//! How a job comes in.
ghost use Rattle.std.specs.Prelude.{MatchResult};
ghost use Rattle.calls.specs.Calls.{Fits, Queues, Refuses};

use super::{CallSeat, MOST_CALLS};
use crate::entry::{Arrival, Entry};
use crate::receipt::Receipt;
use crate::refusals::CallRefusal;
use crate::tally::{add_queued, announce, withdraw};
use sections::Cpu;
use std::alloc::Allocator;
use std::marker::Brand;
use std::sync::Wait;

impl<J: Drop, A: Allocator + Copy> CallSeat<J, A> {
    /// Queues a job (`call_srcu`) on the seat's processor, with no lock. Where it is refused, the job comes back.
    pub(crate) fn queue<R: Wait, B: Allocator>(
        &mut self,
        rt: &R,
        cpu: &mut Cpu<B>,
        job: J,
    ) -> Result<Receipt<J>, (J, CallRefusal)>
        requires { Fits cpu.old self.old }
        ensures { MatchResult result
            (λ receipt. Queues cpu.old self.old job receipt cpu.new self.new)
            (λ refused. Refuses cpu.old self.old job refused cpu.new self.new) }
    {
        if self.queued == MOST_CALLS {
            return Err((job, CallRefusal::Exhausted));
        }
        // The cookie is of now, before the job can be seen: a later one would only make it wait longer, but one that is
        // taken behind the push could come after the job was given out.
        let mut cookie = cpu.cookie_behind(&mut self.sight);
        let copy = cpu.copy_given(&mut cookie);
        let sight = cpu.copy_sight(&mut self.sight);
        let entry = Entry { job, cookie };
        let top = &self.table.shared;
        let call = announce::<J, Brand>(top, &mut self.seat, self.processor, &entry);
        let arrival = Arrival { entry, sight, call };
        if let Err(refused) = self.inlet.push(rt, arrival) {
            let Arrival {
                entry,
                sight: _,
                call,
            } = refused;
            withdraw(top, &mut self.seat, call);
            return Err((entry.job, CallRefusal::Memory));
        }
        // It is counted once it has come in, so what is counted can be moved with no waiting.
        let k = add_queued(top, &mut self.seat, self.processor);
        self.queued += 1;
        Ok(Receipt {
            processor: self.processor,
            k,
            cookie: copy,
            note: self.note(),
        })
    }
}
