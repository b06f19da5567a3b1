//! How jobs go out of the list.
ghost use Rattle.std.specs.Prelude.{◌≡◌, All, None, IfOk, IfSome, MatchResult};
ghost use Rattle.sections.specs.Calls.{AllClosed};
ghost use Rattle.segs.specs.MarkedList.{assigned};
ghost use Rattle.calls.specs.Lines.{Marked, last_number};
ghost use Rattle.calls.specs.Waiting.{wrapped, GoesOut};
ghost use Rattle.calls.specs.Calls.{TakesAll, TakesReady, TakesNothing, AreHanded, Finishes, MayFinish, MayTake};

use super::List;
use crate::batch::Batch;
use crate::entry::Entry;
use crate::refusals::TakeRefusal;
use crate::seat::CallSeat;
use crate::tally::{add_finished, take_out};
use sections::Cpu;
use segs::SegList;
use smallvec::SmallVec;
use std::alloc::Allocator;
use std::marker::Brand;
use std::sync::Wait;

/// What has no number yet gets that of the cookie of the last entry: it is the greatest one.
fn assign_last<J, A: Allocator>(waiting: &mut SegList<Option<Entry<J>>, A>)
    requires { (es : Marked J) × (waiting.old.entries ≡ wrapped es) }
    ensures { (es : Marked J) → waiting.old.entries ≡ wrapped es → waiting.new.entries ≡ wrapped (assigned (last_number es) es) }
{
    let Some(last) = waiting.last_next() else {
        return;
    };
    let Some(last) = last else { unreachable!() };
    let number = last.cookie.number();
    waiting.assign(number);
}

/// What waited for this number or a smaller one is done, what had none gets one, and the first ones that are done go out.
fn take_first<J: Drop, A: Allocator + Copy>(
    waiting: &mut SegList<Option<Entry<J>>, A>,
    number: u64,
    max: usize,
) -> SmallVec<Option<Entry<J>>, 8, A>
    requires { (es : Marked J) × (waiting.old.entries ≡ wrapped es) }
    ensures { (es : Marked J) → waiting.old.entries ≡ wrapped es → GoesOut number max es result.items waiting.new.entries }
{
    // First those that wait for it are done, which may free a segment, and only then can what has no number yet get one:
    // before, it might find none free, and wait for one more period.
    waiting.advance(number);
    assign_last(waiting);
    waiting.take_done(max)
}

impl<J: Drop, A: Allocator + Copy> List<J, A> {
    /// Takes out what is ready: at most `max` jobs and at most eight, the first ones first. `None` where nothing is.
    /// Any processor of the domain may do it. All calls that are counted as queued are moved to the list first. It is refused
    /// where a batch is out, as the seat finds, which looks, and then nothing is moved; and where there was no memory for one
    /// that was to be moved, which the seat notes.
    pub fn take<R: Wait, B: Allocator, C: Allocator>(
        &mut self,
        rt: &R,
        cpu: &mut Cpu<B>,
        seat: &mut CallSeat<J, C>,
        max: usize,
    ) -> Result<Option<Batch<J, A>>, TakeRefusal>
        requires { MayTake self.old cpu.old seat.old }
        ensures takes { MatchResult result
            (λ taken. TakesAll max self.old cpu.old seat.old taken self.new cpu.new seat.new)
            (λ refusal. TakesNothing self.old cpu.old seat.old refusal self.new cpu.new seat.new) }

        // Each job is given out after a full grace period: it was queued at the end of what its cookie has seen, and
        // the taker goes on from there and has been told that the cookie is done.
        ensures handed { IfOk result (λ taken. IfSome taken (λ batch. AreHanded batch.entries cpu.new.seen)) }

        // So no section that was open when the job was queued is open now.
        ensures closed { IfOk result (λ taken. IfSome taken (λ batch. All (λ e. AllClosed e.cookie.seen cpu.new.seen) batch.entries)) }
    {
        if self.out {
            self.look(seat);
            return Err(TakeRefusal::Invoking);
        }
        match self.gather(rt, seat) {
            Ok(()) => Ok(self.take_ready(cpu, seat, max)),
            Err(_) => {
                self.note_lack(seat);
                Err(TakeRefusal::Memory)
            }
        }
    }

    /// Takes out what is ready of the entries that are in the list.
    fn take_ready<B: Allocator, C: Allocator>(
        &mut self,
        cpu: &mut Cpu<B>,
        seat: &mut CallSeat<J, C>,
        max: usize,
    ) -> Option<Batch<J, A>>
        requires fits { MayTake self.old cpu.old seat.old }
        requires none_out { self.old.out ≡ None }
        ensures takes { TakesReady max self.old cpu.old seat.old result self.new cpu.new seat.new }
        ensures handed { IfSome result (λ batch. AreHanded batch.entries cpu.new.seen) }
        ensures closed { IfSome result (λ batch. All (λ e. AllClosed e.cookie.seen cpu.new.seen) batch.entries) }
    {
        // The number is loaded first: with an older one, entries would stay that are due.
        let number = cpu.how_far_behind(&mut self.given, &mut self.sight).get();
        let entries = take_first(&mut self.waiting, number, max);
        let top = &seat.table.shared;
        let right = take_out::<J, Brand>(
            top,
            &mut seat.seat,
            &mut self.seat,
            self.processor,
            number,
            max,
        );
        let count = entries.len();
        if count == 0 {
            return None;
        }
        self.out = true;
        Some(Batch {
            entries,
            count,
            processor: self.processor,
            seat: right,
        })
    }

    /// The batch is over: its count is added to the finished word of its processor, by this seat. It is empty, and of
    /// this list.
    pub fn finish<C: Allocator>(&mut self, seat: &mut CallSeat<J, C>, batch: Batch<J, A>)
        requires { MayFinish self.old seat.old batch }
        ensures { Finishes self.old seat.old batch self.new seat.new }
    {
        let Batch {
            entries: _,
            count,
            processor,
            seat: right,
        } = batch;
        add_finished(
            &seat.table.shared,
            &mut seat.seat,
            &mut self.seat,
            right,
            processor,
            count,
        );
        self.out = false;
    }
}
