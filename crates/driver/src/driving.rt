//! A driver: a thread that carries grace periods and runs callbacks.
ghost use Rattle.std.specs.Prelude.{◌≡◌, IfOk, IfErr, MatchResult};
ghost use Rattle.calls.specs.Barriers.{CoversAll, IsDone, AreFinished};
ghost use Rattle.calls.specs.Tallies.{IsBeginning};
ghost use Rattle.domain.specs.Views.{IsOf, IsSameProcessor};
ghost use Rattle.domain.specs.Waiting.{HasNoneOpen};
ghost use Rattle.domain.specs.Barriers.{IsTicketOf};
ghost use Rattle.driver.specs.Serving.{Works, WorksFrom, EndsInVain, EndsInVainFrom, HasStarted, IsStopped, AllFinished};
ghost use Rattle.driver.specs.Pools.{IsIdle};
ghost use Rattle.driver.specs.Signs.{IsServed};

use crate::counts::Served;
use crate::pause::Pause;
use crate::report::{Report, Stall};
use crate::serving::round;
use crate::stop::{Stop, Told};
use crate::watcher::{Unwatched, Watcher};
use domain::{Cpu, Domain, PeriodsExhausted, Ticket};
use std::alloc::{Allocator, Global};
use std::sync::Wait;
use std::time::Clock;

/// What a driver came to that was told to stop.
#[derive(Drop)]
pub struct Stopped<J, A: Allocator = Global> {
    /// What it did.
    pub served: Served,
    /// What the sign told it.
    pub told: Told<J, A>,
}

/// Rounds until the sign is given and its ticket is done, which is polled behind each round. `Err` where no more grace
/// periods may start.
fn until_told<R: Wait, J: Drop, A: Allocator + Copy, F: FnMut(J), W: Watcher<J, A>>(
    rt: &R,
    domain: &Domain<J, A>,
    cpu: &mut Cpu<J, A>,
    processors: u16,
    stop: &Stop<J, A>,
    work: &mut F,
    watcher: &mut W,
) -> Result<Stopped<J, A>, Served>
    requires here { IsOf domain.now cpu.old }
    requires none { HasNoneOpen cpu.old }
    requires stop { stop.now.domain ≡ domain.now }
    requires processors { processors ≡ domain.now.processors }
    requires work { F.IsAlwaysCallable work.old }
    requires watcher { W.watches domain.now watcher.old }
    ensures here { IsOf domain.now cpu.new }
    ensures none { HasNoneOpen cpu.new }
    ensures later { IsBeginning cpu.old.calls.seen cpu.new.calls.seen }
    ensures same { IsSameProcessor cpu.old cpu.new }
    ensures works { MatchResult result
        (λ stopped. Works (λ p x q. F.step p x tt q) domain.now work.old cpu.old stopped.served work.new cpu.new)
        (λ served. Works (λ p x q. F.step p x tt q) domain.now work.old cpu.old served work.new cpu.new) }
    ensures vain { IfErr result (λ served. EndsInVain (λ p x q. F.step p x tt q) domain.now work.old cpu.old served work.new cpu.new) }
    ensures told { IfOk result (λ stopped. IsServed stop.now stopped.told cpu.new.calls.seen) }
    ensures work { F.IsAlwaysCallable work.new }
    ensures watcher { W.watches domain.now watcher.new }
{
    let mut served = Served::nothing();
    let mut pause = Pause::new();
    for _ in rt.forever() {
        let came = round(rt, domain, cpu, processors, work);
        served = served.and(&came);
        watcher.look(domain, &came);
        if came.is_end() {
            return Err(served);
        }
        if let Some(told) = stop.poll(rt, domain, cpu) {
            return Ok(Stopped { served, told });
        }
        if came.is_idle() {
            pause.wait_for_asking(rt, domain);
        } else if came.is_rest() {
            pause.sleep_until(rt, stop);
        } else {
            pause.reset();
        }
    }
    unreachable!()
}

/// Rounds until there is memory for a barrier of its own, which is tried before each round. `Err` where no more grace periods
/// may start. Goes on from these counts.
fn until_started<R: Wait, J: Drop, A: Allocator + Copy, F: FnMut(J), W: Watcher<J, A>>(
    rt: &R,
    domain: &Domain<J, A>,
    cpu: &mut Cpu<J, A>,
    processors: u16,
    before: Served,
    work: &mut F,
    watcher: &mut W,
) -> Result<(Served, Ticket<J, A>), Served>
    requires here { IsOf domain.now cpu.old }
    requires none { HasNoneOpen cpu.old }
    requires processors { processors ≡ domain.now.processors }
    requires work { F.IsAlwaysCallable work.old }
    requires watcher { W.watches domain.now watcher.old }
    ensures here { IsOf domain.now cpu.new }
    ensures none { HasNoneOpen cpu.new }
    ensures later { IsBeginning cpu.old.calls.seen cpu.new.calls.seen }
    ensures same { IsSameProcessor cpu.old cpu.new }
    ensures works { MatchResult result
        (λ started. WorksFrom (λ p x q. F.step p x tt q) domain.now before work.old cpu.old started.0 work.new cpu.new)
        (λ served. WorksFrom (λ p x q. F.step p x tt q) domain.now before work.old cpu.old served work.new cpu.new) }
    ensures vain { IfErr result (λ served. EndsInVainFrom (λ p x q. F.step p x tt q) domain.now before work.old cpu.old served work.new cpu.new) }
    ensures ticket { IfOk result (λ started. IsTicketOf domain.now started.1) }
    ensures starts { IfOk result (λ started. HasStarted cpu.old started.1 cpu.new) }
    ensures covers { IfOk result (λ started. CoversAll started.1 domain.now.processors cpu.old.calls.seen) }
    ensures work { F.IsAlwaysCallable work.new }
    ensures watcher { W.watches domain.now watcher.new }
{
    let mut served = before;
    let mut pause = Pause::new();
    for _ in rt.forever() {
        if let Ok(ticket) = domain.barrier_start(cpu) {
            return Ok((served, ticket));
        }
        let came = round(rt, domain, cpu, processors, work);
        served = served.and(&came);
        watcher.look(domain, &came);
        if came.is_end() {
            return Err(served);
        }
        if came.is_rest() {
            pause.sleep(rt);
        } else {
            pause.reset();
        }
    }
    unreachable!()
}

/// Rounds until the ticket is done, which is polled before each round. `Err` where no more grace periods may start. Goes
/// on from these counts.
fn until_done<R: Wait, J: Drop, A: Allocator + Copy, F: FnMut(J), W: Watcher<J, A>>(
    rt: &R,
    domain: &Domain<J, A>,
    cpu: &mut Cpu<J, A>,
    processors: u16,
    ticket: &Ticket<J, A>,
    before: Served,
    work: &mut F,
    watcher: &mut W,
) -> Result<Served, Served>
    requires here { IsOf domain.now cpu.old }
    requires none { HasNoneOpen cpu.old }
    requires processors { processors ≡ domain.now.processors }
    requires ticket { IsTicketOf domain.now ticket.now }
    requires work { F.IsAlwaysCallable work.old }
    requires watcher { W.watches domain.now watcher.old }
    ensures here { IsOf domain.now cpu.new }
    ensures none { HasNoneOpen cpu.new }
    ensures later { IsBeginning cpu.old.calls.seen cpu.new.calls.seen }
    ensures same { IsSameProcessor cpu.old cpu.new }
    ensures works { MatchResult result
        (λ served. WorksFrom (λ p x q. F.step p x tt q) domain.now before work.old cpu.old served work.new cpu.new)
        (λ served. WorksFrom (λ p x q. F.step p x tt q) domain.now before work.old cpu.old served work.new cpu.new) }
    ensures vain { IfErr result (λ served. EndsInVainFrom (λ p x q. F.step p x tt q) domain.now before work.old cpu.old served work.new cpu.new) }
    ensures done { IfOk result (λ _. IsDone ticket.now cpu.new.calls.seen × AreFinished ticket.now cpu.new.calls.seen) }
    ensures watcher { W.watches domain.now watcher.new }
{
    let mut served = before;
    let mut pause = Pause::new();
    for _ in rt.forever() {
        if domain.barrier_poll(cpu, ticket) {
            return Ok(served);
        }
        let came = round(rt, domain, cpu, processors, work);
        served = served.and(&came);
        watcher.look(domain, &came);
        if came.is_end() {
            return Err(served);
        }
        if came.is_rest() {
            pause.sleep(rt);
        } else {
            pause.reset();
        }
    }
    unreachable!()
}

/// Drives and runs callbacks until a barrier is done (the second half of `srcu_barrier`): rounds as those of [`serve`], until
/// the job of each call that the ticket covers was handed to `work`, or to another driver's, and its batch is finished. So a
/// program of one thread needs no other one. Beside these jobs it runs whatever is ready. [`Domain::barrier`] waits alone.
///
/// Answers how many grace periods it ended and how many jobs it ran, also where it ends early, as no more grace periods
/// may start. Then no batch of it is out, and jobs that the ticket covers may be left.
pub fn serve_until<R: Wait, J: Drop, A: Allocator + Copy, F: FnMut(J)>(
    rt: &R,
    domain: &Domain<J, A>,
    cpu: &mut Cpu<J, A>,
    ticket: &Ticket<J, A>,
    mut work: F,
) -> Result<Served, (Served, PeriodsExhausted)>
    requires here { IsOf domain.now cpu.old }
    requires none { HasNoneOpen cpu.old }
    requires ticket { IsTicketOf domain.now ticket.now }
    requires work { F.IsAlwaysCallable work }
    ensures here { IsOf domain.now cpu.new }
    ensures none { HasNoneOpen cpu.new }
    ensures same { IsSameProcessor cpu.old cpu.new }

    // It polled, made rounds, and did nothing else: each batch that it took it ran and finished.
    ensures works { MatchResult result
        (λ served. (last : F) × Works (λ p x q. F.step p x tt q) domain.now work cpu.old served last cpu.new)
        (λ ended. (last : F) × Works (λ p x q. F.step p x tt q) domain.now work cpu.old ended.0 last cpu.new) }

    // Where it ends early, its last round's turn of the engine found that no more may start, and no job was run in it.
    ensures vain { IfErr result (λ ended. (last : F) × EndsInVain (λ p x q. F.step p x tt q) domain.now work cpu.old ended.0 last cpu.new) }

    // The job of each receipt that the ticket covers was given out, and its batch is finished.
    ensures done { IfOk result (λ _. IsDone ticket.now cpu.new.calls.seen × AreFinished ticket.now cpu.new.calls.seen) }
{
    let processors = domain.processors();
    let none = Served::nothing();
    match until_done(
        rt,
        domain,
        cpu,
        processors,
        ticket,
        none,
        &mut work,
        &mut Unwatched,
    ) {
        Ok(served) => Ok(served),
        Err(served) => Err((served, PeriodsExhausted)),
    }
}

/// What [`serve`] does, with somebody who looks on.
fn serve_watched<R: Wait, J: Drop, A: Allocator + Copy, F: FnMut(J), W: Watcher<J, A>>(
    rt: &R,
    domain: &Domain<J, A>,
    cpu: &mut Cpu<J, A>,
    stop: &Stop<J, A>,
    mut work: F,
    watcher: &mut W,
) -> Result<Stopped<J, A>, (Served, PeriodsExhausted)>
    requires here { IsOf domain.now cpu.old }
    requires none { HasNoneOpen cpu.old }
    requires stop { stop.now.domain ≡ domain.now }
    requires work { F.IsAlwaysCallable work }
    requires watcher { W.watches domain.now watcher.old }
    ensures here { IsOf domain.now cpu.new }
    ensures none { HasNoneOpen cpu.new }
    ensures same { IsSameProcessor cpu.old cpu.new }

    // It made rounds and nothing else: each batch that it took it ran and finished.
    ensures works { MatchResult result
        (λ stopped. (last : F) × Works (λ p x q. F.step p x tt q) domain.now work cpu.old stopped.served last cpu.new)
        (λ ended. (last : F) × Works (λ p x q. F.step p x tt q) domain.now work cpu.old ended.0 last cpu.new) }

    // Where it ends early, its last round's turn of the engine found that no more may start, and no job was run in it.
    ensures vain { IfErr result (λ ended. (last : F) × EndsInVain (λ p x q. F.step p x tt q) domain.now work cpu.old ended.0 last cpu.new) }

    // It was told to stop. Where a processor told it, each job is finished whose queueing that one had seen.
    ensures told { IfOk result (λ stopped. IsServed stop.now stopped.told cpu.new.calls.seen) }

    // So is each one whose queueing it had seen itself, as a barrier was started in the call, which is done.
    ensures stopped { IfOk result (λ _. IsStopped cpu.old cpu.new) }
    ensures finished { IfOk result (λ _. AllFinished domain.now.processors cpu.old cpu.new) }
    ensures watcher { W.watches domain.now watcher.new }
{
    let processors = domain.processors();
    let Stopped { served, told } = match until_told(
        rt, domain, cpu, processors, stop, &mut work, watcher,
    ) {
        Ok(stopped) => stopped,
        Err(served) => return Err((served, PeriodsExhausted)),
    };
    let (served, ticket) = match until_started(
        rt, domain, cpu, processors, served, &mut work, watcher,
    ) {
        Ok(started) => started,
        Err(served) => return Err((served, PeriodsExhausted)),
    };
    match until_done(
        rt, domain, cpu, processors, &ticket, served, &mut work, watcher,
    ) {
        Ok(served) => Ok(Stopped { served, told }),
        Err(served) => Err((served, PeriodsExhausted)),
    }
}

/// Carries grace periods and runs callbacks until it is told to stop, and then until each job is finished whose queueing had
/// been seen by the processor that told it (`give`), or by its own before the call (`srcu_advance_state`,
/// `srcu_invoke_callbacks`). A sign without a processor (`give_alone`) adds none. A round is one turn of the engine and one
/// look at each processor's list: what is ready there, at most eight jobs, is taken out, each job is handed to `work`, the
/// first one first, and the batch is finished. After a round that found nothing to do it yields, and later sleeps: a 128th
/// of what it slept before, from 10 microseconds to a millisecond, with two looks after each sleep.
///
/// Several threads may do so in one domain, each with a processor of its own: where one has the engine or a batch, the
/// others go on. A section that stays open holds it up, and so does a batch that somebody else took and keeps. Where there
/// is no memory for a barrier of its own, it makes rounds until there is.
///
/// Answers how many grace periods it ended and how many jobs it ran, also where it ends early, as no more grace periods may
/// start. Then no batch of it is out, and jobs may be left.
pub fn serve<R: Wait, J: Drop, A: Allocator + Copy, F: FnMut(J)>(
    rt: &R,
    domain: &Domain<J, A>,
    cpu: &mut Cpu<J, A>,
    stop: &Stop<J, A>,
    work: F,
) -> Result<Stopped<J, A>, (Served, PeriodsExhausted)>
    requires here { IsOf domain.now cpu.old }
    requires none { HasNoneOpen cpu.old }
    requires stop { stop.now.domain ≡ domain.now }
    requires work { F.IsAlwaysCallable work }
    ensures here { IsOf domain.now cpu.new }
    ensures none { HasNoneOpen cpu.new }
    ensures same { IsSameProcessor cpu.old cpu.new }

    // It made rounds and nothing else: each batch that it took it ran and finished.
    ensures works { MatchResult result
        (λ stopped. (last : F) × Works (λ p x q. F.step p x tt q) domain.now work cpu.old stopped.served last cpu.new)
        (λ ended. (last : F) × Works (λ p x q. F.step p x tt q) domain.now work cpu.old ended.0 last cpu.new) }

    // Where it ends early, its last round's turn of the engine found that no more may start, and no job was run in it.
    ensures vain { IfErr result (λ ended. (last : F) × EndsInVain (λ p x q. F.step p x tt q) domain.now work cpu.old ended.0 last cpu.new) }

    // It was told to stop. Where a processor told it, each job is finished whose queueing that one had seen.
    ensures told { IfOk result (λ stopped. IsServed stop.now stopped.told cpu.new.calls.seen) }

    // So is each one whose queueing it had seen itself, as a barrier was started in the call, which is done.
    ensures stopped { IfOk result (λ _. IsStopped cpu.old cpu.new) }
    ensures finished { IfOk result (λ _. AllFinished domain.now.processors cpu.old cpu.new) }
{
    serve_watched(rt, domain, cpu, stop, work, &mut Unwatched)
}

/// As [`serve`], with a report: its `hear` is called once of each grace period that waits for sections for longer than `after`,
/// with the domain at a glance. The driver goes on then. What it comes to is added to the report's tally after each round.
pub fn serve_with<
    R: Wait,
    J: Drop,
    A: Allocator + Copy,
    F: FnMut(J),
    C: Clock,
    H: FnMut(Stall<'_>),
>(
    rt: &R,
    domain: &Domain<J, A>,
    cpu: &mut Cpu<J, A>,
    stop: &Stop<J, A>,
    work: F,
    report: &mut Report<'_, J, C, H, A>,
) -> Result<Stopped<J, A>, (Served, PeriodsExhausted)>
    requires here { IsOf domain.now cpu.old }
    requires none { HasNoneOpen cpu.old }
    requires stop { stop.now.domain ≡ domain.now }
    requires work { F.IsAlwaysCallable work }
    requires report { IsIdle domain.now report.old.cpu }
    requires hear { H.IsAlwaysCallable report.old.hear }
    ensures here { IsOf domain.now cpu.new }
    ensures none { HasNoneOpen cpu.new }
    ensures same { IsSameProcessor cpu.old cpu.new }

    // It made rounds and nothing else: each batch that it took it ran and finished.
    ensures works { MatchResult result
        (λ stopped. (last : F) × Works (λ p x q. F.step p x tt q) domain.now work cpu.old stopped.served last cpu.new)
        (λ ended. (last : F) × Works (λ p x q. F.step p x tt q) domain.now work cpu.old ended.0 last cpu.new) }

    // Where it ends early, its last round's turn of the engine found that no more may start, and no job was run in it.
    ensures vain { IfErr result (λ ended. (last : F) × EndsInVain (λ p x q. F.step p x tt q) domain.now work cpu.old ended.0 last cpu.new) }

    // It was told to stop. Where a processor told it, each job is finished whose queueing that one had seen.
    ensures told { IfOk result (λ stopped. IsServed stop.now stopped.told cpu.new.calls.seen) }

    // So is each one whose queueing it had seen itself, as a barrier was started in the call, which is done.
    ensures stopped { IfOk result (λ _. IsStopped cpu.old cpu.new) }
    ensures finished { IfOk result (λ _. AllFinished domain.now.processors cpu.old cpu.new) }

    // The processor that made the snapshots is of the domain, and no reading is open on it. So the report may be lent again.
    ensures report { IsIdle domain.now report.new.cpu }
    ensures hear { H.IsAlwaysCallable report.new.hear }
{
    serve_watched(rt, domain, cpu, stop, work, report)
}
