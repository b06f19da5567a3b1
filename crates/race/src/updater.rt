//! The thread that installs plug-ins, queues callbacks, drives grace periods and runs what is ready.
ghost use Rattle.std.specs.Prelude.{◌≡◌, ◌+◌, ◌<◌, ◌≤◌, IfOk, IfSome, MatchResult};
ghost use Rattle.calls.specs.Calls.{IsOfProcessor};
ghost use Rattle.domain.specs.Views.{callbacks_of};
ghost use Rattle.domain.specs.Barriers.{IsTicketOf};
ghost use Rattle.race.specs.Courses.{IsCourse};
ghost use Rattle.race.specs.Updaters.{halt_of, IsUpdaterOf, Tells, GoesOn, InstallsIn, MakesAll, HasMadeAll, HasUpdated, IsNew};

use crate::course::{Course, key_of};
use domain::{AdvanceRefusal, Batch, CallRefusal, Cpu, Memory, Progress, Ticket};
use plugs::{InstallRefusal, Table};
use std::sync::Wait;
use std::thread::yield_now;

/// What the updater has, and what it has counted.
#[derive(Drop)]
pub struct Updater {
    pub cpu: Cpu<()>,
    pub table: Table,
    /// How many versions it installed.
    pub versions: u64,
    /// How many callbacks it queued.
    pub queued: u64,
    /// How many callbacks it ran.
    pub finished: u64,
}

/// Why the updater makes no more rounds.
#[derive(Clone, Copy, PartialEq, Eq)]
pub enum Halt {
    /// There may be no more grace periods, no more callbacks, or no more rows.
    Spent,
    /// There was not enough memory.
    Memory,
}

impl Halt {
    fn of_call(refusal: CallRefusal) -> Halt
        ensures { result ≡ halt_of refusal }
    {
        match refusal {
            CallRefusal::Exhausted => Halt::Spent,
            CallRefusal::Memory => Halt::Memory,
        }
    }
}

/// One turn of the engine. Where somebody else has it, that one drives it on.
fn advance(course: &Course, updater: &mut Updater) -> Result<(), Halt>
    requires is { IsUpdaterOf course.now updater.old }
    requires tells { Tells updater.old }
    ensures { GoesOn course.now 0 0 updater.old updater.new }
{
    match course.domain.advance(&mut updater.cpu) {
        Ok(Progress::Idle | Progress::Waiting(_)) | Err(AdvanceRefusal::Busy) => yield_now(),
        Ok(_) => {}
        Err(AdvanceRefusal::Exhausted) => return Err(Halt::Spent),
    }
    Ok(())
}

/// Installs the plug of a round. As long as no slot is free it drives the engine on.
fn install<R: Wait>(rt: &R, course: &Course, updater: &mut Updater, round: u64) -> Result<(), Halt>
    requires is { IsUpdaterOf course.now updater.old }
    requires tells { Tells updater.old }
    requires few { (round < 1000) × (updater.old.versions ≤ 1000) }
    ensures goes_on { MatchResult result
        (λ _. GoesOn course.now 1 0 updater.old updater.new)
        (λ _. GoesOn course.now 0 0 updater.old updater.new) }
    ensures installs { IfOk result (λ _. InstallsIn course.now round updater.old updater.new) }
{
    for _ in rt.forever() {
        let installed = updater.table.install(
            &course.domain,
            &mut updater.cpu,
            key_of(round),
            round as u32,
        );
        let Err(refusal) = installed else {
            updater.versions += 1;
            return Ok(());
        };
        match refusal {
            InstallRefusal::NoSlot => advance(course, updater)?,
            InstallRefusal::Full => return Err(Halt::Spent),
            InstallRefusal::Memory => return Err(Halt::Memory),
        }
    }
    unreachable!()
}

/// Queues a callback.
fn queue<R: Wait>(rt: &R, course: &Course, updater: &mut Updater) -> Result<(), Halt>
    requires is { IsUpdaterOf course.now updater.old }
    requires tells { Tells updater.old }
    requires few { updater.old.queued ≤ 1000 }
    ensures { MatchResult result
        (λ _. GoesOn course.now 0 1 updater.old updater.new)
        (λ _. GoesOn course.now 0 0 updater.old updater.new) }
{
    let Err(((), refusal)) = course.domain.call(rt, &mut updater.cpu, ()) else {
        updater.queued += 1;
        return Ok(());
    };
    Err(Halt::of_call(refusal))
}

/// Installs and queues in each round.
fn make_rounds<R: Wait>(rt: &R, course: &Course, updater: &mut Updater) -> Result<(), Halt>
    requires course { IsCourse course.now }
    requires new { IsNew course.now updater.old }
    ensures updated { HasUpdated course.now updater.new }
    ensures processor { updater.new.cpu.cpu.processor ≡ updater.old.cpu.cpu.processor }
    ensures all { IfOk result (λ _. MakesAll course.now updater.old updater.new) }
{
    for round in 0..course.rounds {
        install(rt, course, updater, round)?;
        queue(rt, course, updater)?;
    }
    Ok(())
}

/// Runs all jobs of a batch, which have nothing to do, and finishes it.
fn run<R: Wait>(rt: &R, course: &Course, updater: &mut Updater, mut batch: Batch<()>)
    requires is { IsUpdaterOf course.now updater.old }
    requires tells { Tells updater.old }
    requires batch { IsOfProcessor (callbacks_of course.now.domain) updater.old.cpu.cpu.processor batch }
    ensures { GoesOn course.now 0 0 updater.old updater.new }
{
    let count = batch.count() as u64;
    while let Some(()) = batch.next() {}
    course.domain.finish(rt, &mut updater.cpu, batch);
    updater.finished = updater.finished.saturating_add(count);
}

/// Takes what is ready on the updater's own processor: callbacks are queued there alone. A batch that is out is one of
/// somebody else, and there is nobody else. Where there is no memory for what came in, it waits until the next time.
fn take<R: Wait>(rt: &R, course: &Course, updater: &mut Updater) -> Option<Batch<()>>
    requires is { IsUpdaterOf course.now updater.old }
    requires tells { Tells updater.old }
    ensures goes_on { GoesOn course.now 0 0 updater.old updater.new }
    ensures batch { IfSome result (IsOfProcessor (callbacks_of course.now.domain) updater.new.cpu.cpu.processor) }
{
    let processor = updater.cpu.processor();
    let Ok(taken) = course.domain.take_ready(rt, &mut updater.cpu, processor, 8) else {
        return None;
    };
    taken
}

/// One turn of the engine, and a batch of what is ready.
fn serve<R: Wait>(rt: &R, course: &Course, updater: &mut Updater) -> Result<(), Halt>
    requires is { IsUpdaterOf course.now updater.old }
    requires tells { Tells updater.old }
    ensures { GoesOn course.now 0 0 updater.old updater.new }
{
    advance(course, updater)?;
    if let Some(batch) = take(rt, course, updater) {
        run(rt, course, updater, batch);
    }
    Ok(())
}

/// Whether the barrier is done.
fn is_done(course: &Course, updater: &mut Updater, ticket: &Ticket<()>) -> bool
    requires is { IsUpdaterOf course.now updater.old }
    requires tells { Tells updater.old }
    requires ticket { IsTicketOf course.now.domain ticket.now }
    ensures { GoesOn course.now 0 0 updater.old updater.new }
{
    course.domain.barrier_poll(&mut updater.cpu, ticket)
}

/// Starts a barrier over all that is queued on any processor.
fn start_barrier(course: &Course, updater: &mut Updater) -> Result<Ticket<()>, Memory>
    requires is { IsUpdaterOf course.now updater.old }
    requires tells { Tells updater.old }
    ensures goes_on { GoesOn course.now 0 0 updater.old updater.new }
    ensures ticket { IfOk result (IsTicketOf course.now.domain) }
{
    course.domain.barrier_start(&mut updater.cpu)
}

/// Drives and runs until the barrier is done.
fn settle<R: Wait>(
    rt: &R,
    course: &Course,
    updater: &mut Updater,
    ticket: &Ticket<()>,
) -> Result<(), Halt>
    requires is { IsUpdaterOf course.now updater.old }
    requires tells { Tells updater.old }
    requires ticket { IsTicketOf course.now.domain ticket.now }
    ensures { GoesOn course.now 0 0 updater.old updater.new }
{
    for _ in rt.forever() {
        if is_done(course, updater, ticket) {
            return Ok(());
        }
        serve(rt, course, updater)?;
    }
    unreachable!()
}

/// Makes all rounds, and then drives and runs until all callbacks are finished that were queued. Where no more rounds can be
/// made, these are finished too.
pub fn update_all<R: Wait>(rt: &R, course: &Course, updater: &mut Updater) -> Result<(), Halt>
    requires course { IsCourse course.now }
    requires new { IsNew course.now updater.old }
    ensures updated { HasUpdated course.now updater.new }
    ensures processor { updater.new.cpu.cpu.processor ≡ updater.old.cpu.cpu.processor }
    ensures all { IfOk result (λ _. HasMadeAll course.now updater.old updater.new) }
{
    let made = make_rounds(rt, course, updater);
    if let Err(Halt::Memory) = made {
        return made;
    }
    let Ok(ticket) = start_barrier(course, updater) else {
        return Err(Halt::Memory);
    };
    settle(rt, course, updater, &ticket)?;
    made
}
