//! Barriers of a domain: what they wait for, and a thread that waits in one.
ghost use Rattle.std.specs.Prelude.{◌<◌};
ghost use Rattle.domain.specs.Views.{IsOf};
ghost use Rattle.domain.specs.Waiting.{HasNoneOpen};
ghost use Rattle.domain.specs.Barriers.{IsTicketOf};

use domain::{Cpu, Domain, MakeError, Ticket};
use fixtures::two;
use std::sync::Wait;
use std::sync::atomic::AtomicU64;
use std::sync::atomic::Ordering::SeqCst;
use std::test::Fail;
use std::thread::{join, yield_now};

/// Drives a whole grace period.
fn drive(domain: &Domain<u64>, cpu: &mut Cpu<u64>)
    requires { IsOf domain.now cpu.old }
    ensures { IsOf domain.now cpu.new }
{
    let _started = domain.advance(cpu);
    let _flipped = domain.advance(cpu);
    let _ended = domain.advance(cpu);
}

/// Takes what is ready on processor 0, and finishes its batch. Tells the last job, and what a barrier answers between the
/// two and behind them.
fn poll_round_a_batch<R: Wait>(
    rt: &R,
    domain: &Domain<u64>,
    cpu: &mut Cpu<u64>,
    ticket: &Ticket<u64>,
) -> Option<(Option<u64>, bool, bool)>
    requires here { IsOf domain.now cpu.old }
    requires some { 0 < domain.now.processors }
    requires ticket { IsTicketOf domain.now ticket.now }
{
    let Ok(Some(mut batch)) = domain.take_ready(rt, cpu, 0, 8) else {
        return None;
    };
    let mut last = None;
    while let Some(job) = batch.next() {
        last = Some(job);
    }
    let taken = domain.barrier_poll(cpu, ticket); // false: taken is not finished
    domain.finish(rt, cpu, batch);
    let finished = domain.barrier_poll(cpu, ticket); // true
    Some((last, taken, finished))
}

/// What two barriers answer: one before a job, and one behind it.
type Stages = (bool, bool, Option<(Option<u64>, bool, bool)>);

/// Starts a barrier, queues a job, and starts another barrier. Tells whether the first is done at once, whether the second
/// is done behind a grace period, and then as above.
fn poll_at_each_stage<R: Wait>(rt: &R, domain: &Domain<u64>, cpu: &mut Cpu<u64>) -> Option<Stages>
    requires here { IsOf domain.now cpu.old }
    requires some { 0 < domain.now.processors }
{
    let Ok(before) = domain.barrier_start(cpu) else {
        return None;
    };
    let nothing = domain.barrier_poll(cpu, &before); // true
    let Ok(_receipt) = domain.call(rt, cpu, 7) else {
        return None;
    };
    let Ok(behind) = domain.barrier_start(cpu) else { // the first half of srcu_barrier: what was queued until now
        return None;
    };
    drive(domain, cpu);
    let ended = domain.barrier_poll(cpu, &behind); // false
    Some((nothing, ended, poll_round_a_batch(rt, domain, cpu, &behind)))
}

fn poll_alone<R: Wait + AllocGlobal>(rt: &R) -> Result<Option<Stages>, MakeError> {
    let (domain, mut cpu, _other, _) = two(rt.alloc(), 2)?;
    Ok(poll_at_each_stage(rt, &domain, &mut cpu))
}

/// Would catch a barrier that is done when the grace period has ended, or when the batch is only taken out, and one that
/// never is.
#[test]
fn waits_for_the_batch(rt: HostRuntime) -> Result<(), Fail> {
    let found = poll_alone(&rt)?;
    assert_eq!(rt; found, Some((true, false, Some((Some(7), false, true)))));
    Ok(())
}

/// Queues a job on one processor, of which another one then hears. Tells the processor and the number in the receipt.
fn queue_and_hear<R: Wait>(
    rt: &R,
    domain: &Domain<u64>,
    cpu: &mut Cpu<u64>,
    other: &mut Cpu<u64>,
    job: u64,
) -> Option<(u16, u64)>
    requires cpu { IsOf domain.now cpu.old }
    requires other { IsOf domain.now other.old }
    ensures cpu { IsOf domain.now cpu.new }
    ensures other { IsOf domain.now other.new }
{
    let Ok(mut receipt) = domain.call(rt, cpu, job) else {
        return None;
    };
    domain.hear(other, &mut receipt); // a barrier that it starts behind this covers the job
    Some((receipt.processor(), receipt.k()))
}

/// Polls a barrier with one processor and with another.
fn poll_both(
    domain: &Domain<u64>,
    first: &mut Cpu<u64>,
    second: &mut Cpu<u64>,
    ticket: &Ticket<u64>,
) -> (bool, bool)
    requires cpus { IsOf domain.now first.old × IsOf domain.now second.old }
    requires ticket { IsTicketOf domain.now ticket.now }
    ensures { IsOf domain.now first.new × IsOf domain.now second.new }
{
    (
        domain.barrier_poll(first, ticket),
        domain.barrier_poll(second, ticket),
    )
}

/// Starts a barrier before a job is queued on another processor, and one behind that. Tells what the first and the second
/// barrier answer then to both processors.
fn poll_before_and_behind<R: Wait>(
    rt: &R,
    domain: &Domain<u64>,
    first: &mut Cpu<u64>,
    second: &mut Cpu<u64>,
) -> Option<((bool, bool), (bool, bool))>
    requires { IsOf domain.now first.old × IsOf domain.now second.old }
{
    let Ok(before) = domain.barrier_start(first) else {
        return None;
    };
    if queue_and_hear(rt, domain, second, first, 7) != Some((1, 0)) {
        return None;
    }
    let Ok(behind) = domain.barrier_start(first) else {
        return None;
    };
    let early = poll_both(domain, first, second, &before);
    Some((early, poll_both(domain, first, second, &behind)))
}

fn poll_in_a_pair<R: Wait + AllocGlobal>(
    rt: &R,
) -> Result<Option<((bool, bool), (bool, bool))>, MakeError> {
    let (domain, mut first, mut second, _) = two(rt.alloc(), 2)?;
    Ok(poll_before_and_behind(rt, &domain, &mut first, &mut second))
}

/// Would catch a barrier that looks at its own processor alone, one that waits for calls that were queued behind it, and
/// one that only its starter may poll.
#[test]
fn waits_for_another_processor(rt: HostRuntime) -> Result<(), Fail> {
    let found = poll_in_a_pair(&rt)?;
    assert_eq!(rt; found, Some(((true, true), (false, false))));
    Ok(())
}

/// How many jobs the first thread queues: three batches.
const JOBS: u64 = 20;

/// The first thread is about to wait in its barrier.
const WAITING: u64 = 1;

/// And that has come back.
const OVER: u64 = 2;

/// What the two threads tell each other.
#[derive(Drop)]
struct Ran {
    /// How many jobs were run.
    count: AtomicU64,
    /// 0, and then `WAITING`, and then `OVER`.
    stage: AtomicU64,
}

/// Queues one job. Tells whether there was room.
pub(super) fn queue<R: Wait>(rt: &R, domain: &Domain<()>, cpu: &mut Cpu<()>) -> bool
    requires { IsOf domain.now cpu.old × HasNoneOpen cpu.old }
    ensures { IsOf domain.now cpu.new × HasNoneOpen cpu.new }
{
    domain.call(rt, cpu, ()).is_ok()
}

/// Waits in a barrier over all that was queued. Tells how many jobs had been run when it came back.
fn wait_in_barrier<R: Wait>(
    rt: &R,
    domain: &Domain<()>,
    cpu: &mut Cpu<()>,
    ran: &Ran,
) -> Option<u64>
    requires { IsOf domain.now cpu.old × HasNoneOpen cpu.old }
{
    let Ok(ticket) = domain.barrier_start(cpu) else {
        return None;
    };
    ran.stage.store(WAITING, SeqCst);
    domain.barrier(rt, cpu, &ticket); // the second half: other threads run the jobs meanwhile
    Some(ran.count.load(SeqCst))
}

/// Queues all jobs, and waits until they are run.
fn queue_and_wait<R: Wait>(
    rt: &R,
    domain: &Domain<()>,
    mut cpu: Cpu<()>,
    ran: &Ran,
) -> (bool, Option<u64>)
    requires { IsOf domain.now cpu × HasNoneOpen cpu }
{
    let mut queued = true;
    for _ in 0..JOBS {
        queued &= queue(rt, domain, &mut cpu);
    }
    let waited = wait_in_barrier(rt, domain, &mut cpu, ran);
    ran.stage.store(OVER, SeqCst);
    (queued, waited)
}

/// Takes what is ready on processor 0, runs it, and finishes the batch.
fn run_batch<R: Wait>(rt: &R, domain: &Domain<()>, cpu: &mut Cpu<()>, ran: &Ran)
    requires { IsOf domain.now cpu.old }
    ensures { IsOf domain.now cpu.new }
{
    let Ok(Some(mut batch)) = domain.take_ready(rt, cpu, 0, 8) else {
        return;
    };
    while let Some(()) = batch.next() {
        ran.count.fetch_add(1, SeqCst);
    }
    domain.finish(rt, cpu, batch);
}

/// Drives grace periods, and runs jobs from when the other thread waits for them until that has come back.
fn run_beside<R: Wait>(rt: &R, domain: &Domain<()>, mut cpu: Cpu<()>, ran: &Ran)
    requires { IsOf domain.now cpu }
{
    for _ in rt.forever() {
        let _answer = domain.advance(&mut cpu);
        match ran.stage.load(SeqCst) {
            OVER => return,
            WAITING => run_batch(rt, domain, &mut cpu, ran),
            _ => yield_now(),
        }
    }
    unreachable!()
}

/// Would catch a `barrier` that comes back before all jobs that were queued before are run: behind one poll, or behind the
/// first batch. Would also catch a job that is run twice or never, and a `barrier` that never comes back.
#[test]
fn barrier_threads(rt: HostRuntime) -> Result<(), Fail> {
    let (domain, waiter, runner, _) = two(rt.alloc(), 2)?;
    let ran = Ran {
        count: AtomicU64::new(0),
        stage: AtomicU64::new(0),
    };
    let ((queued, waited), ()) = join(
        &rt,
        || queue_and_wait(&rt, &domain, waiter, &ran),
        || run_beside(&rt, &domain, runner, &ran),
    );
    assert_eq!(rt; (queued, waited), (true, Some(JOBS)));
    Ok(())
}
