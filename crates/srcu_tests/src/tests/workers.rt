//! Calls of workers and what comes of them, in one thread.
ghost use Rattle.std.specs.Prelude.{◌≡◌};

use srcu::{Limits, MakeError, Refusal, Stop, Team, Totals, WIDEST, Worker, clean_up, make};
use std::sync::Wait;
use std::test::Fail;
use std::time::{Clock, Duration};

/// What a worker's jobs came to: the digits of those that ran, how many periods and jobs that took, and whether the cookie was
/// done before the period and after it.
type Worked = (u64, (u64, u64), (bool, bool));

/// Queues three jobs and waits for them in a barrier; then asks for a period, and waits for it.
fn work<R: Wait>(rt: &R, worker: &mut Worker<'_, u64>) -> Result<Worked, Refusal>
    ensures { worker.new.domain ≡ worker.old.domain }
{
    worker.call(rt, 1)?;
    worker.call(rt, 2)?;
    worker.call(rt, 3)?;
    let ticket = worker.barrier_start()?;
    let mut digits: u64 = 0;
    let served = worker.serve_until(rt, &ticket, |job: u64| {
        digits = digits.wrapping_mul(10).wrapping_add(job);
    })?;
    let mut cookie = worker.start_poll();
    let before = worker.poll(&mut cookie);
    worker.synchronize(rt)?;
    let after = worker.poll(&mut cookie);
    Ok((digits, (served.periods, served.jobs), (before, after)))
}

/// Gives a domain's worker to `work`, and takes the domain down.
fn worked<R: Wait + AllocGlobal>(rt: &R) -> Result<(Worked, Totals), Refusal> {
    let (domain, cpus, writers) = make(rt.alloc(), 2, WIDEST)?;
    let mut team = Team::new(&domain, cpus, writers);
    let mut worker = team.worker().ok_or(Refusal::NoWorker)?;
    let came = work(rt, &mut worker);
    if team.back(worker).is_err() {
        return Err(Refusal::Memory);
    }
    let cpus = team.into_cpus();
    let totals = clean_up(domain, cpus)?;
    Ok((came?, totals))
}

/// Would catch a worker that drops a job or runs one twice, a barrier that is done at once, and a cookie that is never done.
#[test]
fn queues_waits_and_polls(rt: HostRuntime) -> Result<(), Fail> {
    let (came, totals) = match worked(&rt) {
        Ok(worked) => worked,
        Err(refusal) => panic!(rt; "{refusal}"),
    };
    assert_eq!(rt; came, (123, (1, 3), (false, true)));
    assert_eq!(rt; (totals.queued, totals.finished, totals.periods), (3, 3, 2));
    Ok(())
}

/// A job is queued and not run. What the end of the domain is refused for.
fn ended_early<R: Wait + AllocGlobal>(rt: &R) -> Result<Totals, Refusal> {
    let (domain, cpus, writers) = make(rt.alloc(), 2, WIDEST)?;
    let mut team = Team::new(&domain, cpus, writers);
    let mut worker = team.worker().ok_or(Refusal::NoWorker)?;
    worker.call(rt, 7)?;
    if team.back(worker).is_err() {
        return Err(Refusal::Memory);
    }
    let cpus = team.into_cpus();
    Ok(clean_up(domain, cpus)?)
}

/// Would catch an end that loses a job, and a refusal that becomes another one.
#[test]
fn ends_with_no_job_left(rt: HostRuntime) -> Result<(), Fail> {
    match ended_early(&rt) {
        Ok(_) => panic!(rt; "a job is left"),
        Err(refusal) => assert_eq!(rt; refusal, Refusal::Unfinished(1)),
    }
    Ok(())
}

/// How four waits of a worker end: while another one's held section is open, for jobs that stay queued, after the section's end,
/// and for jobs that were run.
type Waits = (
    Option<Refusal>,
    Option<Refusal>,
    Option<Refusal>,
    Option<Refusal>,
);

fn refusal_of<E>(waited: Result<(), E>) -> Option<Refusal>
where
    Refusal: From<E>,
{
    match waited {
        Ok(()) => None,
        Err(refusal) => Some(refusal.into()),
    }
}

fn wait_for_so_long<R: Wait + Clock>(
    rt: &R,
    one: &mut Worker<'_, u64>,
    other: &mut Worker<'_, u64>,
) -> Result<Waits, Refusal>
    requires { other.old.domain ≡ one.old.domain }
{
    one.call(rt, 7)?;
    let ticket = one.barrier_start()?;
    let held = other.down_read()?;
    let open = refusal_of(one.synchronize_for(rt, Duration::from_millis(3)));
    other.up_read(held);
    let unrun = refusal_of(one.barrier_for(rt, &ticket, Duration::from_millis(3)));
    let closed = refusal_of(one.synchronize_for(rt, Duration::from_secs(100)));
    one.serve_until(rt, &ticket, |_job: u64| {})?;
    let run = refusal_of(one.barrier_for(rt, &ticket, Duration::from_secs(100)));
    Ok((open, unrun, closed, run))
}

fn waits<R: Wait + Clock + AllocGlobal>(rt: &R) -> Result<Waits, Refusal> {
    let (domain, cpus, writers) = make(rt.alloc(), 2, WIDEST)?;
    let mut team = Team::new(&domain, cpus, writers);
    let mut one = team.worker().ok_or(Refusal::NoWorker)?;
    let mut other = team.worker().ok_or(Refusal::NoWorker)?;
    wait_for_so_long(rt, &mut one, &mut other)
}

/// Would catch a wait that never ends, a `synchronize_for` that ends before its section does or whose time is over at once, and a
/// `barrier_for` that ends before its job has run, or not then.
#[test]
fn waits_for_so_long(rt: HostRuntime) -> Result<(), Fail> {
    let late = Some(Refusal::TimedOut);
    match waits(&rt) {
        Ok(waits) => assert_eq!(rt; waits, (late, late, None, None)),
        Err(refusal) => panic!(rt; "{refusal}"),
    }
    Ok(())
}

/// Whether the sign is given: before it is, after this worker has, and once it has again; and whether each time its ticket lay
/// there.
type Told = ([bool; 3], [bool; 2]);

/// Gives the sign twice.
fn tell_twice<R: Wait + AllocGlobal>(rt: &R) -> Result<Told, Refusal> {
    let (domain, cpus, writers) = make(rt.alloc(), 1, WIDEST)?;
    let stop: Stop<u64> = Stop::new(rt.alloc(), &domain)?;
    let mut team = Team::new(&domain, cpus, writers);
    let mut worker = team.worker().ok_or(Refusal::NoWorker)?;
    let (before, _) = stop.is_given(rt);
    let (first, _) = worker.tell(rt, &stop);
    let (after, _) = stop.is_given(rt);
    let (second, _) = worker.tell(rt, &stop);
    let (still, _) = stop.is_given(rt);
    Ok(([before, after, still], [first, second]))
}

/// Would catch a sign that is never given, and one that is given twice.
#[test]
fn tells_once(rt: HostRuntime) -> Result<(), Fail> {
    match tell_twice(&rt) {
        Ok(told) => assert_eq!(rt; told, ([false, true, true], [true, false])),
        Err(refusal) => panic!(rt; "{refusal}"),
    }
    Ok(())
}

/// Which cells the writers of a domain with so many cells have, in the order in which a team gives them out.
fn cells_of<R: AllocGlobal>(rt: &R, cells: u64) -> Result<(usize, usize, bool), Refusal> {
    let (domain, cpus, writers) = make::<u64, _>(rt.alloc(), 1, Limits { cells, ..WIDEST })?;
    let mut team = Team::new(&domain, cpus, writers);
    let first = team.writer().ok_or(Refusal::NoWriter)?;
    let second = team.writer().ok_or(Refusal::NoWriter)?;
    Ok((first.cell(), second.cell(), team.writer().is_none()))
}

/// Would catch writers that are lost or come twice, and limits that are not the widest.
#[test]
fn makes_what_is_asked_for(rt: HostRuntime) -> Result<(), Fail> {
    match cells_of(&rt, 2) {
        Ok(cells) => assert_eq!(rt; cells, (1, 0, true)),
        Err(refusal) => panic!(rt; "{refusal}"),
    }
    match cells_of(&rt, 5) {
        Ok(_) => panic!(rt; "a domain has at most four cells"),
        Err(refusal) => assert_eq!(rt; refusal, MakeError::Limits.into()),
    }
    let wider = [
        Limits {
            sections: WIDEST.sections + 1,
            ..WIDEST
        },
        Limits {
            periods: WIDEST.periods + 1,
            ..WIDEST
        },
        Limits {
            slots: WIDEST.slots + 1,
            ..WIDEST
        },
    ];
    assert!(rt; WIDEST.are_in_range() && !wider.iter().any(|limits| limits.are_in_range()));
    Ok(())
}
