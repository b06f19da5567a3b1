//! Crews of a team.
ghost use Rattle.std.specs.Prelude.{◌≡◌};

use srcu::{Refusal, Team, Totals, WIDEST, Worker, clean_up, make};
use std::sync::Wait;
use std::sync::atomic::AtomicU64;
use std::sync::atomic::Ordering::SeqCst;
use std::test::Fail;
use std::thread::{Threads, yield_now};

/// How often a worker looks for the others.
const LOOKS: u64 = 10_000_000;

/// Comes in, and looks for so many others. Returns whether they came.
fn meet(inside: &AtomicU64, others: u64) -> bool {
    inside.fetch_add(1, SeqCst);
    for _ in 0..LOOKS {
        if inside.load(SeqCst) > others {
            return true;
        }
        yield_now();
    }
    false
}

/// What a worker is and did: its number, its processor, whether its job was queued, and whether it met the others.
type Did = (usize, u16, bool, bool);

/// Meets so many others, and queues a job.
fn meet_and_call<R: Wait>(
    rt: &R,
    worker: &mut Worker<'_, u64>,
    number: usize,
    inside: &AtomicU64,
    others: u64,
) -> Did
    ensures { worker.new.domain ≡ worker.old.domain }
{
    let met = meet(inside, others);
    let queued = worker.call(rt, number as u64).is_ok();
    (number, worker.processor(), queued, met)
}

/// Runs all jobs that are queued. Returns their sum, and whether it met so many others.
fn meet_and_serve<R: Wait>(
    rt: &R,
    worker: &mut Worker<'_, u64>,
    inside: &AtomicU64,
    others: u64,
) -> Result<(u64, bool), Refusal>
    ensures { worker.new.domain ≡ worker.old.domain }
{
    let met = meet(inside, others);
    let ticket = worker.barrier_start()?;
    let mut sum: u64 = 0;
    worker.serve_until(rt, &ticket, |job: u64| {
        sum = sum.wrapping_add(job);
    })?;
    Ok((sum, met))
}

/// Runs a crew of so many, which queue a job each, and then a crew of one that runs them.
fn run_twice<R: Wait + Threads + Sync>(
    rt: &R,
    team: &mut Team<'_, u64>,
    many: usize,
) -> Result<(Vec<Did>, u64), Refusal>
    ensures { team.new ≡ team.old }
{
    let inside = AtomicU64::new(0);
    let others = many.saturating_sub(1) as u64;
    let did = team.run(rt, many, |worker: &mut Worker<'_, u64>, number: usize| {
        meet_and_call(rt, worker, number, &inside, others)
    })?;
    let mut served = team.run(rt, 1, |worker: &mut Worker<'_, u64>, _number: usize| {
        meet_and_serve(rt, worker, &inside, 0)
    })?;
    let (sum, _) = served.pop().ok_or(Refusal::NoWorker)??;
    Ok((did, sum))
}

/// What came of a crew, and of the end of its domain, which has so many processors.
type Ended = (Result<(Vec<Did>, u64), Refusal>, Totals);

fn run_apart<R: Wait + Threads + AllocGlobal + Sync>(
    rt: &R,
    processors: usize,
    many: usize,
) -> Result<Ended, Refusal> {
    let (domain, cpus, writers) = make(rt.alloc(), processors, WIDEST)?;
    let mut team = Team::new(&domain, cpus, writers);
    let came = run_twice(rt, &mut team, many);
    let cpus = team.into_cpus();
    let totals = clean_up(domain, cpus)?;
    Ok((came, totals))
}

/// Would catch a worker that is left out or works twice, one without a thread of its own, another one's number, results in
/// another order, and a worker that doesn't come home.
#[test]
fn each_worker_works_once(rt: HostRuntime) -> Result<(), Fail> {
    for many in 1..5 {
        let (came, totals) = match run_apart(&rt, 4, many) {
            Ok(ended) => ended,
            Err(refusal) => panic!(rt; "{refusal}"),
        };
        let (did, sum) = match came {
            Ok(came) => came,
            Err(refusal) => panic!(rt; "{refusal}"),
        };
        assert_eq!(rt; did.len(), many);
        for number in 0..many {
            let processor = 3 - number as u16;
            assert_eq!(rt; did[number], (number, processor, true, true));
        }
        assert_eq!(rt; sum, (many * (many - 1) / 2) as u64);
        assert_eq!(rt;
            (totals.queued, totals.finished),
            (many as u128, many as u128)
        );
    }
    Ok(())
}

/// Would catch a crew of more workers than the team has, and one that is refused and keeps some.
#[test]
fn too_few_workers(rt: HostRuntime) -> Result<(), Fail> {
    match run_apart(&rt, 2, 3) {
        Ok((came, totals)) => {
            assert_eq!(rt; came.err(), Some(Refusal::NoWorker));
            assert_eq!(rt; totals.queued, 0);
        }
        Err(refusal) => panic!(rt; "{refusal}"),
    }
    Ok(())
}

/// What each worker of a crew did, the sum of the jobs, and whether they met.
type Beside = (Vec<Did>, (u64, bool));

/// Runs a crew of so many, which queue a job each, and runs jobs beside it and after it.
fn run_beside<R: Wait + Threads + Sync>(
    rt: &R,
    team: &mut Team<'_, u64>,
    many: usize,
) -> Result<Beside, Refusal>
    ensures { team.new ≡ team.old }
{
    let inside = AtomicU64::new(0);
    let others = many as u64;
    let (did, served) = team.run_beside(
        rt,
        many,
        |worker: &mut Worker<'_, u64>, number: usize| {
            meet_and_call(rt, worker, number, &inside, others)
        },
        |worker: &mut Worker<'_, u64>| meet_and_serve(rt, worker, &inside, others),
    )?;
    let (early, met) = served?;
    let mut served = team.run(rt, 1, |worker: &mut Worker<'_, u64>, _number: usize| {
        meet_and_serve(rt, worker, &inside, 0)
    })?;
    let (late, _) = served.pop().ok_or(Refusal::NoWorker)??;
    Ok((did, (early.wrapping_add(late), met)))
}

fn run_beside_apart<R: Wait + Threads + AllocGlobal + Sync>(
    rt: &R,
    processors: usize,
    many: usize,
) -> Result<(Result<Beside, Refusal>, Totals), Refusal> {
    let (domain, cpus, writers) = make(rt.alloc(), processors, WIDEST)?;
    let mut team = Team::new(&domain, cpus, writers);
    let came = run_beside(rt, &mut team, many);
    let cpus = team.into_cpus();
    let totals = clean_up(domain, cpus)?;
    Ok((came, totals))
}

/// Would catch a thread that doesn't go on beside its crew, whose result is lost, or whose worker doesn't come home.
#[test]
fn a_thread_goes_on_beside_its_crew(rt: HostRuntime) -> Result<(), Fail> {
    match run_beside_apart(&rt, 4, 3) {
        Ok((came, totals)) => {
            let (did, served) = match came {
                Ok(came) => came,
                Err(refusal) => panic!(rt; "{refusal}"),
            };
            let all = [(0, 2, true, true), (1, 1, true, true), (2, 0, true, true)];
            assert_eq!(rt; did.as_slice(), all.as_slice());
            assert_eq!(rt; served, (3, true));
            assert_eq!(rt; (totals.queued, totals.finished), (3, 3));
        }
        Err(refusal) => panic!(rt; "{refusal}"),
    }
    Ok(())
}

/// Would catch a crew that takes the worker of the thread beside it, and one that is refused and keeps some.
#[test]
fn too_few_workers_beside(rt: HostRuntime) -> Result<(), Fail> {
    for many in 2..4 {
        match run_beside_apart(&rt, 2, many) {
            Ok((came, totals)) => {
                assert_eq!(rt; came.err(), Some(Refusal::NoWorker));
                assert_eq!(rt; totals.queued, 0);
            }
            Err(refusal) => panic!(rt; "{refusal}"),
        }
    }
    Ok(())
}
