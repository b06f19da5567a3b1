//! Calls of a worker by hand, each with what it answers: jobs that are taken out and finished, a chain, a table, counters.
ghost use Rattle.std.specs.Prelude.{◌≡◌, ◌<◌};
ghost use Rattle.srcu.specs.Workers.{IsCellOf};

use srcu::{
    Chain, ChainView, Counts, Lens, Limits, Pair, Refusal, Table, TableView, Team, WIDEST, Worker,
    make,
};
use std::sync::Wait;
use std::test::Fail;

/// Takes out what is ready on processor 0, two jobs at most, and finishes it. Returns their digits: 0 where nothing is ready.
fn take_two<R: Wait>(rt: &R, worker: &mut Worker<'_, u64>) -> Result<u64, Refusal>
    requires { 0 < worker.old.domain.processors }
    ensures { worker.new.domain ≡ worker.old.domain }
{
    let mut digits: u64 = 0;
    let Some(taken) = worker.take_ready(rt, 0, 2)? else {
        return Ok(digits);
    };
    let mut batch = taken;
    while let Some(job) = batch.next() {
        digits = digits.wrapping_mul(10).wrapping_add(job);
    }
    worker.finish(rt, batch);
    Ok(digits)
}

/// How jobs wait before a period and after it, what is taken out before it and twice after it, and whether the barrier's jobs are
/// finished before the last batch and after it.
type ByHand = ((Lens, Lens), (u64, u64, u64), (bool, bool));

/// Queues three jobs, and runs them with no driver.
fn run_by_hand<R: Wait>(rt: &R, worker: &mut Worker<'_, u64>) -> Result<ByHand, Refusal>
    requires { 0 < worker.old.domain.processors }
{
    worker.call(rt, 1)?;
    worker.call(rt, 2)?;
    let mut receipt = worker.call(rt, 3)?;
    worker.hear(&mut receipt);
    let ticket = worker.barrier_start()?;
    let queued = worker.lens(rt, 0)?;
    let none = take_two(rt, worker)?;
    worker.synchronize(rt)?;
    let first = take_two(rt, worker)?;
    let ready = worker.lens(rt, 0)?;
    let before = worker.barrier_poll(&ticket);
    let second = take_two(rt, worker)?;
    worker.barrier(rt, &ticket);
    let after = worker.barrier_poll(&ticket);
    Ok(((queued, ready), (none, first, second), (before, after)))
}

fn by_hand<R: Wait + AllocGlobal>(rt: &R) -> Result<ByHand, Refusal> {
    let (domain, cpus, writers) = make(rt.alloc(), 1, WIDEST)?;
    let mut team = Team::new(&domain, cpus, writers);
    let mut worker = team.worker().ok_or(Refusal::NoWorker)?;
    run_by_hand(rt, &mut worker)
}

/// Would catch a batch that is empty, that has a job twice or too many, or that is never finished. Also jobs that are counted in the
/// wrong place, and a barrier that doesn't wait for the last batch, or waits for ever.
#[test]
fn jobs_are_run_by_hand(rt: HostRuntime) -> Result<(), Fail> {
    match by_hand(&rt) {
        Ok((lens, taken, finished)) => {
            let waiting = Lens {
                done: 0,
                wait: 3,
                next_ready: 0,
                next: 0,
                first: 4,
                second: 0,
            };
            let left = Lens {
                done: 1,
                wait: 0,
                next_ready: 0,
                next: 0,
                first: 0,
                second: 0,
            };
            assert_eq!(rt; lens, (waiting, left));
            assert_eq!(rt; taken, (0, 12, 3));
            assert_eq!(rt; finished, (false, true));
        }
        Err(refusal) => panic!(rt; "{refusal}"),
    }
    Ok(())
}

/// The first two ids of a chain's handlers and how many there are, with two handlers and with the one that is left.
type Listed = [([u64; 2], usize); 2];

/// Registers two handlers and unregisters the first of them.
fn change_chain(
    worker: &mut Worker<'_, u64>,
    chain: &mut Chain,
    view: &ChainView,
) -> Result<Listed, Refusal>
    requires chain { chain.old.writer.domain ≡ worker.old.domain.domain }
    requires ids { chain.old.ids ≡ 4 }
    requires view { IsCellOf worker.old.domain view.now.place }
{
    worker.register(chain, 1, 5)?;
    worker.register(chain, 3, 9)?;
    let both = worker.ids(view)?;
    worker.unregister(chain, 3)?;
    let left = worker.ids(view)?;
    Ok([
        ([both.ids[0], both.ids[1]], both.count),
        ([left.ids[0], left.ids[1]], left.count),
    ])
}

fn changed_chain<R: AllocGlobal>(rt: &R) -> Result<Listed, Refusal> {
    let (domain, cpus, writers) = make(rt.alloc(), 1, Limits { cells: 1, ..WIDEST })?;
    let mut team = Team::new(&domain, cpus, writers);
    let mut worker = team.worker().ok_or(Refusal::NoWorker)?;
    let writer = team.writer().ok_or(Refusal::NoWriter)?;
    let (mut chain, view) = Chain::new(writer, 4);
    change_chain(&mut worker, &mut chain, &view)
}

/// Would catch ids in the wrong order, a handler that stays, and one that goes in place of another.
#[test]
fn handlers_come_and_go(rt: HostRuntime) -> Result<(), Fail> {
    match changed_chain(&rt) {
        Ok(listed) => assert_eq!(rt; listed, [([3, 1], 2), ([1, 0], 1)]),
        Err(refusal) => panic!(rt; "{refusal}"),
    }
    Ok(())
}

/// The versions of two changes, the plug of the key after each, and what a third change is refused for.
type Looked = ([u64; 2], [Option<u32>; 2], Option<Refusal>);

/// Gives a key a plug, and removes it twice.
fn change_table(
    worker: &mut Worker<'_, u64>,
    table: &mut Table,
    view: &TableView,
) -> Result<Looked, Refusal>
    requires table { table.old.writer.domain ≡ worker.old.domain.domain }
    requires view { IsCellOf worker.old.domain view.now }
{
    let first = worker.install(table, 7, 70)?;
    let there = worker.lookup(view, 7)?;
    let second = worker.remove(table, 7)?;
    let gone = worker.lookup(view, 7)?;
    let again = match worker.remove(table, 7) {
        Ok(_) => None,
        Err(why) => Some(why.into()),
    };
    Ok(([first, second], [there, gone], again))
}

fn changed_table<R: AllocGlobal>(rt: &R) -> Result<Looked, Refusal> {
    let (domain, cpus, writers) = make(rt.alloc(), 1, Limits { cells: 1, ..WIDEST })?;
    let mut team = Team::new(&domain, cpus, writers);
    let mut worker = team.worker().ok_or(Refusal::NoWorker)?;
    let writer = team.writer().ok_or(Refusal::NoWriter)?;
    let (mut table, view) = Table::new(writer);
    change_table(&mut worker, &mut table, &view)
}

/// Would catch a plug that stays, and a second removal that is told as one.
#[test]
fn plugs_come_and_go(rt: HostRuntime) -> Result<(), Fail> {
    match changed_table(&rt) {
        Ok(looked) => assert_eq!(rt; looked, ([1, 2], [Some(70), None], Some(Refusal::NoKey))),
        Err(refusal) => panic!(rt; "{refusal}"),
    }
    Ok(())
}

/// The counters of processor 0 while a section is open and after it, and whether a cookie of then is done before a period and
/// after it.
type Watched = ([Counts; 2], [bool; 2]);

/// Watches the only processor round a section.
fn watch_a_section<R: Wait>(rt: &R, worker: &mut Worker<'_, u64>) -> Result<Watched, Refusal>
    requires { 0 < worker.old.domain.processors }
{
    let held = worker.down_read()?;
    let open = worker.watch(0);
    worker.up_read(held);
    let closed = worker.watch(0);
    let mut cookie = worker.cookie();
    let before = worker.poll(&mut cookie);
    worker.synchronize(rt)?;
    let after = worker.poll(&mut cookie);
    Ok(([open, closed], [before, after]))
}

fn watched<R: Wait + AllocGlobal>(rt: &R) -> Result<Watched, Refusal> {
    let (domain, cpus, writers) = make(rt.alloc(), 1, WIDEST)?;
    let mut team = Team::new(&domain, cpus, writers);
    let mut worker = team.worker().ok_or(Refusal::NoWorker)?;
    watch_a_section(rt, &mut worker)
}

/// Would catch counters of another index, and a cookie that is done at once or never.
#[test]
fn a_section_is_watched(rt: HostRuntime) -> Result<(), Fail> {
    let nothing = Pair {
        locks: 0,
        unlocks: 0,
    };
    let counts = |unlocks| Counts {
        zero: Pair { locks: 1, unlocks },
        one: nothing,
    };
    match watched(&rt) {
        Ok(watched) => assert_eq!(rt; watched, ([counts(0), counts(1)], [false, true])),
        Err(refusal) => panic!(rt; "{refusal}"),
    }
    Ok(())
}
