//! What a worker finds of a section that holds its grace period up, in one thread.
ghost use Rattle.std.specs.Prelude.{◌≡◌};

use srcu::{Holder, Index, Memory, Pair, Pool, Refusal, Team, WIDEST, Worker, make};
use std::alloc::Global;
use std::sync::Wait;
use std::test::Fail;
use std::time::{Clock, Duration};

/// A time that is over before the section ends.
fn short() -> Duration {
    Duration::from_millis(3)
}

/// And one that isn't over in the test.
fn long() -> Duration {
    Duration::from_secs(100)
}

/// How many processors hold an index up, and the first of them.
fn name_holders(
    alloc: Global,
    worker: &mut Worker<'_, u64>,
    index: Index,
) -> Result<(usize, Option<Holder>), Memory>
    ensures { worker.new.domain ≡ worker.old.domain }
{
    let holders = worker.holders(alloc, index)?;
    Ok((holders.len(), holders.first().copied()))
}

/// What a snapshot says of one index on processor 0.
fn pair_at_a_glance(
    alloc: Global,
    worker: &mut Worker<'_, u64>,
    index: Index,
) -> Result<Option<Pair>, Memory>
    ensures { worker.new.domain ≡ worker.old.domain }
{
    let snapshot = worker.snapshot(alloc)?;
    Ok(snapshot.of(index).pair(0))
}

/// The index of the sections that a period waits for, how many hold it up, and the first of them.
fn name_waited_for(
    alloc: Global,
    worker: &mut Worker<'_, u64>,
) -> Result<(Index, usize, Option<Holder>), Memory>
    ensures { worker.new.domain ≡ worker.old.domain }
{
    let (index, holders) = worker.who_holds(alloc)?;
    Ok((index, holders.len(), holders.first().copied()))
}

/// Who holds an index up, what was counted on processor 0, who holds the period up, and whether it waits for this index if anyone
/// does.
type Seen = (
    (usize, Option<Holder>),
    Option<Pair>,
    (usize, Option<Holder>),
    bool,
);

fn see<R: AllocGlobal>(rt: &R, worker: &mut Worker<'_, u64>, index: Index) -> Result<Seen, Refusal>
    ensures { worker.new.domain ≡ worker.old.domain }
{
    let holders = name_holders(rt.alloc(), worker, index)?;
    let (waited_for, many, first) = name_waited_for(rt.alloc(), worker)?;
    let pair = pair_at_a_glance(rt.alloc(), worker, index)?;
    let here = many == 0 || waited_for == index;
    Ok((holders, pair, (many, first), here))
}

/// Whether a wait came back late beside the other worker's held section, and one after its end; and what was seen after each.
type Both = ([bool; 2], [Seen; 2]);

fn see_beside<R: Wait + Clock + AllocGlobal>(
    rt: &R,
    worker: &mut Worker<'_, u64>,
    other: &mut Worker<'_, u64>,
) -> Result<Both, Refusal>
    requires { other.old.domain ≡ worker.old.domain }
{
    let held = other.down_read()?;
    let index = held.index();
    let waited = worker.synchronize_for(rt, short());
    let _waits = worker.drive();
    let open = see(rt, worker, index);
    other.up_read(held);
    let ended = worker.synchronize_for(rt, long());
    let closed = see(rt, worker, index);
    Ok(([waited.is_err(), ended.is_err()], [open?, closed?]))
}

fn seen<R: Wait + Clock + AllocGlobal>(rt: &R) -> Result<Both, Refusal> {
    let (domain, cpus, writers) = make(rt.alloc(), 2, WIDEST)?;
    let mut team = Team::new(&domain, cpus, writers);
    let mut one = team.worker().ok_or(Refusal::NoWorker)?;
    let mut other = team.worker().ok_or(Refusal::NoWorker)?;
    see_beside(rt, &mut one, &mut other)
}

/// Would catch a wait that names no holder, or one whose section is closed.
#[test]
fn names_who_holds_it_up(rt: HostRuntime) -> Result<(), Fail> {
    let pair = |unlocks: u64| Pair { locks: 1, unlocks };
    let holder = Holder {
        processor: 0,
        pair: pair(0),
    };
    match seen(&rt) {
        Ok(seen) => assert_eq!(rt;
            seen,
            (
                [true, false],
                [
                    ((1, Some(holder)), Some(pair(0)), (1, Some(holder)), true),
                    ((0, None), Some(pair(1)), (0, None), true)
                ]
            )
        ),
        Err(refusal) => panic!(rt; "{refusal}"),
    }
    Ok(())
}

/// Takes a processor out of a pool that has none.
fn take_none<R: Wait + AllocGlobal>(rt: &R) -> Result<Option<Refusal>, Refusal> {
    let (domain, _cpus, _writers) = make::<u64, _>(rt.alloc(), 1, WIDEST)?;
    let pool = Pool::new(rt.alloc(), &domain)?;
    match pool.try_take(rt) {
        Ok(lent) => {
            pool.give(rt, lent);
            Ok(None)
        }
        Err(home) => Ok(Some(home.into())),
    }
}

/// Would catch a refusal that becomes another one.
#[test]
fn refused_by_a_pool(rt: HostRuntime) -> Result<(), Fail> {
    match take_none(&rt) {
        Ok(refused) => assert_eq!(rt; refused, Some(Refusal::NoneAtHome)),
        Err(refusal) => panic!(rt; "{refusal}"),
    }
    Ok(())
}
