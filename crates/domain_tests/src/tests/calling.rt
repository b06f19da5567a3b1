//! Jobs that are queued at a domain, and given out there.
ghost use Rattle.domain.specs.Views.{IsOf};

use domain::{AdvanceRefusal, CallRefusal, Cpu, Domain, Index, Memory, Number, Progress};
use fixtures::one;
use linked_list_allocator::LocalHeap;
use std::alloc::{AllocError, Allocator, Global};
use std::sync::Wait;
use std::test::Fail;

fn number(value: u64) -> Number {
    Number::new(value).unwrap_or(Number::zero())
}

/// What the engine answers to one call.
pub(super) type Answer = Result<Progress, AdvanceRefusal>;

/// Drives a whole grace period, with a step for each of its parts.
pub(super) fn drive<J, A: Allocator>(domain: &Domain<J, A>, cpu: &mut Cpu<J, A>) -> [Answer; 3]
    requires { IsOf domain.now cpu.old }
    ensures { IsOf domain.now cpu.new }
{
    let started = domain.advance(cpu);
    let flipped = domain.advance(cpu);
    let ended = domain.advance(cpu);
    [started, flipped, ended]
}

/// What is told of a period that is held up.
pub(super) type HeldUp = ([Answer; 3], Answer, bool, bool);

/// A period that a section on another processor holds up. Tells what the engine answers until the section's end, and
/// behind it; and whether a cookie of before is done, both times.
pub(super) fn hold_up<J>(
    domain: &Domain<J>,
    driver: &mut Cpu<J>,
    reader: &mut Cpu<J>,
) -> Option<HeldUp>
    requires { IsOf domain.now driver.old × IsOf domain.now reader.old }
{
    let Ok(section) = reader.read_lock() else {
        return None;
    };
    let mut cookie = domain.start_poll(driver);
    let period = drive(domain, driver);
    let early = driver.poll(&mut cookie);
    reader.read_unlock(section);
    let ended = domain.advance(driver);
    let late = driver.poll(&mut cookie);
    Some((period, ended, early, late))
}

/// What it has to tell of the first period.
pub(super) fn held_up() -> HeldUp {
    let period = [
        Ok(Progress::Started(number(1))),
        Ok(Progress::Flipped(Index::One)),
        Ok(Progress::Waiting(Index::Zero)),
    ];
    (period, Ok(Progress::Ended(number(4))), false, true)
}

/// Takes what room there is in the heap.
fn stuff(alloc: Global, heap: &LocalHeap) -> Result<Vec<Vec<u8, &LocalHeap>>, AllocError> {
    let mut all = Vec::new(alloc);
    for size in [1024, 256, 64, 16, 8] {
        for _ in 0..100 {
            let Ok(room) = Vec::with_capacity(heap, size) else {
                break;
            };
            all.push(room)?;
        }
    }
    Ok(all)
}

/// Queues jobs with the numbers from 0 on until one is refused, at most a hundred. Tells how many were queued, and what came
/// back.
fn queue_until_refused<R: Wait, A: Allocator + Copy>(
    rt: &R,
    domain: &Domain<u64, A>,
    cpu: &mut Cpu<u64, A>,
) -> (u64, Option<(u64, CallRefusal)>)
    requires { IsOf domain.now cpu.old }
    ensures { IsOf domain.now cpu.new }
{
    for job in 0..100 {
        if let Err(refused) = domain.call(rt, cpu, job) {
            return (job, Some(refused));
        }
    }
    (100, None)
}

/// Would catch a refused job that is lost or that stays queued, one for which a grace period is asked, and a domain that
/// takes no more jobs after it. The first job takes memory for many, so some are queued where there is no more.
#[test]
fn gives_the_job_back(rt: HostRuntime) -> Result<(), Fail> {
    let heap = LocalHeap::new(rt.alloc(), 64 * 1024)?;
    let (domain, mut cpu, _) = one(&heap, 2)?;
    let before = domain.call(&rt, &mut cpu, 0).is_ok();
    let full = stuff(rt.alloc(), &heap)?;
    let (many, first) = queue_until_refused(&rt, &domain, &mut cpu);
    let _period = drive(&domain, &mut cpu);
    let again = domain.call(&rt, &mut cpu, 777).err();
    let need = domain.need(&mut cpu).get();
    drop(full);
    let queued = domain
        .call(&rt, &mut cpu, 7)
        .ok()
        .map(|receipt| receipt.k());
    let then = (domain.need(&mut cpu).get(), domain.lens(&rt, &mut cpu, 0));
    drop(domain);
    drop(cpu);
    let all = many.wrapping_add(1);
    assert!(rt; before && many > 0);
    assert_eq!(rt; first, Some((many, CallRefusal::Memory)));
    assert_eq!(rt; again, Some((777, CallRefusal::Memory)));
    assert_eq!(rt; (need, queued), (4, Some(all)));
    assert_eq!(rt; then, (8, Ok(([0, all as usize, 1, 0], [4, 8]))));
    assert_eq!(rt; heap.used(), 0);
    Ok(())
}
