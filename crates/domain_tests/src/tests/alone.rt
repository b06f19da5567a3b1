//! One thread with all processors: what each call answers.
ghost use Rattle.std.specs.Prelude.{◌<◌, IfOk};
ghost use Rattle.domain.specs.Views.{IsOf, IsSameProcessor};
ghost use Rattle.domain.specs.Meetings.{IsAllOf};
ghost use Rattle.domain.specs.Waiting.{HasNoneOpen};

use super::calling::{Answer, HeldUp, held_up, hold_up};
use domain::{CookieSet, Cpu, Domain, Limits, MakeError, Number, PeriodsExhausted, StartRefusal};
use linked_list_allocator::LocalHeap;
use std::alloc::Global;
use std::sync::Wait;
use std::test::Fail;

pub(super) const AMPLE: Limits = Limits {
    sections: Limits::MOST_SECTIONS,
    periods: Limits::MOST_PERIODS,
    cells: 0,
    slots: 2,
};

/// One section of an index on each processor, and one grace period.
const SCARCE: Limits = Limits {
    sections: 1,
    periods: 1,
    cells: 0,
    slots: 2,
};

fn number(value: u64) -> Number {
    Number::new(value).unwrap_or(Number::zero())
}

/// A new domain of so many processors, and the last two of them.
pub(super) fn last_two<J: Drop>(
    alloc: Global,
    processors: usize,
    limits: Limits,
) -> Result<(Domain<J>, Cpu<J>, Cpu<J>), MakeError>
    requires { 1 < processors }
    ensures { IfOk result (λ r. IsOf r.0 r.1 × HasNoneOpen r.1 × IsOf r.0 r.2 × HasNoneOpen r.2) }
{
    let (domain, mut cpus, _) = Domain::new(alloc, processors, limits)?;
    let last = cpus.pop().unwrap();
    let other = cpus.pop().unwrap();
    Ok((domain, other, last))
}

/// Makes a domain in the heap's room, and drops it. Tells how many processors there were, and how much of the heap was used.
fn make_and_drop(heap: &LocalHeap) -> Result<(usize, usize), MakeError> {
    let (domain, cpus, _) = Domain::<(), _>::new(heap, 2, SCARCE)?;
    let made = (cpus.len(), heap.used());
    drop(cpus);
    drop(domain);
    Ok(made)
}

/// Would catch a refused allocation that is told as another error or that leaves something allocated, and a domain that
/// keeps memory behind its drop.
#[test]
fn new_in_little_room(rt: HostRuntime) -> Result<(), Fail> {
    for room in 0..2048 {
        let heap = LocalHeap::new(rt.alloc(), 64 + 16 * room)?;
        let made = make_and_drop(&heap);
        assert_eq!(rt; heap.used(), 0);
        if let Ok((processors, used)) = made {
            assert!(rt; room > 0 && processors == 2 && used > 0);
            return Ok(());
        }
        assert_eq!(rt; made, Err(MakeError::Memory));
    }
    panic!(rt; "it never fits")
}

/// The numbers of the last two of 256 processors, and a period that the last one holds up.
fn hold_up_by_the_last<R: AllocGlobal>(rt: &R) -> Result<((u16, u16), Option<HeldUp>), MakeError> {
    let (domain, mut driver, mut last) = last_two::<()>(rt.alloc(), 256, SCARCE)?;
    let numbers = (driver.processor(), last.processor());
    Ok((numbers, hold_up(&domain, &mut driver, &mut last)))
}

/// Would catch a processor that is not dealt or that a scan leaves out, as where it goes over 255 of 256.
#[test]
fn most_processors(rt: HostRuntime) -> Result<(), Fail> {
    let (numbers, period) = hold_up_by_the_last(&rt)?;
    assert_eq!(rt; (numbers, period), ((254, 255), Some(held_up())));
    Ok(())
}

/// What three starts answer, and the engine.
type Started = ([Result<Number, StartRefusal>; 3], [Answer; 2]);

/// Waits three times, where there may be two periods. Tells what the waits answer, the number behind the first and the
/// second, the need, and whether a cookie of before is done before and behind the first.
type Waited = ([Result<(), PeriodsExhausted>; 3], [Number; 3], [bool; 2]);

fn wait_thrice<R: Wait>(
    rt: &R,
    domain: &Domain<()>,
    reader: &mut Cpu<()>,
    updater: &mut Cpu<()>,
) -> Option<Waited>
    requires reader { IsOf domain.now reader.old }
    requires updater { IsOf domain.now updater.old × HasNoneOpen updater.old }
{
    let Ok(section) = reader.read_lock() else {
        return None;
    };
    reader.read_unlock(section);
    let mut older = reader.cookie();
    let early = reader.poll(&mut older);
    let first = domain.synchronize(rt, updater);
    let at_first = reader.number();
    let late = reader.poll(&mut older);
    let second = domain.synchronize(rt, updater);
    let at_second = reader.number();
    let third = domain.synchronize(rt, updater);
    let need = domain.need(updater);
    Some((
        [first, second, third],
        [at_first, at_second, need],
        [early, late],
    ))
}

/// The same in a domain of two processors, and the number in the end.
fn wait_in_a_pair<R: Wait + AllocGlobal>(rt: &R) -> Result<(Option<Waited>, u64), MakeError> {
    let limits = Limits {
        sections: 1,
        periods: 2,
        cells: 0,
        slots: 2,
    };
    let (domain, mut reader, mut updater) = last_two(rt.alloc(), 2, limits)?;
    let waited = wait_thrice(rt, &domain, &mut reader, &mut updater);
    Ok((waited, reader.number().get()))
}

/// Would catch a wait for sections that are closed, one that asks for no period or for two, and one that comes back
/// before its period has ended.
#[test]
fn synchronizes_alone(rt: HostRuntime) -> Result<(), Fail> {
    let (waited, last) = wait_in_a_pair(&rt)?;
    let answers = [Ok(()), Ok(()), Err(PeriodsExhausted)];
    let numbers = [number(4), number(8), number(12)];
    assert_eq!(rt;
        (waited, last),
        (Some((answers, numbers, [false, true])), 8)
    );
    Ok(())
}

/// Polls a cookie of a set before a grace period and after it, and shows the reader what that found. Tells both answers,
/// and whether the set is done.
fn find_for_another<R: Wait>(
    rt: &R,
    domain: &Domain<()>,
    reader: &mut Cpu<()>,
    updater: &mut Cpu<()>,
) -> [bool; 3]
    requires reader { IsOf domain.now reader.old }
    requires updater { IsOf domain.now updater.old × HasNoneOpen updater.old }
{
    let mut set = CookieSet::new();
    let Ok(place) = set.add(updater.cookie()) else {
        unreachable!()
    };
    let early = set.poll_member(place, updater);
    let driven = domain.synchronize(rt, updater).is_ok();
    let late = set.poll_member(place, updater);
    set.catch_up(place, reader);
    [early, driven && late, set.done()]
}

/// Would catch a set that is done too soon or never.
#[test]
fn finds_for_another(rt: HostRuntime) -> Result<(), Fail> {
    let (domain, mut reader, mut updater) = last_two(rt.alloc(), 2, AMPLE)?;
    let told = find_for_another(&rt, &domain, &mut reader, &mut updater);
    assert_eq!(rt; told, [false, true, true]);
    Ok(())
}

/// Why such a domain is not made, if it is not.
fn refusal(alloc: Global, processors: usize, limits: Limits) -> Option<MakeError> {
    Domain::<()>::new(alloc, processors, limits).err()
}

/// Would catch a wrong bound of processors or limits, and refusals in another order.
#[test]
fn what_is_not_made(rt: HostRuntime) -> Result<(), Fail> {
    let wrong = [
        Limits {
            sections: 0,
            ..AMPLE
        },
        Limits {
            sections: (1 << 52) + 1,
            ..AMPLE
        },
        Limits {
            periods: 0,
            ..AMPLE
        },
        Limits {
            periods: 1 << 59,
            ..AMPLE
        },
        Limits { cells: 5, ..AMPLE },
    ];
    for processors in [1, 256] {
        assert_eq!(rt; refusal(rt.alloc(), processors, AMPLE), None);
        for limits in wrong {
            let refused = refusal(rt.alloc(), processors, limits);
            assert_eq!(rt; (limits, refused), (limits, Some(MakeError::Limits)));
        }
    }
    for processors in [0, 257, usize::MAX] {
        for limits in [AMPLE, SCARCE, Limits { cells: 5, ..AMPLE }] {
            let refused = refusal(rt.alloc(), processors, limits);
            assert_eq!(rt; (limits, refused), (limits, Some(MakeError::Processors)));
        }
    }
    Ok(())
}

/// Asks for a grace period, and starts one where none runs.
fn ask_and_start(domain: &Domain<()>, cpu: &mut Cpu<()>)
    requires { IsOf domain.now cpu.old }
    ensures here { IsOf domain.now cpu.new }
    ensures same { IsSameProcessor cpu.old cpu.new }
{
    domain.start_poll(cpu);
    let _ = domain.start(cpu);
}

/// Does so with each of these processors, which are all of the domain's.
fn ask_with_each(domain: &Domain<()>, cpus: &mut [Cpu<()>])
    requires { IsAllOf domain.now cpus.old }
    ensures { IsAllOf domain.now cpus.new }
{
    for cpu in cpus.iter_mut() {
        ask_and_start(domain, cpu);
    }
}

/// Each asks, all meet, and then the first loads the need.
fn need_behind_a_meeting(domain: &Domain<()>, cpus: &mut [Cpu<()>]) -> Option<Number>
    requires { IsAllOf domain.now cpus.old }
{
    ask_with_each(domain, cpus);
    domain.meet(cpus);
    let (first, _) = cpus.split_first_mut()?;
    Some(domain.need(first))
}

/// Would catch a meeting that can't be made, that keeps the engine, or that loses what was asked for. The first
/// processor asks for 4, and the others for 8, since a period runs by then.
#[test]
fn meets(rt: HostRuntime) -> Result<(), Fail> {
    let (domain, mut cpus, _) = Domain::<()>::new(rt.alloc(), 5, AMPLE)?;
    let need = need_behind_a_meeting(&domain, &mut cpus);
    assert_eq!(rt; need.map(Number::get), Some(8));
    for cpu in cpus.iter_mut() {
        assert_eq!(rt; (cpu.number().get(), cpu.cookie().number()), (1, 8));
    }
    Ok(())
}
