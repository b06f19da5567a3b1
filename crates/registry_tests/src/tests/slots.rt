//! A device is removed by one who waits for a slot, and then for the device.

use super::bells::{Bell, bell};
use super::places::{Place, User, drive, place_for, place_of, take_user};
use domain::{Cpu, Domain};
use registry::{Registry, RemoveRefusal, StayRefusal, Use, Users, WaitRefusal};
use std::alloc::AllocError;
use std::sync::atomic::Ordering::SeqCst;
use std::sync::atomic::{AtomicBool, AtomicU64};
use std::sync::{Arc, Wait};
use std::test::Fail;
use std::thread::{join, sleep, yield_now};
use std::time::{Clock, Duration};

/// In a cell of so many slots none is free, once each of three versions is held.
const SLOTS: u64 = 3;

/// Devices in use, each found in another version.
struct Holds {
    first: Option<Use<u64, Bell>>,
    second: Option<Use<u64, Bell>>,
    third: Option<Use<u64, Bell>>,
}

impl Holds {
    /// The numbers of the devices.
    fn numbers(&self) -> [Option<u64>; 3] {
        [
            number_of(&self.first),
            number_of(&self.second),
            number_of(&self.third),
        ]
    }

    /// Gives them back.
    fn give_back(self, cpu: &mut Cpu<()>, users: &Users<u64, Bell>) {
        let Holds {
            first,
            second,
            third,
        } = self;
        give_one_back(cpu, users, first);
        give_one_back(cpu, users, second);
        give_one_back(cpu, users, third);
    }
}

fn number_of(used: &Option<Use<u64, Bell>>) -> Option<u64> {
    match used {
        Some(used) => Some(used.get().number),
        None => None,
    }
}

fn give_one_back(cpu: &mut Cpu<()>, users: &Users<u64, Bell>, used: Option<Use<u64, Bell>>) {
    match used {
        Some(used) => users.give_back(cpu, used),
        None => {}
    }
}

/// Inserts a device under its number, and takes it into use.
fn insert_and_take(
    domain: &Domain<()>,
    cpu: &mut Cpu<()>,
    registry: &mut Registry<u64, Bell>,
    users: &mut Users<u64, Bell>,
    device: Bell,
) -> Option<Use<u64, Bell>> {
    let key = device.number;
    if registry.insert(domain, cpu, key, device).is_err() {
        return None;
    }
    drive(domain, cpu, 40); // older versions come back that no section holds
    users.take(cpu, key).ok().flatten()
}

/// Inserts three devices, and takes each into use before the next one comes. So a section holds each version, and no slot is
/// free.
fn fill(
    domain: &Domain<()>,
    cpu: &mut Cpu<()>,
    registry: &mut Registry<u64, Bell>,
    users: &mut Users<u64, Bell>,
    rung: &Arc<AtomicU64>,
) -> Result<Holds, AllocError> {
    let (one, two, three) = (bell(1, rung)?, bell(2, rung)?, bell(3, rung)?);
    Ok(Holds {
        first: insert_and_take(domain, cpu, registry, users, one),
        second: insert_and_take(domain, cpu, registry, users, two),
        third: insert_and_take(domain, cpu, registry, users, three),
    })
}

/// How far two threads have come.
#[derive(Drop)]
struct Steps {
    inserted: AtomicU64,
    taken: AtomicU64,
    given: AtomicBool,
}

/// Waits until a thread has come so far.
fn wait_until<R: Wait>(rt: &R, step: &AtomicU64, far: u64) {
    for _ in rt.forever() {
        if step.load(SeqCst) >= far {
            return;
        }
        yield_now();
    }
}

/// Takes the device of this number into use once it is inserted.
fn take_next<R: Wait>(
    rt: &R,
    user: &mut User<u64, Bell>,
    steps: &Steps,
    number: u64,
) -> Option<Use<u64, Bell>> {
    wait_until(rt, &steps.inserted, number);
    let used = user.users.take(&mut user.cpu, number).ok().flatten();
    steps.taken.store(number, SeqCst);
    used
}

/// Takes three devices into use, sleeps, and gives them back. Returns their numbers.
fn hold_three<R: Wait + Clock>(
    rt: &R,
    mut user: User<u64, Bell>,
    steps: &Steps,
) -> [Option<u64>; 3] {
    let holds = Holds {
        first: take_next(rt, &mut user, steps, 1),
        second: take_next(rt, &mut user, steps, 2),
        third: take_next(rt, &mut user, steps, 3),
    };
    sleep(rt, Duration::from_millis(50));
    let numbers = holds.numbers();
    steps.given.store(true, SeqCst);
    holds.give_back(&mut user.cpu, &user.users);
    numbers
}

/// Inserts three devices, waits until the last version is held too, and removes one: at once, and then by waiting. Returns both
/// answers, and whether the devices were given back before the second one.
fn remove_held<R: Wait + AllocGlobal>(
    rt: &R,
    place: &mut Place<u64, Bell>,
    steps: &Steps,
    rung: &Arc<AtomicU64>,
) -> Result<Removed, AllocError> {
    let Place {
        domain,
        cpu,
        registry,
        ..
    } = place;
    for number in 1..4u64 {
        let _put = registry.insert(domain, cpu, number, bell(number, rung)?);
        drive(domain, cpu, 40); // older versions come back that no section holds
        steps.inserted.store(number, SeqCst);
        wait_until(rt, &steps.taken, number);
    }
    let at_once = registry.remove(domain, cpu, 1);
    let number = match registry.remove_and_wait(rt, domain, cpu, 1) {
        Ok(old) => Ok(old.number),
        Err(why) => Err(why),
    };
    Ok((at_once, number, steps.given.load(SeqCst)))
}

/// What was answered at once, what was answered later, and whether the devices had been given back.
type Removed = (Result<(), RemoveRefusal>, Result<u64, WaitRefusal>, bool);

/// Would catch a removal that says `NoSlot` in place of waiting, and one that returns while a version with the device is held.
#[test]
fn waits_for_versions_that_are_held(rt: HostRuntime) -> Result<(), Fail> {
    let rung = Arc::new(rt.alloc(), AtomicU64::new(0))?;
    let mut place = place_of::<u64, Bell>(rt.alloc(), 2, SLOTS)?;
    let user = take_user(&mut place.others, &mut place.users)?;
    let steps = Steps {
        inserted: AtomicU64::new(0),
        taken: AtomicU64::new(0),
        given: AtomicBool::new(false),
    };
    let (numbers, removed) = join(
        &rt,
        || hold_three(&rt, user, &steps),
        || remove_held(&rt, &mut place, &steps, &rung),
    );
    assert_eq!(rt; numbers, [Some(1), Some(2), Some(3)]);
    assert_eq!(rt; removed?, (Err(RemoveRefusal::NoSlot), Ok(1), true));
    let Place {
        mut cpu,
        mut users,
        ..
    } = place;
    assert_eq!(rt; users.with(&mut cpu, 1, |bell| bell.number)?, None);
    assert_eq!(rt; users.with(&mut cpu, 3, |bell| bell.number)?, Some(3));
    assert_eq!(rt; rung.load(SeqCst), 1);
    Ok(())
}

/// Would catch a limit that is not kept in either wait, and a device that is then neither there nor leaves.
#[test]
fn the_time_is_over(rt: HostRuntime) -> Result<(), Fail> {
    let rung = Arc::new(rt.alloc(), AtomicU64::new(0))?;
    let Place {
        domain,
        mut cpu,
        others: _,
        mut registry,
        mut users,
    } = place_of::<u64, Bell>(rt.alloc(), 1, SLOTS)?;
    let (short, long) = (Duration::from_millis(5), Duration::from_secs(60));
    let holds = fill(&domain, &mut cpu, &mut registry, &mut users, &rung)?;
    let late = registry.remove_and_wait_for(&rt, &domain, &mut cpu, 1, short);
    let there = users.with(&mut cpu, 1, |bell| bell.number);
    holds.give_back(&mut cpu, &users);
    assert_eq!(rt;
        late.err(),
        Some(WaitRefusal::NotRemoved(StayRefusal::TimedOut))
    );
    assert_eq!(rt; there?, Some(1));
    let back = registry.remove_and_wait_for(&rt, &domain, &mut cpu, 1, long);
    assert_eq!(rt; back.is_ok_and(|bell| bell.number == 1), true);
    let held = users.take(&mut cpu, 2)?;
    let late = registry.remove_and_wait_for(&rt, &domain, &mut cpu, 2, short);
    let there = users.with(&mut cpu, 2, |bell| bell.number);
    let early = registry.reclaim(&mut cpu).is_some();
    give_one_back(&mut cpu, &users, held);
    assert_eq!(rt; late.err(), Some(WaitRefusal::TimedOut));
    assert_eq!(rt; (there?, early), (None, false));
    drive(&domain, &mut cpu, 40);
    let Some((key, bell)) = registry.reclaim(&mut cpu) else {
        panic!(rt; "the device comes back");
    };
    assert_eq!(rt; (key, bell.number, rung.load(SeqCst)), (2, 2, 1));
    Ok(())
}

/// What a removal came to in a domain of so few grace periods, and the number of the device that is then there.
type Ended = (Result<u64, WaitRefusal>, Option<u64>);

/// Inserts devices, which takes periods, and removes the first one.
fn remove_within<R: Wait + AllocGlobal>(
    rt: &R,
    periods: u64,
    rung: &Arc<AtomicU64>,
) -> Result<Ended, Fail> {
    let Place {
        domain,
        mut cpu,
        others: _,
        mut registry,
        mut users,
    } = place_for::<u64, Bell>(rt.alloc(), 1, SLOTS, periods)?;
    for number in 1..5u64 {
        let _put = registry.insert(&domain, &mut cpu, number, bell(number, rung)?);
        drive(&domain, &mut cpu, 40);
    }
    let removed = match registry.remove_and_wait(rt, &domain, &mut cpu, 1) {
        Ok(old) => Ok(old.number),
        Err(why) => Err(why),
    };
    let there = users.with(&mut cpu, 1, |bell| bell.number)?;
    Ok((removed, there))
}

/// Would catch a removal that waits for periods which may not start, and a device that is then not where the refusal says.
#[test]
fn no_more_periods_may_start(rt: HostRuntime) -> Result<(), Fail> {
    let rung = Arc::new(rt.alloc(), AtomicU64::new(0))?;
    let (mut stays, mut leaves, mut comes) = (0u64, 0u64, 0u64);
    for periods in 1..20u64 {
        match remove_within(&rt, periods, &rung)? {
            (Err(WaitRefusal::NotRemoved(StayRefusal::Periods)), Some(1)) => stays += 1,
            (Err(WaitRefusal::Exhausted), None) => leaves += 1,
            (Ok(1), None) => comes += 1,
            _ => panic!(rt; "the refusal tells where the device is"),
        }
    }
    assert_eq!(rt; (stays > 0, leaves > 0, comes > 0), (true, true, true));
    Ok(())
}

/// Would catch a wait for a device that was never there.
#[test]
fn no_device_has_the_key(rt: HostRuntime) -> Result<(), Fail> {
    let Place {
        domain,
        mut cpu,
        others: _,
        mut registry,
        mut users,
    } = place_of::<u64, Bell>(rt.alloc(), 1, SLOTS)?;
    let held = users.take(&mut cpu, 1)?;
    let none = registry.remove_and_wait(&rt, &domain, &mut cpu, 1);
    let limited = registry.remove_and_wait_for(&rt, &domain, &mut cpu, 1, Duration::ZERO);
    assert_eq!(rt; number_of(&held), None);
    give_one_back(&mut cpu, &users, held);
    let why = Some(WaitRefusal::NotRemoved(StayRefusal::NotThere));
    assert_eq!(rt; (none.err(), limited.err()), (why, why));
    Ok(())
}
