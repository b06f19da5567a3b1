//! Users on threads of their own.

use super::bells::{Bell, bell};
use super::places::{Place, User, drive, place_of, take_user};
use domain::{Cpu, Domain};
use registry::{Registry, Use};
use std::alloc::AllocError;
use std::sync::atomic::Ordering::SeqCst;
use std::sync::atomic::{AtomicBool, AtomicU64};
use std::sync::{Arc, Wait};
use std::test::Fail;
use std::thread::{Threads, join, sleep, yield_now};
use std::time::{Clock, Duration};

/// How many devices are removed and inserted again.
const TURNS: u64 = 200;

/// How many keys there are.
const KEYS: u64 = 8;

/// What a user found: in how many sections it had a device, and whether each was on, before it slept and after that, and had
/// the number that its key has.
#[derive(Clone, Copy, Drop)]
struct Found {
    sections: u64,
    on: bool,
}

/// Uses devices until there is a sign.
fn use_on<R: Wait>(rt: &R, user: User<u64, Bell>, over: &AtomicBool) -> Found {
    let User { mut cpu, mut users } = user;
    let mut found = Found {
        sections: 0,
        on: true,
    };
    let mut key = 0;
    for _ in rt.forever() {
        let last = over.load(SeqCst);
        let seen = users.with(&mut cpu, key, |bell| {
            let before = !bell.off.load(SeqCst) && bell.number % KEYS == key;
            yield_now(); // it sleeps in its section
            before && !bell.off.load(SeqCst)
        });
        if let Ok(Some(on)) = seen {
            found.on &= on;
            found.sections = found.sections.wrapping_add(1);
        }
        key = (key + 1) % KEYS;
        if last {
            return found;
        }
    }
    unreachable!()
}

/// Removes a device and waits for it, switches it off, and inserts another one under its key. Returns how many came back that
/// were on and had the number of the one that was inserted last under this key.
fn turn_over<R: Wait + AllocGlobal>(
    rt: &R,
    domain: &Domain<()>,
    cpu: &mut Cpu<()>,
    registry: &mut Registry<u64, Bell>,
    rung: &Arc<AtomicU64>,
) -> Result<u64, AllocError> {
    let mut right = 0u64;
    for turn in 0..TURNS {
        let key = turn % KEYS;
        if let Ok(old) = registry.remove_and_wait(rt, domain, cpu, key) {
            let on = !old.off.load(SeqCst);
            old.off.store(true, SeqCst);
            if on && old.number == turn {
                right += 1;
            }
        }
        let mut next = bell(turn + KEYS, rung)?;
        for _ in rt.forever() {
            match registry.insert(domain, cpu, key, next) {
                Ok(()) => break,
                Err((back, _)) => next = back,
            }
            drive(domain, cpu, 5);
            yield_now();
        }
    }
    Ok(right)
}

/// Puts the first devices.
fn put_first<R: AllocGlobal>(
    rt: &R,
    domain: &Domain<()>,
    cpu: &mut Cpu<()>,
    registry: &mut Registry<u64, Bell>,
    rung: &Arc<AtomicU64>,
) -> Result<bool, AllocError> {
    let _alloc = rt.alloc();
    let mut all = true;
    for key in 0..KEYS {
        let put = registry.insert(domain, cpu, key, bell(key, rung)?);
        all &= put.is_ok();
        drive(domain, cpu, 20);
    }
    Ok(all)
}

/// Three threads use devices while one removes them and inserts others.
fn use_beside<R: Wait + Threads + Sync + AllocGlobal>(
    rt: &R,
    domain: &Domain<()>,
    cpu: &mut Cpu<()>,
    registry: &mut Registry<u64, Bell>,
    readers: (User<u64, Bell>, User<u64, Bell>, User<u64, Bell>),
    rung: &Arc<AtomicU64>,
) -> (Found, Found, Found, Result<u64, AllocError>) {
    let over = AtomicBool::new(false);
    let (one, two, three) = readers;
    let ((one, two), (three, right)) = join(
        rt,
        || { join(rt, || use_on(rt, one, &over), || use_on(rt, two, &over)) },
        || {
            join(
                rt,
                || use_on(rt, three, &over),
                || {
                    let right = turn_over(rt, domain, cpu, registry, rung);
                    over.store(true, SeqCst);
                    right
                },
            )
        },
    );
    (one, two, three, right)
}

/// Would catch a device that comes back while a section has it, one that comes back in place of another, and one that is
/// dropped twice or never.
#[test]
fn devices_come_back_beside_users(rt: HostRuntime) -> Result<(), Fail> {
    let rung = Arc::new(rt.alloc(), AtomicU64::new(0))?;
    let Place {
        domain,
        mut cpu,
        mut others,
        mut registry,
        mut users,
    } = place_of::<u64, Bell>(rt.alloc(), 4, 8)?;
    assert_eq!(rt;
        put_first(&rt, &domain, &mut cpu, &mut registry, &rung)?,
        true
    );
    let one = take_user(&mut others, &mut users)?;
    let two = take_user(&mut others, &mut users)?;
    let three = take_user(&mut others, &mut users)?;
    let (one, two, three, right) = use_beside(
        &rt,
        &domain,
        &mut cpu,
        &mut registry,
        (one, two, three),
        &rung,
    );
    assert_eq!(rt; (one.on, two.on, three.on), (true, true, true));
    assert_eq!(rt;
        (one.sections > 0, two.sections > 0, three.sections > 0),
        (true, true, true)
    );
    assert_eq!(rt; (right?, rung.load(SeqCst)), (TURNS, TURNS));
    for key in 0..KEYS {
        let old = registry.remove_and_wait(&rt, &domain, &mut cpu, key);
        assert_eq!(rt; old.is_ok_and(|old| old.number % KEYS == key), true);
    }
    assert_eq!(rt;
        (rung.load(SeqCst), Arc::strong_count(&rung)),
        (TURNS + KEYS, 1)
    );
    Ok(())
}

/// Takes a device into use.
fn take_here(user: User<u64, Bell>, key: u64) -> Option<Use<u64, Bell>> {
    let User { mut cpu, mut users } = user;
    users.take(&mut cpu, key).ok().flatten()
}

/// Would catch a device that comes back while another thread has it in use, and a use that loses its device on the way.
#[test]
fn a_use_goes_to_another_thread(rt: HostRuntime) -> Result<(), Fail> {
    let rung = Arc::new(rt.alloc(), AtomicU64::new(0))?;
    let Place {
        domain,
        mut cpu,
        mut others,
        mut registry,
        mut users,
    } = place_of::<u64, Bell>(rt.alloc(), 2, 8)?;
    let put = registry.insert(&domain, &mut cpu, 5, bell(55, &rung)?);
    assert_eq!(rt; put.is_ok(), true);
    let one = take_user(&mut others, &mut users)?;
    let (taken, ()) = join(&rt, || take_here(one, 5), || ());
    let Some(taken) = taken else {
        panic!(rt; "the device is found");
    };
    let removed = registry.remove(&domain, &mut cpu, 5).is_ok();
    drive(&domain, &mut cpu, 40);
    let early = registry.reclaim(&mut cpu).is_some();
    let number = taken.get().number;
    users.give_back(&mut cpu, taken);
    assert_eq!(rt; (removed, early, number), (true, false, 55));
    drive(&domain, &mut cpu, 40);
    let Some((key, old)) = registry.reclaim(&mut cpu) else {
        panic!(rt; "the device comes back");
    };
    assert_eq!(rt; (key, old.number, rung.load(SeqCst)), (5, 55, 0));
    drop(old);
    assert_eq!(rt; (rung.load(SeqCst), Arc::strong_count(&rung)), (1, 1));
    Ok(())
}

/// Waits for a sign.
fn wait_for<R: Wait>(rt: &R, sign: &AtomicBool) {
    for _ in rt.forever() {
        if sign.load(SeqCst) {
            return;
        }
        yield_now();
    }
}

/// Takes a device into use, sleeps, looks at it, and gives it back. Returns its number before the sleep and after it, where it
/// was on.
fn keep<R: Clock>(
    rt: &R,
    user: User<u64, Bell>,
    taken: &AtomicBool,
    given: &AtomicBool,
) -> [u64; 2] {
    let User { mut cpu, mut users } = user;
    let Some(used) = users.take(&mut cpu, 5).ok().flatten() else {
        taken.store(true, SeqCst);
        return [0; 2];
    };
    let before = used.get().number;
    taken.store(true, SeqCst);
    sleep(rt, Duration::from_millis(50));
    let on = !used.get().off.load(SeqCst);
    let after = used.get().number;
    given.store(true, SeqCst);
    users.give_back(&mut cpu, used);
    if on { [before, after] } else { [1; 2] }
}

/// Would catch a wait that ends while another thread has the device in use.
#[test]
fn a_use_delays_who_waits(rt: HostRuntime) -> Result<(), Fail> {
    let rung = Arc::new(rt.alloc(), AtomicU64::new(0))?;
    let Place {
        domain,
        mut cpu,
        mut others,
        mut registry,
        mut users,
    } = place_of::<u64, Bell>(rt.alloc(), 2, 8)?;
    let put = registry.insert(&domain, &mut cpu, 5, bell(55, &rung)?);
    assert_eq!(rt; put.is_ok(), true);
    let user = take_user(&mut others, &mut users)?;
    let (taken, given) = (AtomicBool::new(false), AtomicBool::new(false));
    let (kept, back) = join(
        &rt,
        || keep(&rt, user, &taken, &given),
        || {
            wait_for(&rt, &taken);
            match registry.remove_and_wait(&rt, &domain, &mut cpu, 5) {
                Ok(old) => {
                    old.off.store(true, SeqCst);
                    (old.number, given.load(SeqCst))
                }
                Err(_) => (0, false),
            }
        },
    );
    assert_eq!(rt; (kept, back), ([55, 55], (55, true)));
    assert_eq!(rt; (rung.load(SeqCst), Arc::strong_count(&rung)), (1, 1));
    Ok(())
}
