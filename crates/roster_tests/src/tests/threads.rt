//! Callers on threads of their own.

use super::bells::{Bell, bell};
use super::places::{Caller, Place, drive, place_of, take_caller};
use domain::{Cpu, Domain};
use notify::OK;
use roster::{Rank, Roster};
use std::alloc::AllocError;
use std::sync::atomic::Ordering::SeqCst;
use std::sync::atomic::{AtomicBool, AtomicU64};
use std::sync::{Arc, Wait};
use std::test::Fail;
use std::thread::{Threads, join, yield_now};

/// How many handlers are unregistered and registered again.
const TURNS: u64 = 200;

/// How many there are at once.
const AT_ONCE: u64 = 6;

fn rank_of(id: u64) -> Rank {
    Rank {
        priority: (id % 3) as i32,
        id,
    }
}

/// Calls until there is a sign. Returns how many calls answered as a handler does.
fn call_on<R: Wait>(rt: &R, caller: Caller<Bell>, over: &AtomicBool) -> u64 {
    let Caller {
        mut cpu,
        mut callers,
    } = caller;
    let mut right = 0u64;
    for _ in rt.forever() {
        let last = over.load(SeqCst);
        if callers.call(&mut cpu, 1, 2).is_ok_and(|last| last == OK) {
            right = right.wrapping_add(1);
        }
        if last {
            return right;
        }
    }
    unreachable!()
}

/// Registers a handler, however long that takes.
fn register<R: Wait>(
    rt: &R,
    domain: &Domain<()>,
    cpu: &mut Cpu<()>,
    roster: &mut Roster<Bell>,
    handler: Bell,
) {
    let mut next = handler;
    for _ in rt.forever() {
        let rank = rank_of(next.id);
        match roster.register(domain, cpu, rank, next) {
            Ok(()) => return,
            Err((back, _)) => next = back,
        }
        drive(domain, cpu, 5);
        yield_now();
    }
    unreachable!()
}

/// Unregisters a handler, however long that takes, and switches it off. Returns it.
fn unregister<R: Wait>(
    rt: &R,
    domain: &Domain<()>,
    cpu: &mut Cpu<()>,
    roster: &mut Roster<Bell>,
    id: u64,
) -> Bell {
    for _ in rt.forever() {
        if let Ok(old) = roster.unregister(rt, domain, cpu, rank_of(id)) {
            old.off.store(true, SeqCst);
            return old;
        }
        drive(domain, cpu, 5);
    }
    unreachable!()
}

/// Has handlers come and go. Returns how many calls those that came back counted, and how many of them came back wrong: called
/// while they were off, or with another's number.
fn come_and_go<R: Wait + AllocGlobal>(
    rt: &R,
    domain: &Domain<()>,
    cpu: &mut Cpu<()>,
    roster: &mut Roster<Bell>,
    rung: &Arc<AtomicU64>,
) -> Result<(u64, u64), AllocError> {
    let mut kept = Vec::new(rt.alloc());
    for id in 0..TURNS + AT_ONCE {
        if id < TURNS {
            let next = bell(id, OK, rung)?;
            register(rt, domain, cpu, roster, next);
        }
        if let Some(old) = id.checked_sub(AT_ONCE) {
            kept.push(unregister(rt, domain, cpu, roster, old))?;
        }
    }
    let (mut calls, mut wrong) = (0u64, 0u64);
    for (id, old) in kept.iter().enumerate() {
        calls = calls.wrapping_add(old.calls.load(SeqCst));
        if old.late.load(SeqCst) || old.id != id as u64 {
            wrong = wrong.wrapping_add(1);
        }
    }
    Ok((calls, wrong))
}

/// What two callers and the roster's owner tell.
type Told = (u64, u64, Result<(u64, u64), AllocError>);

fn call_beside<R: Wait + Threads + Sync + AllocGlobal>(
    rt: &R,
    domain: &Domain<()>,
    cpu: &mut Cpu<()>,
    roster: &mut Roster<Bell>,
    callers: (Caller<Bell>, Caller<Bell>),
    rung: &Arc<AtomicU64>,
) -> Told {
    let over = AtomicBool::new(false);
    let (one, two) = callers;
    let ((one, two), came) = join(
        rt,
        || { join(rt, || call_on(rt, one, &over), || call_on(rt, two, &over)) },
        || {
            let came = come_and_go(rt, domain, cpu, roster, rung);
            over.store(true, SeqCst);
            came
        },
    );
    (one, two, came)
}

/// Would catch a handler that comes back while a call is inside it, one that is called later, one that comes back in place of
/// another, and a call that is lost or counted twice.
#[test]
fn handlers_come_back_beside_callers(rt: HostRuntime) -> Result<(), Fail> {
    let rung = Arc::new(rt.alloc(), AtomicU64::new(0))?;
    let Place {
        domain,
        mut cpu,
        mut others,
        mut roster,
        mut callers,
    } = place_of::<Bell>(rt.alloc(), 3)?;
    let one = take_caller(&mut others, &mut callers)?;
    let two = take_caller(&mut others, &mut callers)?;
    let (one, two, came) = call_beside(&rt, &domain, &mut cpu, &mut roster, (one, two), &rung);
    let (calls, wrong) = came?;
    assert_eq!(rt; (one > 0, two > 0, wrong), (true, true, 0));
    assert_eq!(rt; (calls, calls > 0), (rung.load(SeqCst), true));
    assert_eq!(rt; Arc::strong_count(&rung), 1);
    assert_eq!(rt; callers.call(&mut cpu, 1, 2)?, 0);
    Ok(())
}
