//! One thread.

use super::bells::{Bell, bell};
use super::places::{Place, drive, place_of};
use notify::{BAD, DONE, OK, STOP};
use roster::{InsertRefusal, Rank, StayRefusal, WaitRefusal};
use std::sync::Arc;
use std::sync::atomic::AtomicU64;
use std::sync::atomic::Ordering::SeqCst;
use std::test::Fail;

/// How many handlers there are.
const MANY: u64 = 40;

/// Four priorities, of which the third stops a call at its last handler.
fn rank_of(id: u64) -> Rank {
    Rank {
        priority: (id % 4) as i32 - 2,
        id,
    }
}

/// Would catch a handler that is called twice, never, out of order, or after the stop bit, and one that comes back with other
/// calls than its own.
#[test]
fn forty_in_order(rt: HostRuntime) -> Result<(), Fail> {
    let rung = Arc::new(rt.alloc(), AtomicU64::new(0))?;
    let Place {
        domain,
        mut cpu,
        others: _,
        mut roster,
        mut callers,
    } = place_of::<Bell>(rt.alloc(), 1)?;
    assert_eq!(rt; callers.call(&mut cpu, 1, 2)?, DONE);
    for turn in 0..MANY {
        let id = turn * 7 % MANY;
        let result = if id == 37 { STOP } else { id as u32 };
        let put = roster.register(&domain, &mut cpu, rank_of(id), bell(id, result, &rung)?);
        assert_eq!(rt; put.is_ok(), true);
        drive(&domain, &mut cpu, 20);
    }
    // the priorities 1, 0, and -1 up to 37, which stops
    assert_eq!(rt; callers.call(&mut cpu, 1, 2)?, STOP);
    assert_eq!(rt; rung.load(SeqCst), 30);
    for id in 0..MANY {
        let Ok(old) = roster.unregister(&rt, &domain, &mut cpu, rank_of(id)) else {
            panic!(rt; "the handler comes back");
        };
        let calls = if id % 4 == 0 { 0 } else { 1 };
        let place = if id % 4 == 0 {
            0
        } else {
            (3 - id % 4) * 10 + id / 4
        };
        assert_eq!(rt; old.id, id);
        assert_eq!(rt; old.calls.load(SeqCst), calls);
        assert_eq!(rt; old.place.load(SeqCst), place);
    }
    assert_eq!(rt; callers.call(&mut cpu, 1, 2)?, DONE);
    Ok(())
}

/// Would catch a call that ends at another result than one with the stop bit, or that answers another one than the last.
#[test]
fn results(rt: HostRuntime) -> Result<(), Fail> {
    let rung = Arc::new(rt.alloc(), AtomicU64::new(0))?;
    let Place {
        domain,
        mut cpu,
        others: _,
        mut roster,
        mut callers,
    } = place_of::<Bell>(rt.alloc(), 1)?;
    let rows = [
        (1, OK, OK, 1),
        (2, 7, 7, 2),
        (3, DONE, DONE, 3),
        (4, BAD, BAD, 4),
        (5, OK, BAD, 4),
    ];
    for (id, result, last, calls) in rows {
        let rank = Rank { priority: 5, id };
        let put = roster.register(&domain, &mut cpu, rank, bell(id, result, &rung)?);
        assert_eq!(rt; put.is_ok(), true);
        drive(&domain, &mut cpu, 20);
        let before = rung.load(SeqCst);
        assert_eq!(rt; callers.call(&mut cpu, 1, 2)?, last);
        assert_eq!(rt; rung.load(SeqCst) - before, calls);
    }
    Ok(())
}

/// Would catch a handler that replaces one of its rank, or is lost at a refusal, and one that is had back though it wasn't there.
#[test]
fn refusals(rt: HostRuntime) -> Result<(), Fail> {
    let rung = Arc::new(rt.alloc(), AtomicU64::new(0))?;
    let Place {
        domain,
        mut cpu,
        others: _,
        mut roster,
        mut callers,
    } = place_of::<Bell>(rt.alloc(), 1)?;
    let rank = Rank { priority: 1, id: 1 };
    let put = roster.register(&domain, &mut cpu, rank, bell(1, OK, &rung)?);
    assert_eq!(rt; put.is_ok(), true);
    let Err((back, why)) = roster.register(&domain, &mut cpu, rank, bell(9, 9, &rung)?) else {
        panic!(rt; "the rank is taken");
    };
    assert_eq!(rt; (back.id, why), (9, InsertRefusal::There));
    assert_eq!(rt; callers.call(&mut cpu, 1, 2)?, OK);
    // the same id at another priority is another rank
    let other = Rank { priority: 0, id: 1 };
    let Err(why) = roster.unregister(&rt, &domain, &mut cpu, other) else {
        panic!(rt; "no handler has this rank");
    };
    assert_eq!(rt; why, WaitRefusal::NotRemoved(StayRefusal::NotThere));
    drive(&domain, &mut cpu, 20);
    let put = roster.register(&domain, &mut cpu, other, back);
    assert_eq!(rt; put.is_ok(), true);
    assert_eq!(rt; callers.call(&mut cpu, 1, 2)?, 9);
    assert_eq!(rt; roster.reclaim(&mut cpu).is_none(), true);
    Ok(())
}
