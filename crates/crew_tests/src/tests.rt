use crew::{at_once, at_once_beside};
use std::sync::atomic::AtomicU64;
use std::sync::atomic::Ordering::SeqCst;
use std::test::Fail;
use std::thread::yield_now;

/// How often a thread looks for another.
const LOOKS: u64 = 10_000_000;

/// Comes in, and looks for so many others. Returns whether they came.
fn meet(inside: &AtomicU64, others: u64) -> bool {
    inside.fetch_add(1, SeqCst);
    for _ in 0..LOOKS {
        if inside.load(SeqCst) > others {
            return true;
        }
        yield_now();
    }
    false
}

/// Would catch a worker that is left out or called twice, another one's part, and results in another order.
#[test]
fn each_does_its_part_once(rt: HostRuntime) -> Result<(), Fail> {
    let alloc = rt.alloc();
    for many in 0..9 {
        let mut workers = Vec::new(alloc);
        let mut parts = Vec::new(alloc);
        for number in 0..many {
            workers.push(100 * number)?;
            parts.push(number)?;
        }
        let work = |worker: &mut u64, part: u64| -> u64 {
            *worker = worker.wrapping_add(part).wrapping_add(1);
            part.wrapping_mul(7)
        };
        let Ok((workers, given)) = at_once(&rt, workers, parts, &work) else {
            panic!(rt; "no memory")
        };
        assert_eq!(rt; workers.len() as u64, many);
        assert_eq!(rt; given.len() as u64, many);
        for number in 0..many {
            assert_eq!(rt; workers[number as usize], 101 * number + 1);
            assert_eq!(rt; given[number as usize], 7 * number);
        }
    }
    Ok(())
}

/// Would catch workers that work one after another.
#[test]
fn they_work_at_once(rt: HostRuntime) -> Result<(), Fail> {
    let alloc = rt.alloc();
    let inside = AtomicU64::new(0);
    let workers = vec![in alloc; 0, 1, 2]?;
    let parts = vec![in alloc; 2, 2, 2]?;
    let work = |_: &mut u64, others: u64| -> bool { meet(&inside, others) };
    let Ok((_, met)) = at_once(&rt, workers, parts, &work) else {
        panic!(rt; "no memory")
    };
    assert_eq!(rt; met.as_slice(), [true, true, true].as_slice());
    Ok(())
}

/// Would catch a thread that doesn't go on beside its crew, or whose own result is lost.
#[test]
fn control_goes_on_beside_them(rt: HostRuntime) -> Result<(), Fail> {
    let alloc = rt.alloc();
    let inside = AtomicU64::new(0);
    let workers = vec![in alloc; 0, 1]?;
    let parts = vec![in alloc; 2, 2]?;
    let work = |_: &mut u64, others: u64| -> bool { meet(&inside, others) };
    let mut control = || -> (u64, bool) { (7, meet(&inside, 2)) };
    let Ok((back, controlled)) = at_once_beside(&rt, workers, parts, &work, &mut control) else {
        panic!(rt; "no memory")
    };
    assert_eq!(rt; back.0.as_slice(), [0, 1].as_slice());
    assert_eq!(rt; back.1.as_slice(), [true, true].as_slice());
    assert_eq!(rt; controlled, (7, true));
    Ok(())
}
