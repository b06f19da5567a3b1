//! Many devices come and go while threads use them.

use super::places::{Place, User, drive, place_of, take_user};
use domain::{Cpu, Domain};
use registry::Registry;
use std::alloc::AllocError;
use std::sync::Wait;
use std::sync::atomic::Ordering::SeqCst;
use std::sync::atomic::{AtomicBool, AtomicU64};
use std::test::Fail;
use std::thread::{Threads, join, yield_now};

/// How many devices come and go.
const MANY: u64 = 1_000;

/// How many of them are there at once.
const AT_ONCE: u64 = 16;

/// A device that counts its own uses.
#[derive(Drop)]
struct Counter {
    number: u64,
    uses: AtomicU64,
}

/// How often each device was used.
type Counts = Vec<u64>;

/// Uses devices until there is a sign.
fn use_all<R: Wait + AllocGlobal>(
    rt: &R,
    user: User<u64, Counter>,
    newest: &AtomicU64,
    over: &AtomicBool,
) -> Result<Counts, AllocError> {
    let User { mut cpu, mut users } = user;
    let mut counts = vec![in rt.alloc(); 0u64; MANY as usize]?;
    let mut back: u64 = 0;
    for _ in rt.forever() {
        let last = over.load(SeqCst);
        let key = newest.load(SeqCst).saturating_sub(back % AT_ONCE);
        back = back.wrapping_add(1);
        let used = users.with(&mut cpu, key, |counter| {
            counter.uses.fetch_add(1, SeqCst);
            yield_now(); // it sleeps in its section
            counter.number
        });
        if let Ok(Some(number)) = used {
            counts[number as usize] = counts[number as usize].wrapping_add(1);
        }
        if last {
            return Ok(counts);
        }
    }
    unreachable!()
}

/// Inserts a device, however long that takes.
fn insert<R: Wait>(
    rt: &R,
    domain: &Domain<()>,
    cpu: &mut Cpu<()>,
    registry: &mut Registry<u64, Counter>,
    number: u64,
) {
    let mut next = Counter {
        number,
        uses: AtomicU64::new(0),
    };
    for _ in rt.forever() {
        match registry.insert(domain, cpu, number, next) {
            Ok(()) => return,
            Err((back, _)) => next = back,
        }
        drive(domain, cpu, 5);
        yield_now();
    }
}

/// Has each device come and go. Returns what each had counted when it came back, and how many came back at a key that was not
/// theirs.
fn come_and_go<R: Wait + AllocGlobal>(
    rt: &R,
    domain: &Domain<()>,
    cpu: &mut Cpu<()>,
    registry: &mut Registry<u64, Counter>,
    newest: &AtomicU64,
) -> Result<(Counts, u64), AllocError> {
    let mut own = vec![in rt.alloc(); 0u64; MANY as usize]?;
    let mut wrong = 0u64;
    for number in 0..MANY + AT_ONCE {
        if number < MANY {
            insert(rt, domain, cpu, registry, number);
            newest.store(number, SeqCst);
        }
        let Some(old) = number.checked_sub(AT_ONCE) else {
            continue;
        };
        match registry.remove_and_wait(rt, domain, cpu, old) {
            Ok(counter) if counter.number == old => own[old as usize] = counter.uses.load(SeqCst),
            _ => wrong = wrong.wrapping_add(1),
        }
    }
    Ok((own, wrong))
}

/// Three threads use the devices that come and go on a fourth.
type Counted = (
    Result<Counts, AllocError>,
    Result<Counts, AllocError>,
    Result<Counts, AllocError>,
    Result<(Counts, u64), AllocError>,
);

fn count_beside<R: Wait + Threads + Sync + AllocGlobal>(
    rt: &R,
    domain: &Domain<()>,
    cpu: &mut Cpu<()>,
    registry: &mut Registry<u64, Counter>,
    readers: (User<u64, Counter>, User<u64, Counter>, User<u64, Counter>),
) -> Counted {
    let (newest, over) = (AtomicU64::new(0), AtomicBool::new(false));
    let (one, two, three) = readers;
    let ((one, two), (three, own)) = join(
        rt,
        || {
            join(
                rt,
                || use_all(rt, one, &newest, &over),
                || use_all(rt, two, &newest, &over),
            )
        },
        || {
            join(
                rt,
                || use_all(rt, three, &newest, &over),
                || {
                    let own = come_and_go(rt, domain, cpu, registry, &newest);
                    over.store(true, SeqCst);
                    own
                },
            )
        },
    );
    (one, two, three, own)
}

/// Would catch a device that comes back while a section uses it, with another's count, or not at all.
#[test]
fn each_has_its_own_count(rt: HostRuntime) -> Result<(), Fail> {
    let Place {
        domain,
        mut cpu,
        mut others,
        mut registry,
        mut users,
    } = place_of::<u64, Counter>(rt.alloc(), 4, 8)?;
    let one = take_user(&mut others, &mut users)?;
    let two = take_user(&mut others, &mut users)?;
    let three = take_user(&mut others, &mut users)?;
    let (one, two, three, own) = count_beside(
        &rt,
        &domain,
        &mut cpu,
        &mut registry,
        (one, two, three),
    );
    let (one, two, three, (own, wrong)) = (one?, two?, three?, own?);
    let mut used = 0u64;
    for place in 0..MANY as usize {
        let counted = one[place] + two[place] + three[place];
        assert_eq!(rt; own[place], counted);
        used += counted;
    }
    assert_eq!(rt; (wrong, used > 0), (0, true));
    assert_eq!(rt; registry.reclaim(&mut cpu).is_none(), true);
    Ok(())
}
