//! Many devices.

use super::bells::{Bell, bell};
use super::places::{Place, drive, place_of};
use std::sync::Arc;
use std::sync::atomic::AtomicU64;
use std::sync::atomic::Ordering::SeqCst;
use std::test::Fail;

/// How many devices there are.
const MANY: u64 = 200;

/// Would catch a device that comes back twice, as another one, or never, and one that is not found among many.
#[test]
fn each_of_many_comes_back_once(rt: HostRuntime) -> Result<(), Fail> {
    let rung = Arc::new(rt.alloc(), AtomicU64::new(0))?;
    let Place {
        domain,
        mut cpu,
        others: _,
        mut registry,
        mut users,
    } = place_of::<u64, Bell>(rt.alloc(), 2, 8)?;
    for turn in 0..MANY {
        let key = turn * 7 % MANY;
        let put = registry.insert(&domain, &mut cpu, key, bell(key, &rung)?);
        assert_eq!(rt; put.is_ok(), true);
        drive(&domain, &mut cpu, 20);
    }
    for key in 0..MANY {
        assert_eq!(rt; users.with(&mut cpu, key, |bell| bell.number)?, Some(key));
    }
    let mut back = vec![in rt.alloc(); 0u64; MANY as usize]?;
    let mut count = 0;
    for turn in 0..MANY {
        let key = turn * 3 % MANY;
        assert_eq!(rt; registry.remove(&domain, &mut cpu, key).is_ok(), true);
        assert_eq!(rt; users.with(&mut cpu, key, |bell| bell.number)?, None);
        drive(&domain, &mut cpu, 20);
        for _ in 0..3 {
            if let Some((key, bell)) = registry.reclaim(&mut cpu) {
                assert_eq!(rt; key, bell.number);
                back[key as usize] += 1;
                count += 1;
            }
        }
    }
    for _ in 0..MANY {
        if let Some((key, bell)) = registry.reclaim(&mut cpu) {
            assert_eq!(rt; key, bell.number);
            back[key as usize] += 1;
            count += 1;
        }
    }
    assert_eq!(rt;
        (count, rung.load(SeqCst), Arc::strong_count(&rung)),
        (MANY, MANY, 1)
    );
    for key in 0..MANY {
        assert_eq!(rt; back[key as usize], 1);
    }
    Ok(())
}

/// How many processors a domain has at most.
const MOST: usize = 256;

/// Would catch a registry that is refused in the largest domain, and a device that isn't found on its first processor or its last.
#[test]
fn in_the_largest_domain(rt: HostRuntime) -> Result<(), Fail> {
    let rung = Arc::new(rt.alloc(), AtomicU64::new(0))?;
    let Place {
        domain,
        mut cpu,
        mut others,
        mut registry,
        mut users,
    } = place_of::<u64, Bell>(rt.alloc(), MOST, 8)?;
    let put = registry.insert(&domain, &mut cpu, 1, bell(7, &rung)?);
    assert_eq!(rt; put.is_ok(), true);
    let last = users.with(&mut cpu, 1, |bell| bell.number)?;
    let first = users.with(&mut others[0], 1, |bell| bell.number)?;
    assert_eq!(rt; (first, last), (Some(7), Some(7)));
    Ok(())
}
