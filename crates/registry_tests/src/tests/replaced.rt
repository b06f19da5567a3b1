//! A device is put under the key of another one.

use super::bells::{Bell, bell};
use super::places::{Place, drive, place_of};
use registry::ReplaceRefusal;
use std::sync::Arc;
use std::sync::atomic::AtomicU64;
use std::sync::atomic::Ordering::SeqCst;
use std::test::Fail;

/// Would catch an old device that is found, dropped, or returned while it may be used, and a new one that isn't found.
#[test]
fn replaced_devices_come_back(rt: HostRuntime) -> Result<(), Fail> {
    let rung = Arc::new(rt.alloc(), AtomicU64::new(0))?;
    let Place {
        domain,
        mut cpu,
        others: _,
        mut registry,
        mut users,
    } = place_of::<u64, Bell>(rt.alloc(), 2, 8)?;
    for key in [10, 20, 30] {
        let put = registry.insert(&domain, &mut cpu, key, bell(key + 1, &rung)?);
        assert_eq!(rt; put.is_ok(), true);
        drive(&domain, &mut cpu, 20);
    }
    let Err((back, why)) = registry.replace(&domain, &mut cpu, 15, bell(9, &rung)?) else {
        panic!(rt; "no device has this key");
    };
    assert_eq!(rt; (back.number, why), (9, ReplaceRefusal::NotThere));
    let put = registry.replace(&domain, &mut cpu, 20, back);
    assert_eq!(rt; (put.is_ok(), registry.len()), (true, 3));
    for (key, number) in [(10, 11), (20, 9), (30, 31)] {
        assert_eq!(rt;
            users.with(&mut cpu, key, |bell| bell.number)?,
            Some(number)
        );
    }
    assert_eq!(rt; registry.reclaim(&mut cpu).is_none(), true);
    drive(&domain, &mut cpu, 40);
    let Some((key, old)) = registry.reclaim(&mut cpu) else {
        panic!(rt; "the old device comes back");
    };
    assert_eq!(rt; (key, old.number), (20, 21));
    assert_eq!(rt; registry.reclaim(&mut cpu).is_none(), true);
    let Ok(new) = registry.remove_and_wait(&rt, &domain, &mut cpu, 20) else {
        panic!(rt; "the new device comes back");
    };
    assert_eq!(rt; (new.number, rung.load(SeqCst)), (9, 0));
    Ok(())
}

/// Would catch a new device that is lost, or put all the same, where no slot is free.
#[test]
fn no_slot_is_free_for_another(rt: HostRuntime) -> Result<(), Fail> {
    let rung = Arc::new(rt.alloc(), AtomicU64::new(0))?;
    let Place {
        domain,
        mut cpu,
        others: _,
        mut registry,
        mut users,
    } = place_of::<u64, Bell>(rt.alloc(), 1, 3)?;
    let put = registry.insert(&domain, &mut cpu, 1, bell(1, &rung)?);
    assert_eq!(rt; put.is_ok(), true);
    let Err((back, why)) = registry.replace(&domain, &mut cpu, 1, bell(2, &rung)?) else {
        panic!(rt; "no slot is free");
    };
    assert_eq!(rt; (back.number, why), (2, ReplaceRefusal::NoSlot));
    assert_eq!(rt; users.with(&mut cpu, 1, |bell| bell.number)?, Some(1));
    drive(&domain, &mut cpu, 40);
    let put = registry.replace(&domain, &mut cpu, 1, back);
    assert_eq!(rt; put.is_ok(), true);
    assert_eq!(rt; users.with(&mut cpu, 1, |bell| bell.number)?, Some(2));
    assert_eq!(rt; rung.load(SeqCst), 0);
    Ok(())
}
