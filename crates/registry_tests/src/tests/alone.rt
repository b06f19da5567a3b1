//! One thread.
ghost use Rattle.boxes.specs.Boxes.{IsCellOf};

use super::bells::{Bell, bell};
use super::places::{Place, drive, place_of};
use domain::{Cpu, Exhausted};
use registry::{InsertRefusal, RemoveRefusal, Users};
use std::sync::Arc;
use std::sync::atomic::AtomicU64;
use std::sync::atomic::Ordering::SeqCst;
use std::test::Fail;

/// The number of the device of this key.
fn number_of(
    users: &mut Users<u64, Bell>,
    cpu: &mut Cpu<()>,
    key: u64,
) -> Result<Option<u64>, Exhausted>
    requires { IsCellOf cpu.old.cpu users.old.boxes }
{
    users.with(cpu, key, |bell| bell.number)
}

/// Would catch a device that isn't found, one that is found under another key or when it was removed, and one that comes back
/// while it may be used, twice or never.
#[test]
fn devices_come_back(rt: HostRuntime) -> Result<(), Fail> {
    let rung = Arc::new(rt.alloc(), AtomicU64::new(0))?;
    let Place {
        domain,
        mut cpu,
        others: _,
        mut registry,
        mut users,
    } = place_of::<u64, Bell>(rt.alloc(), 2, 8)?;
    for key in [20, 10, 30] {
        let put = registry.insert(&domain, &mut cpu, key, bell(key + 1, &rung)?);
        assert_eq!(rt; put.is_ok(), true);
        drive(&domain, &mut cpu, 20);
    }
    let Err((back, why)) = registry.insert(&domain, &mut cpu, 20, bell(9, &rung)?) else {
        panic!(rt; "the key is taken");
    };
    assert_eq!(rt; (back.number, why), (9, InsertRefusal::There));
    drop(back);
    for key in [10, 20, 30] {
        assert_eq!(rt; number_of(&mut users, &mut cpu, key)?, Some(key + 1));
    }
    assert_eq!(rt; number_of(&mut users, &mut cpu, 15)?, None);
    assert_eq!(rt;
        registry.remove(&domain, &mut cpu, 15),
        Err(RemoveRefusal::NotThere)
    );
    assert_eq!(rt; registry.remove(&domain, &mut cpu, 20), Ok(()));
    assert_eq!(rt; number_of(&mut users, &mut cpu, 20)?, None);
    assert_eq!(rt; registry.reclaim(&mut cpu).is_none(), true);
    let put = registry.insert(&domain, &mut cpu, 20, bell(22, &rung)?);
    assert_eq!(rt; put.is_ok(), true);
    assert_eq!(rt; number_of(&mut users, &mut cpu, 20)?, Some(22));
    drive(&domain, &mut cpu, 40);
    let Some((key, old)) = registry.reclaim(&mut cpu) else {
        panic!(rt; "the device comes back");
    };
    assert_eq!(rt; (key, old.number), (20, 21));
    assert_eq!(rt; registry.reclaim(&mut cpu).is_none(), true);
    assert_eq!(rt; rung.load(SeqCst), 1); // the one that was refused
    drop(old);
    for key in [10, 20, 30] {
        let Ok(old) = registry.remove_and_wait(&rt, &domain, &mut cpu, key) else {
            panic!(rt; "the device comes back");
        };
        assert_eq!(rt; old.number, if key == 20 { 22 } else { key + 1 });
    }
    assert_eq!(rt; registry.reclaim(&mut cpu).is_none(), true);
    assert_eq!(rt; (rung.load(SeqCst), Arc::strong_count(&rung)), (5, 1));
    Ok(())
}

/// Would catch a device that is lost, or put all the same, where no slot is free.
#[test]
fn no_slot_is_free(rt: HostRuntime) -> Result<(), Fail> {
    let rung = Arc::new(rt.alloc(), AtomicU64::new(0))?;
    let Place {
        domain,
        mut cpu,
        others: _,
        mut registry,
        mut users,
    } = place_of::<u64, Bell>(rt.alloc(), 1, 3)?;
    let put = registry.insert(&domain, &mut cpu, 1, bell(1, &rung)?);
    assert_eq!(rt; put.is_ok(), true);
    let Err((back, why)) = registry.insert(&domain, &mut cpu, 2, bell(2, &rung)?) else {
        panic!(rt; "no slot is free");
    };
    assert_eq!(rt; (back.number, why), (2, InsertRefusal::NoSlot));
    assert_eq!(rt;
        registry.remove(&domain, &mut cpu, 1),
        Err(RemoveRefusal::NoSlot)
    );
    assert_eq!(rt; number_of(&mut users, &mut cpu, 1)?, Some(1));
    drive(&domain, &mut cpu, 40);
    let put = registry.insert(&domain, &mut cpu, 2, back);
    assert_eq!(rt; put.is_ok(), true);
    assert_eq!(rt; number_of(&mut users, &mut cpu, 1)?, Some(1));
    assert_eq!(rt; number_of(&mut users, &mut cpu, 2)?, Some(2));
    let Ok(one) = registry.remove_and_wait(&rt, &domain, &mut cpu, 1) else {
        panic!(rt; "the device comes back");
    };
    assert_eq!(rt; (one.number, rung.load(SeqCst)), (1, 0));
    Ok(())
}
