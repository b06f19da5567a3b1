//! Each allocation of a change is refused in turn.

use super::bells::{Bell, bell};
use super::places::drive;
use domain::{Cpu, Domain, MakeError};
use fixtures::one;
use refusing::Refusing;
use registry::{
    InsertRefusal, Registry, RemoveRefusal, ReplaceRefusal, StayRefusal, Users, WaitRefusal, make,
};
use std::alloc::{AllocError, Global};
use std::sync::atomic::AtomicU64;
use std::sync::atomic::Ordering::SeqCst;
use std::sync::{Arc, Wait};
use std::test::Fail;

/// More allocations than a call makes.
const MOST: u64 = 100;

type Heap = Refusing<Global>;

/// A registry whose memory is the heap's, in a domain whose memory is not.
#[derive(Drop)]
struct Refused<'a> {
    domain: Domain<()>,
    cpu: Cpu<()>,
    registry: Registry<u64, Bell, &'a Heap>,
    users: Users<u64, Bell, &'a Heap>,
}

/// Makes one, with each allocation refused in turn, until none is. Returns how many were refused too.
fn make_refused<'a>(
    alloc: Global,
    heap: &'a Heap,
    slots: u64,
) -> Result<(Refused<'a>, u64), MakeError> {
    let (domain, mut cpu, mut writer) = one(alloc, slots)?;
    for nth in 1..MOST {
        heap.refuse(nth);
        match make(heap, &domain, &mut cpu, writer) {
            Ok((registry, users)) => {
                let refused = Refused {
                    domain,
                    cpu,
                    registry,
                    users,
                };
                return Ok((refused, nth - 1));
            }
            Err(back) => writer = back,
        }
        if heap.out() != 0 {
            break;
        }
    }
    Err(MakeError::Memory)
}

impl<'a> Refused<'a> {
    /// The numbers of the devices under these keys.
    fn numbers(&mut self, keys: [u64; 3]) -> [Option<u64>; 3] {
        let mut numbers = [None; 3];
        for place in 0..3usize {
            let found = self
                .users
                .with(&mut self.cpu, keys[place], |bell| bell.number);
            numbers[place] = found.ok().flatten();
        }
        numbers
    }

    /// Inserts a device, or puts it under the key of another one. Whether memory refused it stands beside it.
    fn put(&mut self, key: u64, bell: Bell) -> Result<(), (Bell, bool)> {
        let (domain, cpu) = (&self.domain, &mut self.cpu);
        if bell.number < 20 {
            match self.registry.insert(domain, cpu, key, bell) {
                Ok(()) => Ok(()),
                Err((back, why)) => Err((back, why == InsertRefusal::Memory)),
            }
        } else {
            match self.registry.replace(domain, cpu, key, bell) {
                Ok(()) => Ok(()),
                Err((back, why)) => Err((back, why == ReplaceRefusal::Memory)),
            }
        }
    }

    /// Puts a device, with each allocation refused in turn, until none is. Returns how many were, or None where a refusal
    /// changed something.
    fn put_refused(&mut self, heap: &Heap, key: u64, first: Bell) -> Option<u64> {
        let mut bell = first;
        let number = bell.number;
        let before = self.numbers([1, 2, 3]);
        for nth in 1..MOST {
            heap.refuse(nth);
            match self.put(key, bell) {
                Ok(()) => return Some(nth - 1),
                Err((back, memory)) => {
                    let same = memory && back.number == number;
                    bell = back;
                    if !same || self.numbers([1, 2, 3]) != before {
                        return None;
                    }
                }
            }
        }
        None
    }

    /// Removes a device in the same way.
    fn remove(&mut self, heap: &Heap, key: u64) -> Option<u64> {
        let before = self.numbers([1, 2, 3]);
        for nth in 1..MOST {
            heap.refuse(nth);
            match self.registry.remove(&self.domain, &mut self.cpu, key) {
                Ok(()) => return Some(nth - 1),
                Err(RemoveRefusal::Memory) => {
                    if self.numbers([1, 2, 3]) != before {
                        return None;
                    }
                }
                Err(_) => return None,
            }
        }
        None
    }
}

/// What was refused at each of three inserts, three replacements and three removals, and which devices came back.
fn change_all(
    heap: &Heap,
    place: &mut Refused<'_>,
    rung: &Arc<AtomicU64>,
) -> Result<([Option<u64>; 9], [Option<u64>; 6]), AllocError> {
    let mut refused = [None; 9];
    let mut back = [None; 6];
    for turn in 0..9u64 {
        let (key, at) = (turn % 3 + 1, turn as usize);
        refused[at] = match turn / 3 {
            2 => place.remove(heap, key),
            kind => place.put_refused(heap, key, bell(10 * kind + 10 + key, rung)?),
        };
        drive(&place.domain, &mut place.cpu, 40);
        heap.refuse(0);
        if let Some((_, bell)) = place.registry.reclaim(&mut place.cpu) {
            back[at - 3] = Some(bell.number);
        }
    }
    Ok((refused, back))
}

/// Would catch a refused allocation that loses a device, leaves it half inserted, replaced or removed, or leaves a block allocated
/// by `make`.
#[test]
fn refuse_each_allocation(rt: HostRuntime) -> Result<(), Fail> {
    let heap = Refusing::new(rt.alloc());
    let rung = Arc::new(rt.alloc(), AtomicU64::new(0))?;
    let (mut place, made) = make_refused(rt.alloc(), &heap, 8)?;
    assert_eq!(rt; made > 0, true);
    let (refused, back) = change_all(&heap, &mut place, &rung)?;
    for count in refused {
        assert_eq!(rt; count.is_some_and(|count| count > 0), true);
    }
    assert_eq!(rt;
        back,
        [Some(11), Some(12), Some(13), Some(21), Some(22), Some(23)]
    );
    assert_eq!(rt; (rung.load(SeqCst), Arc::strong_count(&rung)), (6, 1));
    Ok(())
}

/// Removes a device and waits for it, with each allocation refused in turn, until none is. Returns its number, and how many
/// were refused. None where a refusal changed something.
fn wait_refused<R: Wait>(
    rt: &R,
    heap: &Heap,
    place: &mut Refused<'_>,
    key: u64,
) -> Option<(u64, u64)> {
    let before = place.numbers([1, 2, 3]);
    for nth in 1..MOST {
        heap.refuse(nth);
        match place
            .registry
            .remove_and_wait(rt, &place.domain, &mut place.cpu, key)
        {
            Ok(old) => return Some((old.number, nth - 1)),
            Err(WaitRefusal::NotRemoved(StayRefusal::Memory)) => {
                if place.numbers([1, 2, 3]) != before {
                    return None;
                }
            }
            Err(_) => return None,
        }
    }
    None
}

/// Would catch a refused allocation that removes a device, or lets it leave, before a wait for a slot and after that.
#[test]
fn refuse_each_allocation_of_a_wait(rt: HostRuntime) -> Result<(), Fail> {
    let heap = Refusing::new(rt.alloc());
    let rung = Arc::new(rt.alloc(), AtomicU64::new(0))?;
    let (mut place, _made) = make_refused(rt.alloc(), &heap, 3)?;
    heap.refuse(0);
    let first = place.put(1, bell(1, &rung)?).is_ok();
    drive(&place.domain, &mut place.cpu, 40);
    let second = place.put(2, bell(2, &rung)?).is_ok();
    let third = place.put(3, bell(3, &rung)?).is_ok();
    assert_eq!(rt; (first, second, third), (true, true, true));
    let full = place
        .registry
        .remove(&place.domain, &mut place.cpu, 1)
        .is_err();
    assert_eq!(rt; full, true);
    let Some((number, refused)) = wait_refused(&rt, &heap, &mut place, 1) else {
        panic!(rt; "the device comes back");
    };
    assert_eq!(rt; (number, refused), (1, 3)); // the last one after the wait for a slot
    Ok(())
}
