//! The devices of a registry: how they are inserted and removed, who uses them, and how all come back.
ghost use Rattle.std.specs.Prelude.{◌≡◌};
ghost use Rattle.domain.specs.Views.{Stays};
ghost use Rattle.boxes.specs.Boxes.{IsCellOf};
ghost use Rattle.soak.specs.Counts.{one_more};
ghost use Rattle.soak.specs.Checks.{judged_use};
ghost use Rattle.soak.specs.Workers.{IsAtWork};
ghost use Rattle.soak.specs.Updaters.{IsUpdating};

use crate::counts::{Counts, count};
use crate::updating::Updater;
use crate::worker::{Job, Worker};
use domain::{Cpu, Domain, Exhausted};
use registry::{InsertRefusal, RemoveRefusal, StayRefusal, Users, WaitRefusal};
use std::alloc::Global;
use std::sync::Wait;
use std::sync::atomic::Ordering::SeqCst;
use std::sync::atomic::{AtomicBool, AtomicU64};
use std::thread::yield_now;

/// How many keys there are. The device of each number has the key that it leaves.
const KEYS: u64 = 7;

/// One use of so many is in a held section, and one removal of so many waits.
const TURNS: u64 = 8;

/// A device, which counts its own uses.
#[derive(Default, Drop)]
pub struct Device {
    pub uses: AtomicU64,
    /// Whether it was removed and is back: then nothing uses it any more.
    pub back: AtomicBool,
}

impl Device {
    /// A use, in which the user sleeps. Returns whether the device was not back before that, and not after it.
    fn lend(&self) -> bool {
        let before = self.back.load(SeqCst);
        self.uses.fetch_add(1, SeqCst);
        yield_now(); // a user may sleep
        !before && !self.back.load(SeqCst)
    }
}

/// Uses the device of a key in a section: in a held one, or in one that ends with the call. None where no device has the key.
fn find_device(
    cpu: &mut Cpu<Job>,
    users: &mut Users<u64, Box<Device>>,
    key: u64,
    held: bool,
) -> Result<Option<bool>, Exhausted>
    requires cell { IsCellOf cpu.old.cpu users.old.boxes }
    ensures stays { Stays cpu.old cpu.new }
    ensures users { users.new.boxes ≡ users.old.boxes }
{
    if !held {
        return users.with(cpu, key, |device| device.lend());
    }
    let Some(taken) = users.take(cpu, key)? else {
        return Ok(None);
    };
    let here = taken.get().lend();
    users.give_back(cpu, taken);
    Ok(Some(here))
}

/// Counts a use, and whether it was of a device that was back. Where there was no device, it counts nothing.
fn judge(counts: &mut Counts, found: Option<bool>)
    ensures { counts.new ≡ judged_use found counts.old }
{
    let Some(here) = found else { return };
    count(&mut counts.used);
    if !here {
        count(&mut counts.stale);
    }
}

/// Uses the device of this round's key, if there is one.
pub fn use_device(domain: &Domain<Job>, worker: &mut Worker, round: u64)
    requires { IsAtWork domain.now worker.old }
    ensures { IsAtWork domain.now worker.new }
{
    let held = round % TURNS == 0;
    let Ok(found) = find_device(&mut worker.cpu, &mut worker.users, round % KEYS, held) else {
        count(&mut worker.counts.refused);
        return;
    };
    count(&mut worker.counts.opened);
    count(&mut worker.counts.closed);
    judge(&mut worker.counts, found);
}

/// Counts a device that is back, and its uses. One that was back before is too old. It stays until the next one is back, so that
/// whoever used it too late would see its mark.
fn come_back(counts: &mut Counts, last: &mut Option<Box<Device>>, device: Box<Device>)
    ensures { counts.new.back ≡ one_more counts.old.back }
{
    count(&mut counts.back);
    if device.back.swap(true, SeqCst) {
        count(&mut counts.stale);
    }
    counts.counted = counts.counted.saturating_add(device.uses.load(SeqCst));
    *last = Some(device);
}

/// Has a device back that was removed, if nothing can use it any more.
pub fn reclaim_device(domain: &Domain<Job>, updater: &mut Updater)
    requires { IsUpdating domain.now updater.old }
    ensures { IsUpdating domain.now updater.new }
{
    if let Some((_key, device)) = updater.registry.reclaim(&mut updater.cpu) {
        come_back(&mut updater.counts, &mut updater.back, device);
    }
}

/// Removes the device of a number's key, and waits until it is back.
pub fn remove_and_wait<R: Wait>(rt: &R, domain: &Domain<Job>, updater: &mut Updater, number: u64)
    requires { IsUpdating domain.now updater.old }
    ensures { IsUpdating domain.now updater.new }
{
    // It would wait for itself.
    if updater.cpu.open_here() > 0 {
        count(&mut updater.counts.refused);
        return;
    }
    let registry = &mut updater.registry;
    match registry.remove_and_wait(rt, domain, &mut updater.cpu, number % KEYS) {
        Ok(device) => come_back(&mut updater.counts, &mut updater.back, device),
        Err(WaitRefusal::NotRemoved(StayRefusal::NotThere)) => {}
        Err(WaitRefusal::NotRemoved(StayRefusal::Memory)) => count(&mut updater.counts.again),
        Err(_) => count(&mut updater.counts.refused),
    }
}

/// Inserts the next device, if its key is free; else removes the one that has it. Where no slot is free or memory is refused, the
/// same is tried the next time. Returns whether the removal is left to `remove_and_wait`, as it is at times.
pub fn change_devices(alloc: Global, domain: &Domain<Job>, updater: &mut Updater) -> bool
    requires { IsUpdating domain.now updater.old }
    ensures { IsUpdating domain.now updater.new }
{
    reclaim_device(domain, updater);
    let number = updater.counts.devices;
    let Ok(device) = Box::new(alloc, Device::default()) else {
        count(&mut updater.counts.again);
        return false;
    };
    let registry = &mut updater.registry;
    match registry.insert(domain, &mut updater.cpu, number % KEYS, device) {
        Ok(()) => count(&mut updater.counts.devices),
        Err((_, InsertRefusal::Memory)) => count(&mut updater.counts.again),
        Err((_, InsertRefusal::NoSlot)) => {}
        Err((_, InsertRefusal::There)) if number % TURNS == 0 => return true,
        Err((_, InsertRefusal::There)) => {
            let registry = &mut updater.registry;
            let removed = registry.remove(domain, &mut updater.cpu, number % KEYS);
            if removed == Err(RemoveRefusal::Memory) {
                count(&mut updater.counts.again);
            }
        }
    }
    false
}
