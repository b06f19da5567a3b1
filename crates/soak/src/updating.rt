//! The thread that puts versions and boxes, inserts and removes devices, and tells how old the versions are that it replaced. It
//! drives grace periods too.
ghost use Rattle.std.specs.Prelude.{◌≡◌, ◌<◌};
ghost use Rattle.soak.specs.Updaters.{IsUpdating};

use crate::boxing::put_table;
use crate::counts::Counts;
use crate::devices::{Device, change_devices, remove_and_wait};
use crate::signs::{AGES, Signs};
use crate::tables::{Lives, Table};
use crate::worker::{Job, Length};
use boxes::BoxWriter;
use domain::{Cpu, Domain, Writer};
use driver::Stop;
use registry::Registry;
use std::alloc::Global;
use std::sync::{Arc, Wait};
use std::time::{Clock, Duration, Instant};

/// A version that was replaced.
#[derive(Clone, Copy, Default)]
pub struct Replaced {
    pub version: u64,
    /// The number of the cookie behind which it is one older.
    pub cookie: u64,
    /// 0 where there is none.
    pub age: u64,
}

/// What the thread has.
#[derive(Drop)]
pub struct Updater {
    pub cpu: Cpu<Job>,
    pub writer: Writer,
    /// The last versions that were replaced, each at its number modulo [`AGES`].
    pub replaced: [Replaced; AGES],
    pub boxes: BoxWriter<Table, Global>,
    /// A table that found no slot free.
    pub waiting: Option<Box<Table>>,
    /// Where each table is counted.
    pub lives: Arc<Lives>,
    pub registry: Registry<u64, Box<Device>>,
    /// The device that came back last.
    pub back: Option<Box<Device>>,
    pub counts: Counts,
}

/// When the workers are to come to an end.
#[derive(Clone, Copy)]
pub struct Deadline {
    pub start: Instant,
    pub length: Length,
}

impl Deadline {
    /// Whether it is past. Where the clock can't be read, too.
    pub fn is_past<R: Clock>(self, rt: &R) -> bool {
        let Length::Seconds(seconds) = self.length else {
            return false;
        };
        match self.start.elapsed(rt) {
            Ok(elapsed) => elapsed >= Duration::from_secs(seconds),
            Err(_) => true,
        }
    }
}

/// Puts a version, if a slot is free: its number stands in its first and in its last word. The one that was there is one
/// old then. Returns whether it did.
fn put_next(domain: &Domain<Job>, updater: &mut Updater, signs: &Signs) -> bool
    requires { IsUpdating domain.now updater.old }
    ensures { IsUpdating domain.now updater.new }
{
    updater.writer.reclaim(&mut updater.cpu);
    let Some(mut slot) = updater.writer.blank() else {
        return false;
    };
    let before = updater.writer.version();
    let version = before.saturating_add(1);
    updater.writer.set(&mut updater.cpu, &mut slot, 0, version);
    updater.writer.set(&mut updater.cpu, &mut slot, 15, version);
    signs.set_age(version, 0);
    let cookie = domain.put_and_ask(&mut updater.cpu, &mut updater.writer, slot);
    signs.set_age(before, 1);
    updater.replaced[before as usize % AGES] = Replaced {
        version: before,
        cookie,
        age: 1,
    };
    true
}

/// A version that was replaced is one older behind its grace period.
fn age(domain: &Domain<Job>, updater: &mut Updater, place: usize, signs: &Signs)
    requires updater { IsUpdating domain.now updater.old }
    requires place { place < 16 }
    ensures { IsUpdating domain.now updater.new }
{
    let replaced = updater.replaced[place];
    if replaced.age == 1 && updater.cpu.poll_number(replaced.cookie) == Ok(true) {
        signs.set_age(replaced.version, 2);
        updater.replaced[place] = Replaced { age: 2, ..replaced };
    }
}

/// The same for each of them.
fn age_all(domain: &Domain<Job>, updater: &mut Updater, signs: &Signs)
    requires { IsUpdating domain.now updater.old }
    ensures { IsUpdating domain.now updater.new }
{
    for place in 0..AGES {
        age(domain, updater, place, signs);
    }
}

/// Puts versions and boxes and changes devices until no worker is left. Tells the workers when they are to come to an end.
pub fn update<R: Wait + Clock + AllocGlobal>(
    rt: &R,
    domain: &Domain<Job>,
    mut updater: Updater,
    signs: &Signs,
    stop: &Stop<Job>,
    deadline: Deadline,
) -> Updater
    requires { IsUpdating domain.now updater }
    ensures { IsUpdating domain.now result }
{
    for _ in rt.forever() {
        if stop.is_given(rt).0 {
            break;
        }
        if deadline.is_past(rt) {
            signs.end();
        }
        // A driver sleeps where a section is open: so periods end as fast as they can, and two threads drive them.
        let _turn = domain.advance(&mut updater.cpu);
        age_all(domain, &mut updater, signs);
        put_table(rt.alloc(), domain, &mut updater);
        // Where it found no slot free, there is hardly one for a device.
        if put_next(domain, &mut updater, signs)
            && change_devices(rt.alloc(), domain, &mut updater)
        {
            let number = updater.counts.devices;
            remove_and_wait(rt, domain, &mut updater, number);
        }
    }
    updater
}
