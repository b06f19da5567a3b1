//! Devices under keys: threads look them up, and one removes them and inserts them again.
ghost use Rattle.std.specs.Prelude.{◌≡◌, All, IfOk};
ghost use Rattle.domain.specs.Views.{IsOf};
ghost use Rattle.domain.specs.Waiting.{HasNoneOpen};
ghost use Rattle.driver.specs.Pools.{IsIdle};
ghost use Rattle.boxes.specs.Boxes.{IsCellIn, IsCellOf, cell_of};

use crate::live::{LIMITS, Try};
use anyhow::{Result as Ending, ensure};
use domain::{Cpu, Domain};
use registry::{Registry, Users, make};
use srcu::{Refusal, Team};
use std::marker::Model;
use std::sync::Wait;
use std::thread;
use std::thread::Threads;
use std::time::{Clock, Duration, Instant};

/// By how much the next key is greater, so that no key follows the one before.
const STRIDE: u64 = 7;

/// A registry of numbers, each under itself, and the processor of the one who changes it. Contracts see nothing of it.
#[derive(Drop)]
struct Changer {
    domain: Domain<()>,
    cpu: Cpu<()>,
    registry: Registry<u64, u64>,
}

impl Model for Changer {
    ghost Value = { Unit {0} };

    ghost view = { λ _. tt };

    ghost invariant = { λ c. IsOf c.domain c.cpu × HasNoneOpen c.cpu × IsCellIn c.domain (cell_of c.registry.writer) };
}

impl Changer {
    /// Inserts a device under its number.
    fn insert(&mut self, device: u64) -> Try<()> {
        let registry = &mut self.registry;
        let inserted = registry.insert(&self.domain, &mut self.cpu, device, device);
        inserted.map_err(|_| Refusal::NoSlot)
    }

    /// Removes one, and waits until no section can use it.
    fn remove<R: Wait>(&mut self, rt: &R, key: u64) -> Try<u64> {
        let registry = &mut self.registry;
        let removed = registry.remove_and_wait(rt, &self.domain, &mut self.cpu, key);
        removed.map_err(|_| Refusal::NoKey)
    }

    /// Waits for a grace period: then the slot of each version but the last is free.
    fn settle<R: Wait>(&mut self, rt: &R) -> Try<()> {
        self.domain.synchronize(rt, &mut self.cpu)?;
        Ok(())
    }
}

/// A processor, and what looks devices up there.
#[derive(Drop)]
struct Finder {
    cpu: Cpu<()>,
    users: Users<u64, u64>,
    ghost here: { IsCellOf cpu.cpu users.boxes },
}

impl Finder {
    /// Looks a device up.
    fn find(&mut self, key: u64) -> Try<Option<u64>> {
        Ok(self.users.with(&mut self.cpu, key, |device| *device)?)
    }
}

/// A finder on each processor.
fn finders_on(
    domain: &Domain<()>,
    mut cpus: Vec<Cpu<()>>,
    mut users: Users<u64, u64>,
) -> Try<Vec<Finder>>
    requires here { All (IsIdle domain.now) cpus.items }
    requires cell { IsCellIn domain.now users.boxes }
{
    let mut finders = Vec::new(*cpus.allocator());
    while let Some(cpu) = cpus.pop() {
        let users = users.another(&cpu)?;
        finders.push(Finder { cpu, users })?;
    }
    Ok(finders)
}

/// Who changes the devices below a number, and so many who look them up.
fn furnish<R: Wait + AllocGlobal>(
    rt: &R,
    keys: u64,
    finders: usize,
) -> Try<(Changer, Vec<Finder>)> {
    let processors = finders.saturating_add(1);
    let (domain, cpus, writers) = srcu::make(rt.alloc(), processors, LIMITS)?;
    let mut team = Team::new(&domain, cpus, writers);
    let mut cpu = team.worker().ok_or(Refusal::NoWorker)?.into_cpu();
    let writer = team.writer().ok_or(Refusal::NoWriter)?;
    let cpus = team.into_cpus();
    let Ok((registry, users)) = make(rt.alloc(), &domain, &mut cpu, writer) else {
        return Err(Refusal::Memory);
    };
    let finders = finders_on(&domain, cpus, users)?;
    let mut changer = Changer {
        domain,
        cpu,
        registry,
    };
    for key in 0..keys {
        changer.insert(key)?;
        changer.settle(rt)?;
    }
    Ok((changer, finders))
}

/// The key after this one.
fn after(key: u64, keys: u64) -> u64 {
    let next = key.wrapping_add(STRIDE);
    if next < keys {
        next
    } else {
        next.wrapping_sub(keys)
    }
}

/// Looks up so many devices, one after another. Returns whether each was there.
fn look_up(mut finder: Finder, keys: u64, times: u64) -> Try<bool> {
    let mut key = 0;
    for _ in 0..times {
        if finder.find(key)? != Some(key) {
            return Ok(false);
        }
        key = after(key, keys);
    }
    Ok(true)
}

/// How long it takes until each of so many threads has looked up so many devices of so many keys.
pub fn find<R: Threads + Sync + Wait + Clock + AllocGlobal>(
    rt: &R,
    keys: u64,
    threads: usize,
    times: u64,
) -> Ending<Duration> {
    let (_changer, finders) = furnish(rt, keys, threads)?;
    let start = Instant::now(rt)?;
    let came = thread::map_vec(rt, finders, &|finder| look_up(finder, keys, times))?;
    let elapsed = start.elapsed(rt)?;
    for each in came {
        ensure!(each?, "a device was missing");
    }
    Ok(elapsed)
}

/// How long it takes to remove so many devices of so many keys, each with its grace period, and to insert them again.
pub fn change<R: Wait + Clock + AllocGlobal>(
    rt: &R,
    keys: u64,
    times: u64,
) -> Ending<(Duration, Duration)> {
    let (mut changer, _) = furnish(rt, keys, 0)?;
    let (mut key, mut removing, mut inserting) = (0, Duration::ZERO, Duration::ZERO);
    for _ in 0..times {
        let start = Instant::now(rt)?;
        let device = changer.remove(rt, key)?;
        removing = removing.saturating_add(start.elapsed(rt)?);
        ensure!(device == key, "another device came back");
        let start = Instant::now(rt)?;
        changer.insert(device)?;
        inserting = inserting.saturating_add(start.elapsed(rt)?);
        key = after(key, keys);
    }
    Ok((removing, inserting))
}
