//! A whole run: a domain is made, nine threads are at work in it, and it is taken down.
ghost use Rattle.std.specs.Prelude.{◌≡◌, ◌+◌, ◌<◌, ◌≤◌, vec_len, vec_capacity, All, IfOk};
ghost use Rattle.std.specs.Thread.{IsSync};
ghost use Rattle.sections.specs.Words.{cells_in};
ghost use Rattle.domain.specs.Views.{IsOf};
ghost use Rattle.domain.specs.Parts.{Each};
ghost use Rattle.soak.specs.Workers.{IsAtWork};
ghost use Rattle.driver.specs.Pools.{IsIdle};
ghost use Rattle.soak.specs.Updaters.{IsUpdating};
ghost use Rattle.boxes.specs.Boxes.{IsCellIn};
ghost use Rattle.soak.specs.Starts.{AreIdle, IsRoom, IsGround, IsPrepared};

use crate::boxing::take_back;
use crate::counts::{Counts, count};
use crate::devices::Device;
use crate::driving::{Cpus, Driver, drive};
use crate::outcome::Outcome;
use crate::signs::{AGES, Signs, WORKERS};
use crate::tables::{Lives, Table};
use crate::updating::{Deadline, Replaced, Updater, update};
use crate::worker::{Job, Length, Post, Worker, work};
use anyhow::Result;
use boxes::Boxes;
use domain::{Cpu, Domain, Limits, Progress, Writer};
use driver::Stop;
use registry::Users;
use std::alloc::{AllocError, Global};
use std::sync::{Arc, Wait};
use std::thread;
use std::thread::{Threads, join};
use std::time::{Clock, Instant};

/// How many processors the domain has: one for each thread, and one for the driver's report.
const PROCESSORS: u16 = 10;

/// How many turns of the engine are enough for all grace periods that are still asked for in the end.
const TURNS: u32 = 64;

/// A cell of words, one of boxes, and one of devices.
const LIMITS: Limits = Limits {
    sections: Limits::MOST_SECTIONS,
    periods: Limits::MOST_PERIODS,
    cells: 3,
    slots: 8,
};

/// A worker for each of these processors, with what reads boxes and what uses devices.
fn staff(
    mut cpus: Vec<Cpu<Job>>,
    mut boxes: Boxes<Table>,
    mut users: Users<u64, Box<Device>>,
    mut workers: Vec<Worker>,
    domain: &Domain<Job>,
) -> Result<Vec<Worker>, AllocError>
    requires cpus { Each (IsOf domain.now) cpus.items }
    requires boxes { IsCellIn domain.now boxes }
    requires users { IsCellIn domain.now users.boxes }
    requires cell { 0 < cells_in domain.now.domain }
    requires room { (vec_len workers ≡ 0) × (vec_len cpus ≤ vec_capacity workers) }
    ensures all { IfOk result (λ r. All (IsAtWork domain.now) r.items) }
    ensures as_many { IfOk result (λ r. vec_len r ≡ vec_len cpus) }
{
    while let Some(cpu) = cpus.pop() {
        let boxes = boxes.another(&cpu)?;
        let users = users.another(&cpu)?;
        workers.push_reserved(Worker {
            cpu,
            boxes,
            users,
            last: 0,
            counts: Counts::default(),
        });
    }
    Ok(workers)
}

/// Has each worker do its part in a thread of its own, and tells then that none is left.
fn work_all<R: Threads + Sync + Wait + Clock>(
    rt: &R,
    domain: &Domain<Job>,
    post: &Post,
    signs: &Signs,
    stop: &Stop<Job>,
    length: Length,
    mut workers: Vec<Worker>,
) -> Vec<Worker>
    requires workers { All (IsAtWork domain.now) workers.items }
    requires post { post.now.key ≡ domain.now }
    requires stop { stop.now.domain ≡ domain.now }
    ensures all { All (IsAtWork domain.now) result.items }
    ensures as_many { vec_len result ≡ vec_len workers }
{
    let part = |_: usize, worker: &mut Worker|
        requires { IsAtWork domain.now worker.now × (post.now.key ≡ domain.now) }
        ensures { IsAtWork domain.entry.now worker.exit.now }
    { work(rt, domain, post, signs, length, worker) };
    thread::for_each_mut(rt, workers.as_mut_slice(), WORKERS, &part);
    stop.give_alone(rt, domain);
    workers
}

/// What the workers have, apart.
#[derive(Drop)]
pub struct Parts {
    cpus: Vec<Cpu<Job>>,
    counts: Counts,
}

/// Takes the workers' processors from them, and adds up what they counted.
pub fn take_apart(mut workers: Vec<Worker>, mut parts: Parts, domain: &Domain<Job>) -> Parts
    requires all { All (IsAtWork domain.now) workers.items }
    requires cpus { (vec_len parts.cpus ≡ 0) × (vec_len workers + 2 < vec_capacity parts.cpus) }
    ensures cpus { Each (IsOf domain.now) result.cpus.items }
    ensures room { vec_len result.cpus + 2 < vec_capacity result.cpus }
{
    while let Some(worker) = workers.pop() {
        parts.cpus.push_reserved(worker.cpu);
        parts.counts = parts.counts.plus(worker.counts);
    }
    parts
}

/// Turns of the engine until it rests. No section is open any more, so each of them gets on.
fn rest(domain: &Domain<Job>, cpu: &mut Cpu<Job>)
    requires { IsOf domain.now cpu.old }
    ensures { IsOf domain.now cpu.new }
{
    for _ in 0..TURNS {
        if let Ok(Progress::Idle) = domain.advance(cpu) {
            break;
        }
    }
}

/// Closes the mailbox, has all boxes and devices back, and takes the domain down once its engine rests.
pub fn end<R: Wait>(
    rt: &R,
    domain: Domain<Job>,
    post: Post,
    parts: Parts,
    mut driver: Driver,
    mut updater: Updater,
) -> Outcome
    requires cpus { Each (IsOf domain) parts.cpus.items }
    requires room { vec_len parts.cpus + 2 < vec_capacity parts.cpus }
    requires post { post.key ≡ domain }
    requires driver { IsOf domain driver.cpu }
    requires watching { IsOf domain driver.watching }
    requires updater { IsUpdating domain updater }
{
    let mut cpus = parts.cpus;
    if let Some(held) = post.close(rt) {
        driver.cpu.up_read(held);
        count(&mut driver.counts.left);
    }
    take_back(rt, &domain, &mut updater);
    updater.counts.lost = updater.lives.lost();
    let counts = parts.counts.plus(driver.counts).plus(updater.counts);
    rest(&domain, &mut driver.cpu);
    cpus.push_reserved(driver.cpu);
    cpus.push_reserved(driver.watching);
    cpus.push_reserved(updater.cpu);
    let totals = domain.cleanup(cpus).map_err(|refused| refused.0);
    Outcome { counts, totals }
}

/// What a run begins with.
#[derive(Drop)]
pub struct Start {
    pub domain: Domain<Job>,
    /// Given when no worker is left.
    pub stop: Stop<Job>,
    pub workers: Vec<Worker>,
    pub driver: Cpus,
    pub updater: Updater,
    pub parts: Parts,
}

/// Room for the workers, and for what is taken from them in the end; and where tables are counted.
#[derive(Drop)]
struct Room {
    workers: Vec<Worker>,
    parts: Parts,
    lives: Arc<Lives>,
}

/// All the room that a run needs.
fn make_room(alloc: Global) -> Result<Room>
    ensures { IfOk result IsRoom }
{
    let lives = Arc::new(alloc, Lives::default())?;
    let workers = Vec::with_capacity(alloc, WORKERS)?;
    let parts = Parts {
        cpus: Vec::with_capacity(alloc, usize::from(PROCESSORS))?,
        counts: Counts::default(),
    };
    Ok(Room {
        workers,
        parts,
        lives,
    })
}

/// A new domain, the sign for its drivers, the processors of the workers, those of the driver, and that of the updater.
#[derive(Drop)]
struct Ground {
    domain: Domain<Job>,
    stop: Stop<Job>,
    cpus: Vec<Cpu<Job>>,
    driver: Cpus,
    updating: Cpu<Job>,
    /// That of the cell of words, that of the cell of devices, and last that of the cell of boxes.
    writers: Vec<Writer>,
}

/// Makes a domain.
fn found(alloc: Global) -> Result<Ground>
    ensures { IfOk result IsGround }
{
    let processors = usize::from(PROCESSORS);
    let (domain, mut cpus, writers) = Domain::<Job>::new(alloc, processors, LIMITS)?;
    let stop = Stop::new(alloc, &domain)?;
    let updating = cpus.pop().unwrap();
    let serving = cpus.pop().unwrap();
    let watching = cpus.pop().unwrap();
    Ok(Ground {
        domain,
        stop,
        cpus,
        driver: Cpus { serving, watching },
        updating,
        writers,
    })
}

/// Makes all that a run begins with.
pub fn prepare(alloc: Global) -> Result<Start>
    ensures { IfOk result IsPrepared }
{
    let room = make_room(alloc)?;
    let mut ground = found(alloc)?;
    let last = ground.writers.pop().unwrap();
    let Ok((tables, boxes)) = boxes::make(alloc, &ground.domain, &mut ground.updating, last) else {
        return Err(AllocError.into());
    };
    let other = ground.writers.pop().unwrap();
    let made = registry::make(alloc, &ground.domain, &mut ground.updating, other);
    let Ok((registry, users)) = made else {
        return Err(AllocError.into());
    };
    let writer = ground.writers.pop().unwrap();
    let updater = Updater {
        cpu: ground.updating,
        writer,
        replaced: [Replaced::default(); AGES],
        boxes: tables,
        waiting: None,
        lives: room.lives,
        registry,
        back: None,
        counts: Counts::default(),
    };
    let workers = staff(ground.cpus, boxes, users, room.workers, &ground.domain)?;
    Ok(Start {
        domain: ground.domain,
        stop: ground.stop,
        workers,
        driver: ground.driver,
        updater,
        parts: room.parts,
    })
}

/// Has the driver and the updater each do its part, at once.
fn serve_and_update<R: Threads + Sync + Wait + Clock + AllocGlobal>(
    rt: &R,
    domain: &Domain<Job>,
    driver: Cpus,
    updater: Updater,
    signs: &Signs,
    stop: &Stop<Job>,
    deadline: Deadline,
) -> (Driver, Updater)
    requires stop { stop.now.domain ≡ domain.now }
    requires driver { AreIdle domain.now driver }
    requires updater { IsUpdating domain.now updater }
    ensures driver { IsIdle domain.now result.0.cpu }
    ensures watching { IsIdle domain.now result.0.watching }
    ensures updater { IsUpdating domain.now result.1 }
{
    join(
        rt,
        || drive(rt, domain, driver, signs, stop),
        || update(rt, domain, updater, signs, stop, deadline),
    )
}

/// Has all threads do their parts at once.
fn soak<R: Threads + Sync + Wait + Clock + AllocGlobal>(
    rt: &R,
    domain: &Domain<Job>,
    post: &Post,
    stop: &Stop<Job>,
    workers: Vec<Worker>,
    driver: Cpus,
    updater: Updater,
    deadline: Deadline,
) -> (Vec<Worker>, (Driver, Updater))
    requires stop { stop.now.domain ≡ domain.now }
    requires all { All (IsAtWork domain.now) workers.items }
    requires post { post.now.key ≡ domain.now }
    requires driver { AreIdle domain.now driver }
    requires updater { IsUpdating domain.now updater }
    ensures all { All (IsAtWork domain.now) result.0.items }
    ensures as_many { vec_len result.0 ≡ vec_len workers }
    ensures driver { IsIdle domain.now result.1.0.cpu }
    ensures watching { IsIdle domain.now result.1.0.watching }
    ensures updater { IsUpdating domain.now result.1.1 }
{
    let signs = Signs::default();
    let length = deadline.length;
    // What comes second stays on this thread, to which `bench/soak` refuses no memory.
    let (served, workers) = join(
        rt,
        || -> (Driver, Updater)
            requires { IsSync R.row × ((stop.now.domain ≡ domain.now) × (AreIdle domain.now driver × IsUpdating domain.now updater)) }
            ensures { IsIdle domain.entry.now result.0.cpu × IsIdle domain.entry.now result.0.watching × IsUpdating domain.entry.now result.1 }
        { serve_and_update(rt, domain, driver, updater, &signs, stop, deadline) },
        || -> Vec<Worker>
            requires { IsSync R.row × ((stop.now.domain ≡ domain.now) × ((post.now.key ≡ domain.now) × All (IsAtWork domain.now) workers.items)) }
            ensures { All (IsAtWork domain.entry.now) result.items × (vec_len result ≡ vec_len workers) }
        { work_all(rt, domain, post, &signs, stop, length, workers) },
    );
    (workers, served)
}

/// Does all of it.
pub fn run<R: Threads + Sync + Wait + Clock + AllocGlobal>(
    rt: &R,
    length: Length,
) -> Result<Outcome> {
    let start = Instant::now(rt)?;
    let deadline = Deadline { start, length };
    let Start {
        domain,
        stop,
        workers,
        driver,
        updater,
        parts,
    } = prepare(rt.alloc())?;
    let post = Post::new(rt.alloc(), &domain)?;
    let (workers, (driver, updater)) = soak(
        rt, &domain, &post, &stop, workers, driver, updater, deadline,
    );
    let parts = take_apart(workers, parts, &domain);
    Ok(end(rt, domain, post, parts, driver, updater))
}
