//! All workers at once: each reader in a thread of its own, and the updater in the one that waits for them. They stand at a
//! line until all threads are there.
ghost use Rattle.std.specs.Prelude.{◌≡◌, ◌≤◌, IfOk, vec_len, vec_capacity};
ghost use Rattle.race.specs.Courses.{IsCourse};
ghost use Rattle.race.specs.Readers.{HasMade, HasRead};
ghost use Rattle.race.specs.Workers.{EachAt, IsNewReader, AreNew, AreBack, HaveRaced, number_of, IsStarted, AreStarted};

use crate::course::Course;
use crate::gate::{At, Gate};
use crate::reader::{Reader, read_all};
use crate::updater::{Halt, Updater, update_all};
use domain::Memory;
use std::alloc::{AllocError, AllocGlobal};
use std::sync::Wait;
use std::thread;
use std::thread::{Promise, PromisedHandle, Scope, Threads};

/// All workers.
#[derive(Drop)]
pub struct Workers {
    pub readers: Vec<Reader>,
    pub updater: Updater,
}

/// A reader's thread gives the reader back when it has made its rounds.
#[derive(Drop)]
pub struct Reads<'a> {
    pub course: &'a Course,
    pub processor: u16,
}

impl<'a> Promise<Reader> for Reads<'a> {
    ghost use Rattle.race.specs.Readers.{HasRead};

    ghost kept_by = { λ p r. HasRead p.course.now p.processor r };
}

/// A reader that was to get a thread of its own.
#[derive(Drop)]
pub enum Started<'a> {
    Thread(PromisedHandle<Reader, Reads<'a>>),
    /// No thread could be made. The reader has made its rounds all the same, so nobody waits for it in vain.
    Alone(Reader),
}

/// Comes to the line, and makes all rounds once it may go.
fn go<R: Wait, G: Gate>(rt: &R, course: &Course, gate: &G, reader: Reader) -> Reader
    requires course { IsCourse course.now }
    requires reader { HasMade course.now 0 reader }
    ensures { HasRead course.now reader.cpu.cpu.processor result }
{
    gate.pass(usize::from(reader.cpu.processor()), 0, At::Line);
    course.line.stand(rt);
    read_all(course, gate, reader)
}

/// Starts a thread for each reader, the last one first, and waits until all stand at the line. Whoever gets no thread counts
/// as standing, and makes its rounds here once all may go.
fn launch_all<'s, E, R: Wait + Sync, G: Gate + Sync>(
    rt: &'s R,
    scope: &Scope<'s, E>,
    course: &'s Course,
    gate: &'s G,
    readers: &mut Vec<Reader>,
    all: &mut Vec<Started<'s>>,
)
    requires course { IsCourse course.now }
    requires each { EachAt (IsNewReader course.now) readers.old.items }
    requires room { (vec_len all.old ≡ 0) × (vec_len readers.old ≤ vec_capacity all.old) }
    ensures readers { (vec_len readers.new ≡ 0) × (vec_capacity readers.new ≡ vec_capacity readers.old) }
    ensures all { AreStarted course.now all.new.items }
    ensures as_many { (vec_len all.new ≡ vec_len readers.old) × (vec_capacity all.new ≡ vec_capacity all.old) }
{
    let Some(reader) = readers.pop() else {
        course.line.wait(rt);
        return;
    };
    let promise = Reads {
        course,
        processor: reader.cpu.processor(),
    };
    let part = move || -> Reader
        requires { IsCourse course.now × HasMade course.now 0 reader }
        ensures { HasRead course.entry.now reader.cpu.cpu.processor result }
    { go(rt, course, gate, reader) };
    match scope.spawn_with(promise, part) {
        Ok(thread) => {
            launch_all(rt, scope, course, gate, readers, all);
            all.push_reserved(Started::Thread(thread));
        }
        Err(refused) => {
            course.line.count();
            launch_all(rt, scope, course, gate, readers, all);
            all.push_reserved(Started::Alone((refused.value)()));
        }
    }
}

/// Waits for the end of a reader's thread. Tells whether there was one.
fn join<R: Threads>(rt: &R, course: &Course, started: Started<'_>) -> (Reader, bool)
    requires { IsStarted course.now started }
    ensures { HasRead course.now (number_of started.entry) result.0 }
{
    match started {
        Started::Thread(thread) => (thread.join(rt), true),
        Started::Alone(reader) => (reader, false),
    }
}

/// Waits for all of them. Tells whether all had threads.
fn join_all<R: Threads>(
    rt: &R,
    course: &Course,
    all: Vec<Started<'_>>,
    readers: &mut Vec<Reader>,
) -> bool
    requires all { AreStarted course.now all.items }
    requires room { (vec_len readers.old ≡ 0) × (vec_len all ≤ vec_capacity readers.old) }
    ensures each { EachAt (HasRead course.now) readers.new.items }
    ensures as_many { vec_len readers.new ≡ vec_len all.entry }
{
    let mut had_threads = true;
    for started in all {
        let (reader, had_thread) = join(rt, course, started);
        readers.push_reserved(reader);
        had_threads &= had_thread;
    }
    had_threads
}

/// Has the workers do their parts, with this room for what is started.
fn run_in<'s, E, R: Threads + Sync + Wait, G: Gate + Sync>(
    rt: &'s R,
    scope: &Scope<'s, E>,
    course: &'s Course,
    gate: &'s G,
    workers: Workers,
    mut all: Vec<Started<'s>>,
) -> (Workers, Result<(), Memory>)
    requires course { IsCourse course.now }
    requires workers { AreNew course.now workers }
    requires room { (vec_len all ≡ 0) × (vec_len workers.readers ≤ vec_capacity all) }
    ensures { HaveRaced course.now result.0 }
{
    let Workers {
        mut readers,
        mut updater,
    } = workers;
    launch_all(rt, scope, course, gate, &mut readers, &mut all);
    let updated = update_all(rt, course, &mut updater);
    let had_threads = join_all(rt, course, all, &mut readers);
    let had_memory = !matches!(updated, Err(Halt::Memory));
    let result = if had_threads && had_memory {
        Ok(())
    } else {
        Err(AllocError)
    };
    (Workers { readers, updater }, result)
}

/// Has all workers do their parts at once. A thread that can't be made counts as memory that isn't there.
pub fn run_all<R: Threads + Sync + Wait + AllocGlobal, G: Gate + Sync>(
    rt: &R,
    course: &Course,
    gate: &G,
    workers: Workers,
) -> (Workers, Result<(), Memory>)
    requires course { IsCourse course.now }
    requires workers { AreNew course.now workers }
    ensures back { AreBack course.now result.0 }
    ensures raced { IfOk result.1 (λ _. HaveRaced course.now result.0) }
{
    thread::scope(
        thread::scope_env(),
        rt,
        move |scope| -> (Workers, Result<(), Memory>)
            requires { IsCourse course.now × AreNew course.now workers }
            ensures { AreBack course.entry.now result.0 × IfOk result.1 (λ _. HaveRaced course.entry.now result.0) }
        {
            let Ok(all) = Vec::with_capacity(rt.alloc(), workers.readers.len()) else {
                return (workers, Err(AllocError));
            };
            run_in(rt, scope, course, gate, workers, all)
        },
    )
}
