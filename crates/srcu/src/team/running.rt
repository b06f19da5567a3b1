//! A crew: workers of a team at work at once, each on a thread of its own.
ghost use Rattle.std.specs.Prelude.{◌≡◌, ◌+◌, ◌≤◌, All, IfErr, IfOk, MatchResult, vec_len, vec_capacity};
ghost use Rattle.std.specs.List.{range_with_len};
ghost use Rattle.driver.specs.Pools.{IsIdle};
ghost use Rattle.srcu.specs.Crews.{AllRan, AreWorkersOf, ControlStays, IsControlled, IsShort, MayControl, MayDo, MayRun, Does, RunStays};

use super::Team;
use crate::refusal::Refusal;
use crate::worker::Worker;
use crew::{at_once, at_once_beside};
use domain::{Cpu, Domain};
use std::thread::Threads;

/// Workers, and the number of each.
type Crew<'a, J> = (Vec<Worker<'a, J>>, Vec<usize>);

/// Takes so many workers out.
fn enlist<'a, J>(
    domain: &'a Domain<J>,
    cpus: &mut Vec<Cpu<J>>,
    many: usize,
) -> Result<Crew<'a, J>, Refusal>
    requires { All (IsIdle domain.now) cpus.old.items }
    ensures idle { All (IsIdle domain.entry.now) cpus.new.items }
    ensures workers { MatchResult result
        (λ crew. AreWorkersOf domain.entry.now crew.0.items × (vec_len crew.0 ≡ many) × (vec_len cpus.new + many ≡ vec_len cpus.old))
        (λ _. cpus.new ≡ cpus.old) }
    ensures refused { IfErr result (λ refusal. IsShort refusal (vec_len cpus.old) many) }
    ensures numbers { IfOk result (λ crew. crew.1.items ≡ range_with_len 0 many) }
    ensures capacity { vec_capacity cpus.new ≡ vec_capacity cpus.old }
{
    if cpus.len() < many {
        return Err(Refusal::NoWorker);
    }
    let alloc = *cpus.allocator();
    let Ok(mut numbers) = Vec::with_capacity(alloc, many) else {
        return Err(Refusal::Memory);
    };
    let Ok(mut workers) = Vec::with_capacity(alloc, many) else {
        return Err(Refusal::Memory);
    };
    for number in 0..many {
        workers.push_reserved(Worker::new(domain, cpus.pop().unwrap()));
        numbers.push_reserved(number);
    }
    Ok((workers, numbers))
}

/// Takes the workers back.
fn disband<'a, J>(domain: &'a Domain<J>, cpus: &mut Vec<Cpu<J>>, mut workers: Vec<Worker<'a, J>>)
    requires idle { All (IsIdle domain.now) cpus.old.items }
    requires workers { AreWorkersOf domain.now workers.items }
    requires room { vec_len cpus.old + vec_len workers ≤ vec_capacity cpus.old }
    ensures idle { All (IsIdle domain.entry.now) cpus.new.items }
    ensures back { vec_len cpus.new ≡ vec_len cpus.old + vec_len workers.entry }
    ensures capacity { vec_capacity cpus.new ≡ vec_capacity cpus.old }
{
    while let Some(worker) = workers.pop() {
        cpus.push_reserved(worker.into_cpu());
    }
    workers.destroy_empty();
}

impl<'a, J: Send> Team<'a, J> {
    /// Runs a crew of so many workers, each on a thread of its own. Calls `work` with each worker and its number, from 0, and
    /// returns what the calls returned, in the order of the numbers, once all have. Where a thread can't be started, its
    /// worker runs on another's thread, after that one. Refused, with no call, where the team has fewer workers
    /// (`NoWorker`) or there is too little memory. All workers are at home again in each case.
    pub fn run<R: Threads + Sync, T: Send, F: Fn(&mut Worker<'_, J>, usize) -> T + Sync>(
        &mut self,
        rt: &R,
        many: usize,
        work: F,
    ) -> Result<Vec<T>, Refusal>
        requires may { MayRun F.Fn work self.old.domain many }
        requires stays { RunStays F.Fn work self.old.domain }
        ensures same { self.new ≡ self.old }
        ensures ran { IfOk result (λ given. AllRan F.Fn work self.old.domain many given.items) }
        ensures refused { IfErr result (λ refusal. IsShort refusal self.old.cpus many) }
    {
        let domain = self.domain;
        let (workers, numbers) = enlist(domain, &mut self.cpus, many)?;
        match at_once(rt, workers, numbers, &work) {
            Ok((workers, given)) => {
                disband(domain, &mut self.cpus, workers);
                Ok(given)
            }
            Err((workers, _)) => {
                disband(domain, &mut self.cpus, workers);
                Err(Refusal::Memory)
            }
        }
    }

    /// As [`Team::run`], while this thread calls `control` with a worker of its own, one more of the team. Returns what that
    /// returned too.
    pub fn run_beside<
        R: Threads + Sync,
        T: Send,
        F: Fn(&mut Worker<'_, J>, usize) -> T + Sync,
        C,
        G: FnOnce(&mut Worker<'_, J>) -> C,
    >(&mut self, rt: &R, many: usize, work: F, control: G) -> Result<(Vec<T>, C), Refusal>
        requires may { MayRun F.Fn work self.old.domain many }
        requires stays { RunStays F.Fn work self.old.domain }
        requires may_control { MayControl G.FnOnce control self.old.domain }
        requires control_stays { ControlStays G.FnOnce control self.old.domain }
        ensures same { self.new ≡ self.old }
        ensures ran { IfOk result (λ came. AllRan F.Fn work self.old.domain many came.0.items) }
        ensures refused { IfErr result (λ refusal. IsShort refusal self.old.cpus (many + 1)) }
        ensures controlled { IfOk result (λ came. IsControlled G.FnOnce control self.old.domain came.1) }
    {
        let domain = self.domain;
        let Some(cpu) = self.cpus.pop() else {
            return Err(Refusal::NoWorker);
        };
        let mut worker = Worker::new(domain, cpu);
        let (workers, numbers) = match enlist(domain, &mut self.cpus, many) {
            Ok(crew) => crew,
            Err(refusal) => {
                self.cpus.push_reserved(worker.into_cpu());
                return Err(refusal);
            }
        };
        let mut control = Some(control);
        let mut own = || -> C
            requires { MayDo G.FnOnce control worker }
            ensures { Does G.FnOnce control.entry worker.entry result worker.exit }
        { do_own(&mut control, &mut worker) };
        match at_once_beside(rt, workers, numbers, &work, &mut own) {
            Ok((back, controlled)) => {
                let (workers, given) = back;
                disband(domain, &mut self.cpus, workers);
                self.cpus.push_reserved(worker.into_cpu());
                Ok((given, controlled))
            }
            Err((workers, _)) => {
                disband(domain, &mut self.cpus, workers);
                self.cpus.push_reserved(worker.into_cpu());
                Err(Refusal::Memory)
            }
        }
    }
}

/// This thread does its part, once.
fn do_own<J, C, G: FnOnce(&mut Worker<'_, J>) -> C>(
    control: &mut Option<G>,
    worker: &mut Worker<'_, J>,
) -> C
    requires { MayDo G.FnOnce control.old worker.old }
    ensures { Does G.FnOnce control.old worker.old result worker.new }
{
    let control = control.take().unwrap();
    control(worker)
}
