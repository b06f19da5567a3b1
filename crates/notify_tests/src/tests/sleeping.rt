//! A handler that sleeps while the chain is changed.
ghost use Rattle.std.specs.Prelude.{◌≡◌, IfOk};
ghost use Rattle.domain.specs.Views.{IsOf};
ghost use Rattle.shelf.specs.Cells.{IsCellIn};

use domain::{Cpu, Domain, MakeError, Progress};
use fixtures::two;
use notify::{BAD, Chain, ChainView, DONE, Handler, OK, STOP};
use std::alloc::{AllocError, Global};
use std::sync::Arc;
use std::sync::atomic::AtomicU64;
use std::sync::atomic::Ordering::SeqCst;
use std::test::Fail;
use std::thread::{Threads, join, sleep};
use std::time::{Clock, Duration};

/// How often a thread looks for what another one does, with a sleep of a millisecond behind each look.
const LOOKS: u32 = 10_000;

/// What two threads tell each other.
#[derive(Drop)]
struct Signals {
    /// How often the handler that sleeps was called.
    inside: AtomicU64,
    /// How often the chain was changed since.
    changes: AtomicU64,
}

/// Waits until the count is as large, for some seconds. Tells whether it came to be.
fn wait_for<R: Clock>(rt: &R, count: &AtomicU64, least: u64) -> bool {
    for _ in 0..LOOKS {
        if count.load(SeqCst) >= least {
            return true;
        }
        sleep(rt, Duration::from_millis(1));
    }
    false
}

/// Gives its result. Where it has none, it sleeps until the chain was changed twice.
#[derive(Drop)]
struct Sleeper<R> {
    rt: R,
    signals: Arc<Signals>,
    result: Option<u32>,
}

impl<R: Clock + Drop> Handler for Sleeper<R> {
    ghost answers = { λ h action value result. Unit {0} };

    fn call(&self, _action: u64, _value: u64) -> u32 {
        if let Some(result) = self.result {
            return result;
        }
        self.signals.inside.fetch_add(1, SeqCst);
        if wait_for(&self.rt, &self.signals.changes, 2) {
            OK
        } else {
            BAD
        }
    }
}

/// Calls the chain with a handler that sleeps, one that gives 7, and one that stops the call.
fn call_with_sleeper(
    rt: HostRuntime,
    cpu: &mut Cpu<()>,
    view: &ChainView,
    signals: &Arc<Signals>,
) -> Result<Option<(u32, u64)>, AllocError>
    requires { IsCellIn cpu.old.cpu.domain view.now.place × (view.now.ids ≡ 4) }
{
    let results = [Some(DONE), None, Some(7), Some(STOP)];
    let mut handlers: Vec<Box<dyn Handler>> = Vec::new(rt.alloc());
    for result in &results {
        let sleeper = Sleeper {
            rt,
            signals: Arc::try_clone(signals)?,
            result: *result,
        };
        handlers.push(Box::new(rt.alloc(), sleeper)?)?;
    }
    Ok(view.call_chain(cpu, &handlers, 1, 2).ok())
}

/// The same, in a thread of its own.
fn call_asleep(
    rt: HostRuntime,
    mut cpu: Cpu<()>,
    view: ChainView,
    signals: Arc<Signals>,
) -> Result<Option<(u32, u64)>, AllocError>
    requires { IsCellIn cpu.cpu.domain view.place × (view.ids ≡ 4) }
{
    call_with_sleeper(rt, &mut cpu, &view, &signals)
}

/// Whether a grace period that is asked for now waits for an open section, after some turns of the engine.
fn is_held_up(domain: &Domain<()>, cpu: &mut Cpu<()>) -> bool
    requires { IsOf domain.now cpu.old }
    ensures { IsOf domain.now cpu.new }
{
    let mut cookie = domain.start_poll(cpu);
    let mut waits = false;
    for _ in 0..8 {
        waits = matches!(domain.advance(cpu), Ok(Progress::Waiting(_)));
    }
    let ended = cpu.poll(&mut cookie);
    waits && !ended
}

/// Changes the chain twice while a handler sleeps. Tells whether one did, whether each change was made, and whether a
/// grace period waited for the call then.
fn change_twice<R: Clock>(
    rt: &R,
    domain: &Domain<()>,
    mut cpu: Cpu<()>,
    mut chain: Chain,
    signals: &Signals,
) -> [bool; 4]
    requires cpu { IsOf domain.now cpu }
    requires chain { (chain.writer.domain ≡ domain.now.domain) × (chain.ids ≡ 4) }
{
    let asleep = wait_for(rt, &signals.inside, 1);
    let gone = chain.unregister(domain, &mut cpu, 2).is_ok();
    let held_up = is_held_up(domain, &mut cpu);
    signals.changes.fetch_add(1, SeqCst);
    let came = chain.register(domain, &mut cpu, 3, 9).is_ok();
    signals.changes.fetch_add(1, SeqCst);
    [asleep, gone, came, held_up]
}

/// A domain of two processors, and a chain in it.
fn two_cpus(alloc: Global) -> Result<(Domain<()>, Cpu<()>, Cpu<()>, Chain, ChainView), MakeError>
    ensures cpus { IfOk result (λ r. IsOf r.0 r.1 × IsOf r.0 r.2) }
    ensures chain { IfOk result (λ r. (r.3.writer.domain ≡ r.0.domain) × (r.3.ids ≡ 4)) }
    ensures view { IfOk result (λ r. IsCellIn r.1.cpu.domain r.4.place × (r.4.ids ≡ 4)) }
{
    let (domain, first, second, writer) = two(alloc, 8)?;
    let (chain, view) = Chain::new(writer, 4);
    Ok((domain, first, second, chain, view))
}

/// Registers a block of the handler that sleeps, and one behind it. Tells whether both were.
fn begin(domain: &Domain<()>, cpu: &mut Cpu<()>, chain: &mut Chain) -> [bool; 2]
    requires cpu { IsOf domain.now cpu.old }
    requires chain { (chain.old.writer.domain ≡ domain.now.domain) × (chain.old.ids ≡ 4) }
    ensures cpu { IsOf domain.now cpu.new }
    ensures chain { (chain.new.writer.domain ≡ domain.now.domain) × (chain.new.ids ≡ 4) }
{
    let first = chain.register(domain, cpu, 1, 5).is_ok();
    let second = chain.register(domain, cpu, 2, 1).is_ok();
    [first, second]
}

/// One thread calls the chain while another changes it.
fn call_beside<R: Threads>(
    rt: &R,
    clock: HostRuntime,
    domain: &Domain<()>,
    caller: Cpu<()>,
    changer: Cpu<()>,
    chain: Chain,
    view: ChainView,
    signals: (Arc<Signals>, Arc<Signals>),
) -> (Result<Option<(u32, u64)>, AllocError>, [bool; 4])
    requires view { IsCellIn caller.cpu.domain view.place × (view.ids ≡ 4) }
    requires changer { IsOf domain.now changer }
    requires chain { (chain.writer.domain ≡ domain.now.domain) × (chain.ids ≡ 4) }
{
    let (theirs, ours) = signals;
    join(
        rt,
        ||
            requires { IsCellIn caller.cpu.domain view.place × (view.ids ≡ 4) }
        { call_asleep(clock, caller, view, theirs) },
        ||
            requires cpu { IsOf domain.now changer }
            requires chain { (chain.writer.domain ≡ domain.now.domain) × (chain.ids ≡ 4) }
        { change_twice(&clock, domain, changer, chain, &ours) },
    )
}

/// The signals, for two threads.
fn two_signals(alloc: Global) -> Result<(Arc<Signals>, Arc<Signals>), AllocError> {
    let signals = Arc::new(
        alloc,
        Signals {
            inside: AtomicU64::new(0),
            changes: AtomicU64::new(0),
        },
    )?;
    Ok((Arc::try_clone(&signals)?, signals))
}

/// What a call answers that sleeps while the chain is changed twice, and what the one that changes it was told.
fn run_asleep<R: Threads>(
    rt: &R,
    host: HostRuntime,
    signals: (Arc<Signals>, Arc<Signals>),
) -> Result<([bool; 2], Result<Option<(u32, u64)>, AllocError>, [bool; 4]), MakeError> {
    let (domain, caller, mut changer, mut chain, view) = two_cpus(host.alloc())?;
    let begun = begin(&domain, &mut changer, &mut chain);
    let (answer, changed) = call_beside(rt, host, &domain, caller, changer, chain, view, signals);
    Ok((begun, answer, changed))
}

/// Would catch a call that looks at the chain again behind each handler: the one that was unregistered while it slept is
/// called, and the one that was registered is not. Or one that calls handlers behind the end of its section: then the
/// grace period does not wait.
#[test]
fn asleep(rt: HostRuntime) -> Result<(), Fail> {
    let signals = two_signals(rt.alloc())?;
    let (begun, answer, changed) = run_asleep(&rt, rt, signals)?;
    assert_eq!(rt; (begun, changed), ([true; 2], [true; 4]));
    assert_eq!(rt; answer?, Some((7, 2)));
    Ok(())
}
