//! The thread that replaces the configuration.
ghost use Rattle.std.specs.Prelude.{◌≡◌};
ghost use Rattle.srcu.specs.Words.{AreBoxesOf};
ghost use Rattle.limiter.specs.Sharing.{AreShared};

use crate::limiting::end_left;
use crate::shared::{Config, Counts, Reader, Shared, Try, Worker, count};
use srcu::{Live, Refusal};
use std::sync::Wait;
use std::time::{Clock, Duration};

/// How often the configuration is replaced.
const CHANGES: u64 = 50;

/// Puts the configuration of this number, and counts an older one that came back.
fn put<R: Wait + AllocGlobal>(
    rt: &R,
    worker: &mut Worker<'_>,
    number: u64,
    shared: &Shared,
) -> Try<()>
    requires { AreShared worker.old.domain shared.now }
    ensures { worker.new.domain ≡ worker.old.domain }
{
    let config = Config::new(rt.alloc(), number)?;
    let updated = shared.config.replace(rt, worker, config)?; // rcu_assign_pointer
    if updated.older.is_some() {
        count(&shared.counts.back);
    }
    Ok(())
}

/// Waits for a grace period, a millisecond at most. Where a section holds it up, ends the one that was left.
fn wait<R: Wait + Clock + AllocGlobal>(
    rt: &R,
    worker: &mut Worker<'_>,
    reader: &Reader,
    shared: &Shared,
) -> Try<()>
    requires { AreShared worker.old.domain shared.now × (reader.now ≡ shared.now.config.boxes) }
    ensures { worker.new.domain ≡ worker.old.domain }
{
    let limit = Duration::from_millis(1);
    let waited = worker.synchronize_for(rt, limit).map_err(Refusal::from);
    if waited != Err(Refusal::TimedOut) {
        return waited;
    }
    let (_, holders) = worker.who_holds(rt.alloc())?;
    if !holders.is_empty() {
        end_left(worker, reader, shared);
    }
    Ok(())
}

/// Replaces the configuration while the limiters work. Leaves the number of each that was replaced to the driver.
pub fn control<R: Wait + Clock + AllocGlobal>(
    rt: &R,
    worker: &mut Worker<'_>,
    shared: &Shared,
) -> Try<()>
    requires { AreShared worker.old.domain shared.now }
    ensures { worker.new.domain ≡ worker.old.domain }
{
    let reader = shared.config.reader(rt, &*worker)?;
    for old in 0..CHANGES {
        put(rt, worker, old + 1, shared)?;
        wait(rt, worker, &reader, shared)?;
        worker.call(rt, old)?; // call_srcu
    }
    Ok(())
}

/// Has all boxes back, and files what the driver has left. No section is open any more.
pub fn settle<R: Wait>(
    rt: &R,
    worker: &mut Worker<'_>,
    config: Live<Config>,
    counts: &Counts,
) -> Try<()>
    requires { AreBoxesOf worker.old.domain config.boxes }
    ensures { worker.new.domain ≡ worker.old.domain }
{
    let mut writer = config.into_writer(rt);
    for _ in rt.forever() {
        match worker.empty(rt, &mut writer)? {
            Some(_) => count(&counts.back),
            None => break,
        }
    }
    let ticket = worker.barrier_start()?; // srcu_barrier
    worker.serve_until(rt, &ticket, |old: u64| counts.file(old))?;
    Ok(())
}
