//! A driver that has nothing to do.
ghost use Rattle.std.specs.Prelude.{◌≡◌};
ghost use Rattle.std.specs.Thread.{IsSync};

use crate::found;
use crate::miss::Miss;
use crate::serving::serve_on;
use anyhow::Result;
use domain::Domain;
use driver::{Pool, Stop};
use std::sync::Wait;
use std::thread::{Threads, join, sleep};
use std::time::{Clock, Duration};

/// Serves the domain in another thread, and tells it to stop after this time. Answers how many jobs the driver ran.
fn idle_beside<R: Threads + Sync + Wait + Clock>(
    rt: &R,
    domain: &Domain<u64>,
    pool: &Pool<u64>,
    stop: &Stop<u64>,
    length: Duration,
) -> Result<u64, Miss>
    requires pool { pool.now.domain ≡ domain.now }
    requires stop { stop.now.domain ≡ domain.now }
{
    let (served, ()) = join(
        rt,
        || serve_on(rt, domain, pool, stop, |_job: u64| {}),
        ||
            requires { IsSync R.row × (stop.now.domain ≡ domain.now) }
        {
            sleep(rt, length);
            stop.give_alone(rt, domain);
        },
    );
    served
}

/// Has a driver of a new domain, where nothing is asked for, serve for so long.
pub fn run<R: Threads + Sync + Wait + Clock + AllocGlobal>(
    rt: &R,
    length: Duration,
) -> Result<u64> {
    let (domain, _, cpus) = found(rt.alloc(), 1)?;
    let Ok(mut pool) = Pool::new(rt.alloc(), &domain) else {
        return Err(Miss::Memory.into());
    };
    let _ = pool.fill(rt, cpus); // none is out of a new pool
    let Ok(stop) = Stop::new(rt.alloc(), &domain) else {
        return Err(Miss::Memory.into());
    };
    Ok(idle_beside(rt, &domain, &pool, &stop, length)?)
}
