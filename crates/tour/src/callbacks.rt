//! An updater that doesn't wait, and a driver, which runs the callbacks of what was replaced.
ghost use Rattle.std.specs.Prelude.{◌≡◌};
ghost use Rattle.srcu.specs.Words.{IsCellOf};

use crate::config::{Archive, Config, Old};
use anyhow::Result;
use srcu::{Shelf, Stop, Values, Worker};
use std::sync::Wait;

/// Replaces the configuration, and leaves to a callback what is to be done with the old one. Where that can't be queued,
/// it waits, and does it itself.
pub fn replace_and_call<R: Wait>(
    rt: &R,
    worker: &mut Worker<'_, Old>,
    shelf: &mut Shelf<Config>,
    archive: &Archive,
    old: Old,
    number: u64,
) -> Result<()>
    requires { shelf.old.domain ≡ worker.old.domain.domain }
    ensures worker { worker.new.domain ≡ worker.old.domain }
    ensures shelf { shelf.new.domain ≡ shelf.old.domain }
{
    worker.replace(shelf, &Config::new(number))?;
    if let Err((old, _)) = worker.call(rt, old) { // call_srcu: the job tells of the old version, and the updater goes on
        worker.synchronize(rt)?; // it could not be queued, so it came back
        archive.file(old);
    }
    Ok(())
}

/// Replaces the configuration with number 4 and then with number 5, and doesn't wait in between. Answers what a section
/// reads in the end.
fn replace_twice<R: Wait>(
    rt: &R,
    worker: &mut Worker<'_, Old>,
    shelf: &mut Shelf<Config>,
    configs: &Values<Config>,
    archive: &Archive,
) -> Result<Config>
    requires shelf { shelf.old.domain ≡ worker.old.domain.domain }
    requires cell { IsCellOf worker.old.domain configs.now }
    ensures { worker.new.domain ≡ worker.old.domain }
{
    let third = Old { number: 3 };
    let fourth = Old { number: 4 };
    replace_and_call(rt, worker, shelf, archive, third, 4)?;
    replace_and_call(rt, worker, shelf, archive, fourth, 5)?;
    Ok(worker.get(configs)?)
}

/// Replaces twice, and tells the driver to stop once the two are filed. It does so too where a call was refused, or the
/// driver would go on.
pub fn replace_and_tell<R: Wait>(
    rt: &R,
    worker: &mut Worker<'_, Old>,
    shelf: &mut Shelf<Config>,
    configs: &Values<Config>,
    archive: &Archive,
    stop: &Stop<Old>,
) -> Result<Config>
    requires stop { stop.now.domain ≡ worker.old.domain }
    requires shelf { shelf.old.domain ≡ worker.old.domain.domain }
    requires cell { IsCellOf worker.old.domain configs.now }
{
    let read = replace_twice(rt, worker, shelf, configs, archive);
    worker.tell(rt, stop);
    read
}

/// The whole of a driver: carries grace periods, and files each version that nobody reads any more, until it is told to
/// stop. Then it files those whose jobs the worker had seen queued that told it. Answers how many it filed.
pub fn work<R: Wait>(
    rt: &R,
    worker: &mut Worker<'_, Old>,
    stop: &Stop<Old>,
    archive: &Archive,
) -> Result<u64>
    requires { stop.now.domain ≡ worker.old.domain }
{
    match worker.serve(rt, stop, |old| archive.file(old)) {
        Ok(stopped) => Ok(stopped.served.jobs),
        Err((_, refusal)) => Err(refusal.into()),
    }
}
