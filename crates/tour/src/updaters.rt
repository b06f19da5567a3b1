//! Those who replace the configuration, one after the other, each with a worker of its own.
ghost use Rattle.std.specs.Prelude.{◌≡◌, IfOk};
ghost use Rattle.srcu.specs.Words.{IsCellOf, IsKnownIn};
ghost use Rattle.tour.specs.Parts.{ReplacesAndWaits, text_of};

use crate::config::{Archive, Config, Old};
use anyhow::Result;
use srcu::{AdvanceRefusal, Cookie, HeldPin, Shelf, Values, Worker};
use std::sync::Wait;

/// Replaces the configuration, waits until nobody reads the old one, and files that.
pub fn replace<R: Wait>(
    rt: &R,
    worker: &mut Worker<'_, Old>,
    shelf: &mut Shelf<Config>,
    archive: &Archive,
    old: Old,
    number: u64,
) -> Result<()>
    requires { shelf.old.domain ≡ worker.old.domain.domain }
    ensures { IfOk result (λ _. ReplacesAndWaits (text_of number) shelf.old worker.old.cpu shelf.new worker.new.cpu) }
{
    worker.replace(shelf, &Config::new(number))?; // rcu_assign_pointer
    worker.synchronize(rt)?; // synchronize_srcu: each section that was open before is closed
    archive.file(old); // so nobody reads it any more

    Ok(())
}

/// What an updater found that doesn't wait.
#[derive(Drop)]
pub struct Polled {
    /// What a reader's version held, just before its section was closed.
    pub read: Config,
    /// Whether the first poll said that nobody reads it.
    pub early: bool,
    /// Whether the last one did, behind all others.
    pub late: bool,
    /// What a section reads in the end.
    pub new: Config,
}

/// Polls until the cookie is done, and drives the period on. Answers what one more poll says then.
fn poll_on<R: Wait>(rt: &R, worker: &mut Worker<'_, Old>, cookie: &mut Cookie) -> Result<bool>
    requires { IsKnownIn worker.old.domain.domain cookie.old }
    ensures { worker.new.domain ≡ worker.old.domain }
{
    for _ in rt.forever() {
        if worker.poll(cookie) {
            break;
        }
        match worker.drive() {
            Ok(_) | Err(AdvanceRefusal::Busy) => {} // there is no kthread: any thread drives the period on
            Err(exhausted) => return Err(exhausted.into()),
        }
    }

    Ok(worker.poll(cookie)) // true: the period is over, and nobody reads what was there before
}

/// Replaces the configuration while somebody reads it in a section that another thread opened. Closes that section, and
/// polls until nobody reads the old one.
pub fn replace_and_poll<R: Wait>(
    rt: &R,
    worker: &mut Worker<'_, Old>,
    shelf: &mut Shelf<Config>,
    configs: &Values<Config>,
    number: u64,
    mut version: HeldPin,
) -> Result<Polled>
    requires shelf { shelf.old.domain ≡ worker.old.domain.domain }
    requires held { version.section.domain ≡ worker.old.domain.domain }
    requires found { version.found.cell ≡ configs.now.cell }
    requires cell { IsCellOf worker.old.domain configs.now }
{
    let replaced = worker.replace(shelf, &Config::new(number));
    let mut cookie = worker.start_poll(); // start_poll_synchronize_srcu: asks for a period, and goes on
    let early = worker.poll(&mut cookie); // poll_state_synchronize_srcu: false, as the section is open
    let read = worker.load_held(configs, &mut version);
    worker.up_read(version.into_held()); // srcu_up_read: opened there, closed here

    let late = poll_on(rt, worker, &mut cookie)?;
    replaced?;
    let new = worker.get(configs)?;
    Ok(Polled {
        read,
        early,
        late,
        new,
    })
}
