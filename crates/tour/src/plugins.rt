//! A table of plug-ins that is changed while a lease of it goes from one thread to another.
ghost use Rattle.std.specs.Prelude.{◌≡◌, Some, IfOk};
ghost use Rattle.srcu.specs.Words.{plug_of, cell_of, HasPlug, IsCellOf};
ghost use Rattle.tour.specs.Leasing.{GetsAndReleases, InstallsAndLooks};

use crate::config::{Old, Sign};
use anyhow::Result;
use srcu::{Exhausted, Lease, Table, TableView, Worker, Writer};
use std::fmt;
use std::thread::{Threads, join};
use std::time::Clock;

/// The key that is read, and whose plug is changed.
const KEY: u32 = 7;

/// Takes a cell for a table, and installs two plug-ins.
pub fn furnish(worker: &mut Worker<'_, Old>, writer: Writer) -> Result<(Table, TableView)>
    requires { writer.domain ≡ worker.old.domain.domain }
    ensures worker { worker.new.domain ≡ worker.old.domain }
    ensures table { IfOk result (λ r. (r.0.writer.domain ≡ worker.old.domain.domain) × (r.1 ≡ cell_of writer)) }
    ensures plug { IfOk result (λ r. plug_of r.0.rows 7 ≡ Some 70) }
{
    let (mut table, view) = Table::new(writer);
    worker.install(&mut table, 3, 30)?; // each change puts the whole table as the next version
    worker.install(&mut table, KEY, 70)?;
    Ok((table, view))
}

/// Takes a lease of the version that is there, reads through it, and tells that it has it.
fn take_lease(
    worker: &mut Worker<'_, Old>,
    view: &TableView,
    taken: &Sign,
) -> Result<(Lease, Option<u32>), Exhausted>
    requires { IsCellOf worker.old.domain view.now }
    ensures domain { IfOk result (λ r. r.0.held.domain ≡ worker.old.domain.domain) }
    ensures cell { IfOk result (λ r. r.0.found.cell ≡ view.now.cell) }
    ensures reads { IfOk result (λ r. HasPlug r.0.found 7 r.1) }
{
    let mut lease = worker.lease(view)?; // a held section, with the version that it found
    let plug = worker.leased(&mut lease, KEY);
    taken.give(); // an updater waits for that
    Ok((lease, plug))
}

/// Installs another plug under the key, and looks it up. Answers the version that was put, and what was found.
fn change(
    worker: &mut Worker<'_, Old>,
    table: &mut Table,
    view: &TableView,
) -> Result<(u64, Option<u32>)>
    requires table { table.old.writer.domain ≡ worker.old.domain.domain }
    requires cell { IsCellOf worker.old.domain view.now }
    ensures { IfOk result (λ r. InstallsAndLooks view.now.cell 7 71 r.0 r.1 table.old worker.old.cpu table.new worker.new.cpu) }
{
    let version = worker.install(table, KEY, 71)?;
    let plug = worker.lookup(view, KEY)?; // a new section finds the new version
    Ok((version, plug))
}

/// Reads through a lease that another thread took, on another processor, and ends it.
fn read_and_release(worker: &mut Worker<'_, Old>, mut lease: Lease) -> Option<u32>
    requires { lease.held.domain ≡ worker.old.domain.domain }
    ensures gets { GetsAndReleases 7 lease result worker.old.cpu worker.new.cpu }
    ensures reads { HasPlug lease.found 7 result }
{
    let plug = worker.leased(&mut lease, KEY); // from the lease's own version, whatever was put since
    worker.release(lease); // taken there, released here: code that leaves a lease is refused

    plug
}

/// What was read of a table that was changed while a lease of it was held.
#[derive(Drop)]
pub struct Leased {
    /// What was looked up before the change.
    looked_up: Option<u32>,
    taken_on: u16,
    /// The version of the lease.
    version: u64,
    /// What the lease answered where it was taken.
    before: Option<u32>,
    /// The version that was put by the change.
    installed: u64,
    /// What was looked up behind the change.
    new: Option<u32>,
    released_on: u16,
    /// What the lease answered behind the change, where it was released.
    behind: Option<u32>,
}

impl fmt::Display for Leased {
    fn fmt<W: fmt::Write>(&self, f: &mut fmt::Formatter<W>) -> fmt::Result {
        writeln!(f, "looked key {KEY} up: {:?}", self.looked_up)?;
        writeln!(
            f,
            "leased version {} on processor {}, and read: {:?}",
            self.version, self.taken_on, self.before
        )?;
        writeln!(
            f,
            "installed version {}, and looked key {KEY} up: {:?}",
            self.installed, self.new
        )?;
        write!(
            f,
            "read through the lease on processor {}, and released it: {:?}",
            self.released_on, self.behind
        )
    }
}

/// Another thread takes a lease, and this one installs another plug meanwhile. Then it has the lease, reads through it on a
/// third processor, and releases it there.
pub fn lend<R: Threads + Clock + Sync>(
    rt: &R,
    taker: &mut Worker<'_, Old>,
    reader: &mut Worker<'_, Old>,
    updater: &mut Worker<'_, Old>,
    table: &mut Table,
    view: &TableView,
) -> Result<Leased>
    requires one { (taker.old.domain ≡ updater.old.domain) × (reader.old.domain ≡ updater.old.domain) }
    requires table { table.old.writer.domain ≡ updater.old.domain.domain }
    requires cell { IsCellOf updater.old.domain view.now }
    ensures { IfOk result (λ l. l.behind ≡ l.before) }
{
    let looked_up = reader.lookup(view, KEY)?; // in a section of its own
    let (taken_on, released_on) = (taker.processor(), reader.processor());
    let taken = Sign::new();
    let (leased, changed) = join(
        rt,
        || take_lease(taker, view, &taken),
        || -> Result<(u64, Option<u32>)>
            requires { (table.now.writer.domain ≡ updater.now.domain.domain) × IsCellOf updater.now.domain view.now }
        {
            taken.wait(rt);
            change(updater, table, view)
        },
    );
    let (lease, before) = leased?;
    let version = lease.version();
    let behind = read_and_release(reader, lease);
    let (installed, new) = changed?;
    Ok(Leased {
        looked_up,
        taken_on,
        version,
        before,
        installed,
        new,
        released_on,
        behind,
    })
}
