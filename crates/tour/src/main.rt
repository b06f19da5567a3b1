//! A tour of the library. Threads read a configuration in sections of a domain, while others replace it.
#![tactic(auto)]

ghost use Rattle.std.specs.Prelude.{◌≡◌, IfOk, IfSome};
ghost use Rattle.std.specs.Thread.{IsSync};
ghost use Rattle.srcu.specs.Words.{IsCellIn, IsCellOf, cell_of, IsWriterOf};

mod callbacks;
mod config;
mod plugins;
mod readers;
mod updaters;

use anyhow::{Error, Result, anyhow};
use callbacks::{replace_and_tell, work};
use config::{Archive, Config, Old, Sign};
use plugins::{Leased, furnish, lend};
use readers::{Slept, open, read_and_sleep, read_quickly};
use srcu::{Cpu, Domain, Limits, Shelf, Stop, Team, Values, Worker, Writer, make};
use std::fmt;
use std::sync::Wait;
use std::thread::{Threads, join};
use std::time::Clock;
use updaters::{Polled, replace, replace_and_poll};

/// In how many sections a reader only reads.
const READS: u32 = 1_000;

const LIMITS: Limits = Limits {
    sections: Limits::MOST_SECTIONS,
    periods: Limits::MOST_PERIODS,
    cells: 1, // what is replaced lies there
    slots: 4,
};

/// Fewer processors or cells were made than are asked for.
fn missing() -> Error {
    anyhow!("too few processors or cells")
}

/// Two workers of a domain. A worker is a value: whichever thread owns it works with it.
fn pair<'a>(team: &mut Team<'a, Old>) -> Option<(Worker<'a, Old>, Worker<'a, Old>)>
    ensures { IfSome result (λ r. (r.0.domain ≡ team.old.domain) × (r.1.domain ≡ team.old.domain)) }
{
    let second = team.worker()?;
    let first = team.worker()?;
    Some((first, second))
}

/// Three workers of a domain, and the writer of its cell.
fn crew<'a>(
    team: &mut Team<'a, Old>,
) -> Option<(Worker<'a, Old>, Worker<'a, Old>, Worker<'a, Old>, Writer)>
    ensures { IfSome result (λ r. (r.0.domain ≡ team.old.domain) × (r.1.domain ≡ team.old.domain) × (r.2.domain ≡ team.old.domain) × IsWriterOf team.old.domain r.3) }
{
    let writer = team.writer()?;
    let third = team.worker()?;
    let (first, second) = pair(team)?;
    Some((first, second, third, writer))
}

/// Takes a cell for the configuration, and puts the first one there.
fn shelve(
    worker: &mut Worker<'_, Old>,
    writer: Writer,
    number: u64,
) -> Result<(Shelf<Config>, Values<Config>)>
    requires { writer.domain ≡ worker.old.domain.domain }
    ensures worker { worker.new.domain ≡ worker.old.domain }
    ensures cell { IfOk result (λ r. (r.0.domain ≡ worker.old.domain.domain) × (r.1 ≡ cell_of writer)) }
{
    let (mut shelf, configs) = Shelf::new(writer);
    worker.replace(&mut shelf, &Config::new(number))?;
    Ok((shelf, configs))
}

/// Three workers, of which the third has put the first configuration.
fn staff<'a>(
    team: &mut Team<'a, Old>,
    number: u64,
) -> Result<
    (
        Worker<'a, Old>,
        Worker<'a, Old>,
        Worker<'a, Old>,
        Shelf<Config>,
        Values<Config>,
    ),
>
    ensures workers { IfOk result (λ r. (r.0.domain ≡ team.old.domain) × (r.1.domain ≡ team.old.domain) × (r.2.domain ≡ team.old.domain)) }
    ensures cell { IfOk result (λ r. (r.3.domain ≡ team.old.domain.domain) × IsCellOf team.old.domain r.4) }
{
    let writer = team.writer().ok_or(missing())?;
    let mut third = team.worker().ok_or(missing())?;
    let (shelf, configs) = shelve(&mut third, writer, number)?;
    let (first, second) = pair(team).ok_or(missing())?;
    Ok((first, second, third, shelf, configs))
}

/// A reader sleeps in a section, while an updater replaces what it has found there, and waits.
fn wait<R: Threads + Wait + Clock + Sync>(
    rt: &R,
    reader: Cpu<Old>,
    updater: &mut Worker<'_, Old>,
    shelf: &mut Shelf<Config>,
    configs: &Values<Config>,
    archive: &Archive,
) -> Result<Slept>
    requires reader { IsCellIn reader.cpu.domain configs.now }
    requires updater { shelf.old.domain ≡ updater.old.domain.domain }
{
    let sign = Sign::new();
    let old = Old { number: 1 };
    let (slept, replaced) = join(
        rt,
        || read_and_sleep(rt, reader, configs, &sign, archive),
        || -> Result<()>
            requires { shelf.now.domain ≡ updater.now.domain.domain }
        {
            sign.wait(rt);
            replace(rt, updater, shelf, archive, old, 2)
        },
    );
    replaced?;
    slept
}

/// A section that was opened by one thread and closed by another.
#[derive(Drop)]
struct Handed {
    opened_on: u16,
    closed_on: u16,
    /// The number of the version that was found in the beginning.
    version: u64,
    /// What the updater found.
    polled: Polled,
    /// Whether another reader found a whole one in each of its sections.
    found: bool,
}

impl fmt::Display for Handed {
    fn fmt<W: fmt::Write>(&self, f: &mut fmt::Formatter<W>) -> fmt::Result {
        let Polled {
            early,
            late,
            read,
            new,
        } = &self.polled;
        writeln!(
            f,
            "read in {READS} sections, and found a whole configuration in each: {}",
            self.found
        )?;
        writeln!(
            f,
            "opened on processor {}, and found version {}",
            self.opened_on, self.version
        )?;
        writeln!(f, "polled while it was open: {early}")?;
        writeln!(
            f,
            "closed on processor {}, and read configuration {} just before",
            self.closed_on, read.number
        )?;
        writeln!(f, "polled in the end: {late}")?;
        write!(f, "configuration {} is there", new.number)
    }
}

/// A thread opens a section, while another reads. Behind that, an updater replaces the configuration, closes the section
/// on its own processor, and polls.
fn hand_over<R: Threads + Wait + Sync>(
    rt: &R,
    opener: &mut Worker<'_, Old>,
    reader: &mut Worker<'_, Old>,
    updater: &mut Worker<'_, Old>,
    shelf: &mut Shelf<Config>,
    configs: &Values<Config>,
) -> Result<Handed>
    requires one { (opener.old.domain ≡ updater.old.domain) × (reader.old.domain ≡ updater.old.domain) }
    requires shelf { shelf.old.domain ≡ updater.old.domain.domain }
    requires cell { IsCellOf updater.old.domain configs.now }
{
    let (opened, found) = join(
        rt,
        || open(opener, configs),
        || read_quickly(reader, configs, READS),
    );
    let version = opened?;
    let number = version.version();
    let (opened_on, closed_on) = (version.section().processor(), updater.processor());
    let polled = replace_and_poll(rt, updater, shelf, configs, 3, version)?;
    Ok(Handed {
        opened_on,
        closed_on,
        version: number,
        polled,
        found: found?,
    })
}

/// An updater that doesn't wait, and a driver beside it, which is told to stop after that. Answers how many callbacks ran,
/// and what is read in the end.
fn replace_and_work<R: Threads + Wait + Clock + Sync>(
    rt: &R,
    updater: &mut Worker<'_, Old>,
    driver: &mut Worker<'_, Old>,
    shelf: &mut Shelf<Config>,
    configs: &Values<Config>,
    archive: &Archive,
    sign: &Sign,
    stop: &Stop<Old>,
) -> Result<(u64, Config)>
    requires stop { (stop.now.domain ≡ updater.old.domain) × (stop.now.domain ≡ driver.old.domain) }
    requires shelf { shelf.old.domain ≡ updater.old.domain.domain }
    requires cell { IsCellOf updater.old.domain configs.now }
{
    let (ran, read) = join(
        rt,
        || work(rt, driver, stop, archive),
        || -> Result<Config>
            requires { (stop.now.domain ≡ updater.now.domain) × (shelf.now.domain ≡ updater.now.domain.domain) × IsCellOf updater.now.domain configs.now }
        {
            sign.wait(rt);
            replace_and_tell(rt, updater, shelf, configs, archive, stop)
        },
    );
    Ok((ran?, read?))
}

/// A reader sleeps in a section, while an updater replaces the configuration twice and doesn't wait: callbacks run once
/// nobody reads what it replaced. Answers how many ran, and what was read in the end.
fn call_back<R: Threads + Wait + Clock + Sync>(
    rt: &R,
    reader: Cpu<Old>,
    updater: &mut Worker<'_, Old>,
    driver: &mut Worker<'_, Old>,
    shelf: &mut Shelf<Config>,
    configs: &Values<Config>,
    archive: &Archive,
    stop: &Stop<Old>,
) -> Result<(Slept, u64, Config)>
    requires reader { IsCellIn reader.cpu.domain configs.now }
    requires stop { (stop.now.domain ≡ updater.old.domain) × (stop.now.domain ≡ driver.old.domain) }
    requires shelf { shelf.old.domain ≡ updater.old.domain.domain }
    requires cell { IsCellOf updater.old.domain configs.now }
{
    let sign = Sign::new();
    let (slept, worked) = join(
        rt,
        || read_and_sleep(rt, reader, configs, &sign, archive),
        || -> Result<(u64, Config)>
            requires { IsSync R.row × (stop.now.domain ≡ updater.now.domain) × (stop.now.domain ≡ driver.now.domain) × (shelf.now.domain ≡ updater.now.domain.domain) × IsCellOf updater.now.domain configs.now }
        { replace_and_work(rt, updater, driver, shelf, configs, archive, &sign, stop) },
    );
    let (ran, read) = worked?;
    Ok((slept?, ran, read))
}

/// Prints what a reader found that slept, and what is there in the end, which is the same each time.
fn print_slept<R: Print + AllocGlobal>(
    rt: &R,
    slept: &Slept,
    read: Config,
    archive: &Archive,
) -> Result<()> {
    let (count, last) = archive.told();
    println!(rt; "{slept}")?;
    println!(rt;
        "configuration {} is there, {count} filed, the last one of them number {last}",
        read.number
    )?;
    Ok(())
}

// What owns a domain works with nothing itself: a statement costs the prover a walk over all that is still to be dropped.

/// A reader sleeps while an updater waits. Answers what the reader found.
fn wait_with<R: Threads + Wait + Clock + Sync>(
    rt: &R,
    team: &mut Team<'_, Old>,
    archive: &Archive,
) -> Result<Slept> {
    let (reader, _, mut updater, mut shelf, configs) = staff(team, 1)?;
    wait(
        rt,
        reader.into_cpu(),
        &mut updater,
        &mut shelf,
        &configs,
        archive,
    )
}

/// The same in a domain of its own.
fn wait_apart<R: Threads + Wait + Clock + AllocGlobal + Sync>(
    rt: &R,
    archive: &Archive,
) -> Result<Slept> {
    let (domain, cpus, writers) = make(rt.alloc(), 3, LIMITS)?; // init_srcu_struct

    let mut team = Team::new(&domain, cpus, writers);
    wait_with(rt, &mut team, archive)
}

/// Prints what `wait_apart` answers.
fn show_wait<R: Threads + Wait + Clock + Print + AllocGlobal + Sync>(rt: &R) -> Result<()> {
    let archive = Archive::new();
    let slept = wait_apart(rt, &archive)?;
    print_slept(rt, &slept, slept.another, &archive)
}

/// A section goes from a thread to another.
fn hand_over_with<R: Threads + Wait + Sync>(rt: &R, team: &mut Team<'_, Old>) -> Result<Handed> {
    let (mut opener, mut reader, mut updater, mut shelf, configs) = staff(team, 2)?;
    hand_over(
        rt,
        &mut opener,
        &mut reader,
        &mut updater,
        &mut shelf,
        &configs,
    )
}

/// The same in a domain of its own.
fn hand_over_apart<R: Threads + Wait + AllocGlobal + Sync>(rt: &R) -> Result<Handed> {
    let (domain, cpus, writers) = make(rt.alloc(), 3, LIMITS)?;
    let mut team = Team::new(&domain, cpus, writers);
    hand_over_with(rt, &mut team)
}

/// Prints what `hand_over_apart` answers.
fn show_handed<R: Threads + Wait + Print + AllocGlobal + Sync>(rt: &R) -> Result<()> {
    let handed = hand_over_apart(rt)?;
    println!(rt; "{handed}")?;
    Ok(())
}

/// Callbacks run behind what an updater replaced. Answers what the reader found, how many ran, and what was read in the end.
fn call_back_with<R: Threads + Wait + Clock + AllocGlobal + Sync>(
    rt: &R,
    domain: &Domain<Old>,
    team: &mut Team<'_, Old>,
    archive: &Archive,
) -> Result<(Slept, u64, Config)>
    requires { domain.now ≡ team.old.domain }
{
    let stop = Stop::new(rt.alloc(), domain)?;
    let (reader, mut driver, mut updater, mut shelf, configs) = staff(team, 3)?;
    call_back(
        rt,
        reader.into_cpu(),
        &mut updater,
        &mut driver,
        &mut shelf,
        &configs,
        archive,
        &stop,
    )
}

/// The same in a domain of its own.
fn call_back_apart<R: Threads + Wait + Clock + AllocGlobal + Sync>(
    rt: &R,
    archive: &Archive,
) -> Result<(Slept, u64, Config)> {
    let (domain, cpus, writers) = make(rt.alloc(), 3, LIMITS)?;
    let mut team = Team::new(&domain, cpus, writers);
    call_back_with(rt, &domain, &mut team, archive)
}

/// Prints what `call_back_apart` answers.
fn show_filed<R: Threads + Wait + Clock + Print + AllocGlobal + Sync>(rt: &R) -> Result<()> {
    let archive = Archive::new();
    let (slept, ran, read) = call_back_apart(rt, &archive)?;
    println!(rt; "callbacks that ran: {ran}")?;
    print_slept(rt, &slept, read, &archive)
}

/// A lease of a table goes from a thread to another.
fn lend_with<R: Threads + Clock + Sync>(rt: &R, team: &mut Team<'_, Old>) -> Result<Leased> {
    let (mut taker, mut reader, mut updater, writer) = crew(team).ok_or(missing())?;
    let (mut table, view) = furnish(&mut updater, writer)?;
    lend(rt, &mut taker, &mut reader, &mut updater, &mut table, &view)
}

/// The same in a domain of its own.
fn lend_apart<R: Threads + Clock + AllocGlobal + Sync>(rt: &R) -> Result<Leased> {
    let (domain, cpus, writers) = make(rt.alloc(), 3, LIMITS)?;
    let mut team = Team::new(&domain, cpus, writers);
    lend_with(rt, &mut team)
}

/// Prints what `lend_apart` answers.
fn show_leased<R: Threads + Clock + Print + AllocGlobal + Sync>(rt: &R) -> Result<()> {
    let leased = lend_apart(rt)?;
    println!(rt; "{leased}")?;
    Ok(())
}

/// The threads' workers go with them, and are gone when they end.
fn tour<R: Threads + Wait + Clock + Print + AllocGlobal + Sync>(rt: &R) -> Result<()> {
    show_wait(rt)?;
    show_handed(rt)?;
    show_filed(rt)?;
    show_leased(rt)
}

fn main(rt: HostRuntime) -> Result<()> {
    tour(&rt)
}
