ghost use Rattle.std.specs.Prelude.{◌≡◌};
ghost use Rattle.soak.specs.Workers.{IsAtWork};
ghost use Rattle.driver.specs.Pools.{IsIdle};
ghost use Rattle.soak.specs.Starts.{AreIdle};
ghost use Rattle.soak.specs.Updaters.{IsUpdating};

use crate::boxing::{put_table, read_table};
use crate::command_line::length_of;
use crate::counts::{Counts, count};
use crate::devices::{Device, use_device};
use crate::driving::{Cpus, Driver, drive};
use crate::outcome::Outcome;
use crate::run::{Start, end, prepare, run, take_apart};
use crate::signs::Signs;
use crate::tables::{Lives, Table};
use crate::updating::{Deadline, Updater};
use crate::worker::{
    Job, Length, Post, Worker, check_done, hand_on, meet, queue, read, wait_for_jobs,
    wait_for_period,
};
use anyhow::Result;
use domain::{Cpu, Domain, InUse, Totals};
use driver::Stop;
use std::alloc::Global;
use std::process::{Abort, ExitCode};
use std::sync::atomic::Ordering::SeqCst;
use std::sync::{Arc, Wait};
use std::test::Fail;
use std::time::{Clock, Instant};

/// What seven workers did that opened and closed two sections, and queued a job that was run.
fn some_counts() -> Counts {
    Counts {
        met: 7,
        opened: 2,
        closed: 2,
        queued: 1,
        run: 1,
        ..Counts::default()
    }
}

/// What a domain tells in which just that was done.
fn some_totals() -> Totals {
    Totals {
        opened: 2,
        closed: 2,
        queued: 1,
        finished: 1,
        periods: 3,
    }
}

/// Would catch workers that are not all at it at once, a section that is lost or closed twice on its way to another
/// thread, a job that is lost, doubled or out of its order, a wait that is too short or never ends, a device that is lost or
/// still used when it is back, and totals that are not what was done.
#[test]
fn nine_threads_make_rounds(rt: HostRuntime) -> Result<(), Fail> {
    for (rounds, opened, queued, waited, barriers) in [(48, 1344, 336, 21, 28), (0, 0, 0, 0, 7)] {
        let Outcome { counts, totals } = run(&rt, Length::Rounds(rounds))?;
        let Ok(totals) = totals else {
            panic!(rt; "nothing is in use any more");
        };
        assert_eq!(rt; counts.met, 7);
        assert_eq!(rt; (counts.opened, counts.closed), (opened, opened));
        assert_eq!(rt; (totals.opened, totals.closed), (opened, opened));
        assert_eq!(rt; (counts.queued, counts.run), (queued, queued));
        assert_eq!(rt;
            (totals.queued, totals.finished),
            (u128::from(queued), u128::from(queued))
        );
        assert_eq!(rt;
            (counts.polled, counts.waited, counts.barriers),
            (queued, waited, barriers)
        );
        assert_eq!(rt; (counts.left, counts.again, counts.refused), (0, 0, 0));
        assert_eq!(rt; (counts.misplaced, counts.early), (0, 0));
        assert_eq!(rt; (counts.stale, counts.torn, counts.lost), (0, 0, 0));
        assert_eq!(rt;
            (counts.devices, counts.used),
            (counts.back, counts.counted)
        );
    }
    Ok(())
}

/// Puts a version of several pieces, and says that it is too old.
fn put_torn(domain: &Domain<Job>, updater: &mut Updater, signs: &Signs)
    requires { IsUpdating domain.now updater.old }
    ensures { IsUpdating domain.now updater.new }
{
    let Some(mut slot) = updater.writer.blank() else {
        return;
    };
    updater.writer.set(&mut updater.cpu, &mut slot, 0, 7);
    domain.put_and_ask(&mut updater.cpu, &mut updater.writer, slot);
    signs.set_age(updater.writer.version(), 2);
}

/// Puts a table, and then an older one of several pieces. A worker finds each.
fn read_torn_table(alloc: Global, domain: &Domain<Job>, worker: &mut Worker, updater: &mut Updater)
    requires worker { IsAtWork domain.now worker.old }
    requires updater { IsUpdating domain.now updater.old }
    ensures worker { IsAtWork domain.now worker.new }
    ensures updater { IsUpdating domain.now updater.new }
{
    put_table(alloc, domain, updater);
    read_table(domain, worker);
    let Ok(mut torn) = Table::new(alloc, 7, &updater.lives) else {
        return;
    };
    torn.number = 0;
    drop(updater.boxes.replace(domain, &mut updater.cpu, torn));
    read_table(domain, worker);
}

/// Inserts a device, and doesn't count it. It is back already, and has counted a use that was none. A worker uses it.
fn use_late(alloc: Global, domain: &Domain<Job>, worker: &mut Worker, updater: &mut Updater)
    requires worker { IsAtWork domain.now worker.old }
    requires updater { IsUpdating domain.now updater.old }
    ensures worker { IsAtWork domain.now worker.new }
    ensures updater { IsUpdating domain.now updater.new }
{
    let Ok(device) = Box::new(alloc, Device::default()) else {
        return;
    };
    device.uses.store(1, SeqCst);
    device.back.store(true, SeqCst);
    drop(updater.registry.insert(domain, &mut updater.cpu, 0, device));
    use_device(domain, worker, 0);
}

/// All that the checks look for, each once, but for a wait that is too short: one where not all jobs were run, and one
/// where a cookie isn't done.
fn go_wrong<R: Wait + Clock + AllocGlobal>(
    rt: &R,
    domain: &Domain<Job>,
    post: &Post,
    signs: &Signs,
    stop: &Stop<Job>,
    worker: &mut Worker,
    driver: Cpus,
) -> Driver
    requires stop { stop.now.domain ≡ domain.now }
    requires worker { IsAtWork domain.now worker.old }
    requires post { post.now.key ≡ domain.now }
    requires driver { AreIdle domain.now driver }
    ensures worker { IsAtWork domain.now worker.new }
    ensures driver { IsIdle domain.now result.cpu }
    ensures watching { IsIdle domain.now result.watching }
{
    read(domain, signs, worker);
    worker.counts.queued = 1; // as if a job had been lost
    queue(rt, domain, worker);
    wait_for_period(rt, domain, worker);
    stop.give_alone(rt, domain);
    let driver = drive(rt, domain, driver, signs, stop);
    wait_for_jobs(rt, domain, signs, worker);
    let mut cookie = worker.cpu.cookie();
    check_done(domain, worker, &mut cookie);
    hand_on(domain, post, worker); // nobody takes it
    driver
}

fn run_wrongly<R: Wait + Clock + AllocGlobal>(rt: &R) -> Result<Outcome> {
    let Start {
        domain,
        stop,
        mut workers,
        driver,
        mut updater,
        parts,
    } = prepare(rt.alloc())?;
    let signs = Signs::default();
    let post = Post::new(rt.alloc(), &domain)?;
    let mut worker = workers.pop().unwrap();
    put_torn(&domain, &mut updater, &signs);
    read_torn_table(rt.alloc(), &domain, &mut worker, &mut updater);
    use_late(rt.alloc(), &domain, &mut worker, &mut updater);
    let kept = Table::new(rt.alloc(), 0, &updater.lives);
    let driver = go_wrong(rt, &domain, &post, &signs, &stop, &mut worker, driver);
    workers.push_reserved(worker);
    let parts = take_apart(workers, parts, &domain);
    let outcome = end(rt, domain, post, parts, driver, updater);
    drop(kept); // too late
    Ok(outcome)
}

/// Would catch a table that is torn at a row and looks whole.
#[test]
fn looks_at_tables(rt: HostRuntime) -> Result<(), Fail> {
    let lives = Arc::new(rt.alloc(), Lives::default())?;
    let mut table = Table::new(rt.alloc(), 3, &lives)?;
    assert_eq!(rt; (table.is_whole(), lives.lost()), (true, 1));
    for row in [0, 4848, 9999] {
        if let Some(seen) = table.rows.get_mut(row) {
            *seen = 2;
        }
        assert!(rt; !table.is_whole());
        if let Some(seen) = table.rows.get_mut(row) {
            *seen = 3;
        }
        assert!(rt; table.is_whole());
    }
    drop(table);
    assert_eq!(rt; lives.lost(), 0);
    Ok(())
}

/// Would catch a worker that waits for nobody, or never finds the others.
#[test]
fn workers_meet(rt: HostRuntime) {
    let signs = Signs::default();
    for met in [0, 0, 0, 0, 0, 0, 1] {
        let mut counts = Counts::default();
        meet(&rt, &signs, 1, &mut counts);
        assert_eq!(rt; counts.met, met);
    }
}

/// Would catch a check that is not made, or whose count is lost.
#[test]
fn checks_notice_a_wrong_run(rt: HostRuntime) -> Result<(), Fail> {
    let outcome = run_wrongly(&rt)?;
    let counts = outcome.counts;
    assert_eq!(rt; (counts.stale, counts.torn, counts.lost), (4, 2, 1));
    assert_eq!(rt; (counts.devices, counts.back), (0, 1));
    assert_eq!(rt; (counts.used, counts.counted), (1, 2));
    assert_eq!(rt; (counts.boxes, counts.again), (1, 0));
    assert_eq!(rt; (counts.misplaced, counts.early), (1, 2));
    assert_eq!(rt; (counts.met, counts.left, counts.refused), (0, 1, 0));
    assert_eq!(rt; outcome.status(), ExitCode::FAILURE);
    Ok(())
}

/// Would catch a deadline that is never past, or at once.
#[test]
fn deadlines(rt: HostRuntime) -> Result<(), Fail> {
    let start = Instant::now(&rt)?;
    for (length, past) in [
        (Length::Rounds(0), false),
        (Length::Seconds(0), true),
        (Length::Seconds(86_400), false),
    ] {
        assert_eq!(rt; Deadline { start, length }.is_past(&rt), past);
    }
    Ok(())
}

fn is_exact(counts: Counts, totals: Result<Totals, InUse>) -> bool {
    Outcome { counts, totals }.is_exact()
}

/// Would catch totals that are never exact.
#[test]
fn exact_totals(rt: HostRuntime) {
    assert!(rt; is_exact(some_counts(), Ok(some_totals())));
    assert!(rt; !is_exact(some_counts(), Err(InUse::Period)));
    let outcome = Outcome {
        counts: some_counts(),
        totals: Ok(some_totals()),
    };
    assert_eq!(rt; outcome.status(), ExitCode::SUCCESS);
}

/// Would catch one reading of the words for another.
#[test]
fn reads_the_command_line(rt: HostRuntime) -> Result<(), Fail> {
    for (words, length) in [
        ("", None),
        ("0", None),
        ("1", Some(Length::Seconds(1))),
        ("86400", Some(Length::Seconds(86_400))),
        ("86401", None),
        ("x", None),
    ] {
        let words = vec![in rt.alloc(); words.to_string(rt.alloc())?]?;
        assert_eq!(rt; length_of(words.as_slice()), length);
    }
    let none: Vec<String> = Vec::new(rt.alloc());
    assert_eq!(rt; length_of(none.as_slice()), Some(Length::Rounds(200)));
    Ok(())
}

/// Would catch a count that is printed as another, and a run that went wrong and says that it didn't.
#[test]
fn prints_an_outcome(rt: HostRuntime) -> Result<(), Fail> {
    let mut counts = some_counts();
    count(&mut counts.early);
    counts.devices = 1;
    counts.counted = 2;
    let text =
        "workers that met all others: 7\nsections opened: 2\nsections closed: 2\njobs queued: 1\njobs run: 1\ncookies polled: 0\n\
        waits for a grace period: 0\nbarriers: 0\nsections left in the mailbox: 0\ncalls made again: 0\n\
        calls refused: 0\n\
        jobs misplaced: 0\nwaits that were too short: 1\nversions and devices that were too old: 0\n\
        versions of several pieces: 0\nboxes that were not dropped once: 0\n\
        devices that did not come back once: 1\nuses that the devices did not count: 2";
    assert_eq!(rt; format!(in rt.alloc(); "{counts}")?.as_str(), text);
    for (counts, totals, last) in [
        (some_counts(), Ok(some_totals()), "totals: exact"),
        (
            some_counts(),
            Err(InUse::Callbacks(3)),
            "totals: none, the domain is in use: Callbacks(3)",
        ),
        (
            counts,
            Ok(some_totals()),
            "totals: others, Totals { opened: 2, closed: 2, queued: 1, finished: 1, periods: 3 }",
        ),
    ] {
        let outcome = Outcome { counts, totals };
        let printed = format!(in rt.alloc(); "{outcome}")?;
        assert!(rt; printed.as_str().ends_with(last));
    }
    Ok(())
}
