//! Leases that threads hand to one another, while another one installs.
ghost use Rattle.std.specs.Prelude.{◌≡◌, ◌<◌, IfOk, IfSome};
ghost use Rattle.desk.specs.Calls.{new_seat};
ghost use Rattle.domain.specs.Views.{IsOf};
ghost use Rattle.shelf.specs.Cells.{IsCellIn};

use super::world::drive_on;
use desk::{Desk, DeskSeat};
use domain::{Cpu, Domain, Home, MakeError};
use fixtures::{Four, five};
use plugs::{Lease, Table, TableView, release};
use std::alloc::{AllocError, Global};
use std::process::Abort;
use std::sync::Wait;
use std::test::Fail;
use std::thread::{Threads, join};

/// How often each thread leases, and how many versions are installed.
const ROUNDS: u32 = 1_000;

/// The key that is installed. Version n has the plug n.
const KEY: u32 = 7;

/// What a thread found.
#[derive(Clone, Copy, Drop, Debug, PartialEq, Eq)]
struct Found {
    leased: u32,
    released: u32,
    /// Whether each lease had the plug of its own version.
    whole: bool,
}

/// Reads the lease and ends it. Tells whether its plug is that of its version.
fn read_and_release(domain: &Domain<()>, cpu: &mut Cpu<()>, lease: Lease) -> bool
    requires cpu { IsOf domain.now cpu.old }
    requires lease { lease.held.domain ≡ domain.now.domain }
    ensures { IsOf domain.now cpu.new }
{
    let mut lease = lease;
    let version = lease.version();
    let plug = lease.get(cpu, KEY);
    release(lease, cpu);
    plug.map_or(0, u64::from) == version
}

/// Leases, lays the lease on the desk, and reads and ends what lay there.
fn hand_over(
    domain: &Domain<()>,
    cpu: &mut Cpu<()>,
    seat: &mut DeskSeat<Lease>,
    desk: &Desk<Lease>,
    view: &TableView,
) -> Found
    requires cpu { IsOf domain.now cpu.old }
    requires cell { IsCellIn domain.now.domain view.now }
    requires seat { (seat.old.desk ≡ desk.now.desk) × (seat.old.domain ≡ domain.now.domain) }
    ensures cpu { IsOf domain.now cpu.new }
    ensures seat { (seat.new.desk ≡ seat.old.desk) × (seat.new.number ≡ seat.old.number) × (seat.new.domain ≡ seat.old.domain) }
{
    let Ok(lease) = view.lease(cpu) else {
        return Found {
            leased: 0,
            released: 0,
            whole: false,
        };
    };
    let Some(other) = seat.put(desk, lease) else {
        return Found {
            leased: 1,
            released: 0,
            whole: true,
        };
    };
    Found {
        leased: 1,
        released: 1,
        whole: read_and_release(domain, cpu, other),
    }
}

/// The same in each round.
fn lease_on(
    domain: &Domain<()>,
    mut cpu: Cpu<()>,
    mut seat: DeskSeat<Lease>,
    desk: &Desk<Lease>,
    view: &TableView,
) -> (Cpu<()>, DeskSeat<Lease>, Found)
    requires cpu { IsOf domain.now cpu }
    requires cell { IsCellIn domain.now.domain view.now }
    requires seat { (seat.desk ≡ desk.now.desk) × (seat.domain ≡ domain.now.domain) }
    ensures cpu { IsOf domain.now result.0 }
    ensures seat { (result.1.desk ≡ seat.desk) × (result.1.number ≡ seat.number) }
{
    let mut found = Found {
        leased: 0,
        released: 0,
        whole: true,
    };
    for _ in 0..ROUNDS {
        let round = hand_over(domain, &mut cpu, &mut seat, desk, view);
        found.leased = found.leased.saturating_add(round.leased);
        found.released = found.released.saturating_add(round.released);
        found.whole &= round.whole;
    }
    (cpu, seat, found)
}

/// A desk and its two seats.
fn two_seats(
    alloc: Global,
    home: Home,
) -> Result<(Desk<Lease>, DeskSeat<Lease>, DeskSeat<Lease>), AllocError>
    ensures { IfOk result (λ r. (r.0.domain ≡ home) × (r.0.seats ≡ 2) × (r.1 ≡ new_seat r.0 0) × (r.2 ≡ new_seat r.0 1)) }
{
    let (desk, mut seats) = Desk::new(alloc, 2, home)?;
    let second = seats.pop().unwrap();
    let first = seats.pop().unwrap();
    seats.destroy_empty();
    Ok((desk, first, second))
}

/// The end of a desk with two seats. Gives what lay there.
fn close_two<R: Abort + Alloc>(
    rt: &R,
    desk: Desk<Lease>,
    first: DeskSeat<Lease>,
    second: DeskSeat<Lease>,
) -> Option<Lease>
    requires seats { desk.seats ≡ 2 }
    requires first { (first.desk ≡ desk.desk) × (first.number ≡ 0) }
    requires second { (second.desk ≡ desk.desk) × (second.number ≡ 1) }
    ensures { IfSome result (λ lease. lease.held.domain ≡ desk.domain) }
{
    let mut seats = Vec::with_capacity(rt.alloc(), 2).expect(rt, "there is room");
    seats.push_reserved(first);
    seats.push_reserved(second);
    desk.close(seats)
}

/// What two threads found together, and the last lease, which lay on the desk.
fn sum_up(
    domain: &Domain<()>,
    cpu: &mut Cpu<()>,
    last: Option<Lease>,
    first: Found,
    second: Found,
) -> Found
    requires cpu { IsOf domain.now cpu.old }
    requires lease { IfSome last (λ lease. lease.held.domain ≡ domain.now.domain) }
{
    let (released, whole) = match last {
        Some(lease) => (1, read_and_release(domain, cpu, lease)),
        None => (0, false),
    };
    Found {
        leased: first.leased.saturating_add(second.leased),
        released: first
            .released
            .saturating_add(second.released)
            .saturating_add(released),
        whole: first.whole && second.whole && whole,
    }
}

/// Two threads hand leases to each other.
fn lease_by_two<R: Abort + AllocGlobal + Threads + Sync>(
    rt: &R,
    domain: &Domain<()>,
    mut first: Cpu<()>,
    second: Cpu<()>,
    view: &TableView,
) -> Result<Found, AllocError>
    requires first { IsOf domain.now first }
    requires second { IsOf domain.now second }
    requires cell { IsCellIn domain.now.domain view.now }
{
    let (desk, left, right) = two_seats(rt.alloc(), first.home())?;
    let ((mut cpu, left, one), (_, right, other)) = join(
        rt,
        || lease_on(domain, first, left, &desk, view),
        || lease_on(domain, second, right, &desk, view),
    );
    let last = close_two(rt, desk, left, right);
    Ok(sum_up(domain, &mut cpu, last, one, other))
}

/// Two pairs of threads do so.
fn lease_by_four<R: Abort + AllocGlobal + Threads + Sync>(
    rt: &R,
    domain: &Domain<()>,
    readers: Four<()>,
    view: &TableView,
) -> [Result<Found, AllocError>; 2]
    requires first { IsOf domain.now readers.first × IsOf domain.now readers.second }
    requires last { IsOf domain.now readers.third × IsOf domain.now readers.fourth }
    requires cell { IsCellIn domain.now.domain view.now }
{
    let Four {
        first,
        second,
        third,
        fourth,
    } = readers;
    let (one, other) = join(
        rt,
        ||
            requires first { IsOf domain.now first }
            requires second { IsOf domain.now second }
            requires cell { IsCellIn domain.now.domain view.now }
        { lease_by_two(rt, domain, first, second, view) },
        ||
            requires third { IsOf domain.now third }
            requires fourth { IsOf domain.now fourth }
            requires cell { IsCellIn domain.now.domain view.now }
        { lease_by_two(rt, domain, third, fourth, view) },
    );
    [one, other]
}

/// Installs one version, and drives the engine as long as no slot is free.
fn install_one<R: Wait>(
    rt: &R,
    domain: &Domain<()>,
    cpu: &mut Cpu<()>,
    table: &mut Table,
    plug: u32,
)
    requires cpu { IsOf domain.now cpu.old }
    requires table { table.old.writer.domain ≡ domain.now.domain }
    ensures { IsOf domain.now cpu.new × (table.new.writer.domain ≡ domain.now.domain) }
{
    for _ in rt.forever() {
        if table.install(domain, cpu, KEY, plug).is_ok() {
            return;
        }
        drive_on(domain, cpu);
    }
    unreachable!()
}

/// Installs the plugs from 1 on.
fn install_all<R: Wait>(rt: &R, domain: &Domain<()>, mut cpu: Cpu<()>, mut table: Table)
    requires cpu { IsOf domain.now cpu }
    requires table { table.writer.domain ≡ domain.now.domain }
{
    for plug in 1..=ROUNDS {
        install_one(rt, domain, &mut cpu, &mut table, plug);
    }
}

/// A new domain, the processors of four readers and of who installs, and the table of a cell.
fn five_cpus(alloc: Global) -> Result<(Domain<()>, Four<()>, Cpu<()>, Table, TableView), MakeError>
    ensures first { IfOk result (λ r. IsOf r.0 r.1.first × IsOf r.0 r.1.second) }
    ensures last { IfOk result (λ r. IsOf r.0 r.1.third × IsOf r.0 r.1.fourth) }
    ensures writer { IfOk result (λ r. IsOf r.0 r.2 × (r.3.writer.domain ≡ r.0.domain) × IsCellIn r.0.domain r.4) }
{
    let (domain, readers, cpu, writer) = five(alloc, 4)?;
    let (table, view) = Table::new(writer);
    Ok((domain, readers, cpu, table, view))
}

/// Four threads lease while one installs.
fn lease_beside<R: Wait + Abort + AllocGlobal + Threads + Sync>(
    rt: &R,
) -> Result<[Result<Found, AllocError>; 2], MakeError> {
    let (domain, readers, writer, table, view) = five_cpus(rt.alloc())?;
    let (found, ()) = join(
        rt,
        ||
            requires first { IsOf domain readers.first × IsOf domain readers.second }
            requires last { IsOf domain readers.third × IsOf domain readers.fourth }
            requires cell { IsCellIn domain.domain view }
        { lease_by_four(rt, &domain, readers, &view) },
        || install_all(rt, &domain, writer, table),
    );
    Ok(found)
}

/// Would catch a lease that changes while it is held or on its way to another thread, one that is lost there, and words
/// that are read half of one version and half of another.
#[test]
fn leases_by_threads(rt: HostRuntime) -> Result<(), Fail> {
    let [one, other] = lease_beside(&rt)?;
    let all = Found {
        leased: 2 * ROUNDS,
        released: 2 * ROUNDS,
        whole: true,
    };
    assert_eq!(rt; (one?, other?), (all, all));
    Ok(())
}
