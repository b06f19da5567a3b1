//! A thread that leases versions, reads them, and hands the leases on.
ghost use Rattle.std.specs.Prelude.{◌≡◌, ◌+◌, ◌%◌, ◌<◌, ◌≤◌, Some, None, IfSome};
ghost use Rattle.desk.specs.Swaps.{lies_behind};
ghost use Rattle.desk.specs.Calls.{Swaps};
ghost use Rattle.plugs.specs.Reading.{Leases};
ghost use Rattle.race.specs.Courses.{IsCourse};
ghost use Rattle.race.specs.Readers.{one_if, IsReaderOf, Tells, Opens, Counts, Releases, HasMade, AsksLease, MakesRound, HasRead, ReadsAll};

use crate::course::{Course, key_of};
use crate::gate::{At, Gate};
use desk::DeskSeat;
use domain::Cpu;
use plugs::{Lease, release};

/// What a reader has, and what it has counted.
#[derive(Drop)]
pub struct Reader {
    pub cpu: Cpu<()>,
    pub seat: DeskSeat<Lease>,
    /// How many leases it made.
    pub opened: u64,
    /// How many leases it released, its own ones and others.
    pub closed: u64,
}

/// Leases the version that is there. No processor of a race begins as many sections as the limit allows.
fn open(course: &Course, reader: &mut Reader) -> Lease
    requires course { IsCourse course.now }
    requires is { IsReaderOf course.now reader.old }
    requires tells { Tells 0 0 reader.old }
    requires few { reader.old.opened < 1000 }
    ensures opens { Opens course.now reader.old reader.new }
    ensures leases { Leases course.now.view.cell result reader.old.cpu reader.new.cpu }
    ensures lease { result.held.domain ≡ course.now.domain.domain }
{
    let Ok(lease) = course.view.lease(&mut reader.cpu) else {
        unreachable!()
    };
    reader.opened += 1;
    lease
}

/// Asks a lease for the round's key. The gate is passed before that and behind it.
fn read<G: Gate>(course: &Course, gate: &G, reader: &mut Reader, lease: &mut Lease, round: u64)
    requires is { IsReaderOf course.now reader.old }
    requires tells { Tells 1 0 reader.old }
    requires lease { lease.old.held.domain ≡ course.now.domain.domain }
    ensures counts { Counts course.now 1 0 reader.old reader.new }
    ensures asks { AsksLease lease.old (round % 15) reader.old reader.new }
    ensures lease { lease.new ≡ lease.old }
{
    let worker = usize::from(reader.cpu.processor());
    gate.pass(worker, round, At::Inside);
    let _plug = lease.get(&mut reader.cpu, key_of(round));
    gate.pass(worker, round, At::Answered);
}

/// Lays a lease on the desk, and gives what lay there.
fn hand_on(course: &Course, reader: &mut Reader, lease: Lease) -> Option<Lease>
    requires is { IsReaderOf course.now reader.old }
    requires tells { Tells 1 0 reader.old }
    requires lease { lease.held.domain ≡ course.now.domain.domain }
    ensures counts { Counts course.now 0 (one_if result) reader.old reader.new }
    ensures lays { Swaps reader.old.seat (Some lease) result reader.new.seat }
    ensures found { IfSome result (λ found. found.held.domain ≡ course.now.domain.domain) }
{
    reader.seat.put(&course.desk, lease)
}

/// Takes what lies on the desk.
fn take(course: &Course, reader: &mut Reader) -> Option<Lease>
    requires is { IsReaderOf course.now reader.old }
    requires tells { Tells 0 0 reader.old }
    ensures counts { Counts course.now 0 (one_if result) reader.old reader.new }
    ensures looks { Swaps reader.old.seat None result reader.new.seat }
    ensures looked { lies_behind reader.new.seat.seen ≡ None }
    ensures found { IfSome result (λ found. found.held.domain ≡ course.now.domain.domain) }
{
    reader.seat.take(&course.desk)
}

/// Releases a lease that lay on the desk, if one did.
fn close(course: &Course, reader: &mut Reader, found: Option<Lease>)
    requires is { IsReaderOf course.now reader.old }
    requires tells { Tells 0 (one_if found) reader.old }
    requires found { IfSome found (λ lease. lease.held.domain ≡ course.now.domain.domain) }
    requires few { reader.old.closed ≤ 1000 }
    ensures { Releases course.now found reader.old reader.new }
{
    let Some(lease) = found else { return };
    release(lease, &mut reader.cpu);
    reader.closed += 1;
}

/// Leases, reads, hands the lease on, and releases the one that lay there.
fn make_round<G: Gate>(course: &Course, gate: &G, reader: &mut Reader, round: u64)
    requires course { IsCourse course.now }
    requires made { HasMade course.now round reader.old }
    requires round { round < course.now.rounds }
    ensures made { HasMade course.now (round + 1) reader.new }
    ensures round { MakesRound course.now round reader.old reader.new }
    ensures same { reader.new.cpu.cpu.processor ≡ reader.old.cpu.cpu.processor }
{
    let mut lease = open(course, reader);
    read(course, gate, reader, &mut lease, round);
    let found = hand_on(course, reader, lease);
    close(course, reader, found);
}

/// Makes all rounds, and then takes what still lies on the desk. Each reader ends so, and the last one leaves nothing
/// there: every lease is released by then.
pub fn read_all<G: Gate>(course: &Course, gate: &G, mut reader: Reader) -> Reader
    requires course { IsCourse course.now }
    requires new { HasMade course.now 0 reader }
    ensures read { HasRead course.now reader.cpu.cpu.processor result }
    ensures all { ReadsAll course.now reader result }
{
    for round in 0..course.rounds {
        make_round(course, gate, &mut reader, round);
    }
    let found = take(course, &mut reader);
    close(course, &mut reader, found);
    reader
}
