//! How a race ends.
ghost use Rattle.std.specs.Prelude.{◌≡◌, ◌+◌, ◌<◌, ◌≤◌, length, map, vec_capacity};
ghost use Rattle.sections.specs.Limits.{most_processors};
ghost use Rattle.desk.specs.Calls.{AreAllSeats};
ghost use Rattle.race.specs.Courses.{IsCourse};
ghost use Rattle.race.specs.Workers.{EachAt, IsBack, AreBack, opened_by, closed_by, HasRoom};
ghost use Rattle.race.specs.Endings.{ClosesDesk, EndsSections, CleansUp};
ghost use Rattle.race.specs.Totals.{AreCounts};

use crate::course::Course;
use crate::making::Parts;
use crate::reader::Reader;
use crate::totals::RaceTotals;
use crate::workers::Workers;
use desk::{Desk, DeskSeat};
use domain::Cpu;
use plugs::{Lease, release};

/// What the readers of a race had, apart, and what they have counted together.
#[derive(Drop)]
struct Sums {
    parts: Parts,
    opened: u64,
    closed: u64,
}

/// Takes the readers' processors and seats from them, and adds up what they counted.
fn take_apart(course: &Course, readers: Vec<Reader>, parts: Parts) -> Sums
    requires course { IsCourse course.now }
    requires each { EachAt (IsBack course.now) readers.items }
    requires few { length readers.items < most_processors }
    requires room { HasRoom (length readers.items) parts }
    ensures cpus { result.parts.cpus.items ≡ map (λ r. r.cpu) readers.items }
    ensures room { length readers.items < vec_capacity result.parts.cpus }
    ensures seats { result.parts.seats.items ≡ map (λ r. r.seat) readers.items }
    ensures opened { result.opened ≡ opened_by readers.items }
    ensures closed { result.closed ≡ closed_by readers.items }
{
    let mut sums = Sums {
        parts,
        opened: 0,
        closed: 0,
    };
    for reader in readers {
        sums.opened += reader.opened;
        sums.closed += reader.closed;
        sums.parts.cpus.push_reserved(reader.cpu);
        sums.parts.seats.push_reserved(reader.seat);
    }
    sums
}

/// Closes the desk, and releases the lease that lies there, if one does. Tells how many it released.
fn close_desk(desk: Desk<Lease>, seats: Vec<DeskSeat<Lease>>, cpu: &mut Cpu<()>) -> u64
    requires seats { AreAllSeats desk seats.items }
    requires home { desk.domain ≡ cpu.old.cpu.domain }
    ensures closes { ClosesDesk desk seats.items result }
    ensures cpu { EndsSections result cpu.old cpu.new }
{
    let Some(lease) = desk.close(seats) else {
        return 0;
    };
    release(lease, cpu);
    1
}

/// Closes the desk, takes the domain down, and tells what was counted.
pub fn end(course: Course, workers: Workers, parts: Parts) -> RaceTotals
    requires course { IsCourse course }
    requires many { course.domain.processors ≡ course.desk.seats + 1 }
    requires few { (1 ≤ course.desk.seats) × (course.desk.seats < most_processors) }
    requires back { AreBack course workers }
    requires room { HasRoom course.desk.seats parts }
    ensures counts { AreCounts course.rounds result }
    ensures opened { result.opened ≡ opened_by workers.readers.items }
    ensures updater { (result.versions ≡ workers.updater.versions) × (result.queued ≡ workers.updater.queued) × (result.finished ≡ workers.updater.finished) }
    ensures cleans { CleansUp course workers result.domain }
{
    let Workers {
        readers,
        mut updater,
    } = workers;
    let Sums {
        parts,
        opened,
        mut closed,
    } = take_apart(&course, readers, parts);
    let Course {
        domain,
        desk,
        view: _,
        rounds: _,
        line: _,
    } = course;
    let Parts { mut cpus, seats } = parts;
    closed += close_desk(desk, seats, &mut updater.cpu);
    cpus.push_reserved(updater.cpu);
    RaceTotals {
        opened,
        closed,
        queued: updater.queued,
        finished: updater.finished,
        versions: updater.versions,
        domain: domain.cleanup(cpus).ok(),
    }
}
