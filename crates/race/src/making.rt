//! What a race begins with.
ghost use Rattle.std.specs.Prelude.{◌≡◌, ◌<◌, ◌≤◌, IfOk, vec_len, vec_capacity};
ghost use Rattle.sections.specs.Limits.{most_processors};
ghost use Rattle.desk.specs.Calls.{AreNewSeats};
ghost use Rattle.race.specs.Courses.{IsCourse};
ghost use Rattle.race.specs.Workers.{EachAt, IsNewReader, EachCpu, IsNewCpu, HasRoom, IsPrepared};

use crate::course::Course;
use crate::line::StartLine;
use crate::reader::Reader;
use crate::updater::Updater;
use crate::workers::Workers;
use desk::{Desk, DeskSeat};
use domain::{Cpu, Domain, Limits, Memory};
use plugs::{Lease, Table};
use std::alloc::{AllocError, Global};

/// The limits that a script's domains have where nothing else is asked for, and one cell.
const LIMITS: Limits = Limits {
    sections: Limits::MOST_SECTIONS,
    periods: Limits::MOST_PERIODS,
    cells: 1,
    slots: 4,
};

/// What a race begins with.
pub struct Start {
    pub course: Course,
    pub workers: Workers,
    pub parts: Parts,
}

/// Room for what the workers have, apart.
#[derive(Drop)]
pub struct Parts {
    pub cpus: Vec<Cpu<()>>,
    pub seats: Vec<DeskSeat<Lease>>,
}

/// Gives each of these processors a seat.
fn seat_all(
    course: &Course,
    mut cpus: Vec<Cpu<()>>,
    mut seats: Vec<DeskSeat<Lease>>,
    mut readers: Vec<Reader>,
) -> Vec<Reader>
    requires course { IsCourse course.now }
    requires cpus { EachCpu (IsNewCpu course.now) cpus.items }
    requires seats { AreNewSeats course.now.desk seats.items }
    requires as_many { vec_len cpus ≡ vec_len seats }
    requires room { (vec_len readers ≡ 0) × (vec_len seats ≤ vec_capacity readers) }
    ensures each { EachAt (IsNewReader course.now) result.items }
    ensures as_many { vec_len result ≡ vec_len seats }
{
    while let Some(seat) = seats.pop() {
        readers.push_reserved(Reader {
            cpu: cpus.pop().unwrap(),
            seat,
            opened: 0,
            closed: 0,
        });
    }
    readers.reverse();
    readers
}

/// Room for what comes.
fn rooms(alloc: Global, many: usize) -> Result<(Vec<Reader>, Parts), AllocError>
    ensures readers { IfOk result (λ r. (vec_len r.0 ≡ 0) × (many ≤ vec_capacity r.0)) }
    ensures parts { IfOk result (λ r. HasRoom many r.1) }
{
    let room = Vec::with_capacity(alloc, many)?;
    let parts = Parts {
        cpus: Vec::with_capacity(alloc, many + 1)?,
        seats: Vec::with_capacity(alloc, many)?,
    };
    Ok((room, parts))
}

/// Makes a domain, a desk and the workers. Memory is taken before the desk is made, for all that comes: a desk must be
/// closed with its seats.
pub fn prepare(alloc: Global, many: usize, rounds: u64) -> Result<Start, Memory>
    requires many { (1 ≤ many) × (many < most_processors) }
    requires rounds { rounds ≤ 1000 }
    ensures { IfOk result (IsPrepared many rounds) }
{
    let (room, parts) = rooms(alloc, many)?;
    let Ok((domain, mut cpus, mut writers)) = Domain::<()>::new(alloc, many + 1, LIMITS) else {
        return Err(AllocError);
    };
    let mut cpu = cpus.pop().unwrap();
    let (desk, seats) = Desk::new(alloc, many, cpu.home())?;
    let (table, view) = Table::new(writers.pop().unwrap());
    let line = StartLine::new(many);
    let course = Course {
        domain,
        desk,
        view,
        rounds,
        line,
    };
    let readers = seat_all(&course, cpus, seats, room);
    let updater = Updater {
        cpu,
        table,
        versions: 0,
        queued: 0,
        finished: 0,
    };
    Ok(Start {
        course,
        workers: Workers { readers, updater },
        parts,
    })
}
