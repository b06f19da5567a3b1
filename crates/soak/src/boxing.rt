//! The cell of boxes: who reads it, who puts tables there, and how all come back.
ghost use Rattle.std.specs.Prelude.{◌≡◌};
ghost use Rattle.sections.specs.Calls.{IsSameCpu};
ghost use Rattle.domain.specs.Views.{Stays};
ghost use Rattle.boxes.specs.Boxes.{IsCellOf};
ghost use Rattle.soak.specs.Workers.{IsAtWork};
ghost use Rattle.soak.specs.Updaters.{IsUpdating};

use crate::counts::count;
use crate::devices::{reclaim_device, remove_and_wait};
use crate::tables::{Lives, Table, TableSight, judge, look_twice};
use crate::updating::Updater;
use crate::worker::{Job, Worker};
use boxes::Boxes;
use domain::{Cpu, Domain, Reading};
use std::alloc::{AllocError, Global};
use std::sync::{Arc, Wait};

/// How many turns of the engine are enough for all boxes to come back in the end, one in each turn.
const TURNS: u32 = 128;

/// Looks at the table that is there, if there is one. The section is the same after that.
fn find_table(
    cpu: &mut Cpu<Job>,
    boxes: &mut Boxes<Table>,
    reading: Reading,
) -> (Reading, Option<TableSight>)
    requires here { reading.domain ≡ cpu.old.cpu.domain }
    requires cell { IsCellOf cpu.old.cpu boxes.old }
    ensures stays { Stays cpu.old cpu.new }
    ensures same { IsSameCpu cpu.old.cpu cpu.new.cpu }
    ensures boxes { boxes.new ≡ boxes.old }
    ensures reading { result.0 ≡ reading }
{
    match boxes.find(cpu, reading) {
        Ok(pin) => {
            let sight = look_twice(&pin);
            (boxes.release(cpu, pin), Some(sight))
        }
        Err(reading) => (reading, None),
    }
}

/// Looks at the table that is there, in a section of its own. A cell with no box yet is no fault.
pub fn read_table(domain: &Domain<Job>, worker: &mut Worker)
    requires { IsAtWork domain.now worker.old }
    ensures { IsAtWork domain.now worker.new }
{
    let Ok(reading) = worker.cpu.read_lock() else {
        count(&mut worker.counts.refused);
        return;
    };
    count(&mut worker.counts.opened);
    let (reading, found) = find_table(&mut worker.cpu, &mut worker.boxes, reading);
    worker.cpu.read_unlock(reading);
    count(&mut worker.counts.closed);
    judge(&mut worker.counts, &mut worker.last, found);
}

/// The table that waits for a slot, or else a new one of this number.
fn next_table(
    alloc: Global,
    waiting: &mut Option<Box<Table>>,
    number: u64,
    lives: &Arc<Lives>,
) -> Result<Box<Table>, AllocError> {
    match waiting.take() {
        Some(table) => Ok(table),
        None => Table::new(alloc, number, lives),
    }
}

/// Puts a table, if a slot is free; else it waits for one. A box that comes back is dropped. Where memory is refused, none is
/// put.
pub fn put_table(alloc: Global, domain: &Domain<Job>, updater: &mut Updater)
    requires { IsUpdating domain.now updater.old }
    ensures { IsUpdating domain.now updater.new }
{
    let number = updater.counts.boxes.saturating_add(1);
    let Ok(table) = next_table(alloc, &mut updater.waiting, number, &updater.lives) else {
        count(&mut updater.counts.again);
        return;
    };
    match updater.boxes.replace(domain, &mut updater.cpu, table) {
        Ok(_back) => count(&mut updater.counts.boxes),
        Err(table) => updater.waiting = Some(table),
    }
}

/// Retires the last box, and drops each one that comes back; and removes each device. No section is open any more, so all of
/// them do.
pub fn take_back<R: Wait>(rt: &R, domain: &Domain<Job>, updater: &mut Updater)
    requires { IsUpdating domain.now updater.old }
    ensures { IsUpdating domain.now updater.new }
{
    updater.waiting = None;
    let mut retired = false;
    for turn in 0..TURNS {
        drop(updater.boxes.reclaim(&mut updater.cpu));
        if !retired {
            let cookie = updater.boxes.put_none(domain, &mut updater.cpu);
            retired = cookie.is_some();
        }
        remove_and_wait(rt, domain, updater, u64::from(turn));
        reclaim_device(domain, updater);
        let _turn = domain.advance(&mut updater.cpu);
    }
}
