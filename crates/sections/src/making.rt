//! A new domain.
ghost use Rattle.std.specs.Prelude.{◌≡◌, ◌+◌, ◌<◌, ◌≤◌, IfOk, length};
ghost use Rattle.std.specs.Arc.{arc_value};
ghost use Rattle.sections.specs.Calls.{new_cpu};
ghost use Rattle.sections.specs.EngineCalls.{IsTied};
ghost use Rattle.sections.specs.Making.{IsSmall, IsFounder, IsMade, IsRefused, NewTable, bounds_of};
ghost use Rattle.sections.specs.Words.{cells_in};
ghost use Rattle.sections.specs.Dealing.{AreNewWriters};

use crate::board::{DomainSeat, Words, words_of};
use crate::cpu::Cpu;
use crate::engine::EngineSeat;
use crate::limits::{Limits, MOST_PROCESSORS, MakeError};
use crate::plays;
use crate::view::Bounds;
use crate::writer::Writer;
use crate::writer::dealing::deal_writer;
use atomic_table::Table;
use sseq::Number;
use std::alloc::{AllocError, Allocator, Global};
use std::sync::Arc;
use vault::Key;

/// The processors of a new domain, in the order of their numbers, the seat that drives its grace periods, and the writers
/// of its cells.
#[derive(Drop)]
pub struct Made<A: Allocator = Global> {
    pub cpus: Vec<Cpu<A>, A>,
    pub engine: EngineSeat<A>,
    pub writers: Vec<Writer, A>,
}

/// The places of a new domain for keys, with no key in any.
fn no_keys<A: Allocator>(alloc: A, places: usize) -> Result<Vec<Key, A>, AllocError>
    ensures { IfOk result (λ keys. length keys.items ≡ places) }
{
    let mut keys = Vec::with_capacity(alloc, places)?;
    for _ in 0..places {
        keys.push(Key::blank())?;
    }
    Ok(keys)
}

/// The words of a new domain, all 0, and the seat that stands for all of its makers.
fn new_table<A: Allocator + Clone>(
    alloc: A,
    bounds: Bounds,
) -> Result<(Words<A>, DomainSeat), AllocError>
    requires { IsSmall bounds }
    ensures { IfOk result (λ t. NewTable bounds t.0.shared.key t.0.shared.table_id t.1) }
{
    let words = vec![in alloc.clone()?; 0u64; words_of(bounds)]?;
    let keys = no_keys(alloc.clone()?, 32 * bounds.processors)?;
    match Table::new(alloc, words.as_slice(), keys, &bounds) {
        Ok(made) => Ok(made),
        Err(_) => Err(AllocError),
    }
}

/// The writers of so many cells, in their order. The right to the others goes with a seat that is let go.
fn deal_writers<A: Allocator>(
    alloc: A,
    table: &Words<A>,
    seat: &mut DomainSeat,
    slots: usize,
    bounds: Bounds,
) -> Result<Vec<Writer, A>, AllocError>
    requires cells { bounds.cells ≤ 4 }
    requires slots { (2 ≤ slots) × (slots ≤ 8) }
    requires new { NewTable bounds table.now.shared.key table.now.shared.table_id seat.old }
    ensures { IfOk result (λ w. IsFounder bounds table.now.shared.key table.now.shared.table_id 0 seat.new × AreNewWriters seat.new.table_id bounds.cells slots w.items) }
{
    let mut writers = Vec::with_capacity(alloc, bounds.cells)?;
    for cell in 0..bounds.cells {
        writers.push(deal_writer(&table.shared, seat, cell, slots))?;
    }
    table.shared.split_seat::<plays::GiveToken>(seat);
    Ok(writers)
}

/// The next processor.
fn deal<A: Allocator>(
    table: &Arc<Words<A>, A>,
    seat: &mut DomainSeat,
    processor: u16,
    bounds: Bounds,
) -> Result<Cpu<A>, AllocError>
    requires small { IsSmall bounds × (processor < bounds.processors) }
    requires next { let shared = (arc_value table.now).shared in
        IsFounder bounds shared.key shared.table_id processor seat.old }
    ensures { let shared = (arc_value table.now).shared in IfOk result (λ c.
        (c ≡ new_cpu seat.old.table_id bounds.processors bounds.sections processor)
        × IsFounder bounds shared.key shared.table_id (processor + 1) seat.new) }
{
    let table = Arc::try_clone(table)?;
    let dealt = table.shared.split_seat::<plays::Deal>(seat);
    Ok(Cpu {
        table,
        seat: dealt,
        processor,
        limit: bounds.sections,
        begun: [0; 2],
        settled: 0,
    })
}

fn build<A: Allocator + Clone>(
    alloc: A,
    bounds: Bounds,
    slots: usize,
) -> Result<Made<A>, AllocError>
    requires small { IsSmall bounds }
    requires slots { (2 ≤ slots) × (slots ≤ 8) }
    ensures made { IfOk result (λ m. IsMade bounds m.cpus.items m.engine) }
    ensures cells { IfOk result (λ m. cells_in m.engine.domain ≡ bounds.cells) }
    ensures writers { IfOk result (λ m. AreNewWriters m.engine.domain bounds.cells slots m.writers.items) }
{
    let (table, mut seat) = new_table(alloc.clone()?, bounds)?;
    let writers = deal_writers(alloc.clone()?, &table, &mut seat, slots, bounds)?;
    let table = Arc::new(alloc.clone()?, table)?;
    let mut cpus = Vec::with_capacity(alloc, bounds.processors)?;
    for processor in 0..bounds.processors {
        cpus.push(deal(&table, &mut seat, processor as u16, bounds)?)?;
    }
    Ok(Made {
        cpus,
        engine: EngineSeat {
            table,
            seat,
            processors: bounds.processors as u16,
            number: Number::zero(),
            periods: bounds.periods,
        },
        writers,
    })
}

/// Makes a domain of so many processors, in which nothing has happened. Its engine is tied: there is nothing that the
/// processors have not seen. Where several refusals hold, the first in the order of `MakeError` is answered.
pub fn make<A: Allocator + Clone>(
    alloc: A,
    processors: usize,
    limits: Limits,
) -> Result<Made<A>, MakeError>
    ensures made { IfOk result (λ m.
        IsMade (bounds_of processors limits) m.cpus.items m.engine) }
    ensures writers { IfOk result (λ m. AreNewWriters m.engine.domain limits.cells limits.slots m.writers.items) }
    ensures cells { IfOk result (λ m. cells_in m.engine.domain ≡ limits.cells) }
    ensures tied { IfOk result (λ m. IsTied m.engine) }
    ensures refused { IsRefused processors limits result }
{
    if processors == 0 || processors > MOST_PROCESSORS {
        return Err(MakeError::Processors);
    }
    if !limits.are_in_range() {
        return Err(MakeError::Limits);
    }
    let bounds = Bounds {
        processors,
        sections: limits.sections,
        periods: limits.periods,
        cells: limits.cells as usize,
    };
    match build(alloc, bounds, limits.slots as usize) {
        Ok(made) => Ok(made),
        Err(AllocError) => Err(MakeError::Memory),
    }
}
