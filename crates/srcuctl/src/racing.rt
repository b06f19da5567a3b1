//! A race, and the lines that tell what it came to.
ghost use Rattle.options.specs.Races.{IsInRange};

use lines::RunError;
use options::Size;
use race::{At, Gate, RaceTotals, race};
use std::alloc::{AllocGlobal, Global};
use std::io::Write;
use std::sync::Wait;
use std::thread::Threads;

#[cfg(test)]
mod tests;

/// Lets every reader pass.
#[derive(Clone, Copy)]
struct Open;

impl Gate for Open {
    fn pass(&self, _worker: usize, _round: u64, _at: At) {}
}

/// Writes the five lines.
fn write_lines<W: Write>(
    alloc: Global,
    writer: &mut W,
    totals: &RaceTotals,
) -> Result<(), RunError> {
    let RaceTotals {
        opened,
        closed,
        queued,
        finished,
        versions,
        domain: _,
    } = totals;
    let Ok(text) = format!(in alloc;
        "opened {opened}\nclosed {closed}\nqueued {queued}\nfinished {finished}\nversions {versions}\n"
    ) else {
        return Err(RunError::Memory);
    };
    writer
        .write_all(text.as_bytes())
        .map_err(|_| RunError::Write)
}

/// Has a race, and writes what it came to.
pub fn run<R: Threads + Sync + Wait + AllocGlobal, W: Write>(
    rt: &R,
    writer: &mut W,
    size: Size,
) -> Result<(), RunError>
    requires { IsInRange size }
{
    match race(rt, size.readers as usize, size.rounds, &Open) {
        Ok(totals) => write_lines(rt.alloc(), writer, &totals),
        Err(_) => Err(RunError::Memory),
    }
}
