//! What the tests begin with: a domain, its processors, and a roster.

use domain::{Cpu, Domain, Limits, MakeError};
use notify::Handler;
use roster::{Callers, Roster, make};
use std::alloc::Global;

/// A new domain with a roster: its last processor, and those before it.
#[derive(Drop)]
pub(crate) struct Place<H: Handler> {
    pub(crate) domain: Domain<()>,
    pub(crate) cpu: Cpu<()>,
    pub(crate) others: Vec<Cpu<()>>,
    pub(crate) roster: Roster<H>,
    pub(crate) callers: Callers<H>,
}

/// A place of so many processors.
pub(crate) fn place_of<H: Handler>(
    alloc: Global,
    processors: usize,
) -> Result<Place<H>, MakeError> {
    let limits = Limits {
        sections: Limits::MOST_SECTIONS,
        periods: Limits::MOST_PERIODS,
        cells: 1,
        slots: 8,
    };
    let (domain, mut cpus, mut writers) = Domain::<()>::new(alloc, processors, limits)?;
    let mut cpu = cpus.pop().unwrap();
    match make(alloc, &domain, &mut cpu, writers.pop().unwrap()) {
        Ok((roster, callers)) => Ok(Place {
            domain,
            cpu,
            others: cpus,
            roster,
            callers,
        }),
        Err(_writer) => Err(MakeError::Memory),
    }
}

/// Drives so many turns of the engine.
pub(crate) fn drive(domain: &Domain<()>, cpu: &mut Cpu<()>, turns: u32) {
    for _ in 0..turns {
        let _answer = domain.advance(cpu);
    }
}

/// A processor, and what calls handlers there.
#[derive(Drop)]
pub(crate) struct Caller<H: Handler> {
    pub(crate) cpu: Cpu<()>,
    pub(crate) callers: Callers<H>,
}

/// Takes the last one of these processors, and has it call the same handlers.
pub(crate) fn take_caller<H: Handler>(
    cpus: &mut Vec<Cpu<()>>,
    callers: &mut Callers<H>,
) -> Result<Caller<H>, MakeError> {
    let cpu = cpus.pop().unwrap();
    let Ok(callers) = callers.another(&cpu) else {
        return Err(MakeError::Memory);
    };
    Ok(Caller { cpu, callers })
}
