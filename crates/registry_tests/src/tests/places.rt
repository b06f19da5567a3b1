//! What the tests begin with: a domain, its processors, and a registry.

use domain::{Cpu, Domain, Limits, MakeError};
use registry::{Registry, Users, make};
use std::alloc::Global;

/// A new domain with a registry: its last processor, and those before it.
#[derive(Drop)]
pub(crate) struct Place<K: Ord + Copy, V: Drop> {
    pub(crate) domain: Domain<()>,
    pub(crate) cpu: Cpu<()>,
    pub(crate) others: Vec<Cpu<()>>,
    pub(crate) registry: Registry<K, V>,
    pub(crate) users: Users<K, V>,
}

/// A place of so many processors, whose cell has so many slots.
pub(crate) fn place_of<K: Ord + Copy, V: Drop>(
    alloc: Global,
    processors: usize,
    slots: u64,
) -> Result<Place<K, V>, MakeError> {
    place_for(alloc, processors, slots, Limits::MOST_PERIODS)
}

/// The same for so many grace periods.
pub(crate) fn place_for<K: Ord + Copy, V: Drop>(
    alloc: Global,
    processors: usize,
    slots: u64,
    periods: u64,
) -> Result<Place<K, V>, MakeError> {
    let limits = Limits {
        sections: Limits::MOST_SECTIONS,
        periods,
        cells: 1,
        slots,
    };
    let (domain, mut cpus, mut writers) = Domain::<()>::new(alloc, processors, limits)?;
    let mut cpu = cpus.pop().unwrap();
    match make(alloc, &domain, &mut cpu, writers.pop().unwrap()) {
        Ok((registry, users)) => Ok(Place {
            domain,
            cpu,
            others: cpus,
            registry,
            users,
        }),
        Err(_writer) => Err(MakeError::Memory),
    }
}

/// Drives so many turns of the engine.
pub(crate) fn drive(domain: &Domain<()>, cpu: &mut Cpu<()>, turns: u32) {
    for _ in 0..turns {
        let _answer = domain.advance(cpu);
    }
}

/// A processor, and what uses devices there.
#[derive(Drop)]
pub(crate) struct User<K: Ord + Copy, V: Drop> {
    pub(crate) cpu: Cpu<()>,
    pub(crate) users: Users<K, V>,
}

/// Takes the last one of these processors, and has it use the same devices.
pub(crate) fn take_user<K: Ord + Copy, V: Drop>(
    cpus: &mut Vec<Cpu<()>>,
    users: &mut Users<K, V>,
) -> Result<User<K, V>, MakeError> {
    let cpu = cpus.pop().unwrap();
    let Ok(users) = users.another(&cpu) else {
        return Err(MakeError::Memory);
    };
    Ok(User { cpu, users })
}
