//! What each public error of the libraries says. `docs/check` finds the errors, and each has to stand here.
use std::fmt::Display;
use std::process::Abort;
use std::test::Fail;

/// Compares the texts of some errors.
fn compare<R: AllocGlobal + Abort, E: Display + Copy>(
    rt: &R,
    rows: &[(E, &str)],
) -> Result<(), Fail> {
    for row in rows {
        assert_eq!(rt; row.0.to_string(rt.alloc())?.as_str(), row.1);
    }
    Ok(())
}

// Texts of several errors.

const MEMORY: &str = "out of memory: free some, and call again";

const NO_FREE_SLOT: &str = "no slot of the cell is free: synchronize, and call again";

const NO_PERIOD: &str = "no more grace periods may start: make a new domain";

const RUNNING: &str = "a grace period runs: drive it to its end before";

const ENGINE_OUT: &str = "another call has the engine: call again";

const PROCESSORS: &str = "a domain has from 1 to 256 processors: ask for so many";

const LIMITS: &str = "a limit is out of its range: begin with `Limits::default()`";

const SECTIONS: &str = "no more sections of this index may begin here: begin on another processor";

const NO_COOKIE: &str = "this is no cookie's number: ask with 1 or a multiple of four";

const FULL_SET: &str = "the set has eight cookies: begin another set";

const LATE: &str = "the time is over: find who holds it up, and wait again";

const JOBS: &str = "no more jobs may be queued on this processor: queue on another one";

const INVOKING: &str = "a batch of this processor is out: finish it, and call again";

const FULL_TABLE: &str = "the table is full: remove a key, and call again";

const NO_KEY: &str = "the key is not in the table: install it before";

const FULL_CHAIN: &str = "the chain is full: unregister a handler, and call again";

const REGISTERED: &str = "the handler is in the chain: unregister it before";

const NOT_REGISTERED: &str = "the handler is not in the chain: register it before";

const CALL_REFUSAL: [(calls::CallRefusal, &str); 2] = [
    (calls::CallRefusal::Exhausted, JOBS),
    (calls::CallRefusal::Memory, MEMORY),
];

const TAKE_REFUSAL: [(calls::TakeRefusal, &str); 2] = [
    (calls::TakeRefusal::Invoking, INVOKING),
    (calls::TakeRefusal::Memory, MEMORY),
];

const IN_USE: [(domain::InUse, &str); 4] = [
    (
        domain::InUse::Missing(255),
        "processors that are out: 255; hand in all of them",
    ),
    (
        domain::InUse::Sections(7),
        "sections that are open: 7; close them before",
    ),
    (domain::InUse::Period, RUNNING),
    (
        domain::InUse::Callbacks(9),
        "callbacks that are not finished: 9; wait in a barrier before",
    ),
];

const TIMED_OUT: [(domain::TimedOut, &str); 1] = [(domain::TimedOut, LATE)];

const RUN_ERROR: [(lines::RunError, &str); 3] = [
    (lines::RunError::Read, "reading failed"),
    (lines::RunError::Write, "writing failed"),
    (lines::RunError::Memory, "out of memory"),
];

const REGISTER_REFUSAL: [(notify::RegisterRefusal, &str); 4] = [
    (notify::RegisterRefusal::There, REGISTERED),
    (notify::RegisterRefusal::Full, FULL_CHAIN),
    (notify::RegisterRefusal::NoSlot, NO_FREE_SLOT),
    (notify::RegisterRefusal::Memory, MEMORY),
];

const UNREGISTER_REFUSAL: [(notify::UnregisterRefusal, &str); 2] = [
    (notify::UnregisterRefusal::NotThere, NOT_REGISTERED),
    (notify::UnregisterRefusal::NoSlot, NO_FREE_SLOT),
];

const ILLEGAL: [(onedom::Illegal, &str); 10] = [
    (
        onedom::Illegal::SectionUsed,
        "the section's number was used before",
    ),
    (onedom::Illegal::NotOpen, "the section is not open"),
    (onedom::Illegal::PeriodRunning, "a grace period runs"),
    (onedom::Illegal::NoPeriod, "no grace period runs"),
    (
        onedom::Illegal::StillOpen,
        "a section that was open at the start is open",
    ),
    (onedom::Illegal::WrongCookie, "another cookie is given now"),
    (
        onedom::Illegal::WrongPoll,
        "that is not the answer to this cookie",
    ),
    (
        onedom::Illegal::WrongFind,
        "that is not current in the cell",
    ),
    (onedom::Illegal::WrongPut, "that can't be put into the cell"),
    (onedom::Illegal::Memory, "out of memory"),
];

const INSTALL_REFUSAL: [(plugs::InstallRefusal, &str); 3] = [
    (plugs::InstallRefusal::Full, FULL_TABLE),
    (plugs::InstallRefusal::NoSlot, NO_FREE_SLOT),
    (plugs::InstallRefusal::Memory, MEMORY),
];

const REMOVE_REFUSAL: [(plugs::RemoveRefusal, &str); 2] = [
    (plugs::RemoveRefusal::NotThere, NO_KEY),
    (plugs::RemoveRefusal::NoSlot, NO_FREE_SLOT),
];

const INSERT_REFUSAL: [(registry::InsertRefusal, &str); 3] = [
    (
        registry::InsertRefusal::There,
        "the key is taken: remove the device that has it first",
    ),
    (registry::InsertRefusal::Memory, MEMORY),
    (
        registry::InsertRefusal::NoSlot,
        "no slot is free: synchronize, and call again",
    ),
];

const REGISTRY_REMOVE_REFUSAL: [(registry::RemoveRefusal, &str); 3] = [
    (registry::RemoveRefusal::NotThere, "no device has this key"),
    (registry::RemoveRefusal::Memory, MEMORY),
    (
        registry::RemoveRefusal::NoSlot,
        "no slot is free: synchronize, and call again",
    ),
];

const REPLACE_REFUSAL: [(registry::ReplaceRefusal, &str); 3] = [
    (registry::ReplaceRefusal::NotThere, "no device has this key"),
    (registry::ReplaceRefusal::Memory, MEMORY),
    (
        registry::ReplaceRefusal::NoSlot,
        "no slot is free: synchronize, and call again",
    ),
];

const STAY_REFUSAL: [(registry::StayRefusal, &str); 5] = [
    (registry::StayRefusal::NotThere, "no device has this key"),
    (registry::StayRefusal::Memory, MEMORY),
    (
        registry::StayRefusal::Spent,
        "the cell has had 2^54 versions: its devices stay there",
    ),
    (
        registry::StayRefusal::Periods,
        "no more grace periods may start: make another domain",
    ),
    (
        registry::StayRefusal::TimedOut,
        "the time is over, and no slot is free: find who uses devices, and call again",
    ),
];

const REGISTRY_WAIT_REFUSAL: [(registry::WaitRefusal, &str); 3] = [
    (
        registry::WaitRefusal::NotRemoved(registry::StayRefusal::NotThere),
        "nothing was removed: no device has this key",
    ),
    (
        registry::WaitRefusal::Exhausted,
        "no more grace periods may start: make another domain",
    ),
    (
        registry::WaitRefusal::TimedOut,
        "the time is over: find who uses the device, and reclaim it",
    ),
];

const ADVANCE_REFUSAL: [(scan::refusals::AdvanceRefusal, &str); 2] = [
    (scan::refusals::AdvanceRefusal::Busy, ENGINE_OUT),
    (scan::refusals::AdvanceRefusal::Exhausted, NO_PERIOD),
];

const START_REFUSAL: [(scan::refusals::StartRefusal, &str); 3] = [
    (scan::refusals::StartRefusal::Busy, ENGINE_OUT),
    (scan::refusals::StartRefusal::Running, RUNNING),
    (scan::refusals::StartRefusal::Exhausted, NO_PERIOD),
];

const NOT_STARTED: [(scan::NotStarted, &str); 2] = [
    (scan::NotStarted::Running, RUNNING),
    (scan::NotStarted::Exhausted, NO_PERIOD),
];

const BUSY: [(scan::refusals::Busy, &str); 1] = [(scan::refusals::Busy, ENGINE_OUT)];

const PERIODS_EXHAUSTED: [(scan::PeriodsExhausted, &str); 1] = [(
    scan::PeriodsExhausted,
    NO_PERIOD,
)];

const MAKE_ERROR: [(sections::MakeError, &str); 3] = [
    (sections::MakeError::Processors, PROCESSORS),
    (sections::MakeError::Limits, LIMITS),
    (sections::MakeError::Memory, MEMORY),
];

const EXHAUSTED: [(sections::Exhausted, &str); 1] = [(sections::Exhausted, SECTIONS)];

const NOT_ACOOKIE: [(sections::NotACookie, &str); 1] = [(sections::NotACookie, NO_COOKIE)];

const SET_FULL: [(sections::SetFull, &str); 1] = [(sections::SetFull, FULL_SET)];

const NO_SLOT: [(shelf::NoSlot, &str); 1] = [(shelf::NoSlot, NO_FREE_SLOT)];

const REFUSAL: [(srcu::Refusal, &str); 25] = [
    (srcu::Refusal::Memory, MEMORY),
    (srcu::Refusal::Processors, PROCESSORS),
    (srcu::Refusal::Limits, LIMITS),
    (srcu::Refusal::Sections, SECTIONS),
    (srcu::Refusal::Periods, NO_PERIOD),
    (srcu::Refusal::NotACookie, NO_COOKIE),
    (srcu::Refusal::SetFull, FULL_SET),
    (srcu::Refusal::TimedOut, LATE),
    (srcu::Refusal::Jobs, JOBS),
    (srcu::Refusal::Busy, ENGINE_OUT),
    (srcu::Refusal::Invoking, INVOKING),
    (srcu::Refusal::NoSlot, NO_FREE_SLOT),
    (srcu::Refusal::TableFull, FULL_TABLE),
    (srcu::Refusal::NoKey, NO_KEY),
    (srcu::Refusal::ChainFull, FULL_CHAIN),
    (srcu::Refusal::Registered, REGISTERED),
    (srcu::Refusal::NotRegistered, NOT_REGISTERED),
    (
        srcu::Refusal::NoWorker,
        "no worker is left: make the domain with more processors",
    ),
    (
        srcu::Refusal::NoWriter,
        "no writer is left: make the domain with more cells",
    ),
    (
        srcu::Refusal::NoneAtHome,
        "no processor is at home: give one back, and call again",
    ),
    (
        srcu::Refusal::Given,
        "the sign was given before: wait for the driver's end",
    ),
    (
        srcu::Refusal::Missing(1),
        "processors that are out: 1; hand in all of them",
    ),
    (
        srcu::Refusal::Open(2),
        "sections that are open: 2; close them before",
    ),
    (srcu::Refusal::Running, RUNNING),
    (
        srcu::Refusal::Unfinished(3),
        "callbacks that are not finished: 3; wait in a barrier before",
    ),
];

const BOX_REFUSAL: [(srcu::BoxRefusal, &str); 2] = [
    (srcu::BoxRefusal::Memory, MEMORY),
    (srcu::BoxRefusal::NoSlot, NO_FREE_SLOT),
];

const EMPTY_REFUSAL: [(srcu::EmptyRefusal, &str); 3] = [
    (
        srcu::EmptyRefusal::TimedOut(4),
        "the time is over, and boxes are left: 4; find who reads them, and call again",
    ),
    (srcu::EmptyRefusal::Periods, NO_PERIOD),
    (
        srcu::EmptyRefusal::Spent,
        "the cell has had 2^54 versions: its boxes stay there",
    ),
];

/// Would catch a text that is another error's.
#[test]
fn of_sections_and_periods(rt: HostRuntime) -> Result<(), Fail> {
    compare(&rt, &MAKE_ERROR)?;
    compare(&rt, &EXHAUSTED)?;
    compare(&rt, &NOT_ACOOKIE)?;
    compare(&rt, &SET_FULL)?;
    compare(&rt, &ADVANCE_REFUSAL)?;
    compare(&rt, &START_REFUSAL)?;
    compare(&rt, &NOT_STARTED)?;
    compare(&rt, &BUSY)?;
    compare(&rt, &PERIODS_EXHAUSTED)?;
    compare(&rt, &ILLEGAL)?;
    Ok(())
}

/// Would catch a text that is another error's.
#[test]
fn of_jobs_and_domains(rt: HostRuntime) -> Result<(), Fail> {
    compare(&rt, &CALL_REFUSAL)?;
    compare(&rt, &TAKE_REFUSAL)?;
    compare(&rt, &IN_USE)?;
    compare(&rt, &TIMED_OUT)?;
    compare(&rt, &RUN_ERROR)?;
    Ok(())
}

/// Would catch a text that is another error's.
#[test]
fn of_versions(rt: HostRuntime) -> Result<(), Fail> {
    compare(&rt, &NO_SLOT)?;
    compare(&rt, &INSTALL_REFUSAL)?;
    compare(&rt, &REMOVE_REFUSAL)?;
    compare(&rt, &REGISTER_REFUSAL)?;
    compare(&rt, &UNREGISTER_REFUSAL)?;
    compare(&rt, &INSERT_REFUSAL)?;
    compare(&rt, &REGISTRY_REMOVE_REFUSAL)?;
    compare(&rt, &REPLACE_REFUSAL)?;
    compare(&rt, &STAY_REFUSAL)?;
    compare(&rt, &REGISTRY_WAIT_REFUSAL)?;
    Ok(())
}

/// Would catch a text that is another error's.
#[test]
fn of_workers(rt: HostRuntime) -> Result<(), Fail> {
    compare(&rt, &REFUSAL)?;
    compare(&rt, &BOX_REFUSAL)?;
    compare(&rt, &EMPTY_REFUSAL)?;
    Ok(())
}

/// Those of a wait that was cut short, one of which has the cookie.
#[test]
fn of_waits(rt: HostRuntime) -> Result<(), Fail> {
    let (domain, mut cpus, _writers) = domain::Domain::<u64>::new(rt.alloc(), 1, srcu::WIDEST)?;
    let cookie = domain.start_poll(&mut cpus[0]);
    let late = domain::WaitRefusal::TimedOut(cookie).to_string(rt.alloc())?;
    assert_eq!(rt;
        late.as_str(),
        "the time is over: find who holds it up, and poll the cookie"
    );
    let spent = domain::WaitRefusal::Exhausted.to_string(rt.alloc())?;
    assert_eq!(rt; spent.as_str(), NO_PERIOD);
    Ok(())
}
