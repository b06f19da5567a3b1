//! What each refusal of the libraries below becomes.
use srcu::{
    AdvanceRefusal, BoxRefusal, CallRefusal, EmptyRefusal, Exhausted, GiveRefusal, InUse,
    InstallRefusal, MakeError, NoSlot, NotACookie, PeriodsExhausted, Refusal, RegisterRefusal,
    RemoveRefusal, Served, SetFull, StartRefusal, TakeRefusal, TimedOut, UnregisterRefusal,
    UpdateRefusal, WaitRefusal,
};
use std::alloc::AllocError;
use std::test::Fail;

/// Would catch a refusal that becomes another one.
#[test]
fn refusals_of_sections_and_periods(rt: HostRuntime) -> Result<(), Fail> {
    let made: [Refusal; 4] = [
        MakeError::Processors.into(),
        MakeError::Limits.into(),
        MakeError::Memory.into(),
        AllocError.into(),
    ];
    assert_eq!(rt;
        made,
        [
            Refusal::Processors,
            Refusal::Limits,
            Refusal::Memory,
            Refusal::Memory
        ]
    );
    let served = Served {
        periods: 0,
        jobs: 0,
    };
    let driven: [Refusal; 5] = [
        Exhausted.into(),
        PeriodsExhausted.into(),
        (served, PeriodsExhausted).into(),
        AdvanceRefusal::Busy.into(),
        AdvanceRefusal::Exhausted.into(),
    ];
    assert_eq!(rt;
        driven,
        [
            Refusal::Sections,
            Refusal::Periods,
            Refusal::Periods,
            Refusal::Busy,
            Refusal::Periods
        ]
    );
    let waited: [Refusal; 2] = [TimedOut.into(), WaitRefusal::Exhausted.into()];
    assert_eq!(rt; waited, [Refusal::TimedOut, Refusal::Periods]);
    let started: [Refusal; 3] = [
        StartRefusal::Busy.into(),
        StartRefusal::Running.into(),
        StartRefusal::Exhausted.into(),
    ];
    assert_eq!(rt;
        started,
        [Refusal::Busy, Refusal::Running, Refusal::Periods]
    );
    let asked: [Refusal; 2] = [NotACookie.into(), SetFull.into()];
    assert_eq!(rt; asked, [Refusal::NotACookie, Refusal::SetFull]);
    Ok(())
}

/// Would catch a refusal that becomes another one.
#[test]
fn refusals_of_jobs(rt: HostRuntime) -> Result<(), Fail> {
    let job: u64 = 7;
    let queued: [Refusal; 5] = [
        CallRefusal::Exhausted.into(),
        CallRefusal::Memory.into(),
        (job, CallRefusal::Exhausted).into(),
        TakeRefusal::Invoking.into(),
        TakeRefusal::Memory.into(),
    ];
    assert_eq!(rt;
        queued,
        [
            Refusal::Jobs,
            Refusal::Memory,
            Refusal::Jobs,
            Refusal::Invoking,
            Refusal::Memory
        ]
    );
    let sign: GiveRefusal<u64> = GiveRefusal::Memory;
    let given: Refusal = sign.into();
    assert_eq!(rt; given, Refusal::Memory);
    let left: [Refusal; 4] = [
        InUse::Missing(1).into(),
        InUse::Sections(2).into(),
        InUse::Period.into(),
        InUse::Callbacks(3).into(),
    ];
    assert_eq!(rt;
        left,
        [
            Refusal::Missing(1),
            Refusal::Open(2),
            Refusal::Running,
            Refusal::Unfinished(3)
        ]
    );
    Ok(())
}

/// Would catch a refusal that becomes another one.
#[test]
fn refusals_of_versions(rt: HostRuntime) -> Result<(), Fail> {
    let tables: [Refusal; 6] = [
        NoSlot.into(),
        InstallRefusal::Full.into(),
        InstallRefusal::NoSlot.into(),
        InstallRefusal::Memory.into(),
        RemoveRefusal::NotThere.into(),
        RemoveRefusal::NoSlot.into(),
    ];
    assert_eq!(rt;
        tables,
        [
            Refusal::NoSlot,
            Refusal::TableFull,
            Refusal::NoSlot,
            Refusal::Memory,
            Refusal::NoKey,
            Refusal::NoSlot
        ]
    );
    let value: u64 = 7;
    let boxes: [Refusal; 3] = [
        BoxRefusal::Memory.into(),
        BoxRefusal::NoSlot.into(),
        (value, BoxRefusal::NoSlot).into(),
    ];
    assert_eq!(rt; boxes, [Refusal::Memory, Refusal::NoSlot, Refusal::NoSlot]);
    let made: UpdateRefusal<u64, Exhausted, BoxRefusal> = UpdateRefusal::Made(Exhausted);
    let put: UpdateRefusal<u64, Exhausted, BoxRefusal> = UpdateRefusal::Put(
        value,
        BoxRefusal::Memory,
    );
    let emptied: [Refusal; 6] = [
        EmptyRefusal::TimedOut(1).into(),
        EmptyRefusal::Periods.into(),
        EmptyRefusal::Spent.into(),
        (value, Refusal::Periods).into(),
        made.into(),
        put.into(),
    ];
    assert_eq!(rt;
        emptied,
        [
            Refusal::TimedOut,
            Refusal::Periods,
            Refusal::NoSlot,
            Refusal::Periods,
            Refusal::Sections,
            Refusal::Memory
        ]
    );
    let chains: [Refusal; 6] = [
        RegisterRefusal::There.into(),
        RegisterRefusal::Full.into(),
        RegisterRefusal::NoSlot.into(),
        RegisterRefusal::Memory.into(),
        UnregisterRefusal::NotThere.into(),
        UnregisterRefusal::NoSlot.into(),
    ];
    assert_eq!(rt;
        chains,
        [
            Refusal::Registered,
            Refusal::ChainFull,
            Refusal::NoSlot,
            Refusal::Memory,
            Refusal::NotRegistered,
            Refusal::NoSlot
        ]
    );
    Ok(())
}
