//! One type for all refusals, which a program hands on by `?`.
use crate::answers::BoxRefusal;
use domain::{
    AdvanceRefusal, CallRefusal, Cookie, Cpu, Domain, Exhausted, InUse, MakeError, NotACookie,
    PeriodsExhausted, SetFull, StartRefusal, TakeRefusal, TimedOut, WaitRefusal,
};
use driver::{AtHome, GiveRefusal, Served};
use notify::{RegisterRefusal, UnregisterRefusal};
use plugs::{InstallRefusal, RemoveRefusal};
use shelf::NoSlot;
use std::alloc::{AllocError, AllocFailed, Allocator};
use thiserror::Error;

/// Why a call was refused. The text says what to do, and is the refused call's own. `?` drops what came back beside it: a job, a cookie, a domain. Match on the
/// call's own refusal to keep that.
#[derive(Clone, Copy, Debug, Error, PartialEq, Eq)]
pub enum Refusal {
    /// An allocation was refused.
    #[error("{}", CallRefusal::Memory)]
    Memory,
    /// The number of processors is 0 or above 256.
    #[error("{}", MakeError::Processors)]
    Processors,
    /// A limit of the domain is out of its range.
    #[error("{}", MakeError::Limits)]
    Limits,
    /// The processor has begun as many sections of the index as `Limits.sections` allows.
    #[error("{}", Exhausted)]
    Sections,
    /// As many grace periods have ended as `Limits.periods` allows.
    #[error("{}", PeriodsExhausted)]
    Periods,
    /// The number is no cookie's.
    #[error("{}", NotACookie)]
    NotACookie,
    /// The set has eight cookies.
    #[error("{}", SetFull)]
    SetFull,
    /// The limit passed before the wait ended.
    #[error("{}", TimedOut)]
    TimedOut,
    /// 2^54 jobs were queued on the processor.
    #[error("{}", CallRefusal::Exhausted)]
    Jobs,
    /// Another call has the engine.
    #[error("{}", AdvanceRefusal::Busy)]
    Busy,
    /// A batch of the processor is out.
    #[error("{}", TakeRefusal::Invoking)]
    Invoking,
    /// Every slot holds the current version or one that a section may still read. Or the cell has had 2^54 versions.
    #[error("{}", NoSlot)]
    NoSlot,
    /// The table has fifteen keys.
    #[error("{}", InstallRefusal::Full)]
    TableFull,
    /// The key is not in the table.
    #[error("{}", RemoveRefusal::NotThere)]
    NoKey,
    /// The chain has fifteen handlers.
    #[error("{}", RegisterRefusal::Full)]
    ChainFull,
    /// The handler is in the chain.
    #[error("{}", RegisterRefusal::There)]
    Registered,
    /// The handler is not in the chain.
    #[error("{}", UnregisterRefusal::NotThere)]
    NotRegistered,
    /// A team has no worker left.
    #[error("no worker is left: make the domain with more processors")]
    NoWorker,
    /// A team has no writer left.
    #[error("no writer is left: make the domain with more cells")]
    NoWriter,
    /// All processors of the pool are out.
    #[error("no processor is at home: give one back, and call again")]
    NoneAtHome,
    /// The sign was given before.
    #[error("the sign was given before: wait for the driver's end")]
    Given,
    /// The domain lacks so many of its processors.
    #[error("{}", InUse::Missing(*.0))]
    Missing(u16),
    /// So many sections are open.
    #[error("{}", InUse::Sections(*.0))]
    Open(u64),
    /// A grace period runs.
    #[error("{}", InUse::Period)]
    Running,
    /// So many jobs are queued and not finished.
    #[error("{}", InUse::Callbacks(*.0))]
    Unfinished(u128),
}

impl From<AllocError> for Refusal {
    fn from(_refusal: AllocError) -> Refusal {
        Refusal::Memory
    }
}

impl<T: Drop> From<AllocFailed<T>> for Refusal {
    fn from(_refusal: AllocFailed<T>) -> Refusal {
        Refusal::Memory
    }
}

impl From<MakeError> for Refusal {
    fn from(refusal: MakeError) -> Refusal {
        match refusal {
            MakeError::Processors => Refusal::Processors,
            MakeError::Limits => Refusal::Limits,
            MakeError::Memory => Refusal::Memory,
        }
    }
}

impl From<Exhausted> for Refusal {
    fn from(_refusal: Exhausted) -> Refusal {
        Refusal::Sections
    }
}

impl From<PeriodsExhausted> for Refusal {
    fn from(_refusal: PeriodsExhausted) -> Refusal {
        Refusal::Periods
    }
}

impl From<(Served, PeriodsExhausted)> for Refusal {
    fn from(refusal: (Served, PeriodsExhausted)) -> Refusal {
        refusal.1.into()
    }
}

impl From<TimedOut> for Refusal {
    fn from(_refusal: TimedOut) -> Refusal {
        Refusal::TimedOut
    }
}

impl From<WaitRefusal> for Refusal {
    fn from(refusal: WaitRefusal) -> Refusal {
        match refusal {
            WaitRefusal::TimedOut(_) => Refusal::TimedOut,
            WaitRefusal::Exhausted => Refusal::Periods,
        }
    }
}

impl From<AdvanceRefusal> for Refusal {
    fn from(refusal: AdvanceRefusal) -> Refusal {
        match refusal {
            AdvanceRefusal::Busy => Refusal::Busy,
            AdvanceRefusal::Exhausted => Refusal::Periods,
        }
    }
}

impl From<StartRefusal> for Refusal {
    fn from(refusal: StartRefusal) -> Refusal {
        match refusal {
            StartRefusal::Busy => Refusal::Busy,
            StartRefusal::Running => Refusal::Running,
            StartRefusal::Exhausted => Refusal::Periods,
        }
    }
}

impl From<NotACookie> for Refusal {
    fn from(_refusal: NotACookie) -> Refusal {
        Refusal::NotACookie
    }
}

impl From<SetFull> for Refusal {
    fn from(_refusal: SetFull) -> Refusal {
        Refusal::SetFull
    }
}

impl From<(Cookie, SetFull)> for Refusal {
    fn from(refusal: (Cookie, SetFull)) -> Refusal {
        refusal.1.into()
    }
}

impl From<CallRefusal> for Refusal {
    fn from(refusal: CallRefusal) -> Refusal {
        match refusal {
            CallRefusal::Exhausted => Refusal::Jobs,
            CallRefusal::Memory => Refusal::Memory,
        }
    }
}

impl<J: Drop> From<(J, CallRefusal)> for Refusal {
    fn from(refusal: (J, CallRefusal)) -> Refusal {
        refusal.1.into()
    }
}

impl From<TakeRefusal> for Refusal {
    fn from(refusal: TakeRefusal) -> Refusal {
        match refusal {
            TakeRefusal::Invoking => Refusal::Invoking,
            TakeRefusal::Memory => Refusal::Memory,
        }
    }
}

impl From<NoSlot> for Refusal {
    fn from(_refusal: NoSlot) -> Refusal {
        Refusal::NoSlot
    }
}

impl From<BoxRefusal> for Refusal {
    fn from(refusal: BoxRefusal) -> Refusal {
        match refusal {
            BoxRefusal::Memory => Refusal::Memory,
            BoxRefusal::NoSlot => Refusal::NoSlot,
        }
    }
}

impl<V: Drop> From<(V, BoxRefusal)> for Refusal {
    fn from(refusal: (V, BoxRefusal)) -> Refusal {
        refusal.1.into()
    }
}

impl From<InstallRefusal> for Refusal {
    fn from(refusal: InstallRefusal) -> Refusal {
        match refusal {
            InstallRefusal::Full => Refusal::TableFull,
            InstallRefusal::NoSlot => Refusal::NoSlot,
            InstallRefusal::Memory => Refusal::Memory,
        }
    }
}

impl From<RemoveRefusal> for Refusal {
    fn from(refusal: RemoveRefusal) -> Refusal {
        match refusal {
            RemoveRefusal::NotThere => Refusal::NoKey,
            RemoveRefusal::NoSlot => Refusal::NoSlot,
        }
    }
}

impl From<RegisterRefusal> for Refusal {
    fn from(refusal: RegisterRefusal) -> Refusal {
        match refusal {
            RegisterRefusal::There => Refusal::Registered,
            RegisterRefusal::Full => Refusal::ChainFull,
            RegisterRefusal::NoSlot => Refusal::NoSlot,
            RegisterRefusal::Memory => Refusal::Memory,
        }
    }
}

impl From<UnregisterRefusal> for Refusal {
    fn from(refusal: UnregisterRefusal) -> Refusal {
        match refusal {
            UnregisterRefusal::NotThere => Refusal::NotRegistered,
            UnregisterRefusal::NoSlot => Refusal::NoSlot,
        }
    }
}

/// What [`Pool::try_take`](crate::Pool::try_take) and `try_with` saw where they are refused.
impl<J: Drop, A: Allocator> From<AtHome<J, A>> for Refusal {
    fn from(_home: AtHome<J, A>) -> Refusal {
        Refusal::NoneAtHome
    }
}

impl<J: Drop, A: Allocator> From<GiveRefusal<J, A>> for Refusal {
    fn from(refusal: GiveRefusal<J, A>) -> Refusal {
        match refusal {
            GiveRefusal::Memory => Refusal::Memory,
            GiveRefusal::Given(_) => Refusal::Given,
        }
    }
}

impl From<InUse> for Refusal {
    fn from(refusal: InUse) -> Refusal {
        match refusal {
            InUse::Missing(processors) => Refusal::Missing(processors),
            InUse::Sections(open) => Refusal::Open(open),
            InUse::Period => Refusal::Running,
            InUse::Callbacks(jobs) => Refusal::Unfinished(jobs),
        }
    }
}

impl<J: Drop, A: Allocator> From<(InUse, Domain<J, A>, Vec<Cpu<J, A>, A>)> for Refusal {
    fn from(refusal: (InUse, Domain<J, A>, Vec<Cpu<J, A>, A>)) -> Refusal {
        refusal.0.into()
    }
}
