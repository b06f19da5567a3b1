//! A sleepable RCU domain: its processors, its tree of needs, its callbacks, and its engine, which lies in one place that
//! all share. Any processor may drive it from there; who finds it taken is told so at once.
#![tactic(auto)]

mod cpu;
mod domain;
mod limit;
mod pause;
mod publishing;
mod set;

pub use calls::{Batch, CallRefusal, Entry, Memory, Receipt, TakeRefusal, Ticket};
pub use cpu::Cpu;
pub use domain::Domain;
pub use domain::bell::Heard;
pub use domain::cleanup::{InUse, Totals};
pub use domain::waiting::limited::WaitRefusal;
pub use glance::{Columns, Counters, Counts, Glance, Holder, Pair, Snapshot, Table};
pub use limit::TimedOut;
pub use pause::Pause;
pub use publishing::{claim, publish};
pub use scan::refusals::{AdvanceRefusal, StartRefusal};
pub use scan::{PeriodsExhausted, Progress};
pub use sections::{
    Anywhere, Cookie, Exhausted, Found, Given, Held, HeldPin, Here, Home, Kind, Limits, Loan, Look,
    MOST_MEMBERS, MOST_PROCESSORS, MakeError, NotACookie, Pin, Reading, Section, SectionPin,
    SetFull, Slot, Standing, Writer,
};
pub use set::CookieSet;
pub use sseq::{Index, Number};
