//! One crate to name: a worker, which is a processor with its domain, and the calls that most programs need of the libraries below.
#![tactic(auto)]

mod answers;
mod limits;
pub mod live;
mod making;
mod napping;
mod refusal;
mod section;
mod team;
mod worker;

pub use answers::{BoxRefusal, Called, Ids, Lens};
pub use boxes::{BoxPin, BoxWriter, Boxes, HeldBox, Part, Terms, make as make_boxes};
pub use domain::{
    AdvanceRefusal, Batch, CallRefusal, Columns, Cookie, CookieSet, Counters, Counts, Cpu, Domain,
    Exhausted, Glance, Heard, Held, HeldPin, Holder, InUse, Index, Limits, Look, MOST_PROCESSORS,
    MakeError, Memory, NotACookie, Number, Pair, PeriodsExhausted, Pin, Progress, Reading, Receipt,
    SetFull, Slot, Snapshot, StartRefusal, TakeRefusal, Ticket, TimedOut, Totals, WaitRefusal,
    Writer,
};
pub use driver::{
    AtHome, GiveRefusal, Lent, Pool, Report, Served, Slip, Stall, Stop, Stopped, Tallied, Tally,
    Told, serve_with,
};
pub use limits::WIDEST;
pub use live::Live;
pub use mailbox::{Mailbox, Posted};
pub use making::{clean_up, make};
pub use notify::{
    BAD, Chain, ChainView, DONE, Handler, OK, RegisterRefusal, STOP, STOP_BIT, UnregisterRefusal,
};
pub use plugs::{InstallRefusal, Lease, RemoveRefusal, Row, Table, TableView};
pub use refusal::Refusal;
pub use section::Section;
pub use shelf::{NoSlot, Shelf, Values, Versioned};
pub use team::Team;
pub use worker::{EmptyRefusal, UpdateRefusal, Worker};
