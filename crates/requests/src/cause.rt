//! Why a line is refused.
use std::fmt;

/// Why a line was refused that is not faulty.
#[derive(Clone, Copy, Debug, PartialEq, Eq)]
pub enum Cause {
    /// 8 domains are there, or 8 sets, a section is parked already, or there are 15 handlers on the chain or 15 keys in the table.
    Full,
    /// No section is parked.
    Empty,
    /// A domain has 1 to 256 processors.
    Processors,
    /// There was no memory for the domain, the job or the ticket.
    Memory,
    /// As many sections or grace periods began as may, or as many jobs were queued.
    Exhausted,
    /// A grace period runs.
    Running,
    /// Another call has the engine. A script has one thread, which meets none.
    Busy,
    /// The number is no cookie.
    NotACookie,
    /// A batch of the processor is out.
    Invoking,
    /// No batch of the processor is out.
    NoBatch,
    /// So many sections of the domain are open, parked ones among them.
    Sections(u64),
    /// A grace period of the domain runs.
    Period,
    /// So many jobs of the domain are queued and not finished, those of a batch that is out among them.
    Callbacks(u128),
    /// The handler is on the chain, at whatever priority.
    There,
    /// The handler is not on the chain, or the key not in the table.
    NotThere,
    /// No slot is free for a further version of the chain or the table.
    NoSlot,
}

impl fmt::Display for Cause {
    ghost use Rattle.std.specs.Prelude.{Some};
    ghost use Rattle.requests.specs.Replies.{cause_text};

    ghost output = { λ cause. Some (cause_text cause) };

    fn fmt<W: fmt::Write>(&self, f: &mut fmt::Formatter<W>) -> fmt::Result {
        match self {
            Cause::Full => f.write_str("full"),
            Cause::Empty => f.write_str("empty"),
            Cause::Processors => f.write_str("processors"),
            Cause::Memory => f.write_str("memory"),
            Cause::Exhausted => f.write_str("exhausted"),
            Cause::Running => f.write_str("running"),
            Cause::Busy => f.write_str("busy"),
            Cause::NotACookie => f.write_str("not-a-cookie"),
            Cause::Invoking => f.write_str("invoking"),
            Cause::NoBatch => f.write_str("none"),
            Cause::Sections(count) => write!(f, "sections {count}"),
            Cause::Period => f.write_str("period"),
            Cause::Callbacks(count) => write!(f, "callbacks {count}"),
            Cause::There => f.write_str("there"),
            Cause::NotThere => f.write_str("notthere"),
            Cause::NoSlot => f.write_str("noslot"),
        }
    }
}
