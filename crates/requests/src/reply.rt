//! Replies.
ghost use Rattle.std.specs.Prelude.{◌≡◌, ◌++◌, true, Some, OnOk};
ghost use Rattle.std.specs.Fmt.{DisplaysOnOk};
ghost use Rattle.requests.specs.Families.{is_of_periods, is_of_sections, is_of_jobs, is_of_chains, is_of_tables};
ghost use Rattle.requests.specs.Replies.{reply_text};

use crate::block_ids::BlockIds;
use crate::cause::Cause;
use crate::command::Command;
use crate::fault::Fault;
use crate::job_names::JobNames;
use lines::Name;
use scan::Progress;
use sseq::{Index, Number, Phase};
use std::alloc::{AllocError, Allocator};
use std::fmt;
use std::io::Write;

/// Where the grace periods of a domain stand: `number N PHASE`.
#[derive(Clone, Copy, Debug, PartialEq, Eq)]
pub struct Period {
    pub number: Number,
    pub phase: Phase,
}

/// The index that a look finds now, how many sections of index 0 and of index 1 are open, and the greatest number that
/// was asked for: `index I open A B need R`.
#[derive(Clone, Copy, Debug, PartialEq, Eq)]
pub struct Sections {
    pub index: Index,
    pub zero: usize,
    pub one: usize,
    pub need: Number,
}

/// How many jobs wait for a number, and for which, 0 where none does: `B N`.
#[derive(Clone, Copy, Debug, PartialEq, Eq)]
pub struct Waiting {
    pub count: usize,
    pub number: u64,
}

/// How many jobs of a processor are done, which wait for a first and which for a second number, and how many have no
/// number yet: `done A wait B N1 ready C N2 next E`.
#[derive(Clone, Copy, Debug, PartialEq, Eq)]
pub struct Segments {
    pub done: usize,
    pub wait: Waiting,
    pub ready: Waiting,
    pub next: usize,
}

/// The reply to a line.
#[derive(Clone, Copy)]
pub enum Reply {
    /// A domain was made, of so many processors.
    Made {
        domain: Name,
        processors: u64,
    },
    /// Where a domain stands.
    State {
        domain: Name,
        period: Period,
        sections: Sections,
    },
    /// A look found this index.
    Look(Index),
    /// A section began, of this index.
    Index(Index),
    /// A section ended.
    Closed,
    /// A section lies on the domain's desk now.
    Parked,
    /// The section of this name lay on the domain's desk, and lies there no more.
    Took(Name),
    /// The number of the cookie that was given.
    Cookie(u64),
    /// The cookie is done, or the ticket, or all cookies of a set.
    Done,
    /// The cookie is not done, or the ticket, or one of the cookies of a set.
    NotYet,
    /// What the engine answered.
    Progress(Progress),
    /// A job was queued: its number among those of its processor, from 0, and the cookie that it waits for.
    Queued {
        k: u64,
        cookie: u64,
    },
    /// The jobs of these names ran, in this order.
    Ran(JobNames),
    /// The jobs of these names are out, in this order.
    TookJobs(JobNames),
    /// So many jobs that were out ran, and their batch is finished.
    Finished(usize),
    /// How the jobs of a processor wait.
    Segs(Segments),
    /// A ticket was given.
    Ticket,
    /// The handler of this id is on the chain now.
    Registered(u64),
    /// The handler of this id is on the chain no more.
    Unregistered(u64),
    /// The handlers of these ids are on the chain, in the order in which they are called.
    Chain(BlockIds),
    /// What the last handler answered that was called, and how many were called.
    Called {
        last: u32,
        calls: u64,
    },
    /// The key has its plug, from this version of the table on.
    Installed(u64),
    /// The key is gone, from this version of the table on.
    Removed(u64),
    /// The plug of the key.
    Plug(u32),
    /// The key has no plug.
    NoPlug,
    /// A lease was given: the index of its section, and its version.
    Leased {
        index: Index,
        version: u64,
    },
    /// A lease ended.
    Released,
    /// A set was made, of the cookies of these numbers, in order.
    Set(BlockIds),
    /// A domain was taken down, in which so many sections ever began, and so many ended.
    Cleaned {
        opened: u64,
        closed: u64,
    },
    /// The line was refused, for this cause.
    Refused(Command, Cause),
    /// The line of this number, from 1, is faulty.
    Faulty {
        line: u64,
        fault: Fault,
    },
}

/// A handler's answer, as it is shown: in lower hexadecimal, with four digits at least.
#[derive(Clone, Copy)]
struct Hexadecimal(u32);

impl fmt::Display for Hexadecimal {
    ghost use Rattle.std.specs.Prelude.{Some};
    ghost use Rattle.requests.specs.Replies.{hexadecimal};

    ghost output = { λ answer. Some (hexadecimal answer.0) };

    fn fmt<W: fmt::Write>(&self, f: &mut fmt::Formatter<W>) -> fmt::Result {
        write!(f, "{:04x}", self.0)
    }
}

impl fmt::Display for Period {
    ghost use Rattle.std.specs.Prelude.{Some};
    ghost use Rattle.requests.specs.Replies.{period_text};

    ghost output = { λ period. Some (period_text period) };

    fn fmt<W: fmt::Write>(&self, f: &mut fmt::Formatter<W>) -> fmt::Result {
        let Period { number, phase } = self;
        write!(f, "number {number} {phase}")
    }
}

impl fmt::Display for Sections {
    ghost use Rattle.std.specs.Prelude.{Some};
    ghost use Rattle.requests.specs.Replies.{sections_text};

    ghost output = { λ sections. Some (sections_text sections) };

    fn fmt<W: fmt::Write>(&self, f: &mut fmt::Formatter<W>) -> fmt::Result {
        let Sections {
            index,
            zero,
            one,
            need,
        } = self;
        write!(f, "index {index} open {zero} {one} need {need}")
    }
}

impl fmt::Display for Waiting {
    ghost use Rattle.std.specs.Prelude.{Some};
    ghost use Rattle.requests.specs.Replies.{waiting_text};

    ghost output = { λ waiting. Some (waiting_text waiting) };

    fn fmt<W: fmt::Write>(&self, f: &mut fmt::Formatter<W>) -> fmt::Result {
        let Waiting { count, number } = self;
        write!(f, "{count} {number}")
    }
}

impl fmt::Display for Segments {
    ghost use Rattle.std.specs.Prelude.{Some};
    ghost use Rattle.requests.specs.Replies.{segments_text};

    ghost output = { λ segments. Some (segments_text segments) };

    fn fmt<W: fmt::Write>(&self, f: &mut fmt::Formatter<W>) -> fmt::Result {
        let Segments {
            done,
            wait,
            ready,
            next,
        } = self;
        write!(f, "done {done} wait {wait} ready {ready} next {next}")
    }
}

/// What the engine answered, as it is shown.
#[derive(Clone, Copy)]
struct Answered<'a>(&'a Progress);

impl<'a> fmt::Display for Answered<'a> {
    ghost use Rattle.std.specs.Prelude.{Some};
    ghost use Rattle.requests.specs.Replies.{progress_text};

    ghost output = { λ answered. Some (progress_text answered.0.now) };

    fn fmt<W: fmt::Write>(&self, f: &mut fmt::Formatter<W>) -> fmt::Result {
        match self.0 {
            Progress::Idle => write!(f, "idle"),
            Progress::Started(number) => write!(f, "started {number}"),
            Progress::Flipped(index) => write!(f, "flipped {index}"),
            Progress::Ended(number) => write!(f, "ended {number}"),
            Progress::Waiting(index) => write!(f, "waiting {index}"),
            Progress::Step => write!(f, "step"),
        }
    }
}

impl fmt::Display for Reply {
    ghost use Rattle.std.specs.Prelude.{Some};
    ghost use Rattle.requests.specs.Replies.{reply_text};

    ghost output = { λ reply. Some (reply_text reply) };

    fn fmt<W: fmt::Write>(&self, f: &mut fmt::Formatter<W>) -> fmt::Result {
        match self {
            Reply::Made { .. }
            | Reply::State { .. }
            | Reply::Cookie(_)
            | Reply::Done
            | Reply::NotYet
            | Reply::Set(_)
            | Reply::Cleaned { .. } => self.write_of_periods(f),
            Reply::Look(_) | Reply::Index(_) | Reply::Closed | Reply::Parked | Reply::Took(_) =>
                self.write_of_sections(f),
            Reply::Progress(progress) => writeln!(f, "{}", Answered(progress)),
            Reply::Queued { .. }
            | Reply::Ran(_)
            | Reply::TookJobs(_)
            | Reply::Finished(_)
            | Reply::Segs(_)
            | Reply::Ticket => self.write_of_jobs(f),
            Reply::Registered(_)
            | Reply::Unregistered(_)
            | Reply::Chain(_)
            | Reply::Called { .. } => self.write_of_chains(f),
            Reply::Installed(_)
            | Reply::Removed(_)
            | Reply::Plug(_)
            | Reply::NoPlug
            | Reply::Leased { .. }
            | Reply::Released => self.write_of_tables(f),
            Reply::Refused(command, cause) => writeln!(f, "refused {command} {cause}"),
            Reply::Faulty { line, fault } => writeln!(f, "line {line}: {fault}"),
        }
    }
}

// A match over all replies at once takes the prover very long: so each family of them is written by itself.
impl Reply {
    /// Writes a reply that tells of a domain, cookies or a set.
    fn write_of_periods<W: fmt::Write>(&self, f: &mut fmt::Formatter<W>) -> fmt::Result
        requires { is_of_periods self.now ≡ true }
        ensures { DisplaysOnOk W.write_str_gives f.old result (Some (reply_text self.now)) f.new }
    {
        match self {
            Reply::Made { domain, processors } => writeln!(f, "made {domain} {processors}"),
            Reply::State {
                domain,
                period,
                sections,
            } => writeln!(f, "state {domain} {period} {sections}"),
            Reply::Cookie(cookie) => writeln!(f, "cookie {cookie}"),
            Reply::Done => writeln!(f, "done"),
            Reply::NotYet => writeln!(f, "not yet"),
            Reply::Set(numbers) => writeln!(f, "set{numbers}"),
            Reply::Cleaned { opened, closed } => {
                writeln!(f, "cleaned opened {opened} closed {closed}")
            }
            _ => unreachable!(),
        }
    }

    /// Writes a reply that tells of a look or a section.
    fn write_of_sections<W: fmt::Write>(&self, f: &mut fmt::Formatter<W>) -> fmt::Result
        requires { is_of_sections self.now ≡ true }
        ensures { DisplaysOnOk W.write_str_gives f.old result (Some (reply_text self.now)) f.new }
    {
        match self {
            Reply::Look(index) => writeln!(f, "look {index}"),
            Reply::Index(index) => writeln!(f, "index {index}"),
            Reply::Closed => writeln!(f, "closed"),
            Reply::Parked => writeln!(f, "parked"),
            Reply::Took(section) => writeln!(f, "took {section}"),
            _ => unreachable!(),
        }
    }

    /// Writes a reply that tells of jobs, or of a ticket for them.
    fn write_of_jobs<W: fmt::Write>(&self, f: &mut fmt::Formatter<W>) -> fmt::Result
        requires { is_of_jobs self.now ≡ true }
        ensures { DisplaysOnOk W.write_str_gives f.old result (Some (reply_text self.now)) f.new }
    {
        match self {
            Reply::Queued { k, cookie } => writeln!(f, "queued {k} cookie {cookie}"),
            Reply::Ran(jobs) => writeln!(f, "ran{jobs}"),
            Reply::TookJobs(jobs) => writeln!(f, "took{jobs}"),
            Reply::Finished(count) => writeln!(f, "finished {count}"),
            Reply::Segs(segments) => writeln!(f, "segs {segments}"),
            Reply::Ticket => writeln!(f, "ticket"),
            _ => unreachable!(),
        }
    }

    /// Writes a reply that tells of a chain.
    fn write_of_chains<W: fmt::Write>(&self, f: &mut fmt::Formatter<W>) -> fmt::Result
        requires { is_of_chains self.now ≡ true }
        ensures { DisplaysOnOk W.write_str_gives f.old result (Some (reply_text self.now)) f.new }
    {
        match self {
            Reply::Registered(id) => writeln!(f, "registered {id}"),
            Reply::Unregistered(id) => writeln!(f, "unregistered {id}"),
            Reply::Chain(ids) => writeln!(f, "chain{ids}"),
            Reply::Called { last, calls } => writeln!(f, "{} calls {calls}", Hexadecimal(*last)),
            _ => unreachable!(),
        }
    }

    /// Writes a reply that tells of a table, or of a lease of it.
    fn write_of_tables<W: fmt::Write>(&self, f: &mut fmt::Formatter<W>) -> fmt::Result
        requires { is_of_tables self.now ≡ true }
        ensures { DisplaysOnOk W.write_str_gives f.old result (Some (reply_text self.now)) f.new }
    {
        match self {
            Reply::Installed(version) => writeln!(f, "installed version {version}"),
            Reply::Removed(version) => writeln!(f, "removed version {version}"),
            Reply::Plug(plug) => writeln!(f, "plug {plug}"),
            Reply::NoPlug => writeln!(f, "none"),
            Reply::Leased { index, version } => {
                writeln!(f, "lease index {index} version {version}")
            }
            Reply::Released => writeln!(f, "released"),
            _ => unreachable!(),
        }
    }
}

/// Puts the reply's text behind the bytes that are there. Where memory runs out, some first bytes of it may be there.
pub fn push_reply<A: Allocator>(bytes: &mut Vec<u8, A>, reply: &Reply) -> Result<(), AllocError>
    ensures { OnOk result (bytes.new.items ≡ bytes.old.items ++ reply_text reply.now) }
{
    write!(bytes, "{reply}").map_err(|_| AllocError)
}
