//! What a line without fault asks for.
use crate::handler_answers::HandlerAnswers;
use crate::members::Members;
use lines::Name;

/// What a line asks for.
#[derive(Clone, Copy, PartialEq, Eq)]
pub enum Request {
    /// A new domain, of so many processors.
    Domain { name: Name, processors: u64 },
    /// That the domain at this place does something.
    On { domain: usize, act: Act },
    /// A new set of this name, of the cookies that its members are given. Each asks for its grace period.
    Set { name: Name, members: Members },
    /// To tell whether all cookies of the set at this place are done.
    SetPoll { set: usize },
    /// That the domain at this place is taken down.
    Cleanup { domain: usize },
}

/// What a domain is to do.
#[derive(Clone, Copy, PartialEq, Eq)]
pub enum Act {
    /// To show where it stands.
    State,
    /// To find the current index on the processor: a look of this name.
    Look {
        processor: u64,
        look: Name,
    },
    /// To begin a section of the look's index on the processor, under the look's name.
    Enter {
        processor: u64,
        look: Name,
    },
    /// To begin a section of the current index on the processor, under this name.
    Lock {
        processor: u64,
        section: Name,
    },
    /// To end the section, on the processor where it began.
    Unlock {
        section: Name,
    },
    /// To begin a section of the current index on the processor, under this name. Any processor may end it.
    Down {
        processor: u64,
        section: Name,
    },
    /// To end the section, on this processor.
    Up {
        processor: u64,
        section: Name,
    },
    /// To put the section on the domain's desk.
    Park {
        section: Name,
    },
    /// To take what lies on the domain's desk.
    Unpark,
    /// To give the processor a cookie.
    Get {
        processor: u64,
    },
    /// To give the processor a cookie, and to ask for its grace period.
    Ask {
        processor: u64,
    },
    /// To tell the processor whether the cookie of this number is done.
    Poll {
        processor: u64,
        cookie: u64,
    },
    /// To start a grace period.
    Start {
        processor: u64,
    },
    /// To let the engine work until it has an answer.
    Advance {
        processor: u64,
    },
    /// To let the engine make one step.
    Step {
        processor: u64,
    },
    /// To queue a job of this name on the processor. Other jobs may have the name too.
    Call {
        processor: u64,
        job: Name,
    },
    /// To take a batch of the processor's jobs that are ready, to run them, and to finish the batch.
    Run {
        processor: u64,
    },
    /// To take a batch of the processor's jobs that are ready. It stays out.
    Batch {
        processor: u64,
    },
    /// To run the jobs of the processor's batch that is out, and to finish it.
    Finish {
        processor: u64,
    },
    /// To show the segments of the processor's list of jobs.
    Segs {
        processor: u64,
    },
    /// To give the processor a ticket, under this name, for the jobs that are queued by now.
    Barrier {
        processor: u64,
        ticket: Name,
    },
    /// To tell the processor whether the jobs of the ticket are finished.
    BarrierPoll {
        processor: u64,
        ticket: Name,
    },
    /// To put the handler of this id, which is below 16, on the domain's chain.
    Register {
        processor: u64,
        id: u64,
        priority: i32,
    },
    /// To take the handler of this id, which is below 16, off the domain's chain.
    Unregister {
        processor: u64,
        id: u64,
    },
    /// To tell the ids of the handlers on the domain's chain.
    Chain {
        processor: u64,
    },
    /// To call the domain's chain, whose handlers are to answer so.
    Notify {
        processor: u64,
        answers: HandlerAnswers,
    },
    /// To give the key this plug in the domain's table.
    Install {
        processor: u64,
        key: u32,
        plug: u32,
    },
    /// To take the key out of the domain's table.
    Remove {
        processor: u64,
        key: u32,
    },
    /// To tell the plug of the key in the domain's table.
    Lookup {
        processor: u64,
        key: u32,
    },
    /// To lease the version of the domain's table that is current, under this name.
    Lease {
        processor: u64,
        lease: Name,
    },
    /// To tell the plug of the key in the version of the lease.
    Read {
        processor: u64,
        lease: Name,
        key: u32,
    },
    /// To end the lease, on this processor.
    Release {
        processor: u64,
        lease: Name,
    },
}
