//! The events of a domain.
use sseq::Index;

/// Who made an event.
#[derive(Clone, Copy, Debug, PartialEq, Eq, Hash)]
pub enum Maker {
    /// The processor of this number.
    Processor(u16),
    /// The engine, which drives the grace periods.
    Engine,
}

/// One thing that happens in a domain. A section is named by a number of its own, since many may be open at once
/// on one processor, and each may end on another.
#[derive(Clone, Copy, Debug, PartialEq, Eq, Hash)]
pub enum Event {
    /// A read-side section begins on a processor, with an index (`srcu_read_lock`).
    Begin {
        section: u64,
        processor: u16,
        index: Index,
        by: Maker,
    },
    /// A section ends, on the processor where it is closed (`srcu_read_unlock`).
    End {
        section: u64,
        processor: u16,
        by: Maker,
    },
    /// A grace period starts (`rcu_seq_start`).
    Start {
        by: Maker,
    },
    /// The grace period that runs ends (`rcu_seq_end`).
    Finish {
        by: Maker,
    },
    /// A cookie is given: the number that the domain has once a full grace period has gone by
    /// (`get_state_synchronize_srcu`).
    Note {
        cookie: u64,
        by: Maker,
    },
    /// Somebody asks whether a cookie is done, and is told (`poll_state_synchronize_srcu`).
    Ask {
        cookie: u64,
        done: bool,
        by: Maker,
    },
    /// An open section finds what lies in a cell: the slot and the version of the cell's last Put, or slot 0 with
    /// version 0 where there was none (`srcu_dereference`).
    Find {
        section: u64,
        cell: u64,
        slot: u64,
        version: u64,
        by: Maker,
    },
    /// The next version of a cell is put, in a slot that no open section has found (`rcu_assign_pointer`).
    Put {
        cell: u64,
        slot: u64,
        version: u64,
        by: Maker,
    },
}
