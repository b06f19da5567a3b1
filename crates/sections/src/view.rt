//! What the proofs know of a holder. But for `Bounds`, no value of these types is ever made.
use onedom::{Event, Maker};
use sseq::Index;
use vault::Key;

/// What the rule of a domain's table is told when the table is made.
#[derive(Clone, Copy, Debug)]
pub struct Bounds {
    /// How many processors the domain has.
    pub processors: usize,
    /// How many sections of one index each of them may ever begin.
    pub sections: u64,
    /// How many grace periods there may ever be.
    pub periods: u64,
    /// How many cells it has, and room for as many.
    pub cells: usize,
}

/// Whose events a seat makes.
pub enum Role {
    /// A token's seat, which makes none.
    Bearer,
    /// The seat of a processor.
    Cpu(u16),
    /// The engine's seat. It stands for the processors from this number on too, which are still to be dealt.
    Driver(u64),
}

/// One part of a box is out with a section. Slot x of cell c is counted as 8 c + x.
pub struct Lent {
    pub section: u64,
    pub slot: u64,
    pub round: u64,
}

/// A key that is in hand, and what it knew when it was taken.
pub struct Hand {
    pub slot: u64,
    pub processor: u64,
    pub of: Key,
    pub count: u64,
    pub round: u64,
}

/// What the writer of a cell knows of the parts of one slot.
pub struct Bank {
    /// How many there are, with the keys of the slot and with sections.
    pub laid: u64,
    /// Their round.
    pub round: u64,
    /// So many processors have some with their key, from 0 on.
    pub each: u64,
    /// The keys of the processors below this number have none. It is 0 unless the slot is out of every reader's reach.
    pub emptied: u64,
}

/// What the writer of a cell knows of the cell's keys.
pub struct Plan {
    /// How many it has laid. Key i is that of slot i % 8 for processor i / 8.
    pub keys: u64,
    /// One of them, by which their vault is known.
    pub vault: Option<Key>,
    /// What it knows of each slot.
    pub banks: [Bank; 0],
    /// A key that is in hand.
    pub hand: Option<Hand>,
}

/// What the seat of a section left with a key: so many parts of this slot.
pub struct Left {
    pub slot: u64,
    pub count: u64,
}

/// What a seat alone may do.
pub enum Right {
    Nothing,
    /// End this section, which was begun on this processor with this index.
    Section {
        section: u64,
        processor: u16,
        index: Index,
        /// What is out with it: while there is something, it can't be ended.
        units: [Lent; 0],
        /// A key that is in hand.
        hand: Option<Hand>,
    },
    /// Put into this cell, store to its slots, and lay and collect parts there. These are the words of its slots, one slot
    /// behind the other, and a history in which all Puts of the cell are.
    Shelf {
        cell: u64,
        words: [u64; 0],
        seen: [Event; 0],
        plan: Plan,
    },
    /// The same for each cell from this one on. Nothing was put there yet, and the words of their slots are 0.
    Undealt(u64),
}

/// The parts that were there of a slot when it was put, and how many keys of which vault the cell had then.
pub struct Offer {
    pub keys: u64,
    pub vault: Option<Key>,
    pub laid: u64,
    pub round: u64,
    /// So many processors had some, from 0 on. At least one stays with each one's key.
    pub each: u64,
}

/// What was put into a cell: the words of one version, and its parts. Versions of a cell come in their order, from version
/// 1 on.
pub struct Text {
    pub cell: u64,
    pub words: [u64; 0],
    pub offer: Offer,
}

/// What a seat knows of how much a processor has seen.
pub enum Shown {
    Unknown,
    /// This processor has seen at least so many changes.
    To { processor: u16, changes: u64 },
}

/// A step on a word that is no event of the history: a load, with what it found, or one of the additions of the flip,
/// with what it left.
pub enum Step {
    /// Load of the index word.
    LoadIndex(u64),
    /// Load of an unlock counter, and how long the history was that was seen then.
    LoadUnlocks {
        processor: u16,
        index: Index,
        found: u64,
        seen: usize,
    },
    /// Load of a lock counter, and how long the history was that was seen then.
    LoadLocks {
        processor: u16,
        index: Index,
        found: u64,
        seen: usize,
    },
    /// The flip: 1 is added to the index word.
    AddIndex(u64),
    /// Behind the flip 1 is added to the number, and the second scan may begin.
    AddNumber(u64),
    /// Load of a word of a version of a cell.
    LoadWord {
        cell: u64,
        version: u64,
        place: u64,
        found: u64,
    },
}

/// Somebody's knowledge of a domain: a beginning of its history, and how often the engine had changed the number and
/// the index word by then, which it does four times in a grace period.
pub struct Moment {
    pub history: [Event; 0],
    pub changes: u64,
    /// The words of the versions that were put there.
    pub texts: [Text; 0],
}

/// A step that is no event, who made it, and the moment behind it: all that had happened by then.
pub struct Deed {
    pub by: Maker,
    pub step: Step,
    pub at: Moment,
}

/// What one seat knows. A clause reads an array as a list of any length.
pub struct View {
    /// How many processors the domain has; 0 in what a token knows.
    pub processors: usize,
    pub role: Role,
    /// The events that this seat made.
    pub mine: [Event; 0],
    /// A beginning of the domain's history.
    pub seen: [Event; 0],
    /// How often the engine had changed the number and the index word by then, at least. The engine's own seat knows
    /// it exactly.
    pub changes: u64,
    /// The words of all versions whose Put is in that beginning, in the order of these Puts.
    pub texts: [Text; 0],
    /// What was handed in, which the next step covers.
    pub told: [Moment; 0],
    pub right: Right,
    /// Which processor is known to have seen how many changes. The engine notes it in a tie.
    pub shown: Shown,
    /// All that anybody did that was no event, up to this seat's last such step.
    pub done: [Deed; 0],
    /// What lay with the key that this seat gave back last as it had found it, in a section.
    pub left: Option<Left>,
}
