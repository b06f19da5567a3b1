//! Entries that go through a new list or queue.
ghost use Rattle.std.specs.Prelude.{◌≡◌, ◌*◌, ◌^◌, ◌≤◌, IfOk};

use crate::lists::{pass_at_once, pass_in_batches, queue_at_once, queue_in_batches};
use crate::work::Timed;
use anyhow::Result;
use segs::SegList;
use std::collections::VecDeque;
use std::fmt;
use std::time::{Clock, Instant};

/// Through what the entries go, and how.
#[derive(Clone, Copy, Debug, PartialEq, Eq)]
pub enum Way {
    /// A segmented list: all are pushed, get one number, are done, and are taken out in batches of eight.
    List,
    /// The same a batch at a time, with an assign after each push.
    ListInBatches,
    /// A plain queue: all are pushed, and popped.
    Queue,
    /// The same a batch at a time.
    QueueInBatches,
}

impl Way {
    pub const ALL: [Way; 4] = [
        Way::List,
        Way::ListInBatches,
        Way::Queue,
        Way::QueueInBatches,
    ];
}

impl fmt::Display for Way {
    fn fmt<W: fmt::Write>(&self, f: &mut fmt::Formatter<W>) -> fmt::Result {
        f.write_str(match self {
            Way::List => "list",
            Way::ListInBatches => "list-in-batches",
            Way::Queue => "queue",
            Way::QueueInBatches => "queue-in-batches",
        })
    }
}

/// Sends so many batches of entries through a new list or queue, and answers how many entries came out. The `elapsed` is
/// what the clock told, of which no clause speaks.
pub fn run<R: Clock + AllocGlobal>(rt: &R, way: Way, batches: u64) -> Result<Timed>
    requires { batches ≤ 2 ^ 54 }
    ensures { IfOk result (λ timed. timed.done ≡ 8 * batches) }
{
    let mut list = SegList::new(rt.alloc());
    let mut queue = VecDeque::new(rt.alloc());
    let start = Instant::now(rt)?;
    let done = match way {
        Way::List => pass_at_once(&mut list, batches)?,
        Way::ListInBatches => pass_in_batches(&mut list, batches)?,
        Way::Queue => queue_at_once(&mut queue, batches)?,
        Way::QueueInBatches => queue_in_batches(&mut queue, batches)?,
    };
    let elapsed = start.elapsed(rt)?;
    Ok(Timed { done, elapsed })
}
