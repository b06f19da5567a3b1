//! The tables that lie in boxes, and what a reader looks at in one.
ghost use Rattle.std.specs.Prelude.{◌≡◌, IfSome};
ghost use Rattle.soak.specs.Checks.{judged_table};

use crate::counts::{Counts, count};
use boxes::BoxPin;
use std::alloc::{AllocError, Global};
use std::sync::Arc;
use std::sync::atomic::AtomicU64;
use std::sync::atomic::Ordering::SeqCst;
use std::thread::yield_now;

/// How many rows a table has.
const ROWS: usize = 10_000;

/// At how many rows a reader looks. They lie [`STEP`] apart; the first and the last row are among them.
const LOOKS: usize = 34;

/// How far apart they lie.
const STEP: usize = 303;

/// How many tables were made, and how many dropped.
#[derive(Default, Drop)]
pub struct Lives {
    made: AtomicU64,
    dropped: AtomicU64,
}

impl Lives {
    /// By how many the tables that were made and those that were dropped differ.
    pub fn lost(&self) -> u64 {
        self.made.load(SeqCst).abs_diff(self.dropped.load(SeqCst))
    }
}

/// A table: each of its rows is its number. Its drop is counted.
pub struct Table {
    pub number: u64,
    pub rows: Vec<u64>,
    lives: Arc<Lives>,
}

impl Drop for Table {
    fn drop(self) {
        let Table {
            number: _,
            rows,
            lives,
        } = self;
        lives.dropped.fetch_add(1, SeqCst);
        drop(rows);
        drop(lives);
    }
}

impl Table {
    /// A table of this number, in a box.
    pub fn new(alloc: Global, number: u64, lives: &Arc<Lives>) -> Result<Box<Table>, AllocError> {
        let rows = vec![in alloc; number; ROWS]?;
        let lives = Arc::try_clone(lives)?;
        lives.made.fetch_add(1, SeqCst);
        let table = Table {
            number,
            rows,
            lives,
        };
        Ok(Box::new(alloc, table)?)
    }

    /// Whether the rows that a reader looks at are the table's number.
    pub fn is_whole(&self) -> bool {
        let mut whole = true;
        for look in 0..LOOKS {
            whole &= self.rows.get(look * STEP) == Some(&self.number);
        }
        whole
    }
}

/// A table as a section found it: its number, and whether it was whole, before the reader slept and after that.
#[derive(Clone, Copy)]
pub struct TableSight {
    pub number: u64,
    pub whole: bool,
}

/// Looks at a table that a section found, and once more after a nap.
pub fn look_twice(pin: &BoxPin<Table>) -> TableSight {
    let number = pin.get().number;
    let first = pin.get().is_whole();
    yield_now(); // a reader may sleep
    TableSight {
        number,
        whole: first && pin.get().is_whole() && pin.get().number == number,
    }
}

/// Counts a table that is older than the last one that was found, and one that isn't whole. It is the last one then.
pub fn judge(counts: &mut Counts, last: &mut u64, found: Option<TableSight>)
    ensures counts { counts.new ≡ judged_table found last.old counts.old }
    ensures last { IfSome found (λ sight. last.new ≡ sight.number) }
{
    let Some(sight) = found else { return };
    if sight.number < *last {
        count(&mut counts.stale);
    }
    if !sight.whole {
        count(&mut counts.torn);
    }
    *last = sight.number;
}
