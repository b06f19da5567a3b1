//! A value that counts how often one of its kind is dropped.

use std::alloc::{AllocError, Global};
use std::sync::Arc;
use std::sync::atomic::AtomicU64;
use std::sync::atomic::Ordering::SeqCst;

/// A table, each row of which has the table's number.
pub(crate) struct Table {
    pub(crate) number: u64,
    pub(crate) rows: Vec<u64>,
    rung: Arc<AtomicU64>,
}

impl Drop for Table {
    fn drop(self) {
        let Table {
            number: _,
            rows,
            rung,
        } = self;
        rung.fetch_add(1, SeqCst);
        drop(rows);
        drop(rung);
    }
}

impl Table {
    /// Whether each row has this number.
    pub(crate) fn is_whole(&self) -> bool {
        let mut whole = true;
        for row in 0..self.rows.len() {
            whole &= self.rows[row] == self.number;
        }
        whole
    }
}

/// A table of so many rows, in a box.
pub(crate) fn table_of(
    alloc: Global,
    number: u64,
    rows: usize,
    rung: &Arc<AtomicU64>,
) -> Result<Box<Table>, AllocError> {
    let table = Table {
        number,
        rows: vec![in alloc; number; rows]?,
        rung: Arc::try_clone(rung)?,
    };
    Ok(Box::new(alloc, table)?)
}
