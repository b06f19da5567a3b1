//! Grace periods, from the lines where the engine said how far it was.
use crate::deed::{Deed, Home, Row};
use scan::Progress;
use std::alloc::{AllocError, Global};

/// A grace period, from the line where it started to the one where it ended.
#[derive(Clone, Copy)]
pub struct Period {
    pub home: Home,
    /// The number of the line where it started.
    pub started: u32,
    /// The number of the line where the index was flipped.
    pub flipped: Option<u32>,
    /// The number of the line where it ended.
    pub ended: Option<u32>,
}

/// Changes the grace period of the domain that runs, which is its last.
fn change(periods: &mut [Period], home: Home, line: u32, is_end: bool) {
    for period in periods.iter_mut().rev() {
        if period.home == home {
            if is_end {
                period.ended = Some(line);
            } else {
                period.flipped = Some(line);
            }
            break;
        }
    }
}

/// The grace periods of these lines, in the order in which they started.
pub fn periods(alloc: Global, rows: &[Row]) -> Result<Vec<Period>, AllocError> {
    let mut all = Vec::new(alloc);
    for row in rows {
        let (Some(home), Deed::Engine(progress)) = (row.home, row.deed) else {
            continue;
        };
        match progress {
            Progress::Started(_) => all.push(Period {
                home,
                started: row.number,
                flipped: None,
                ended: None,
            })?,
            Progress::Flipped(_) => change(&mut all, home, row.number, false),
            Progress::Ended(_) => change(&mut all, home, row.number, true),
            _ => {}
        }
    }
    Ok(all)
}
