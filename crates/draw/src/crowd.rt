//! Sections that share a track.
use crate::bar::Bar;
use std::alloc::{AllocError, Global};
use std::collections::BTreeMap;

/// Sections that share a track, and lie there one over the other.
#[derive(Clone, Copy)]
pub struct Crowd {
    /// The left edge.
    pub x: u64,
    /// The numbers of the line that began the first of them, and of the line that ended the last.
    pub from: u32,
    pub to: u32,
    pub count: usize,
}

/// The crowds of these bars, in a picture of so many lines.
pub fn crowds(alloc: Global, bars: &[Bar], lines: u32) -> Result<Vec<Crowd>, AllocError> {
    let mut open: BTreeMap<u64, Crowd> = BTreeMap::new(alloc);
    let mut all = Vec::new(alloc);
    for bar in bars {
        if !bar.is_shared {
            continue;
        }
        let (from, to) = (bar.span.begun, bar.span.end.map_or(lines, |end| end.line));
        let mut crowd = Crowd {
            x: bar.x,
            from,
            to,
            count: 1,
        };
        match open.get(&bar.x) {
            Some(last) if from <= last.to => {
                crowd.count = last.count.saturating_add(1);
                (crowd.from, crowd.to) = (last.from, last.to.max(to));
            }
            Some(last) => all.push(*last)?,
            None => {}
        }
        open.insert(bar.x, crowd)?;
    }
    for crowd in open.values() {
        all.push(*crowd)?;
    }
    Ok(all)
}
