//! Sections, from the lines that began them to those that ended them.
ghost use Rattle.std.specs.Prelude.{◌≡◌, ◌++◌, IfOk, OnOk};
ghost use Rattle.account.specs.declared.deed.Section.{Section};
ghost use Rattle.account.specs.Spans.{begun_by, end_by, first_end, found_in, spans_of};

use crate::deed::{Deed, Row, Section};
use indexmap::IndexMap;
use lines::Name;
use std::alloc::{AllocError, Global};
use std::hash::{BuildHasherDefault, FoldHasher};

/// Where a section ended.
#[derive(Clone, Copy)]
pub struct End {
    /// The number of the line that ended it.
    pub line: u32,
    /// The processor that it ended on.
    pub processor: u16,
}

/// A section, from the line that began it to the one that ended it.
#[derive(Clone, Copy)]
pub struct Span {
    pub section: Section,
    /// The number of the line that began it.
    pub begun: u32,
    /// `None` where it is open at the end of the script.
    pub end: Option<End>,
}

/// The first of some lines that frees the name in the domain: its number, and the processor if it names one.
type Ends = IndexMap<(u32, Name), (u32, Option<u16>), BuildHasherDefault<FoldHasher>>;

/// Where the section ends, by what is known of the lines after it.
fn end_of(section: &Section, ends: &Ends) -> Option<End>
    ensures { result ≡ found_in ends.now section.now }
{
    let (line, processor) = *ends.get(&(section.home.made, section.name))?;
    Some(End {
        line,
        processor: processor.unwrap_or(section.processor),
    })
}

/// Notes the line before those that are known, if it ends a section.
fn note(ends: &mut Ends, row: &Row) -> Result<(), AllocError>
    ensures { OnOk result ((s : Section) → found_in ends.new s ≡ first_end (end_by s row.now) (found_in ends.old s)) }
{
    if let (Some(home), Deed::Ends { name, processor }) = (row.home, row.deed) {
        ends.insert((home.made, name), (row.number, processor))?;
    }
    Ok(())
}

/// Adds the section that the line before those that are known began, if it did.
fn add(all: &mut Vec<Span>, ends: &Ends, row: &Row) -> Result<(), AllocError>
    ensures { OnOk result (all.new.items ≡ all.old.items ++ begun_by (found_in ends.now) row.now.number row.now.deed) }
{
    if let Deed::Begins(section) = row.deed {
        all.push(Span {
            section,
            begun: row.number,
            end: end_of(&section, ends),
        })?;
    }
    Ok(())
}

/// The sections that these lines began, in their order, one for each. Each ends at the first line after that freed its name in
/// its domain.
pub fn spans(alloc: Global, rows: &[Row]) -> Result<Vec<Span>, AllocError>
    ensures { IfOk result (λ v. v.items ≡ spans_of rows.now) }
{
    let mut ends = IndexMap::with_hasher(alloc, BuildHasherDefault::new());
    let mut all = Vec::new(alloc);
    let mut left = rows;
    while let Some((row, rest)) = left.split_last() {
        add(&mut all, &ends, row)?;
        note(&mut ends, row)?;
        left = rest;
    }
    all.reverse();
    Ok(all)
}
