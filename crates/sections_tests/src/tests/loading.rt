//! Words that are shown in the last step of a section.
ghost use Rattle.std.specs.Prelude.{◌<◌};
ghost use Rattle.sections.specs.Words.{cells_in};

use super::lending::two_at_one_cell;
use sections::{Cpu, Exhausted};
use std::test::Fail;

/// How many sections of the first processor have ended, as the second one finds while it is shown the words.
fn ended_within(first: &mut Cpu, second: &mut Cpu) -> Result<u64, Exhausted>
    requires cell { 0 < cells_in first.old.domain }
    requires some { 0 < second.old.processors }
{
    let reading = first.read_lock()?;
    let index = reading.index();
    Ok(first.show_words_and_unlock(reading, 0, |_words| second.unlocks(0, index)))
}

/// Fails if the section ends before the words are shown.
#[test]
fn words_are_shown_inside(rt: HostRuntime) -> Result<(), Fail> {
    let (mut first, mut second, _writer) = two_at_one_cell(rt.alloc())?;
    let ended = ended_within(&mut first, &mut second).ok();
    assert_eq!(rt; ended, Some(0));
    Ok(())
}
