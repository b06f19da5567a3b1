//! Grace periods that are driven in one turn.
ghost use Rattle.std.specs.Prelude.{IfOk};
ghost use Rattle.domain.specs.Views.{IsOf};

use super::alone::{AMPLE, last_two};
use super::calling::Answer;
use domain::{Cpu, Domain, Index, MakeError, Number, Progress};
use std::test::Fail;

/// What `drive` answers of a period that a section holds up, after the section's end, where nothing is asked for, and of
/// a period that nothing holds up.
fn drive_round_a_section(
    domain: &Domain<()>,
    driver: &mut Cpu<()>,
    reader: &mut Cpu<()>,
) -> Option<[Answer; 4]>
    requires { IsOf domain.now driver.old × IsOf domain.now reader.old }
{
    let Ok(section) = reader.read_lock() else {
        return None;
    };
    domain.start_poll(driver);
    let held = domain.drive(driver);
    reader.read_unlock(section);
    let ended = domain.drive(driver);
    let idle = domain.drive(driver);
    domain.start_poll(driver);
    let whole = domain.drive(driver);
    Some([held, ended, idle, whole])
}

/// The same in a new domain.
fn drive_in_a_pair<R: AllocGlobal>(rt: &R) -> Result<Option<[Answer; 4]>, MakeError> {
    let (domain, mut driver, mut reader) = last_two(rt.alloc(), 2, AMPLE)?;
    Ok(drive_round_a_section(&domain, &mut driver, &mut reader))
}

/// Would catch a turn that stops at a start or a flip, one that goes on after an end, and one that passes an open section.
#[test]
fn drives_a_whole_period(rt: HostRuntime) -> Result<(), Fail> {
    let number = |value| Number::new(value).unwrap_or(Number::zero());
    let answers = [
        Ok(Progress::Waiting(Index::Zero)),
        Ok(Progress::Ended(number(4))),
        Ok(Progress::Idle),
        Ok(Progress::Ended(number(8))),
    ];
    assert_eq!(rt; drive_in_a_pair(&rt)?, Some(answers));
    Ok(())
}
