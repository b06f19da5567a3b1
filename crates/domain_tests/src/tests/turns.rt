//! Turns in a row, beside a section of another domain too, and what a barrier covers: the laws of crate `laws`.
ghost use Rattle.std.specs.Prelude.{◌<◌};
ghost use Rattle.domain.specs.Views.{IsOf};

use super::alone::{AMPLE, last_two};
use super::calling::Answer;
use domain::{Cpu, Domain, Index, MakeError, Number, Progress};
use laws::{barriers_cover_counts, drive_beside, drive_to_the_end, turns_in_a_row};
use std::sync::Wait;
use std::test::Fail;

fn ended(value: u64) -> Answer {
    Ok(Progress::Ended(Number::new(value).unwrap_or(Number::zero())))
}

/// Drives a period while a section is open, after the section's end, and where nothing is asked for.
fn drive_round_a_section(
    domain: &Domain<()>,
    driver: &mut Cpu<()>,
    reader: &mut Cpu<()>,
) -> Option<[Answer; 3]>
    requires driver { IsOf domain.now driver.old }
    requires reader { IsOf domain.now reader.old }
{
    turns_in_a_row::<()>();
    let Ok(section) = reader.read_lock() else {
        return None;
    };
    domain.start_poll(driver);
    let held = drive_to_the_end(domain, driver);
    reader.read_unlock(section);
    let ended = drive_to_the_end(domain, driver);
    let idle = drive_to_the_end(domain, driver);
    Some([held, ended, idle])
}

fn drive_in_a_pair<R: AllocGlobal>(rt: &R) -> Result<Option<[Answer; 3]>, MakeError> {
    let (domain, mut driver, mut reader) = last_two(rt.alloc(), 2, AMPLE)?;
    Ok(drive_round_a_section(&domain, &mut driver, &mut reader))
}

/// Fails if a period doesn't end in the call that comes after its last section.
#[test]
fn ends_after_its_last_section(rt: HostRuntime) -> Result<(), Fail> {
    let answers = [
        Ok(Progress::Waiting(Index::Zero)),
        ended(4),
        Ok(Progress::Idle),
    ];
    assert_eq!(rt; drive_in_a_pair(&rt)?, Some(answers));
    Ok(())
}

/// Steps into a scan while a section is open, ends the section, and drives on.
fn drive_a_scan_in_hand(
    domain: &Domain<()>,
    driver: &mut Cpu<()>,
    reader: &mut Cpu<()>,
) -> Option<[Answer; 3]>
    requires driver { IsOf domain.now driver.old }
    requires reader { IsOf domain.now reader.old }
{
    let Ok(section) = reader.read_lock() else {
        return None;
    };
    domain.start_poll(driver);
    let started = domain.advance(driver);
    let flipped = domain.advance(driver);
    let _unlocks = domain.step(driver);
    let _more = domain.step(driver);
    reader.read_unlock(section);
    let ended = drive_to_the_end(domain, driver);
    Some([started, flipped, ended])
}

fn drive_on_in_a_pair<R: AllocGlobal>(rt: &R) -> Result<Option<[Answer; 3]>, MakeError> {
    let (domain, mut driver, mut reader) = last_two(rt.alloc(), 2, AMPLE)?;
    Ok(drive_a_scan_in_hand(&domain, &mut driver, &mut reader))
}

/// Fails if it gives up after a turn whose scan was in hand when the section ended.
#[test]
fn ends_after_a_scan_in_hand(rt: HostRuntime) -> Result<(), Fail> {
    let answers = [
        Ok(Progress::Started(Number::new(1).unwrap_or(Number::zero()))),
        Ok(Progress::Flipped(Index::One)),
        ended(4),
    ];
    assert_eq!(rt; drive_on_in_a_pair(&rt)?, Some(answers));
    Ok(())
}

/// Drives a period of one domain while a section of another one is open, and then one of that other domain, before and
/// after the section's end.
fn drive_two<R: AllocGlobal>(rt: &R) -> Result<Option<[Answer; 3]>, MakeError> {
    let (slow, mut slow_driver, mut reader) = last_two::<()>(rt.alloc(), 2, AMPLE)?;
    let (quick, mut driver, _) = last_two::<()>(rt.alloc(), 2, AMPLE)?;
    let Ok(section) = reader.read_lock() else {
        return Ok(None);
    };
    slow.start_poll(&mut slow_driver);
    quick.start_poll(&mut driver);
    let beside = drive_beside(&section, &quick, &mut driver);
    let held = drive_beside(&section, &slow, &mut slow_driver);
    reader.read_unlock(section);
    let freed = drive_to_the_end(&slow, &mut slow_driver);
    Ok(Some([beside, held, freed]))
}

/// Fails if a section of one domain holds up another domain's period.
#[test]
fn ends_beside_a_stuck_reader(rt: HostRuntime) -> Result<(), Fail> {
    let answers = [ended(4), Ok(Progress::Waiting(Index::Zero)), ended(4)];
    assert_eq!(rt; drive_two(&rt)?, Some(answers));
    Ok(())
}

/// Queues a job on one processor, whose list another one then looks at. That one starts a barrier, and asks whether it is
/// done before and after a grace period.
fn count_and_wait<R: Wait>(
    rt: &R,
    domain: &Domain<()>,
    first: &mut Cpu<()>,
    second: &mut Cpu<()>,
) -> Option<(bool, Answer, bool)>
    requires first { IsOf domain.now first.old }
    requires second { IsOf domain.now second.old }
    requires there { 1 < domain.now.processors }
{
    barriers_cover_counts::<()>();
    let Ok(_receipt) = domain.call(rt, second, ()) else {
        return None;
    };
    let Ok(_lens) = domain.lens(rt, first, 1) else {
        return None;
    };
    let Ok(ticket) = domain.barrier_start(first) else {
        return None;
    };
    let before = domain.barrier_poll(first, &ticket);
    let answer = drive_to_the_end(domain, first);
    let after = domain.barrier_poll(first, &ticket); // the job was not given out
    Some((before, answer, after))
}

fn count_in_a_pair<R: Wait + AllocGlobal>(
    rt: &R,
) -> Result<Option<(bool, Answer, bool)>, MakeError> {
    let (domain, mut first, mut second) = last_two(rt.alloc(), 2, AMPLE)?;
    if domain.processors() < 2 {
        return Ok(None);
    }
    Ok(count_and_wait(rt, &domain, &mut first, &mut second))
}

/// Fails if a barrier is done before the job is given out that its starter had counted.
#[test]
fn waits_for_what_was_counted(rt: HostRuntime) -> Result<(), Fail> {
    assert_eq!(rt; count_in_a_pair(&rt)?, Some((false, ended(4), false)));
    Ok(())
}
