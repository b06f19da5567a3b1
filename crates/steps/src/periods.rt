//! Cookies, and the steps of a grace period.
ghost use Rattle.domain.specs.Views.{IsOf, Stays};

use anyhow::Result;
use domain::{AdvanceRefusal, Cpu, Domain, NotACookie, Number, Progress, StartRefusal};

type Started = Result<Number, StartRefusal>;

/// What a turn of the engine answers.
pub type Advanced = Result<Progress, AdvanceRefusal>;

type Polled = Result<bool, NotACookie>;

/// A cookie's number, and what is answered of numbers.
fn poll_by_number(updater: &mut Cpu<u64>) -> (u64, [Polled; 3])
    ensures { Stays updater.old updater.new }
{
    let number = updater.cookie().number(); // a plain number, as the kernel's cookies are
    let done = updater.poll_number(number); // Ok(false)
    let always = updater.poll_number(1); // Ok(true): get_completed_synchronize_srcu
    let refused = updater.poll_number(2); // Err(NotACookie)

    (number, [done, always, refused])
}

/// Prints what `poll_by_number` answers.
pub fn show_numbers<R: Print>(rt: &R, updater: &mut Cpu<u64>) -> Result<()>
    ensures { Stays updater.old updater.new }
{
    let (number, polled) = poll_by_number(updater);
    println!(rt; "a cookie's number: {number}; of that, of 1 and of 2: {polled:?}")?;
    Ok(())
}

/// What a cookie answers before a period and behind it, and what the period's steps answer.
fn poll_round_a_period(
    domain: &Domain<u64>,
    reader: &mut Cpu<u64>,
    updater: &mut Cpu<u64>,
) -> Result<([bool; 2], Started, [Advanced; 2])>
    requires reader { IsOf domain.now reader.old }
    requires updater { IsOf domain.now updater.old }
    ensures reader { IsOf domain.now reader.new }
    ensures updater { IsOf domain.now updater.new }
{
    let section = reader.read_lock()?;

    let mut cookie = updater.cookie(); // get_state_synchronize_srcu
    let early = updater.poll(&mut cookie); // poll_state_synchronize_srcu: false
    reader.read_unlock(section);
    let started = domain.start(updater); // Ok(1): a period is started, by whomever
    let flipped = domain.advance(updater);
    let ended = domain.advance(updater); // Ok(Ended(4))
    let late = updater.poll(&mut cookie); // true: a whole period has passed meanwhile

    Ok(([early, late], started, [flipped, ended]))
}

/// Prints what `poll_round_a_period` answers.
pub fn show_cookie<R: Print>(
    rt: &R,
    domain: &Domain<u64>,
    reader: &mut Cpu<u64>,
    updater: &mut Cpu<u64>,
) -> Result<()>
    requires reader { IsOf domain.now reader.old }
    requires updater { IsOf domain.now updater.old }
    ensures reader { IsOf domain.now reader.new }
    ensures updater { IsOf domain.now updater.new }
{
    let (polls, started, steps) = poll_round_a_period(domain, reader, updater)?;
    println!(rt; "a cookie within a section, and behind a period: {polls:?}")?;
    println!(rt; "the period: {started:?}, {steps:?}")?;
    Ok(())
}

/// What each call of a period answers that waits for a section, and those of the next one, which is left running. A cookie
/// of the first is polled twice: while the section is open, and once the period has ended.
fn drive_by_hand(
    domain: &Domain<u64>,
    reader: &mut Cpu<u64>,
    driver: &mut Cpu<u64>,
) -> Result<((u64, [bool; 2]), [Advanced; 6], [Started; 2])>
    requires { IsOf domain.now driver.old }
{
    let section = reader.read_lock()?;

    let mut cookie = domain.start_poll(driver); // the need is now at the root of the tree
    let need = domain.need(driver); // srcu_gp_seq_needed
    let started = domain.advance(driver); // Ok(Started(9)): two periods have ended
    let flipped = domain.advance(driver); // Ok(Flipped(One)): the first scan has passed
    let waiting = domain.advance(driver); // Ok(Waiting(Zero)): the second scan waits for the section
    let early = driver.poll(&mut cookie); // false: it is open
    reader.read_unlock(section);
    let ended = domain.advance(driver); // Ok(Ended(12))
    let idle = domain.advance(driver); // Ok(Idle): nobody asks for more
    let done = driver.poll(&mut cookie); // true

    let again = domain.start(driver); // Ok(13): a period is started that nobody asked for
    let refused = domain.start(driver); // Err(Running)
    let step = domain.step(driver); // Ok(Step): one load of a counter

    Ok((
        (need.get(), [early, done]),
        [started, flipped, waiting, ended, idle, step],
        [again, refused],
    ))
}

/// Prints what `drive_by_hand` answers.
pub fn show_by_hand<R: Print>(
    rt: &R,
    domain: &Domain<u64>,
    reader: &mut Cpu<u64>,
    driver: &mut Cpu<u64>,
) -> Result<()>
    requires { IsOf domain.now driver.old }
{
    let ((need, polls), steps, starts) = drive_by_hand(domain, reader, driver)?;
    println!(rt;
        "the need: {need}; its cookie within the section, and behind the period: {polls:?}"
    )?;
    println!(rt; "turns of the engine, and a step: {steps:?}")?;
    println!(rt; "starts: {starts:?}")?;
    Ok(())
}
