//! Domains that are taken down, and others that are in use.
ghost use Rattle.std.specs.Prelude.{◌≡◌};
ghost use Rattle.domain.specs.Views.{IsOf};

use super::alone::{AMPLE, last_two};
use super::calling::{HeldUp, drive, held_up, hold_up};
use domain::{Cpu, Domain, InUse, MakeError, Number, Progress, Totals};
use fixtures::one;
use std::alloc::Global;
use std::process::Abort;
use std::sync::{Arc, Wait};
use std::test::Fail;

/// Hands in these two processors, and the domain is in use.
fn refused<R: Abort>(
    rt: &R,
    alloc: Global,
    domain: Domain<u64>,
    first: Cpu<u64>,
    second: Cpu<u64>,
) -> (InUse, Domain<u64>, Cpu<u64>, Cpu<u64>)
    requires { IsOf domain first × IsOf domain second }
    ensures same { result.1 ≡ domain }
    ensures here { IsOf result.1 result.2 × IsOf result.1 result.3 }
{
    let mut cpus = Vec::with_capacity(alloc, 2).expect(rt, "there is room");
    cpus.push_reserved(first);
    cpus.push_reserved(second);
    let Err((cause, domain, mut cpus)) = domain.cleanup(cpus) else {
        panic!(rt; "it is in use");
    };
    let second = cpus.pop().unwrap();
    let first = cpus.pop().unwrap();
    (cause, domain, first, second)
}

/// Hands in these two processors, and the domain is taken down.
fn taken_down<R: Abort>(
    rt: &R,
    alloc: Global,
    domain: Domain<u64>,
    first: Cpu<u64>,
    second: Cpu<u64>,
) -> Totals
    requires { IsOf domain first × IsOf domain second }
{
    let mut cpus = Vec::with_capacity(alloc, 2).expect(rt, "there is room");
    cpus.push_reserved(first);
    cpus.push_reserved(second);
    domain.cleanup(cpus).ok().expect(rt, "it is not in use")
}

fn number(value: u64) -> Number {
    Number::new(value).unwrap_or(Number::zero())
}

/// Hands in two of three processors. Tells the cause, and a period behind that.
fn hand_in_too_few<R: Abort + AllocGlobal>(rt: &R) -> Result<(InUse, Option<HeldUp>), MakeError> {
    let (domain, first, second) = last_two(rt.alloc(), 3, AMPLE)?;
    let (cause, domain, mut first, mut second) = refused(rt, rt.alloc(), domain, first, second);
    Ok((cause, hold_up(&domain, &mut first, &mut second)))
}

/// Would catch a cleanup that does not miss a processor, and a domain or processors that are not of use behind a refusal.
#[test]
fn one_of_three_is_missing(rt: HostRuntime) -> Result<(), Fail> {
    let (cause, period) = hand_in_too_few(&rt)?;
    assert_eq!(rt; (cause, period), (InUse::Missing(1), Some(held_up())));
    Ok(())
}

/// Hands in the last two of four processors, and then all of another domain, each time the last one first.
fn hand_in_from_the_last<R: Abort + AllocGlobal>(rt: &R) -> Result<(InUse, Totals), MakeError> {
    let (domain, other, last) = last_two(rt.alloc(), 4, AMPLE)?;
    let (cause, _, _, _) = refused(rt, rt.alloc(), domain, last, other);
    let (domain, other, last) = last_two(rt.alloc(), 2, AMPLE)?;
    let totals = taken_down(rt, rt.alloc(), domain, last, other);
    Ok((cause, totals))
}

/// Would catch a cleanup that looks for a processor only at the place that it has where all are handed in in order.
#[test]
fn any_order_will_do(rt: HostRuntime) -> Result<(), Fail> {
    let (cause, totals) = hand_in_from_the_last(&rt)?;
    let nothing = Totals {
        opened: 0,
        closed: 0,
        queued: 0,
        finished: 0,
        periods: 0,
    };
    assert_eq!(rt; (cause, totals), (InUse::Missing(2), nothing));
    Ok(())
}

/// Hands in both processors while a section is held, and once it is closed.
fn hand_in_with_a_section<R: Abort + AllocGlobal>(rt: &R) -> Result<(InUse, Totals), MakeError> {
    let (domain, mut first, second) = last_two(rt.alloc(), 2, AMPLE)?;
    let Ok(held) = first.down_read() else {
        panic!(rt; "there is room");
    };
    let (cause, domain, first, mut second) = refused(rt, rt.alloc(), domain, first, second);
    second.up_read(held);
    let totals = taken_down(rt, rt.alloc(), domain, first, second);
    Ok((cause, totals))
}

/// Would catch a cleanup that forgets a section which is held elsewhere, or that counts those that are closed, and totals
/// of one processor.
#[test]
fn a_held_section_is_open(rt: HostRuntime) -> Result<(), Fail> {
    let (cause, totals) = hand_in_with_a_section(&rt)?;
    assert_eq!(rt; cause, InUse::Sections(1));
    assert_eq!(rt;
        totals,
        Totals {
            opened: 1,
            closed: 1,
            queued: 0,
            finished: 0,
            periods: 0,
        }
    );
    Ok(())
}

/// Would catch a domain that keeps a job when it is dropped, or drops one before: a job that may be given out by then, and
/// one that still waits for its grace period. Each of them has the counted value.
#[test]
fn drops_what_waits(rt: HostRuntime) -> Result<(), Fail> {
    let counted = Arc::new(rt.alloc(), 7u64)?;
    let (domain, mut cpu, _) = one::<Arc<u64>, _>(rt.alloc(), 2)?;
    let ready = domain.call(&rt, &mut cpu, counted.clone()?).is_ok();
    let period = drive(&domain, &mut cpu);
    let waiting = domain.call(&rt, &mut cpu, counted.clone()?).is_ok();
    drop(cpu);
    let before = Arc::strong_count(&counted);
    drop(domain);
    assert!(rt; ready && waiting);
    assert_eq!(rt; period[2], Ok(Progress::Ended(number(4))));
    assert_eq!(rt; (before, Arc::strong_count(&counted)), (3, 1));
    Ok(())
}

/// Would catch a text that is another cause's, and a count that isn't told.
#[test]
fn texts_of_causes(rt: HostRuntime) -> Result<(), Fail> {
    let told = format!(in rt.alloc();
        "{}\n{}\n{}\n{}",
        InUse::Missing(2),
        InUse::Sections(3),
        InUse::Period,
        InUse::Callbacks(4)
    )?;
    assert_eq!(rt;
        told.as_str(),
        "processors that are out: 2; hand in all of them\n\
        sections that are open: 3; close them before\n\
        a grace period runs: drive it to its end before\n\
        callbacks that are not finished: 4; wait in a barrier before"
    );
    Ok(())
}
