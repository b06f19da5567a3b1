//! Cookies of two domains in one set.
ghost use Rattle.std.specs.Prelude.{◌≡◌, IsSome};
ghost use Rattle.sections.specs.Calls.{AllClosed};
ghost use Rattle.sections.specs.Sets.{IsPlacedIn, cookies_of, member_at};
ghost use Rattle.domain.specs.Views.{IsOf, Stays};

use crate::pair;
use anyhow::Result;
use domain::{CookieSet, Cpu, Domain};
use std::alloc::Global;

/// Hands out what waits for a grace period of each of two domains, once both are over: the sections are closed that were
/// open when the cookies were given.
fn take_after_both(
    set: &mut CookieSet,
    web: &mut Cpu<u64>,
    db: &mut Cpu<u64>,
    waiting: &mut Option<u64>,
) -> Option<u64>
    requires web { IsPlacedIn web.old.cpu.domain 0 (cookies_of set.old) }
    requires db { IsPlacedIn db.old.cpu.domain 1 (cookies_of set.old) }
    ensures web { IsSome result → AllClosed (member_at 0 set.old).cookie.seen web.new.cpu.seen }
    ensures db { IsSome result → AllClosed (member_at 1 set.old).cookie.seen db.new.cpu.seen }
    ensures set { cookies_of set.new ≡ cookies_of set.old }
    ensures stays { Stays web.old web.new × Stays db.old db.new }
{
    set.poll_member(0, web); // each is asked after until it is done
    set.poll_member(1, db);
    if !set.done() {
        return None;
    }
    set.catch_up(0, web); // whoever found it done may have been another processor
    set.catch_up(1, db);
    waiting.take()
}

/// A whole grace period, where no section is open.
fn run_period(domain: &Domain<u64>, cpu: &mut Cpu<u64>)
    requires { IsOf domain.now cpu.old }
    ensures { IsOf domain.now cpu.new }
{
    let _started = domain.advance(cpu);
    let _flipped = domain.advance(cpu);
    let _ended = domain.advance(cpu);
}

/// What is handed out before both periods, between them, and after both.
fn wait_for_both(
    web: &Domain<u64>,
    web_cpu: &mut Cpu<u64>,
    db: &Domain<u64>,
    db_cpu: &mut Cpu<u64>,
) -> [Option<u64>; 3]
    requires web { IsOf web.now web_cpu.old }
    requires db { IsOf db.now db_cpu.old }
{
    let mut set = CookieSet::new();
    let Ok(_first) = set.add(web.start_poll(web_cpu)) else {
        unreachable!()
    };
    let Ok(_second) = set.add(db.start_poll(db_cpu)) else {
        unreachable!()
    };
    let mut waiting = Some(7);
    let early = take_after_both(&mut set, web_cpu, db_cpu, &mut waiting); // None
    run_period(web, web_cpu);
    let half = take_after_both(&mut set, web_cpu, db_cpu, &mut waiting); // None: the other isn't over
    run_period(db, db_cpu);
    let late = take_after_both(&mut set, web_cpu, db_cpu, &mut waiting); // Some(7)
    [early, half, late]
}

/// The same with a second domain, which is new.
fn wait_with_another(
    alloc: Global,
    web: &Domain<u64>,
    web_cpu: &mut Cpu<u64>,
) -> Result<[Option<u64>; 3]>
    requires { IsOf web.now web_cpu.old }
{
    let (db, mut db_cpu, _) = pair(alloc)?;
    Ok(wait_for_both(web, web_cpu, &db, &mut db_cpu))
}

/// The same at two new domains.
fn wait_at_two(alloc: Global) -> Result<[Option<u64>; 3]> {
    let (web, mut web_cpu, _) = pair(alloc)?;
    wait_with_another(alloc, &web, &mut web_cpu)
}

/// Prints what `wait_for_both` answers.
pub fn show<R: Print + AllocGlobal>(rt: &R) -> Result<()> {
    let taken = wait_at_two(rt.alloc())?;
    println!(rt; "handed out before, between and after the periods of two domains: {taken:?}")?;
    Ok(())
}
