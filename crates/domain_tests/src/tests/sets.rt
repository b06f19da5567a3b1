//! Cookies in a set: of two domains, completed ones, too many, and one of a domain that is gone.
ghost use Rattle.std.specs.Prelude.{◌≡◌};
ghost use Rattle.sections.specs.Sets.{IsPlacedIn, cookies_of};
ghost use Rattle.domain.specs.Views.{IsOf, Stays};

use super::calling::drive;
use domain::{Cookie, CookieSet, Cpu, Domain, MakeError};
use fixtures::one;
use std::alloc::Global;
use std::test::Fail;

/// What is told of both members, each asked after in its own domain, and whether the set is done.
fn poll_both(set: &mut CookieSet, web: &mut Cpu<()>, db: &mut Cpu<()>) -> [bool; 3]
    requires web { IsPlacedIn web.old.cpu.domain 0 (cookies_of set.old) }
    requires db { IsPlacedIn db.old.cpu.domain 1 (cookies_of set.old) }
    ensures cookies { cookies_of set.new ≡ cookies_of set.old }
    ensures web { Stays web.old web.new }
    ensures db { Stays db.old db.new }
{
    let first = set.poll_member(0, web);
    let second = set.poll_member(1, db);
    [first, second, set.done()]
}

/// The same before both periods, after the first domain's, and after both.
fn poll_round_periods(
    set: &mut CookieSet,
    web: &Domain<()>,
    web_cpu: &mut Cpu<()>,
    db: &Domain<()>,
    db_cpu: &mut Cpu<()>,
) -> [[bool; 3]; 3]
    requires web { IsOf web.now web_cpu.old × IsPlacedIn web.now.domain 0 (cookies_of set.old) }
    requires db { IsOf db.now db_cpu.old × IsPlacedIn db.now.domain 1 (cookies_of set.old) }
{
    let early = poll_both(set, web_cpu, db_cpu);
    let _ = drive(web, web_cpu);
    let between = poll_both(set, web_cpu, db_cpu);
    let _ = drive(db, db_cpu);
    let late = poll_both(set, web_cpu, db_cpu);
    [early, between, late]
}

/// A cookie of each domain, for whose periods it asks, in one set.
fn ask_both(
    web: &Domain<()>,
    web_cpu: &mut Cpu<()>,
    db: &Domain<()>,
    db_cpu: &mut Cpu<()>,
) -> CookieSet
    requires web { IsOf web.now web_cpu.old }
    requires db { IsOf db.now db_cpu.old }
    ensures web { IsOf web.now web_cpu.new × IsPlacedIn web.now.domain 0 (cookies_of result) }
    ensures db { IsOf db.now db_cpu.new × IsPlacedIn db.now.domain 1 (cookies_of result) }
{
    let mut set = CookieSet::new();
    let Ok(_) = set.add(web.start_poll(web_cpu)) else {
        unreachable!()
    };
    let Ok(_) = set.add(db.start_poll(db_cpu)) else {
        unreachable!()
    };
    set
}

fn poll_thrice(alloc: Global) -> Result<[[bool; 3]; 3], MakeError> {
    let (web, mut web_cpu, _) = one(alloc, 2)?;
    let (db, mut db_cpu, _) = one(alloc, 2)?;
    let mut set = ask_both(&web, &mut web_cpu, &db, &mut db_cpu);
    Ok(poll_round_periods(&mut set, &web, &mut web_cpu, &db, &mut db_cpu))
}

/// Would catch a set that is done after one of its members, a member that is asked after in another domain, and one that is
/// no longer done when it is asked after again.
#[test]
fn of_two_domains(rt: HostRuntime) -> Result<(), Fail> {
    let polls = [
        [false, false, false],
        [true, false, false],
        [true, true, true],
    ];
    assert_eq!(rt; poll_thrice(rt.alloc())?, polls);
    Ok(())
}

/// Adds a completed cookie, and asks after it at its place. Tells that place, whether the set was done before, and after the
/// answer. None where there is no room.
fn add_completed(set: &mut CookieSet, cpu: &mut Cpu<()>) -> Option<(usize, bool, bool)> {
    let place = set.add(Cookie::completed()).ok()?;
    let early = set.done();
    Some((place, early, set.poll_member(place, cpu) && set.done()))
}

/// Would catch a set that takes seven or nine, loses the cookie that it refuses, or is done before it has asked.
#[test]
fn eight_completed_ones(rt: HostRuntime) -> Result<(), Fail> {
    let (_domain, mut cpu, _) = one(rt.alloc(), 2)?;
    let mut set = CookieSet::new();
    assert!(rt; set.done());
    for place in 0..8 {
        assert_eq!(rt;
            add_completed(&mut set, &mut cpu),
            Some((place, false, true))
        );
    }
    let Err((refused, _)) = set.add(Cookie::completed()) else {
        panic!(rt; "there is no room");
    };
    assert!(rt; refused.is_completed() && set.len() == 8 && set.done());
    Ok(())
}

/// Whether a set is done whose members' domain is taken down, where each was found done and where none was; and whether the
/// domain went.
fn outlives(alloc: Global, is_asked: bool) -> Result<(bool, bool), Fail> {
    let (domain, mut cpu, _) = one::<(), _>(alloc, 2)?;
    let mut set = CookieSet::new();
    let _ = set.add(domain.start_poll(&mut cpu));
    let _ = drive(&domain, &mut cpu);
    if is_asked {
        set.poll_member(0, &mut cpu);
    }
    let mut cpus = Vec::with_capacity(alloc, 1)?;
    cpus.push_reserved(cpu);
    let is_gone = domain.cleanup(cpus).is_ok();
    Ok((is_gone, set.done()))
}

/// Would catch a set that forgets what it found with the domain, and one that takes a domain that is gone for a done member.
#[test]
fn outlives_its_domain(rt: HostRuntime) -> Result<(), Fail> {
    assert_eq!(rt; outlives(rt.alloc(), true)?, (true, true));
    assert_eq!(rt; outlives(rt.alloc(), false)?, (true, false));
    Ok(())
}
