//! A grace period, from its start to its end (`srcu_advance_state`): start, scan, flip, scan, end.
//!
//! One code makes single steps and steps in a row. [`go_on`] stops at the next answer; where it goes `once`, it stops
//! after one atomic step, and notes its place. What one step leaves for the next stays in local variables, and the
//! engine writes its place down once, at the end.
//!
//! These functions are inlined: `once` is known then, and no place and answer are handed back through memory. Those are
//! written in parts and read as a whole, for which a processor waits, some 10 ns a call.
ghost use Rattle.std.specs.Prelude.{◌≡◌, ◌≢◌, ◌≤◌, MatchResult};
ghost use Rattle.sections.specs.EngineCalls.{IsSeenByEngine};
ghost use Rattle.scan.specs.declared.place.Place.TheVariants as places;
ghost use Rattle.scan.specs.Standings.{not_current};
ghost use Rattle.scan.specs.Places.{viewed, IsReady, IsScanning, InUnlocks, InLocks, HasPassed, IsAt};
ghost use Rattle.scan.specs.Progress.{Paces, GoesOn, CarriesOn, FindsExhausted};
ghost use Rattle.scan.specs.Rows.{MovesUntil};

use crate::needed::find_need;
use crate::place::Place;
use crate::progress::{Pace, PeriodsExhausted, Progress};
use sections::EngineSeat;
use sseq::{Index, Needs, Phase, completed, state};
use std::alloc::Allocator;

/// Goes on from where a grace period stands, at this pace, with the needs that it is lent.
#[inline(always)]
pub(crate) fn drive<N: Needs, A: Allocator>(
    seat: &mut EngineSeat<A>,
    place: &mut Place,
    needs: &mut N,
    pace: Pace,
) -> Result<Progress, PeriodsExhausted>
    requires { IsReady seat.old place.old }
    ensures ready { IsReady seat.new place.new }
    ensures drives { MatchResult result
        (λ answer. Paces N.loads pace (viewed seat.old needs.old place.old) answer (viewed seat.new needs.new place.new))
        (λ _. FindsExhausted N.loads (viewed seat.old needs.old place.old) (viewed seat.new needs.new place.new)) }
{
    match pace {
        Pace::Step => go_on(seat, place, needs, true),
        Pace::Answer => go_on(seat, place, needs, false),
        Pace::Period => carry_on(seat, place, needs),
    }
}

/// One step, or steps until there is an answer.
#[inline(always)]
fn go_on<N: Needs, A: Allocator>(
    seat: &mut EngineSeat<A>,
    place: &mut Place,
    needs: &mut N,
    once: bool,
) -> Result<Progress, PeriodsExhausted>
    requires { IsReady seat.old place.old }
    ensures ready { IsReady seat.new place.new }
    ensures goes { MatchResult result
        (λ answer. GoesOn N.loads once (viewed seat.old needs.old place.old) answer (viewed seat.new needs.new place.new))
        (λ _. FindsExhausted N.loads (viewed seat.old needs.old place.old) (viewed seat.new needs.new place.new)) }
{
    match *place {
        Place::Idle => {
            let Some(need) = find_need(seat, needs)? else {
                return Ok(Progress::Idle);
            };
            if once {
                *place = Place::Wanted(need);
                return Ok(Progress::Step);
            }
            let started = seat.add_start();
            *place = Place::SCAN;
            Ok(Progress::Started(started))
        }
        from => {
            let (next, answer) = move_on(seat, from, once);
            *place = next;
            Ok(answer)
        }
    }
}

/// Goes from answer to answer, for as long as there is more to do at once. Behind the end of a period there may be more
/// too, but whoever waited for this one is to hear of it first.
#[inline(always)]
fn carry_on<N: Needs, A: Allocator>(
    seat: &mut EngineSeat<A>,
    place: &mut Place,
    needs: &mut N,
) -> Result<Progress, PeriodsExhausted>
    requires { IsReady seat.old place.old }
    ensures ready { IsReady seat.new place.new }
    ensures carries { MatchResult result
        (λ answer. CarriesOn N.loads (viewed seat.old needs.old place.old) answer (viewed seat.new needs.new place.new))
        (λ _. FindsExhausted N.loads (viewed seat.old needs.old place.old) (viewed seat.new needs.new place.new)) }
{
    loop {
        match go_on(seat, place, needs, false)? {
            Progress::Started(_) | Progress::Flipped(_) => {}
            answer => return Ok(answer),
        }
    }
}

/// Goes on from a place at which something is to be done.
#[inline(always)]
fn move_on<A: Allocator>(seat: &mut EngineSeat<A>, place: Place, once: bool) -> (Place, Progress)
    requires history { IsSeenByEngine seat.old }
    requires some { 1 ≤ seat.old.processors }
    requires place { (place ≢ places.Idle) × IsAt seat.old place }
    ensures { MovesUntil once seat.old place seat.new result.0 result.1 }
{
    match place {
        Place::Idle => unreachable!(),
        Place::Wanted(_) => (Place::SCAN, Progress::Started(seat.add_start())),
        Place::Unlocks { processor, ended } => scan(seat, processor, ended, once),
        Place::Locks {
            processor,
            ended,
            begun,
        } => {
            let index = scanned_index(seat);
            finish_scan(seat, index, processor, ended, begun, once)
        }
        Place::Passed => leave_scan(seat, once),
        Place::Flipped(index) => {
            seat.add_scan2();
            (Place::SCAN, Progress::Flipped(index))
        }
    }
}

/// The index that a scan looks at: the one that is not current.
fn scanned_index<A: Allocator>(seat: &EngineSeat<A>) -> Index
    requires { IsScanning seat.now }
    ensures { result ≡ not_current seat.now.changes }
{
    // Not the current index: a reader that looks now gets that one, and new sections could hold its scan up for ever.
    // The other one is got only by readers that looked before the last flip, so its scan has an end.
    // It comes from the number, which the engine alone changes and so knows without a step. A load of the index word
    // would be one step more, and between the two steps of the flip the word is ahead of the number.
    let number = seat.number();
    let ended = Index::of_word(completed(number));
    match state(number) {
        // The current index is that of so many ended periods before the flip, and the other one behind it.
        Phase::Scan2 => ended,
        _ => ended.other(),
    }
}

/// A scan asks whether a section of the index that is not current is open (`try_check_zero`,
/// `srcu_readers_active_idx_check`). It adds up first the unlock counters of that index (`srcu_readers_unlock_idx`), from a
/// processor on, and then the lock counters. Each load and each addition is sequentially consistent, so it needs no barrier.
///
/// A reader that looked at the index word long ago may still begin a section of the index that is being scanned. Begun
/// before the last unlock load it is waited for, or it has ended. Begun behind that, it began after the grace period
/// did, and need not be waited for: but its lock may be counted, and then the scan is made again.
#[inline(always)]
fn scan<A: Allocator>(
    seat: &mut EngineSeat<A>,
    first: u16,
    before: u64,
    once: bool,
) -> (Place, Progress)
    requires history { IsSeenByEngine seat.old }
    requires place { InUnlocks seat.old first before }
    ensures { MovesUntil once seat.old (places.Unlocks first before) seat.new result.0 result.1 }
{
    let index = scanned_index(seat);
    let last = seat.processors() - 1;
    let mut ended = before;
    for processor in first..last {
        ended += seat.unlocks(processor, index);
        if once {
            let processor = processor + 1;
            return (Place::Unlocks { processor, ended }, Progress::Step);
        }
    }
    ended += seat.unlocks(last, index);
    // No lock counter is loaded before the last unlock counter was: else equal sums could hide a reader (`finish_scan`).
    if once {
        let next = Place::Locks {
            processor: 0,
            ended,
            begun: 0,
        };
        return (next, Progress::Step);
    }
    finish_scan(seat, index, 0, ended, 0, once)
}

/// Adds up the lock counters (`srcu_readers_lock_idx`), from a processor on, and compares the sums. Where they are equal the
/// scan has passed, and otherwise it begins anew.
#[inline(always)]
fn finish_scan<A: Allocator>(
    seat: &mut EngineSeat<A>,
    index: Index,
    first: u16,
    ended: u64,
    before: u64,
    once: bool,
) -> (Place, Progress)
    requires history { IsSeenByEngine seat.old }
    requires place { InLocks seat.old first ended before }
    requires index { index ≡ not_current seat.old.changes }
    ensures { MovesUntil once seat.old (places.Locks first ended before) seat.new result.0 result.1 }
{
    let last = seat.processors() - 1;
    let mut begun = before;
    for processor in first..last {
        begun += seat.locks(processor, index);
        if once {
            let next = Place::Locks {
                processor: processor + 1,
                ended,
                begun,
            };
            return (next, Progress::Step);
        }
    }
    begun += seat.locks(last, index);
    // Equal sums: no section of the index was open at the moment of the last unlock load, since counters only grow, and
    // each section begins before it ends:
    //
    //   sum of the unlock loads <= sections ended by then <= sections begun by then <= sum of the lock loads.
    //
    // Were the locks added up first, a section that begins behind its lock load and ends before its unlock load would be
    // counted out and not in, and could stand in for one that is still open: the sums would be equal with a reader inside.
    if ended != begun {
        // More are begun by now than had ended at the scan's first load: one was open in between.
        return (Place::SCAN, Progress::Waiting(index));
    }
    if once {
        return (Place::Passed, Progress::Step);
    }
    leave_scan(seat, once)
}

/// What follows a scan that has passed. After the first one the current index is flipped (`srcu_flip`): sections that look
/// from now on get the index that was found empty, so that the second scan, of the index that was current until now, has
/// an end. Without the flip new sections of the current index could hold it up for ever. Without the second scan a
/// section that was open at the start with the current index would be forgotten, and without the first one a section of
/// the other index, whose reader had looked before the last flip. The flip has two steps, first the
/// index word and then the number: between them a section may already have the new index, which nobody scans yet.
/// After the second scan the grace period ends.
#[inline(always)]
fn leave_scan<A: Allocator>(seat: &mut EngineSeat<A>, once: bool) -> (Place, Progress)
    requires history { IsSeenByEngine seat.old }
    requires some { 1 ≤ seat.old.processors }
    requires place { HasPassed seat.old }
    ensures { MovesUntil once seat.old places.Passed seat.new result.0 result.1 }
{
    match state(seat.number()) {
        Phase::Scan2 => (Place::Idle, Progress::Ended(seat.add_end())),
        _ => {
            let index = seat.flip();
            if once {
                return (Place::Flipped(index), Progress::Step);
            }
            seat.add_scan2();
            (Place::SCAN, Progress::Flipped(index))
        }
    }
}
