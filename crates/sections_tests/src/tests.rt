ghost use Rattle.std.specs.Prelude.{◌≡◌, ◌+◌, ◌<◌, IsTrue, IfOk, IfSome};
ghost use Rattle.sseq.specs.Indexes.{low_bit, other_index};
ghost use Rattle.sseq.specs.declared.index.Index.TheVariants.{One};
ghost use Rattle.onedom.specs.Histories.{WasEmpty};
ghost use Rattle.sections.specs.Words.{index_word, IsBeforeFlip, IsBehindFlip};
ghost use Rattle.sections.specs.Calls.{IsSameCpu};
ghost use Rattle.sections.specs.EngineCalls.{IsSameEngine, IsSeenByEngine};

mod boxes;
mod lending;
mod loading;
mod shelf;

use bumpalo::Bump;
use linked_list_allocator::LocalHeap;
use sections::{
    Cookie, CookieSet, Cpu, EngineSeat, Exhausted, Held, Limits, MOST_PROCESSORS, Made, MakeError,
    NotACookie, make, sums_of_a_domain,
};
use sseq::{Index, Number};
use std::alloc::Global;
use std::sync::atomic::AtomicBool;
use std::sync::atomic::Ordering::SeqCst;
use std::test::Fail;
use std::thread;
use std::thread::join;
use std::time::{Clock, Duration};

fn limits(sections: u64) -> Limits
    ensures { result.periods ≡ 2 }
{
    Limits {
        sections,
        periods: 2,
        cells: 0,
        slots: 2,
    }
}

/// The two processors of a new domain and its engine's seat.
fn two_in_new_domain(alloc: Global) -> Result<(Cpu, Cpu, EngineSeat), MakeError>
    ensures { IfOk result (λ r. (r.0.domain ≡ r.2.domain) × (r.1.domain ≡ r.2.domain) × (r.2.periods ≡ 2) × (r.2.processors ≡ 2) × (r.2.changes ≡ 0)) }
{
    let Made {
        mut cpus,
        engine,
        ..
    } = make(alloc, 2, limits(1))?;
    let second = cpus.pop().unwrap();
    let first = cpus.pop().unwrap();
    Ok((first, second, engine))
}

/// A scan of the index: whether as many of its sections have ended on both processors as were begun there. Then none of
/// them was open when the last unlock counter was loaded.
fn scan(engine: &mut EngineSeat, index: Index) -> bool
    requires { engine.old.processors ≡ 2 }
    ensures same { IsSameEngine engine.old engine.new × (engine.new.changes ≡ engine.old.changes) }
    ensures empty { IsTrue result → WasEmpty index engine.new.seen }
    ensures still { (i : Index) → WasEmpty i engine.old.seen → WasEmpty i engine.new.seen }
    ensures history { IsSeenByEngine engine.new }
{
    // For the proof: what holds of counters, and that the engine has seen a legal history.
    sums_of_a_domain();
    engine.processors();
    let ended = engine.unlocks(0, index);
    let ended_there = engine.unlocks(1, index);
    let begun = engine.locks(0, index);
    let begun_there = engine.locks(1, index);
    ended + ended_there == begun + begun_there
}

/// The first scan of a period and both steps of the flip. `None` where a section of the index is open.
fn flip_behind_scan(engine: &mut EngineSeat, index: Index) -> Option<(Index, Number)>
    requires two { engine.old.processors ≡ 2 }
    requires running { IsBeforeFlip engine.old.changes }
    requires other { index ≡ other_index (low_bit (index_word engine.old.changes)) }
    ensures same { IsSameEngine engine.old engine.new }
    ensures flipped { IfSome result (λ _. (engine.new.changes ≡ engine.old.changes + 2) × WasEmpty index engine.new.seen) }
{
    if !scan(engine, index) {
        return None;
    }
    let current = engine.flip();
    Some((current, engine.add_scan2()))
}

/// The second scan of the first period, and its end. `None` where a section of index 0 is open.
fn end_behind_scan(engine: &mut EngineSeat) -> Option<Number>
    requires two { engine.old.processors ≡ 2 }
    requires behind { IsBehindFlip engine.old.changes }
    requires scanned { WasEmpty One engine.old.seen }
    ensures same { IsSameEngine engine.old engine.new }
    ensures ended { IfSome result (λ _. engine.new.changes ≡ engine.old.changes + 1) }
{
    if !scan(engine, Index::Zero) {
        return None;
    }
    Some(engine.add_end())
}

/// How many sections of the index the processor's counters say were begun there, and how many were ended.
fn counted(engine: &mut EngineSeat, processor: u16, index: Index) -> (u64, u64)
    requires { processor < engine.old.processors }
    ensures { IsSameEngine engine.old engine.new }
{
    (
        engine.locks(processor, index),
        engine.unlocks(processor, index),
    )
}

/// What the counters of two processors say, of index 0 and then of index 1.
fn counted_on_two(engine: &mut EngineSeat) -> [(u64, u64); 4]
    requires { engine.old.processors ≡ 2 }
{
    let first = counted(engine, 0, Index::Zero);
    let second = counted(engine, 1, Index::Zero);
    let first_next = counted(engine, 0, Index::One);
    [first, second, first_next, counted(engine, 1, Index::One)]
}

/// The index and the processor of a section that this processor enters by a look of another one, and how many are open on
/// each of the two meanwhile and behind.
fn enter_by_look(cpu: &mut Cpu, other: &mut Cpu) -> Option<(Index, u16, [(u64, u64); 2])>
    requires { other.old.domain ≡ cpu.old.domain }
    ensures { other.new.domain ≡ cpu.new.domain }
{
    let look = other.look();
    let entered = cpu.enter(look).ok()?;
    let (index, processor) = (entered.index(), entered.processor());
    let open = (cpu.open_here(), other.open_here());
    cpu.read_unlock(entered);
    Some((
        index,
        processor,
        [open, (cpu.open_here(), other.open_here())],
    ))
}

/// Begins and ends a section. Tells its index and processor, and how many are open here meanwhile and behind.
fn begin_and_end(cpu: &mut Cpu) -> Option<(Index, u16, u64, u64)>
    ensures { IsSameCpu cpu.old cpu.new }
{
    let reading = cpu.read_lock().ok()?;
    let (index, processor, open) = (reading.index(), reading.processor(), cpu.open_here());
    cpu.read_unlock(reading);
    Some((index, processor, open, cpu.open_here()))
}

/// Would catch sections that no caller can begin, with another index or processor, or that count elsewhere.
#[test]
fn begins_sections(rt: HostRuntime) -> Result<(), Fail> {
    let (mut first, mut second, _) = two_in_new_domain(rt.alloc())?;
    let there = enter_by_look(&mut second, &mut first);
    let here = begin_and_end(&mut first);
    assert_eq!(rt; there, Some((Index::Zero, 1, [(1, 0), (0, 0)])));
    assert_eq!(rt; here, Some((Index::Zero, 0, 1, 0)));
    Ok(())
}

/// Whether one more section is refused here, by a look of another processor and by one of its own.
fn is_full(cpu: &mut Cpu, other: &mut Cpu) -> (bool, bool)
    requires { other.old.domain ≡ cpu.old.domain }
    ensures { other.new.domain ≡ cpu.new.domain }
{
    let look = other.look();
    let entered = match cpu.enter(look) {
        Ok(reading) => {
            cpu.read_unlock(reading);
            false
        }
        Err(Exhausted) => true,
    };
    match cpu.read_lock() {
        Ok(reading) => {
            cpu.read_unlock(reading);
            (entered, false)
        }
        Err(Exhausted) => (entered, true),
    }
}

/// Would catch a limit that is off by one, or that two processors share.
#[test]
fn sections_up_to_the_limit(rt: HostRuntime) -> Result<(), Fail> {
    let (mut first, mut second, _) = two_in_new_domain(rt.alloc())?;
    let begun = begin_and_end(&mut first).is_some();
    let full = is_full(&mut first, &mut second);
    let there = is_full(&mut second, &mut first);
    assert_eq!(rt; (begun, full, there), (true, (true, true), (false, true)));
    assert_eq!(rt; (first.open_here(), second.open_here()), (0, 0));
    Ok(())
}

/// Ties and meetings of two processors and the engine.
fn tie_all(first: &mut Cpu, second: &mut Cpu, engine: &mut EngineSeat)
    requires { (first.old.domain ≡ engine.old.domain) × (second.old.domain ≡ engine.old.domain) }
{
    first.tie(second);
    engine.tie(first);
    second.cover(first);
    second.admit(first);
    engine.cover(second);
    engine.admit(second);
}

/// Would catch calls that no caller can meet, and numbers that every clause leaves open.
#[test]
fn makes_a_domain(rt: HostRuntime) -> Result<(), Fail> {
    let (mut first, mut second, mut engine) = two_in_new_domain(rt.alloc())?;
    assert_eq!(rt;
        (
            first.processor(),
            second.processor(),
            engine.processors(),
            engine.periods()
        ),
        (0, 1, 2, 2)
    );
    let before = engine.number().get();
    let started = engine.add_start().get();
    assert_eq!(rt; [before, started, engine.number().get()], [0, 1, 1]);
    assert_eq!(rt; [first.number().get(), second.number().get()], [1, 1]);
    tie_all(&mut first, &mut second, &mut engine);
    Ok(())
}

/// A whole period. Tells the numbers of the cookies that two processors give before it and while it runs; and whether the
/// first cookie is done before the end, for one processor, and behind it, for both, and whether the second one is then.
fn ask_in_a_period(
    first: &mut Cpu,
    second: &mut Cpu,
    engine: &mut EngineSeat,
) -> Option<([u64; 2], [bool; 4])>
    requires domain { second.old.domain ≡ first.old.domain }
    requires new { (engine.old.changes ≡ 0) × (engine.old.periods ≡ 2) × (engine.old.processors ≡ 2) }
{
    let mut at_rest = first.cookie();
    engine.add_start();
    let mut running = second.cookie();
    flip_behind_scan(engine, Index::One)?;
    let early = first.poll(&mut at_rest);
    end_behind_scan(engine)?;
    let late = first.poll(&mut at_rest);
    let there = second.poll(&mut at_rest);
    let next = first.poll(&mut running);
    Some((
        [at_rest.number(), running.number()],
        [early, late, there, next],
    ))
}

/// Would catch a cookie that is done too early or too late, or for the processor alone that gave it.
#[test]
fn cookies_of_a_period(rt: HostRuntime) -> Result<(), Fail> {
    let (mut first, mut second, mut engine) = two_in_new_domain(rt.alloc())?;
    let asked = ask_in_a_period(&mut first, &mut second, &mut engine);
    assert_eq!(rt; asked, Some(([4, 8], [false, true, true, false])));
    Ok(())
}

/// A period that a section holds up, which the processor begins before. Tells whether the second scan finds it, and the
/// numbers of the period's three steps, each as it was answered and as it then stands, with the index behind the flip.
fn period_with_section(
    cpu: &mut Cpu,
    engine: &mut EngineSeat,
) -> Option<(bool, Index, [(u64, u64); 3])>
    requires new { (engine.old.changes ≡ 0) × (engine.old.periods ≡ 2) × (engine.old.processors ≡ 2) }
    ensures { engine.new.processors ≡ 2 }
{
    let reading = cpu.read_lock().ok()?;
    let start = (engine.add_start().get(), engine.number().get());
    let Some((index, number)) = flip_behind_scan(engine, Index::One) else {
        cpu.read_unlock(reading);
        return None;
    };
    let flip = (number.get(), engine.number().get());
    let is_empty = scan(engine, Index::Zero);
    cpu.read_unlock(reading);
    let number = end_behind_scan(engine)?;
    let end = (number.get(), engine.number().get());
    Some((!is_empty, index, [start, flip, end]))
}

/// Would catch a scan that overlooks a section, counters of the wrong processor or index, and steps that answer another
/// number.
#[test]
fn whole_period(rt: HostRuntime) -> Result<(), Fail> {
    let (_, mut second, mut engine) = two_in_new_domain(rt.alloc())?;
    let period = period_with_section(&mut second, &mut engine);
    assert_eq!(rt; period, Some((true, Index::One, [(1, 1), (2, 2), (4, 4)])));
    assert_eq!(rt;
        counted_on_two(&mut engine),
        [(0, 0), (1, 1), (0, 0), (0, 0)]
    );
    Ok(())
}

/// Two periods. The processor's look is older than the first, and its section begins in the second. Tells whether the scan
/// finds it, its index and that of a newer look, and the index and the number behind the second flip.
fn late_section(cpu: &mut Cpu, engine: &mut EngineSeat) -> Option<(bool, [Index; 3], u64)>
    requires new { (engine.old.changes ≡ 0) × (engine.old.periods ≡ 2) × (engine.old.processors ≡ 2) }
{
    let look = cpu.look();
    drive(engine)?;
    engine.add_start();
    let newer = cpu.look().index();
    let late = cpu.enter(look).ok()?;
    let index = late.index();
    let is_empty = scan(engine, Index::Zero);
    cpu.read_unlock(late);
    let (current, number) = flip_behind_scan(engine, Index::Zero)?;
    Some((!is_empty, [index, newer, current], number.get()))
}

/// Would catch a flip that leaves the index as it is, and a period that passes a section whose look is older than the flip.
#[test]
fn an_older_look(rt: HostRuntime) -> Result<(), Fail> {
    let (mut first, _, mut engine) = two_in_new_domain(rt.alloc())?;
    let late = late_section(&mut first, &mut engine);
    assert_eq!(rt;
        late,
        Some((true, [Index::Zero, Index::One, Index::Zero], 6))
    );
    Ok(())
}

/// A period that a held section holds up, which begins on the first processor and ends on the second. Tells its index and
/// processor, how many readings are open on both meanwhile, whether the scan finds it, and the number behind the end.
fn hold_and_end_elsewhere(
    first: &mut Cpu,
    second: &mut Cpu,
    engine: &mut EngineSeat,
) -> Option<(Index, u16, (u64, u64), bool, u64)>
    requires domain { second.old.domain ≡ first.old.domain }
    requires new { (engine.old.changes ≡ 0) × (engine.old.periods ≡ 2) × (engine.old.processors ≡ 2) }
    ensures { engine.new.processors ≡ 2 }
{
    let held = first.down_read().ok()?;
    let (index, processor) = (held.index(), held.processor());
    let open = (first.open_here(), second.open_here());
    engine.add_start();
    let Some(_) = flip_behind_scan(engine, Index::One) else {
        second.up_read(held);
        return None;
    };
    let is_empty = scan(engine, Index::Zero);
    second.up_read(held);
    let number = end_behind_scan(engine)?;
    Some((index, processor, open, !is_empty, number.get()))
}

/// Would catch an end that goes to the counter of the processor that began the section, or to the index that is current
/// by then; and held sections that count as open readings.
#[test]
fn held_ends_elsewhere(rt: HostRuntime) -> Result<(), Fail> {
    let (mut first, mut second, mut engine) = two_in_new_domain(rt.alloc())?;
    let held = hold_and_end_elsewhere(&mut first, &mut second, &mut engine);
    assert_eq!(rt; held, Some((Index::Zero, 0, (0, 0), true, 4)));
    assert_eq!(rt; (first.open_here(), second.open_here()), (0, 0));
    assert_eq!(rt;
        counted_on_two(&mut engine),
        [(1, 0), (0, 1), (0, 0), (0, 0)]
    );
    Ok(())
}

/// Whether one more held section is refused here. Where it is not, it ends on the other processor.
fn holds_no_more(cpu: &mut Cpu, other: &mut Cpu) -> bool
    requires { other.old.domain ≡ cpu.old.domain }
    ensures { other.new.domain ≡ cpu.new.domain }
{
    match cpu.down_read() {
        Ok(held) => {
            other.up_read(held);
            false
        }
        Err(Exhausted) => true,
    }
}

/// Would catch held sections that don't count to the limit, or that count where they end.
#[test]
fn held_up_to_the_limit(rt: HostRuntime) -> Result<(), Fail> {
    let (mut first, mut second, _) = two_in_new_domain(rt.alloc())?;
    let early = holds_no_more(&mut first, &mut second);
    let full = holds_no_more(&mut first, &mut second);
    let begun = begin_and_end(&mut second).is_some();
    let full_there = holds_no_more(&mut second, &mut first);
    assert_eq!(rt; (early, full), (false, true));
    assert_eq!(rt; (begun, full_there), (true, true));
    Ok(())
}

/// Begins a held section. `None` where it is refused.
fn hold(mut cpu: Cpu) -> Option<(Cpu, Held)>
    ensures { IfSome result (λ r. (r.0.domain ≡ cpu.domain) × (r.1.domain ≡ cpu.domain)) }
{
    let held = cpu.down_read().ok()?;
    Some((cpu, held))
}

/// Two threads begin a section each, and this thread ends each of them on the processor of the other. Would catch a
/// section that only its own thread or processor can end.
#[test]
fn held_goes_to_another_thread(rt: HostRuntime) -> Result<(), Fail> {
    let (first, second, mut engine) = two_in_new_domain(rt.alloc())?;
    let (here, there) = join(&rt, move || hold(first), move || hold(second));
    let Some((mut first, of_first)) = here else {
        panic!(rt; "there is room");
    };
    let Some((mut second, of_second)) = there else {
        panic!(rt; "there is room");
    };
    assert_eq!(rt; (of_first.processor(), of_second.processor()), (0, 1));
    first.up_read(of_second);
    second.up_read(of_first);
    assert_eq!(rt;
        counted_on_two(&mut engine),
        [(1, 1), (1, 1), (0, 0), (0, 0)]
    );
    Ok(())
}

/// Whether one section of index 0 was begun and ended on each of 256 processors.
fn once_on_each(engine: &mut EngineSeat) -> bool
    requires { engine.old.processors ≡ 256 }
{
    let mut once = true;
    for processor in 0..256 {
        once &= counted(engine, processor, Index::Zero) == (1, 1);
    }
    once
}

/// Would catch counters that two of 256 processors share, and a processor that is not dealt.
#[test]
fn most_processors(rt: HostRuntime) -> Result<(), Fail> {
    let Made {
        mut cpus,
        mut engine,
        ..
    } = make(rt.alloc(), MOST_PROCESSORS, limits(1))?;
    assert_eq!(rt; (cpus.len(), engine.processors()), (256, 256));
    for (k, cpu) in cpus.iter_mut().enumerate() {
        assert_eq!(rt; begin_and_end(cpu), Some((Index::Zero, k as u16, 1, 0)));
    }
    assert!(rt; once_on_each(&mut engine));
    Ok(())
}

/// Starts the first period and drives it to its end. `None` where a section holds it up.
fn drive(engine: &mut EngineSeat) -> Option<Number>
    requires two { engine.old.processors ≡ 2 }
    requires rests { engine.old.changes ≡ 0 }
    requires room { engine.old.periods ≡ 2 }
    ensures same { IsSameEngine engine.old engine.new }
    ensures ended { IfSome result (λ _. engine.new.changes ≡ 4) }
{
    engine.add_start();
    flip_behind_scan(engine, Index::One)?;
    end_behind_scan(engine)
}

/// Would catch a cookie that another thread's processor can't ask after, and an answer that goes back.
#[test]
fn one_thread_gives_and_another_asks(rt: HostRuntime) -> Result<(), Fail> {
    let (mut first, mut second, mut engine) = two_in_new_domain(rt.alloc())?;
    let mut cookie = first.cookie();
    let (ended, (early, late)) = join(
        &rt,
        move || -> Option<Number> { drive(&mut engine) },
        move || -> (bool, bool) {
            let early = second.poll(&mut cookie);
            (early, second.poll(&mut cookie))
        },
    );
    assert_eq!(rt; ended.map(Number::get), Some(4));
    assert!(rt; late || !early);
    assert_eq!(rt; first.poll_number(4), Ok(true));
    Ok(())
}

/// What is told through a sight of the engine, before a period and behind it: the number of a cookie and of its copy, and
/// how far the domain is; and then whether the copy is done, and the number of a newer cookie.
fn tell_by_a_sight(
    first: &mut Cpu,
    second: &mut Cpu,
    engine: &mut EngineSeat,
) -> Option<([u64; 3], u64, bool, u64)>
    requires domain { (first.old.domain ≡ engine.old.domain) × (second.old.domain ≡ engine.old.domain) }
    requires new { (engine.old.changes ≡ 0) × (engine.old.periods ≡ 2) × (engine.old.processors ≡ 2) }
{
    let mut given = engine.sight();
    let mut sight = engine.sight();
    let mut cookie = first.cookie_behind(&mut sight);
    let copy = second.copy_given(&mut cookie);
    let before = [
        cookie.number(),
        copy.number(),
        second.how_far_behind(&mut given, &mut sight).get(),
    ];
    drive(engine)?;
    let behind = second.how_far_behind(&mut given, &mut sight).get();
    let done = first.poll(&mut copy.into_cookie());
    let newer = first.cookie_behind(&mut sight);
    Some((before, behind, done, newer.number()))
}

/// Would catch a sight that doesn't go along, so that a later cookie is smaller, and a copy that is another cookie.
#[test]
fn behind_a_sight(rt: HostRuntime) -> Result<(), Fail> {
    let (mut first, mut second, mut engine) = two_in_new_domain(rt.alloc())?;
    let told = tell_by_a_sight(&mut first, &mut second, &mut engine);
    assert_eq!(rt; told, Some(([4, 4, 0], 4, true, 8)));
    Ok(())
}

/// Would catch a number that is taken for a cookie, or a cookie for no cookie.
#[test]
fn polls_numbers(rt: HostRuntime) -> Result<(), Fail> {
    let (mut first, _, _) = two_in_new_domain(rt.alloc())?;
    for (number, done) in [
        (0, true),
        (1, true),
        (4, false),
        (8, false),
        (u64::MAX - 3, false),
    ] {
        assert_eq!(rt; (number, first.poll_number(number)), (number, Ok(done)));
    }
    for number in [2, 3, 5, 6, 7, u64::MAX] {
        assert_eq!(rt;
            (number, first.poll_number(number)),
            (number, Err(NotACookie))
        );
    }
    Ok(())
}

/// Would catch a completed cookie that is of one domain alone, and one that is taken for a cookie that was given.
#[test]
fn completed_in_each_domain(rt: HostRuntime) -> Result<(), Fail> {
    let (mut first, _, mut engine) = two_in_new_domain(rt.alloc())?;
    let (mut other, _, _) = two_in_new_domain(rt.alloc())?;
    let mut completed = Cookie::completed();
    engine.add_start();
    let here = first.poll(&mut completed);
    let there = other.poll(&mut completed);
    assert_eq!(rt; (here, there), (true, true));
    assert_eq!(rt; (completed.number(), completed.is_completed()), (1, true));
    assert!(rt; !first.cookie().is_completed());
    Ok(())
}

/// Polls a cookie of a set on the first processor before a period and after it, and shows the second what that found:
/// both answers, whether the set is done, and what the second is told then.
fn find_for_another(
    first: &mut Cpu,
    second: &mut Cpu,
    engine: &mut EngineSeat,
) -> Option<([bool; 3], Result<bool, NotACookie>)>
    requires domain { (first.old.domain ≡ engine.old.domain) × (second.old.domain ≡ engine.old.domain) }
    requires new { (engine.old.changes ≡ 0) × (engine.old.periods ≡ 2) × (engine.old.processors ≡ 2) }
{
    let mut set = CookieSet::new();
    let Ok(place) = set.add(first.cookie()) else {
        unreachable!()
    };
    let early = set.poll_member(place, first);
    set.catch_up(place, second);
    drive(engine)?;
    let late = set.poll_member(place, first);
    set.catch_up(place, second);
    Some(([early, late, set.done()], second.poll_number(4)))
}

/// Would catch a member that is done too soon or never, and what was found done but is not known to the other processor.
#[test]
fn found_for_another(rt: HostRuntime) -> Result<(), Fail> {
    let (mut first, mut second, mut engine) = two_in_new_domain(rt.alloc())?;
    let told = find_for_another(&mut first, &mut second, &mut engine);
    assert_eq!(rt; told, Some(([false, true, true], Ok(true))));
    Ok(())
}

/// Would catch a processor that takes over what was seen in another domain.
#[test]
fn completed_found_elsewhere(rt: HostRuntime) -> Result<(), Fail> {
    let (mut first, _, _) = two_in_new_domain(rt.alloc())?;
    let (mut other, _, _) = two_in_new_domain(rt.alloc())?;
    let mut set = CookieSet::new();
    let Ok(place) = set.add(Cookie::completed()) else {
        unreachable!()
    };
    assert_eq!(rt; (place, set.len(), set.done()), (0, 1, false));
    let found = set.poll_member(place, &mut other);
    set.catch_up(place, &mut first);
    assert_eq!(rt; (found, set.done()), (true, true));
    assert_eq!(rt; first.poll_number(4), Ok(false));
    Ok(())
}

/// Would catch another number of a refusal: callers hand it on.
#[test]
fn numbers_of_refusals(rt: HostRuntime) {
    let numbers = [
        MakeError::Processors as u8,
        MakeError::Limits as u8,
        MakeError::Memory as u8,
    ];
    assert_eq!(rt; numbers, [1, 2, 3]);
}

/// Why such a domain is not made, if it is not.
fn refusal(alloc: Global, processors: usize, limits: Limits) -> Option<MakeError> {
    make(alloc, processors, limits).err()
}

/// Would catch a wrong bound in the limits' ranges, and refusals in another order.
#[test]
fn refuses_to_make(rt: HostRuntime) {
    let most = Limits {
        sections: 1 << 52,
        periods: (1 << 59) - 1,
        cells: 0,
        slots: 2,
    };
    assert_eq!(rt; Limits::default(), most);
    let no_sections = Limits {
        sections: 0,
        ..most
    };
    let no_periods = Limits { periods: 0, ..most };
    let wrong = [
        no_sections,
        no_periods,
        Limits {
            sections: (1 << 52) + 1,
            ..most
        },
        Limits {
            periods: 1 << 59,
            ..most
        },
        Limits { cells: 5, ..most },
        Limits { slots: 1, ..most },
        Limits { slots: 9, ..most },
    ];
    for processors in [1, 2, MOST_PROCESSORS] {
        assert_eq!(rt; refusal(rt.alloc(), processors, most), None);
        for limits in wrong {
            assert_eq!(rt;
                (limits, refusal(rt.alloc(), processors, limits)),
                (limits, Some(MakeError::Limits))
            );
        }
    }
    for processors in [0, 257] {
        for limits in [most, no_sections, no_periods] {
            assert_eq!(rt;
                (limits, refusal(rt.alloc(), processors, limits)),
                (limits, Some(MakeError::Processors))
            );
        }
    }
}

const VISITS: u64 = 1_000;

/// Opens a section, says so, and closes it once the other thread has said the same. Answers whether it did: it looks at
/// most 10,000 times, one millisecond apart.
fn wait_inside<C: Clock>(
    clock: &C,
    cpu: &mut Cpu,
    inside: &AtomicBool,
    other_inside: &AtomicBool,
) -> bool {
    let Ok(reading) = cpu.read_lock() else {
        return false;
    };
    inside.store(true, SeqCst);
    let mut met = false;
    for _ in 0..10_000 {
        met = other_inside.load(SeqCst);
        if met {
            break;
        }
        thread::sleep(clock, Duration::from_millis(1));
    }
    cpu.read_unlock(reading);
    met
}

/// Opens and closes sections, and answers how many are open then. `None` where one was refused.
fn visit(cpu: &mut Cpu) -> Option<u64> {
    for _ in 0..VISITS {
        let reading = cpu.read_lock().ok()?;
        cpu.read_unlock(reading);
    }
    Some(cpu.open_here())
}

/// Two threads that are inside at once: each keeps its first section open until the other one has begun one too. Would
/// catch a processor that keeps another one out, and additions that undo one another or go to the other processor's
/// counters.
#[test]
fn two_threads(rt: HostRuntime) -> Result<(), Fail> {
    let Made {
        mut cpus,
        mut engine,
        ..
    } = make(rt.alloc(), 2, limits(VISITS + 1))?;
    let mut second = cpus.pop().unwrap();
    let mut first = cpus.pop().unwrap();
    let (one, two) = (AtomicBool::new(false), AtomicBool::new(false));
    let (here, there) = join(
        &rt,
        || -> (bool, Option<u64>) {
            let met = wait_inside(&rt, &mut first, &one, &two);
            (met, visit(&mut first))
        },
        || -> (bool, Option<u64>) {
            let met = wait_inside(&rt, &mut second, &two, &one);
            (met, visit(&mut second))
        },
    );
    assert_eq!(rt; (here, there), ((true, Some(0)), (true, Some(0))));
    let each = (VISITS + 1, VISITS + 1);
    assert_eq!(rt; counted_on_two(&mut engine), [each, each, (0, 0), (0, 0)]);
    Ok(())
}

/// Makes a domain in the heap's room, and drops it. Tells how much of the heap it used.
fn make_and_drop(heap: &LocalHeap) -> Result<usize, MakeError> {
    let made = make(heap, 2, limits(1))?;
    let used = heap.used();
    drop(made);
    Ok(used)
}

/// Would catch a refused allocation that leaves something allocated.
#[test]
fn gives_back_what_a_refused_domain_took(rt: HostRuntime) -> Result<(), Fail> {
    for room in 0..100 {
        let heap = LocalHeap::new(rt.alloc(), 64 + 64 * room)?;
        let made = make_and_drop(&heap);
        assert_eq!(rt; heap.used(), 0);
        if let Ok(used) = made {
            assert!(rt; room > 0 && used > 0);
            return Ok(());
        }
        assert_eq!(rt; made, Err(MakeError::Memory));
    }
    panic!(rt; "it never fits")
}

/// Would catch a refused allocation that is told as another error. There are four: the words, the table that they are
/// copied to, its count, and the processors. An arena takes nothing back while it lives, so each of them needs more
/// room than the one before it.
#[test]
fn make_in_little_room(rt: HostRuntime) -> Result<(), Fail> {
    let words = 8 * 64;
    let processors = 2 * size_of::<Cpu<&Bump>>();
    let zeros = vec![in rt.alloc(); 0u8; 8192]?;
    for room in (0..4096).step_by(16) {
        let arena = Bump::try_with_capacity(rt.alloc(), 4096)?;
        arena.set_allocation_limit(Some(arena.allocated_bytes()));
        let filled = arena.chunk_capacity().saturating_sub(room);
        arena.try_alloc_slice_copy(&zeros[..filled.min(8192)])?;
        assert_eq!(rt; arena.chunk_capacity(), room);
        match make(&arena, 2, limits(1)) {
            Ok(made) => {
                assert_eq!(rt; made.cpus.len(), 2);
                assert!(rt; room > 2 * words + processors);
                return Ok(());
            }
            Err(error) => assert_eq!(rt; error, MakeError::Memory),
        }
    }
    panic!(rt; "it never fits")
}
