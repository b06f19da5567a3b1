//! Boxes that are frozen, read and thawed. A bell counts its drops, and the `Arc` in it which bells are alive.
ghost use Rattle.std.specs.Prelude.{◌≡◌, ◌+◌, ◌-◌, ◌^◌, ◌<◌, ◌≤◌};

use crate::{Deed, LooseDeed, Part, Terms, freeze, thaw};
use std::alloc::{AllocError, Global};
use std::sync::Arc;
use std::sync::atomic::AtomicU64;
use std::sync::atomic::Ordering::SeqCst;
use std::test::Fail;
use std::thread::{Threads, join};

/// A value that counts how often one of its kind is dropped.
struct Bell {
    number: u64,
    rung: Arc<AtomicU64>,
}

impl Drop for Bell {
    fn drop(self) {
        let Bell { number: _, rung } = self;
        rung.fetch_add(1, SeqCst);
        drop(rung);
    }
}

/// A bell in a box.
fn make_bell(alloc: Global, number: u64, rung: &Arc<AtomicU64>) -> Result<Box<Bell>, AllocError> {
    let bell = Bell {
        number,
        rung: Arc::try_clone(rung)?,
    };
    Ok(Box::new(alloc, bell)?)
}

/// Would catch a part that reads another value, a box that is dropped while it is frozen, and one that is dropped twice.
#[test]
fn a_box_comes_back_whole(rt: HostRuntime) -> Result<(), Fail> {
    let rung = Arc::new(rt.alloc(), AtomicU64::new(0))?;
    let (deed, mut all) = freeze(make_bell(rt.alloc(), 7, &rung)?);
    let one = all.split(1);
    let mut half = all.split(4_611_686_018_427_387_904);
    deed.agree(&half);
    half.agree(&one);
    let terms = Terms::of_deed(&deed);
    terms.agree(&one);
    Terms::of_part(&one).another().agree(&half);
    assert_eq!(rt;
        (all.get().number, one.get().number, half.get().number),
        (7, 7, 7)
    );
    half.join(one);
    half.join(all);
    assert_eq!(rt; half.get().number, 7);
    assert_eq!(rt; Arc::strong_count(&rung), 2);
    let whole = thaw(deed, half);
    assert_eq!(rt; (whole.number, rung.load(SeqCst)), (7, 0));
    drop(whole);
    assert_eq!(rt; (Arc::strong_count(&rung), rung.load(SeqCst)), (1, 1));
    Ok(())
}

/// Reads through parts that it cuts off and takes back, and returns the sum.
fn read_on(mut part: Part<Bell>, times: u64) -> (Part<Bell>, u64)
    requires { 1 < part.count }
    ensures { result.0 ≡ part }
{
    let mut sum = 0u64;
    for _ in 0..times {
        let one = part.split(1);
        sum = sum.wrapping_add(one.get().number);
        part.join(one);
    }
    (part, sum)
}

/// A quarter of the parts for each of four threads.
#[derive(Drop)]
struct Quarters {
    first: Part<Bell>,
    second: Part<Bell>,
    third: Part<Bell>,
    fourth: Part<Bell>,
}

/// Each gives one part to the other.
fn swap_one(first: &mut Part<Bell>, second: &mut Part<Bell>)
    requires { (1 < first.old.count) × (second.old ≡ first.old) }
    ensures { (first.new ≡ first.old) × (second.new ≡ second.old) }
{
    let one = first.split(1);
    let other = second.split(1);
    first.join(other);
    second.join(one);
}

/// Two threads read at once. Returns their parts and the sum.
fn read_two<R: Threads>(
    rt: &R,
    first: Part<Bell>,
    second: Part<Bell>,
) -> (Part<Bell>, Part<Bell>, u64)
    requires { (1 < first.count) × (second ≡ first) }
    ensures { (result.0 ≡ first) × (result.1 ≡ first) }
{
    let ((first, a), (second, b)) = join(
        rt,
        move ||
            requires { 1 < first.count }
            ensures { result.0 ≡ first }
        { read_on(first, 1_000) },
        move ||
            requires { 1 < second.count }
            ensures { result.0 ≡ second }
        { read_on(second, 1_000) },
    );
    (first, second, a.wrapping_add(b))
}

/// Four threads read at once. Then each hands its parts to the next, and one part to the one after that.
fn turn<R: Threads + Sync>(rt: &R, quarters: Quarters) -> (Quarters, u64)
    requires { (1 < quarters.first.count) × (quarters.second ≡ quarters.first) × (quarters.third ≡ quarters.first) × (quarters.fourth ≡ quarters.first) }
    ensures first { (result.0.first ≡ quarters.first) × (result.0.second ≡ quarters.first) }
    ensures last { (result.0.third ≡ quarters.first) × (result.0.fourth ≡ quarters.first) }
{
    let Quarters {
        first,
        second,
        third,
        fourth,
    } = quarters;
    let ((mut first, mut second, front), (third, fourth, back)) = join(
        rt,
        move ||
            requires { (1 < first.count) × (second ≡ first) }
            ensures { (result.0 ≡ first) × (result.1 ≡ first) }
        { read_two(rt, first, second) },
        move ||
            requires { (1 < third.count) × (fourth ≡ third) }
            ensures { (result.0 ≡ third) × (result.1 ≡ third) }
        { read_two(rt, third, fourth) },
    );
    swap_one(&mut first, &mut second);
    let dealt = Quarters {
        first: second,
        second: third,
        third: fourth,
        fourth: first,
    };
    (dealt, front.wrapping_add(back))
}

/// Four threads read in each of 100 rounds, and the box is thawed: it is proved that all parts are back. Returns it and the sum.
fn race<R: Threads + Sync>(
    rt: &R,
    alloc: Global,
    rung: &Arc<AtomicU64>,
) -> Result<(Box<Bell>, u64), AllocError> {
    let (deed, mut first) = freeze(make_bell(alloc, 3, rung)?);
    let second = first.split(2_305_843_009_213_693_952);
    let third = first.split(2_305_843_009_213_693_952);
    let fourth = first.split(2_305_843_009_213_693_952);
    let mut quarters = Quarters {
        first,
        second,
        third,
        fourth,
    };
    let mut total = 0u64;
    for _ in 0..100 {
        let (dealt, sum) = turn(rt, quarters);
        quarters = dealt;
        total = total.wrapping_add(sum);
    }
    let Quarters {
        mut first,
        second,
        third,
        fourth,
    } = quarters;
    first.join(second);
    first.join(third);
    first.join(fourth);
    Ok((thaw(deed, first), total))
}

/// Would catch a part that reads another value while parts go from thread to thread, and a drop too many.
#[test]
fn four_threads_read_while_parts_wander(rt: HostRuntime) -> Result<(), Fail> {
    let rung = Arc::new(rt.alloc(), AtomicU64::new(0))?;
    let (whole, total) = race(&rt, rt.alloc(), &rung)?;
    assert_eq!(rt; (whole.number, total, rung.load(SeqCst)), (3, 1_200_000, 0));
    drop(whole);
    assert_eq!(rt; (Arc::strong_count(&rung), rung.load(SeqCst)), (1, 1));
    Ok(())
}

/// Two threads read by one part at once, and one of them knows the value by the deed.
fn read_both<R: Threads>(rt: &R, deed: &Deed<Bell, Global>, part: &Part<Bell>) -> (u64, u64)
    requires { part.now.round ≡ deed.now.round }
{
    join(
        rt,
        || {
            deed.agree(part);
            part.get().number
        },
        || part.get().number,
    )
}

/// Another thread thaws the box, and hands it back.
fn thaw_elsewhere<R: Threads>(rt: &R, loose: LooseDeed<Bell, Global>, all: Part<Bell>) -> Box<Bell>
    requires { (all.round ≡ loose.deed.round) × (all.count ≡ 2 ^ 63) }
    ensures { result.value ≡ loose.deed.value }
{
    let (whole, ()) = join(
        rt,
        move ||
            requires { (all.round ≡ loose.deed.round) × (all.count ≡ 2 ^ 63) }
            ensures { result.value ≡ loose.deed.value }
        { thaw(loose.into_deed(), all) },
        || (),
    );
    whole
}

/// Would catch a loose deed that frees its box where it is dropped, and one that is lost on its way to another thread.
#[test]
fn a_loose_deed_goes_to_another_thread(rt: HostRuntime) -> Result<(), Fail> {
    let rung = Arc::new(rt.alloc(), AtomicU64::new(0))?;
    let (deed, all) = freeze(make_bell(rt.alloc(), 4, &rung)?);
    assert_eq!(rt; read_both(&rt, &deed, &all), (4, 4));
    let whole = thaw_elsewhere(&rt, LooseDeed::new(deed), all);
    assert_eq!(rt; (whole.number, rung.load(SeqCst)), (4, 0));
    drop(whole);
    let (deed, all) = freeze(make_bell(rt.alloc(), 8, &rung)?);
    drop(LooseDeed::new(deed));
    assert_eq!(rt; all.get().number, 8);
    assert_eq!(rt; (Arc::strong_count(&rung), rung.load(SeqCst)), (2, 1));
    Ok(())
}
