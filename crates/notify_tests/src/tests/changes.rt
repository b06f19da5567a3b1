//! Who stands where, and what is refused. The calls stand where the world is lent, and what they told is compared where it is
//! gone.
ghost use Rattle.std.specs.Prelude.{◌<◌};

use super::world::World;
use notify::{RegisterRefusal, UnregisterRefusal};
use std::sync::Wait;
use std::test::Fail;

type Registered = Result<(), RegisterRefusal>;

type Unregistered = Result<(), UnregisterRefusal>;

/// The ids of a chain, zeros behind them, and how many there are.
type Ids = Option<([u64; 15], usize)>;

/// The first of sixteen ids, and zeros behind them.
fn first(ids: [u64; 4], count: usize) -> Ids {
    let [a, b, c, d] = ids;
    Some(([a, b, c, d, 0, 0, 0, 0, 0, 0, 0, 0, 0, 0, 0], count))
}

/// What registering four blocks answers, and the ids before and behind that.
fn register_four(world: &mut World) -> ([Registered; 4], [Ids; 2]) {
    let before = world.ids();
    let one = world.register(1, -5);
    let two = world.register(2, 0);
    let three = world.register(3, 0);
    let four = world.register(4, i32::MIN);
    ([one, two, three, four], [before, world.ids()])
}

/// Would catch a block before those of its priority, a priority that is read with no sign, and a register that tells of a
/// lack of memory.
#[test]
fn by_priority(rt: HostRuntime) -> Result<(), Fail> {
    let mut world = World::new(rt.alloc(), 8)?;
    let (registered, ids) = register_four(&mut world);
    drop(world);
    assert_eq!(rt; registered, [Ok(()); 4]);
    assert_eq!(rt; ids, [first([0, 0, 0, 0], 0), first([2, 3, 1, 4], 4)]);
    Ok(())
}

/// What an id answers that is registered, at another priority too, goes, and is registered again, and the ids then.
fn register_again(world: &mut World) -> ([Registered; 3], Unregistered, Ids) {
    let taken = world.register(1, 5);
    let twice = world.register(1, 7);
    let gone = world.unregister(1);
    let again = world.register(1, 7);
    ([taken, twice, again], gone, world.ids())
}

/// Would catch an id that is registered twice, also at another priority, and one that isn't taken again behind its
/// removal.
#[test]
fn there_once(rt: HostRuntime) -> Result<(), Fail> {
    let mut world = World::new(rt.alloc(), 8)?;
    let (registered, gone, ids) = register_again(&mut world);
    drop(world);
    let there = Err(RegisterRefusal::There);
    assert_eq!(rt; (registered, gone), ([Ok(()), there, Ok(())], Ok(())));
    assert_eq!(rt; ids, first([1, 0, 0, 0], 1));
    Ok(())
}

/// What registering three blocks of a priority answers, unregistering one that isn't there and one that is, and the ids
/// then.
fn unregister_one(world: &mut World) -> ([Registered; 3], [Unregistered; 2], Ids) {
    let one = world.register(1, 5);
    let two = world.register(2, 5);
    let three = world.register(3, 5);
    let other = world.unregister(9);
    let gone = world.unregister(2);
    ([one, two, three], [other, gone], world.ids())
}

/// Would catch an unregister that drops another block, or all of a priority.
#[test]
fn one_less(rt: HostRuntime) -> Result<(), Fail> {
    let mut world = World::new(rt.alloc(), 8)?;
    let (registered, gone, ids) = unregister_one(&mut world);
    drop(world);
    assert_eq!(rt; registered, [Ok(()); 3]);
    assert_eq!(rt; gone, [Err(UnregisterRefusal::NotThere), Ok(())]);
    assert_eq!(rt; ids, first([1, 3, 0, 0], 2));
    Ok(())
}

/// What changes of a chain in two slots answer, and the ids: before a period has ended, and behind that.
fn change_in_two_slots(world: &mut World) -> ([Registered; 3], Unregistered, [Ids; 2]) {
    let one = world.register(1, 5);
    let two = world.register(2, 5);
    let gone = world.unregister(1);
    let before = world.ids();
    world.drive();
    let again = world.register(2, 5);
    ([one, two, again], gone, [before, world.ids()])
}

/// Would catch a retired slot that is used before its period has ended, and one that is never used again: of two slots,
/// the one that isn't current is free just once before a period ends.
#[test]
fn in_two_slots(rt: HostRuntime) -> Result<(), Fail> {
    let mut world = World::new(rt.alloc(), 2)?;
    let (registered, gone, ids) = change_in_two_slots(&mut world);
    drop(world);
    let none = Err(RegisterRefusal::NoSlot);
    assert_eq!(rt; registered, [Ok(()), none, Ok(())]);
    assert_eq!(rt; gone, Err(UnregisterRefusal::NoSlot));
    assert_eq!(rt; ids, [first([1, 0, 0, 0], 1), first([1, 2, 0, 0], 2)]);
    Ok(())
}

/// Registers one more, and drives a period.
fn fill_up(world: &mut World, id: u64) -> bool
    requires { id < 16 }
{
    let taken = world.register(id, 0);
    world.drive();
    taken.is_ok()
}

/// Whether fifteen blocks are taken, what one more answers and one that is there, and the ids.
fn fill_all(world: &mut World) -> (bool, [Registered; 2], Ids) {
    let mut taken = true;
    for id in 0..15 {
        taken &= fill_up(world, id);
    }
    let more = world.register(15, 9);
    let there = world.register(3, 9);
    (taken, [more, there], world.ids())
}

/// Would catch a sixteenth block, and a fifteenth that is refused.
#[test]
fn fifteen(rt: HostRuntime) -> Result<(), Fail> {
    let mut world = World::new(rt.alloc(), 2)?;
    let (taken, refused, ids) = fill_all(&mut world);
    drop(world);
    let full = Err(RegisterRefusal::Full);
    assert_eq!(rt;
        (taken, refused),
        (true, [full, Err(RegisterRefusal::There)])
    );
    let all = [0, 1, 2, 3, 4, 5, 6, 7, 8, 9, 10, 11, 12, 13, 14];
    assert_eq!(rt; ids, Some((all, 15)));
    Ok(())
}
