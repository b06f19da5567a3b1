//! Installing, removing and looking up. The calls stand where the world is lent, and what they told is compared where it is
//! gone.
use super::world::World;
use plugs::{InstallRefusal, RemoveRefusal};
use std::sync::Wait;
use std::test::Fail;

type Installed = Result<u64, InstallRefusal>;

type Removed = Result<u64, RemoveRefusal>;

/// What four keys are answered behind three installs.
fn three_keys(world: &mut World) -> [Option<u32>; 4] {
    let _first = world.install(7, 70);
    let _second = world.install(9, 90);
    let _third = world.install(8, 80);
    [
        world.lookup(6),
        world.lookup(7),
        world.lookup(8),
        world.lookup(9),
    ]
}

/// Would catch an installation that finds no memory, and rows that are put in another order than they are read in.
#[test]
fn looks_up(rt: HostRuntime) -> Result<(), Fail> {
    let mut world = World::new(rt.alloc(), 4)?;
    let told = three_keys(&mut world);
    drop(world);
    assert_eq!(rt; told, [None, Some(70), Some(80), Some(90)]);
    Ok(())
}

/// What installing two plugs for one key answers, and the key behind that.
fn same_key(world: &mut World) -> ([Installed; 2], Option<u32>) {
    let first = world.install(7, 70);
    let second = world.install(7, 71);
    ([first, second], world.lookup(7))
}

/// Would catch a key that keeps its first plug.
#[test]
fn installs_over(rt: HostRuntime) -> Result<(), Fail> {
    let mut world = World::new(rt.alloc(), 4)?;
    let told = same_key(&mut world);
    drop(world);
    assert_eq!(rt; told, ([Ok(1), Ok(2)], Some(71)));
    Ok(())
}

/// What removing another key, the key, and the key again answers, and the key behind that.
fn one_removed(world: &mut World) -> ([Removed; 3], Option<u32>) {
    let _version = world.install(7, 70);
    let other = world.remove(8);
    let there = world.remove(7);
    let again = world.remove(7);
    ([other, there, again], world.lookup(7))
}

/// Would catch a refusal of a key that is there, and a table that is put where nothing was removed.
#[test]
fn removes(rt: HostRuntime) -> Result<(), Fail> {
    let mut world = World::new(rt.alloc(), 4)?;
    let told = one_removed(&mut world);
    drop(world);
    let not_there = Err(RemoveRefusal::NotThere);
    assert_eq!(rt; told, ([not_there, Ok(2), not_there], None));
    Ok(())
}

/// Three turns of the engine: where no section is open, a period begins and ends.
fn drive(world: &mut World) {
    for _ in 0..3 {
        world.drive();
    }
}

/// What installing in a cell of two slots answers: twice, and again behind a grace period.
fn two_slots(world: &mut World) -> [Installed; 3] {
    let first = world.install(7, 70);
    let second = world.install(7, 71);
    drive(world);
    [first, second, world.install(7, 72)]
}

/// Would catch a slot that is used again while it may be read, and one that never is.
#[test]
fn lacks_slots(rt: HostRuntime) -> Result<(), Fail> {
    let mut world = World::new(rt.alloc(), 2)?;
    let told = two_slots(&mut world);
    drop(world);
    let none = Err(InstallRefusal::NoSlot);
    assert_eq!(rt; told, [Ok(1), none, Ok(2)]);
    Ok(())
}

/// Fills a table with fifteen keys, from 0 on. What it answers then to one more key, to one that is there, and behind a
/// removal.
fn more_than_full(world: &mut World) -> [Installed; 3] {
    for key in 0..15 {
        let _version = world.install(key, key);
        drive(world);
    }
    let more = world.install(15, 15);
    let there = world.install(14, 1);
    let _removed = world.remove(3);
    [more, there, world.install(15, 15)]
}

/// Would catch a sixteenth row, and a full table that refuses a key it has.
#[test]
fn fills_up(rt: HostRuntime) -> Result<(), Fail> {
    let mut world = World::new(rt.alloc(), 8)?;
    let told = more_than_full(&mut world);
    drop(world);
    let full = Err(InstallRefusal::Full);
    assert_eq!(rt; told, [full, Ok(16), Ok(18)]);
    Ok(())
}
