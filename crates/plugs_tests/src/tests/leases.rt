//! Leases, while the table is changed.
ghost use Rattle.std.specs.Prelude.{◌≡◌, IfSome};

use super::world::World;
use plugs::{InstallRefusal, Lease, release};
use std::sync::Wait;
use std::test::Fail;

type Installed = Result<u64, InstallRefusal>;

/// What installs answer while a lease is there, what a lookup does, what the lease says, and what an install answers then.
type Told = (
    [Installed; 2],
    Option<u32>,
    (u64, Option<u32>, Option<u32>),
    Installed,
);

/// Three versions, in a cell of four slots, and a lease of the first.
fn leased(world: &mut World) -> Option<Lease>
    ensures same { world.new ≡ world.old }
    ensures here { IfSome result (λ l. l.held.domain ≡ world.new) }
{
    let _first = world.install(1, 10);
    let lease = world.lease()?;
    let _second = world.install(2, 20);
    let _third = world.install(3, 30);
    Some(lease)
}

/// What one more is answered: at once, and behind as many turns as a grace period takes where nobody reads.
fn held_up(world: &mut World) -> [Installed; 2]
    ensures { world.new ≡ world.old }
{
    let at_once = world.install(4, 40);
    for _ in 0..3 {
        world.drive();
    }
    [at_once, world.install(4, 40)]
}

/// The lease's version, and what it says of a key of this version and of one of the next. The lease is read and ended
/// on another processor than it was made on.
fn told(world: &mut World, lease: Lease) -> (u64, Option<u32>, Option<u32>)
    requires { lease.held.domain ≡ world.old }
    ensures { world.new ≡ world.old }
{
    let mut lease = lease;
    let version = lease.version();
    let there = world.get(&mut lease, 1);
    let absent = world.get(&mut lease, 2);
    world.release(lease);
    (version, there, absent)
}

/// What one more is answered a turn after the lease has ended.
fn let_go(world: &mut World) -> Installed
    ensures { world.new ≡ world.old }
{
    world.drive();
    world.install(4, 40)
}

/// What is told while a lease is there and behind its end: as above, and what a key of the last version is answered
/// meanwhile. `None` where no section begins.
fn lease_and_change(world: &mut World) -> Option<Told> {
    let lease = leased(world)?;
    let meanwhile = held_up(world);
    let new = world.lookup(3);
    let read = told(world, lease);
    Some((meanwhile, new, read, let_go(world)))
}

/// Would catch a lease that reads the version which is current, a slot that is used again while a lease reads it, and
/// one that never is.
#[test]
fn leases_keep(rt: HostRuntime) -> Result<(), Fail> {
    let mut world = World::new(rt.alloc(), 4)?;
    let told = lease_and_change(&mut world);
    drop(world);
    let none = Err(InstallRefusal::NoSlot);
    assert_eq!(rt;
        told,
        Some(([none, none], Some(30), (1, Some(10), None), Ok(4)))
    );
    Ok(())
}
