//! The bell, from one thread, which would sleep on by itself.
use fixtures::two;
use std::test::Fail;

/// Would catch a bell of two values: who listens after a ring would set again what was heard before it, and the first sleep
/// would have no end. Also a sleep that doesn't look at the bell.
#[test]
fn sleeps_past_no_ring(rt: HostRuntime) -> Result<(), Fail> {
    let (domain, _first, _second, _) = two::<(), _>(rt.alloc(), 2)?;
    let heard = domain.listen();
    domain.ring();
    let again = domain.listen();
    domain.sleep(&rt, heard);
    domain.ring();
    domain.sleep(&rt, again);
    Ok(())
}

/// Would catch a ring that only one of two listeners hears.
#[test]
fn rings_for_two(rt: HostRuntime) -> Result<(), Fail> {
    let (domain, _first, _second, _) = two::<(), _>(rt.alloc(), 2)?;
    let one = domain.listen();
    let other = domain.listen();
    domain.ring();
    domain.sleep(&rt, one);
    domain.sleep(&rt, other);
    Ok(())
}
