//! Words that another writer put.
use super::world::World;
use domain::MakeError;
use std::test::Fail;

/// Priority 0.
const ZERO: u64 = 1 << 63;

/// How many ids the chain has where the first words of the version are these.
fn count<R: AllocGlobal>(rt: &R, words: [u64; 4]) -> Result<Option<usize>, MakeError> {
    let mut world = World::with_words(rt.alloc(), &words)?;
    Ok(world.ids().map(|(_, count)| count))
}

/// Would catch words that are written in another way than they are read.
#[test]
fn chains_are_read(rt: HostRuntime) -> Result<(), Fail> {
    assert_eq!(rt; count(&rt, [1, ZERO | 1, 0, 0])?, Some(1));
    assert_eq!(rt; count(&rt, [2, ZERO | 1, ZERO | 2, 0])?, Some(2));
    Ok(())
}

/// Would catch words that are read as a chain and are none: with a block too few or too many, with an id that isn't there
/// or is there twice, or with priorities that rise.
#[test]
fn others_are_empty(rt: HostRuntime) -> Result<(), Fail> {
    assert_eq!(rt; count(&rt, [1, ZERO | 1, ZERO | 2, 0])?, Some(0));
    assert_eq!(rt; count(&rt, [16, ZERO | 1, ZERO | 2, ZERO | 3])?, Some(0));
    assert_eq!(rt; count(&rt, [2, ZERO | 1, ZERO | 16, 0])?, Some(0));
    assert_eq!(rt; count(&rt, [2, ZERO | 1, ZERO | 1, 0])?, Some(0));
    assert_eq!(rt; count(&rt, [2, 1, ZERO | 2, 0])?, Some(0));
    Ok(())
}
