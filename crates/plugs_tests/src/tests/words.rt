//! Words that another writer put.
use super::world::World;
use domain::MakeError;
use std::test::Fail;

/// What the words of key 7 and plug 70 are, and those of the keys beside it.
const SIX: u64 = 6 * (1 << 32) + 60;

const SEVEN: u64 = 7 * (1 << 32) + 70;

const EIGHT: u64 = 8 * (1 << 32) + 80;

/// The plug of key 7 where the first words of the version are these.
fn seven<R: AllocGlobal>(rt: &R, words: [u64; 3]) -> Result<Option<u32>, MakeError> {
    let mut world = World::with_words(rt.alloc(), &words)?;
    Ok(world.lookup(7))
}

/// Would catch words that are written in another way than they are read.
#[test]
fn tables_are_read(rt: HostRuntime) -> Result<(), Fail> {
    assert_eq!(rt; seven(&rt, [1, SEVEN, 0])?, Some(70));
    assert_eq!(rt; seven(&rt, [2, SEVEN, EIGHT])?, Some(70));
    Ok(())
}

/// Would catch rows that are read of words which are no table: too many, falling keys, a key that is there twice, and
/// words behind the last row.
#[test]
fn others_are_empty(rt: HostRuntime) -> Result<(), Fail> {
    assert_eq!(rt; seven(&rt, [16, SEVEN, EIGHT])?, None);
    assert_eq!(rt; seven(&rt, [2, SEVEN, SIX])?, None);
    assert_eq!(rt; seven(&rt, [2, SEVEN, SEVEN])?, None);
    assert_eq!(rt; seven(&rt, [1, SEVEN, EIGHT])?, None);
    Ok(())
}
