ghost use Rattle.std.specs.Prelude.{◌≡◌, ◌^◌, IfOk};
ghost use Rattle.vault.specs.Keys.{IsKey};

use crate::{carry, collect, lay, move_one, read_at};
use linked_list_allocator::LocalHeap;
use parts::{Terms, freeze, thaw};
use std::alloc::{AllocError, Allocator, Global};
use std::test::Fail;
use std::thread::{Threads, join};
use vault::{Key, Pile, Vault};

/// All parts but one.
const MOST: u64 = 9_223_372_036_854_775_807;

/// How often each thread reads.
const TIMES: u64 = 100_000;

/// A vault of two places, and its keys.
fn two_places<T: Drop, A: Allocator>(
    alloc: A,
    other: Global,
) -> Result<(Vault<T, A>, Key, Key), AllocError>
    ensures { IfOk result (λ r. IsKey r.0 0 0 0 r.1 × IsKey r.0 1 0 0 r.2) }
{
    let (vault, mut keys) = Vault::new(alloc, other, 2)?;
    let second = keys.pop().unwrap();
    let first = keys.pop().unwrap();
    Ok((vault, first, second))
}

/// Reads so often at one place. Returns the key and the sum.
fn read_on<A: Allocator>(
    vault: &Vault<u64, A>,
    key: Key,
    place: usize,
    terms: &Terms<u64>,
) -> (Key, u64)
    requires { IsKey vault.now place (2 ^ 62) terms.now.round key }
    ensures { IsKey vault.now place (2 ^ 62) terms.now.round result.0 }
{
    let mut key = key;
    let mut sum = 0u64;
    for _ in 0..TIMES {
        let (back, seen) = read_at(vault, key, place, terms);
        key = back;
        sum = sum.wrapping_add(seen);
    }
    (key, sum)
}

/// Two threads read at once, each at a place of its own, and the box is made whole again. Returns it and the sum.
fn read_in_two_threads<R: Threads>(
    rt: &R,
    vault: &Vault<u64>,
    first: Key,
    second: Key,
    whole: Box<u64>,
) -> (Box<u64>, u64)
    requires { IsKey vault.now 0 0 0 first × IsKey vault.now 1 0 0 second }
    ensures { result.0.value ≡ whole.value }
{
    let (deed, all) = freeze(whole);
    let terms = &Terms::of_deed(&deed);
    let (first, second) = lay(vault, first, second, all);
    let ((first, here), (second, there)) = join(
        rt,
        move ||
            requires { IsKey vault.now 0 (2 ^ 62) terms.now.round first }
            ensures { IsKey vault.entry.now 0 (2 ^ 62) terms.entry.now.round result.0 }
        { read_on(vault, first, 0, terms) },
        move ||
            requires { IsKey vault.now 1 (2 ^ 62) terms.now.round second }
            ensures { IsKey vault.entry.now 1 (2 ^ 62) terms.entry.now.round result.0 }
        { read_on(vault, second, 1, terms) },
    );
    let (first, second) = move_one(vault, first, second, terms);
    let (_first, _second, all) = collect(vault, first, second, terms);
    (thaw(deed, all), here.wrapping_add(there))
}

/// Would catch a place that two threads have at once, and a part that is lost there.
#[test]
fn two_threads_read(rt: HostRuntime) -> Result<(), Fail> {
    let (vault, first, second) = two_places(rt.alloc(), rt.alloc())?;
    let whole = Box::new(rt.alloc(), 7)?;
    let (whole, sum) = read_in_two_threads(&rt, &vault, first, second, whole);
    assert_eq!(rt; (*whole, sum), (7, 14 * TIMES));
    Ok(())
}

/// Would catch a vault, or a box whose parts lay in one, that keeps some of its memory.
#[test]
fn the_heap_has_its_bytes_back(rt: HostRuntime) -> Result<(), Fail> {
    let heap = LocalHeap::new(rt.alloc(), 4096)?;
    let text = Box::new(&heap, String::from_str(&heap, "read through parts")?)?;
    let boxed = heap.used();
    let (vault, first, second) = two_places(&heap, rt.alloc())?;
    assert!(rt; heap.used() > boxed);
    let text = carry(&vault, first, second, text);
    drop(vault);
    assert_eq!(rt; (text.as_str(), heap.used()), ("read through parts", boxed));
    drop(text);
    assert_eq!(rt; heap.used(), 0);
    Ok(())
}

/// Would catch a box that is freed with the vault in which its parts lie, and a vault that keeps its memory.
#[test]
fn a_vault_is_dropped_over_parts(rt: HostRuntime) -> Result<(), Fail> {
    let heap = LocalHeap::new(rt.alloc(), 4096)?;
    let whole = Box::new(&heap, 5u64)?;
    let boxed = heap.used();
    let (vault, first, _second) = two_places(&heap, rt.alloc())?;
    let (deed, mut all) = freeze(whole);
    let one = all.split(1);
    let _first = vault.add(
        first,
        0,
        Pile {
            part: all,
            count: MOST,
        },
    );
    drop(vault);
    assert_eq!(rt; (*one.get(), heap.used()), (5, boxed));
    let _heap = deed.abandon();
    Ok(())
}

/// Would catch a vault that takes memory which it was refused.
#[test]
fn a_vault_is_refused(rt: HostRuntime) -> Result<(), Fail> {
    let heap = LocalHeap::new(rt.alloc(), 64)?;
    let made: Result<(Vault<u64, &LocalHeap>, Vec<Key>), AllocError> = Vault::new(
        &heap,
        rt.alloc(),
        100,
    );
    assert!(rt; made.is_err());
    assert_eq!(rt; heap.used(), 0);
    Ok(())
}
