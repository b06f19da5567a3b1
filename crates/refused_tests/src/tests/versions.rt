//! Calls that take no memory, where each allocation would be refused.
ghost use Rattle.std.specs.Prelude.{◌≡◌};
ghost use Rattle.sections.specs.Sets.{IsPlacedIn, cookies_of};
ghost use Rattle.domain.specs.Views.{IsOf};

use super::calling::{Heap, drive};
use domain::{CookieSet, Cpu, Domain, MakeError};
use fixtures::one;
use notify::Chain;
use plugs::Table;
use refusing::Refusing;
use shelf::{Shelf, Versioned};
use std::test::Fail;

/// Registers two blocks and takes one off. Tells the ids that are left, and how many allocations were asked for.
fn change_chain(heap: &Heap) -> Result<Option<(([u64; 15], usize), u64)>, MakeError> {
    heap.refuse(0);
    let (domain, mut cpu, writer) = one::<(), _>(heap, 4)?;
    let (mut chain, view) = Chain::new(writer, 16);
    heap.refuse(1);
    let has_three = chain.register(&domain, &mut cpu, 3, 1).is_ok();
    let has_four = chain.register(&domain, &mut cpu, 4, 2).is_ok();
    let lost_three = chain.unregister(&domain, &mut cpu, 3).is_ok();
    let Ok(found) = view.ids(&mut cpu) else {
        return Ok(None);
    };
    let asked = heap.asked();
    Ok(if has_three && has_four && lost_three {
        Some((found, asked))
    } else {
        None
    })
}

/// Would catch a change of a chain that takes memory.
#[test]
fn refuse_chain(rt: HostRuntime) -> Result<(), Fail> {
    let heap = Refusing::new(rt.alloc());
    let mut ids = [0; 15];
    ids[0] = 4;
    assert_eq!(rt; change_chain(&heap)?, Some(((ids, 1), 0)));
    Ok(())
}

/// Installs two plugs and removes one. Tells what is found of both, and how many allocations were asked for.
fn change_table(heap: &Heap) -> Result<Option<([Option<u32>; 2], u64)>, MakeError> {
    heap.refuse(0);
    let (domain, mut cpu, writer) = one::<(), _>(heap, 4)?;
    let (mut table, view) = Table::new(writer);
    heap.refuse(1);
    let has_seven = table.install(&domain, &mut cpu, 7, 70).is_ok();
    let has_eight = table.install(&domain, &mut cpu, 8, 80).is_ok();
    let lost_seven = table.remove(&domain, &mut cpu, 7).is_ok();
    let seven = view.lookup(&mut cpu, 7).ok();
    let eight = view.lookup(&mut cpu, 8).ok();
    let asked = heap.asked();
    Ok(match (seven, eight) {
        (Some(seven), Some(eight)) if has_seven && has_eight && lost_seven => {
            Some(([seven, eight], asked))
        }
        _ => None,
    })
}

/// Would catch a change of a table that takes memory.
#[test]
fn refuse_table(rt: HostRuntime) -> Result<(), Fail> {
    let heap = Refusing::new(rt.alloc());
    assert_eq!(rt; change_table(&heap)?, Some(([None, Some(80)], 0)));
    Ok(())
}

/// Sixteen words.
#[derive(Clone, Copy, Debug, PartialEq, Eq)]
struct Sixteen {
    words: [u64; 16],
}

impl Versioned for Sixteen {
    ghost use Rattle.std.specs.Prelude.{length, refl};

    ghost fits = { λ s. length s.words ≡ 16 };

    ghost text = { λ s. s.words };

    ghost value = { λ words. record { words = words } };

    ghost round_trip = { λ s _. refl };

    fn encode(&self) -> [u64; 16] {
        self.words
    }

    fn decode(words: &[u64; 16]) -> Sixteen {
        Sixteen { words: *words }
    }
}

/// A set with a cookie of now, whose grace period is asked for.
fn ask_in_set<'a>(domain: &Domain<(), &'a Heap>, cpu: &mut Cpu<(), &'a Heap>) -> CookieSet
    requires { IsOf domain.now cpu.old }
    ensures here { IsOf domain.now cpu.new }
    ensures placed { IsPlacedIn domain.now.domain 0 (cookies_of result) }
{
    let mut set = CookieSet::new();
    let Ok(_) = set.add(domain.start_poll(cpu)) else {
        unreachable!()
    };
    set
}

/// Waits for a cookie in a set. Whether the set is done before and after a grace period.
fn wait_in_set<'a>(domain: &Domain<(), &'a Heap>, cpu: &mut Cpu<(), &'a Heap>) -> [bool; 2]
    requires { IsOf domain.now cpu.old }
{
    let mut set = ask_in_set(domain, cpu);
    let early = set.poll_member(0, cpu);
    let _period = drive(domain, cpu);
    let late = set.poll_member(0, cpu) && set.done();
    [early, late]
}

/// Replaces a value, and waits for its cookie in a set. Tells the cookie, whether the set is done before and after a grace
/// period, and how many allocations were asked for.
fn replace(heap: &Heap) -> Result<Option<(u64, [bool; 2], u64)>, MakeError> {
    heap.refuse(0);
    let (domain, mut cpu, writer) = one(heap, 4)?;
    heap.refuse(1);
    let (mut shelf, _values) = Shelf::new(writer);
    let put = shelf
        .replace(&domain, &mut cpu, &Sixteen { words: [5; 16] })
        .ok();
    let done = wait_in_set(&domain, &mut cpu);
    let asked = heap.asked();
    Ok(put.map(|cookie| (cookie, done, asked)))
}

/// Would catch a value, or a set of cookies, that takes memory.
#[test]
fn refuse_replace(rt: HostRuntime) -> Result<(), Fail> {
    let heap = Refusing::new(rt.alloc());
    assert_eq!(rt; replace(&heap)?, Some((4, [false, true], 0)));
    Ok(())
}
