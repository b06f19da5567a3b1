//! A box that is laid into two places of a vault, read there, and collected again.
ghost use Rattle.std.specs.Prelude.{◌≡◌, ℕ, ◌+◌, ◌-◌, ◌^◌, ◌<◌};
ghost use Rattle.vault.specs.Keys.{IsKey};

use parts::{Part, Terms, freeze, thaw};
use std::alloc::Allocator;
use vault::{Key, Pile, Vault};

/// Half of all parts.
const HALF: u64 = 4_611_686_018_427_387_904;

/// Lays one half of a box's parts into each of two places in which nothing lies.
pub fn lay<T: Drop, A: Allocator>(
    vault: &Vault<T, A>,
    first: Key,
    second: Key,
    all: Part<T>,
) -> (Key, Key)
    requires keys { IsKey vault.now 0 0 0 first × IsKey vault.now 1 0 0 second }
    requires all { all.count ≡ 2 ^ 63 }
    ensures first { IsKey vault.now 0 (2 ^ 62) all.round result.0 }
    ensures second { IsKey vault.now 1 (2 ^ 62) all.round result.1 }
{
    let mut part = all;
    let half = part.split(HALF);
    let first = vault.add(first, 0, Pile { part, count: HALF });
    let pile = Pile {
        part: half,
        count: HALF,
    };
    let second = vault.add(second, 1, pile);
    (first, second)
}

/// Cuts one part off at the first place, and adds it at the second.
pub fn move_one<T: Drop, A: Allocator>(
    vault: &Vault<T, A>,
    first: Key,
    second: Key,
    terms: &Terms<T>,
) -> (Key, Key)
    requires { IsKey vault.now 0 (2 ^ 62) terms.now.round first × IsKey vault.now 1 (2 ^ 62) terms.now.round second }
    ensures first { IsKey vault.now 0 (2 ^ 62 - 1) terms.now.round result.0 }
    ensures second { IsKey vault.now 1 (2 ^ 62 + 1) terms.now.round result.1 }
{
    let (first, cut) = vault.cut(first, 0, 1);
    let one = Pile {
        part: cut.unwrap(),
        count: 1,
    };
    let second = vault.add(second, 1, one);
    (first, second)
}

/// Takes the parts out of both places: all that there are.
pub fn collect<T: Drop, A: Allocator>(
    vault: &Vault<T, A>,
    first: Key,
    second: Key,
    terms: &Terms<T>,
) -> (Key, Key, Part<T>)
    requires { IsKey vault.now 0 (2 ^ 62 - 1) terms.now.round first × IsKey vault.now 1 (2 ^ 62 + 1) terms.now.round second }
    ensures keys { IsKey vault.now 0 0 terms.now.round result.0 × IsKey vault.now 1 0 terms.now.round result.1 }
    ensures all { (result.2.count ≡ 2 ^ 63) × (result.2.round ≡ terms.now.round) }
{
    let (first, fewer) = vault.empty(first, 0);
    let (second, more) = vault.empty(second, 1);
    let Pile { mut part, count: _ } = fewer.unwrap();
    let Pile {
        part: other,
        count: _,
    } = more.unwrap();
    part.join(other);
    (first, second, part)
}

/// Freezes a box, lays it, moves one part, and makes it whole again.
pub fn carry<T: Drop, A: Allocator, B: Allocator>(
    vault: &Vault<T, B>,
    first: Key,
    second: Key,
    whole: Box<T, A>,
) -> Box<T, A>
    requires { IsKey vault.now 0 0 0 first × IsKey vault.now 1 0 0 second }
    ensures { result.value ≡ whole.value }
{
    let (deed, all) = freeze(whole);
    let terms = Terms::of_deed(&deed);
    let (first, second) = lay(vault, first, second, all);
    let (first, second) = move_one(vault, first, second, &terms);
    let (_first, _second, all) = collect(vault, first, second, &terms);
    thaw(deed, all)
}

/// Reads by a part that is cut off at a place and added there again.
pub fn read_at<A: Allocator>(
    vault: &Vault<u64, A>,
    key: Key,
    place: usize,
    terms: &Terms<u64>,
) -> (Key, u64)
    requires { (had : ℕ) × IsKey vault.now place had terms.now.round key × (1 < had) }
    ensures key { (had : ℕ) → IsKey vault.now place had terms.now.round key → IsKey vault.now place had terms.now.round result.0 }
    ensures value { result.1 ≡ terms.now.value }
{
    let (key, cut) = vault.cut(key, place, 1);
    let part = cut.unwrap();
    terms.agree(&part);
    let seen = *part.get();
    (vault.add(key, place, Pile { part, count: 1 }), seen)
}
