//! Two boxes, and two vaults.
ghost use Rattle.std.specs.Prelude.{◌≡◌, ◌^◌};
ghost use Rattle.vault.specs.Keys.{IsKey};

use parts::{Part, freeze, thaw};
use std::alloc::Allocator;
use vault::{Key, Pile, Vault};

/// Freezes two boxes, cuts seven parts off each, and makes both whole again.
pub fn thaw_both<T: Drop, A: Allocator>(
    first: Box<T, A>,
    second: Box<T, A>,
) -> (Box<T, A>, Box<T, A>)
    ensures { (result.0.value ≡ first.value) × (result.1.value ≡ second.value) }
{
    let (first_deed, mut first_rest) = freeze(first);
    let (second_deed, mut second_rest) = freeze(second);
    let first_part = first_rest.split(7);
    let second_part = second_rest.split(7);
    first_rest.join(first_part);
    second_rest.join(second_part);
    (thaw(first_deed, first_rest), thaw(second_deed, second_rest))
}

/// Adds one part at the first place of each of two vaults.
pub fn add_to_both<T: Drop, A: Allocator>(
    one_vault: &Vault<T, A>,
    other_vault: &Vault<T, A>,
    one: Key,
    other: Key,
    one_part: Part<T>,
    other_part: Part<T>,
) -> (Key, Key)
    requires keys { IsKey one_vault.now 0 0 0 one × IsKey other_vault.now 0 0 0 other }
    requires parts { (one_part.count ≡ 1) × (other_part.count ≡ 1) }
    ensures { IsKey one_vault.now 0 1 one_part.round result.0 × IsKey other_vault.now 0 1 other_part.round result.1 }
{
    let one_pile = Pile {
        part: one_part,
        count: 1,
    };
    let other_pile = Pile {
        part: other_part,
        count: 1,
    };
    (
        one_vault.add(one, 0, one_pile),
        other_vault.add(other, 0, other_pile),
    )
}
