//! The board of a domain: where its words stand, and the table and the seats that are told of them.
//!
//! | words | what they are |
//! |---|---|
//! | 0 | the index word: its low bit is the current index |
//! | 16 | the number, on a cache line of its own |
//! | 16 p + 32, 16 p + 33 | the lock counters of processor p, of index 0 and 1 |
//! | 16 p + 34, 16 p + 35 | its unlock counters |
//! | 16 n + 144 c + 32 | cell c of a domain of n processors: 16 times its version, and its slot |
//! | 16 n + 144 c + 16 x + 48 and the 15 behind it | slot x of that cell, of 8 |
//!
//! The rest is left empty. Each processor has a stride of 16 words, so that no two of them share a cache line of 64
//! bytes, wherever the table begins. The cells lie behind the processors, so a domain without cells has no room for any,
//! and the places of a processor's counters don't depend on how many cells there are. One word more for each cell, at the
//! very end, lets the number of words tell how many cells there are.
ghost use Rattle.std.specs.Prelude.{◌≡◌, ◌<◌, ◌≤◌};
ghost use Rattle.sections.specs.Limits.{most_processors};
ghost use Rattle.sections.specs.Words.{lock_place, unlock_place, cell_place, word_place, word_count, cells_in};
ghost use Rattle.sections.specs.Pens.{IsWide};
ghost use Rattle.sections.specs.Rule.{Kept, founder};

use crate::view::{Bounds, View};
use atomic_table::{Seat, Shared, Table, TableRule};
use sseq::Index;
use std::alloc::Allocator;
use vault::Key;

/// Where the index word stands.
pub(crate) const INDEX_PLACE: usize = 0;

/// Where the number stands.
pub(crate) const NUMBER_PLACE: usize = 16;

/// Where the lock counter of a processor stands.
pub(crate) fn place_of_lock(processor: u16, index: Index) -> usize
    ensures { result ≡ lock_place processor index }
{
    16 * processor as usize + index.place() + 32
}

/// Where the unlock counter of a processor stands.
pub(crate) fn place_of_unlock(processor: u16, index: Index) -> usize
    ensures { result ≡ unlock_place processor index }
{
    16 * processor as usize + index.place() + 34
}

/// How many words a domain has.
pub(crate) fn words_of(bounds: Bounds) -> usize
    requires { (bounds.processors ≤ most_processors) × (bounds.cells ≤ 4) }
    ensures { result ≡ word_count bounds.processors bounds.cells }
{
    16 * bounds.processors + 145 * bounds.cells + 32
}

/// Where a cell stands, behind the processors.
pub(crate) fn place_of_cell<A: Allocator>(table: &Words<A>, cell: usize) -> usize
    requires wide { IsWide table.now.shared.key table.now.shared.table_id }
    requires cell { cell < cells_in table.now.shared.table_id }
    ensures { result ≡ cell_place table.now.shared.key.processors cell }
{
    let words = table.word_count();
    // `rt try` runs no proof. It stops here where a caller asks for a cell of another domain, instead of reading past
    // the words.
    prove!(
        cell < words % 16,
        "the processor's domain has no such cell: is the view of another domain?"
    );
    words - 145 * (words % 16) + 144 * cell
}

/// Where a word of a slot stands.
pub(crate) fn place_of_word<A: Allocator>(
    table: &Words<A>,
    cell: usize,
    slot: usize,
    place: usize,
) -> usize
    requires wide { IsWide table.now.shared.key table.now.shared.table_id }
    requires cell { cell < cells_in table.now.shared.table_id }
    requires place { (slot < 8) × (place < 16) }
    ensures { result ≡ word_place table.now.shared.key.processors cell slot place }
{
    let words = table.word_count();
    prove!(
        cell < words % 16,
        "the processor's domain has no such cell: is the view of another domain?"
    );
    words - 145 * (words % 16) + 144 * cell + 16 * slot + place + 16
}

/// Each step is one event of one legal history, or none.
pub struct InOneHistory;

impl TableRule<Key, View, Bounds> for InOneHistory {
    ghost holds = { Kept };

    ghost first = { founder };
}

/// A domain's words.
pub(crate) type Words<A> = Table<Key, View, Bounds, InOneHistory, A>;

/// What the steps are made on.
pub(crate) type Board = Shared<Key, View, Bounds, InOneHistory>;

/// With what they are made: a seat at a domain's words.
pub(crate) type DomainSeat = Seat<Key, View>;
