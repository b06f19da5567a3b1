//! Where a block stands among others.
ghost use Rattle.std.specs.Prelude.{◌≡◌, ◌%◌, ◌^◌, ◌<◌, ◌≤◌, All, true, false, length, map, take, MatchOption, IsTrue, ◌↔◌};
ghost use Rattle.std.specs.List.{HoldsAt};
ghost use Rattle.notify.specs.Blocks.{MayPrecede, MayFollow, IsLower, IsChain, StandsAt, HasNone, IsMarked, block_at};

use crate::block::Block;
use crate::text::block;

/// Where the block of this id stands.
pub(crate) fn place_of(blocks: &[Block], id: u64) -> Option<usize>
    ensures { MatchOption result (HasNone id blocks.now) (λ i. StandsAt i id blocks.now) }
{
    for (place, block) in blocks.iter().enumerate() {
        if block.id == id {
            return Some(place);
        }
    }
    None
}

/// Whether the first block may stand before the second one: its priority is higher, or the same.
#[inline(always)]
fn may_precede(first: Block, second: Block) -> bool
    ensures may { result ≡ true → MayPrecede first.priority second.priority }
    ensures lower { result ≡ false → IsLower first.priority second.priority }
{
    first.priority >= second.priority
}

/// How many blocks, from the first on, may stand before this one.
pub(crate) fn count_before(blocks: &[Block], block: Block) -> usize
    ensures within { result ≤ length blocks.now }
    ensures before { All (λ b. MayPrecede b.priority block.priority) (take result blocks.now) }
    ensures next { result < length blocks.now → HoldsAt (λ b. IsLower b.priority block.priority) blocks.now result }
{
    for (place, other) in blocks.iter().enumerate() {
        if !may_precede(*other, block) {
            return place;
        }
    }
    blocks.len()
}

/// Whether no block of these words has this id.
fn has_none(used: &[u64], id: u64) -> bool
    ensures { IsTrue result ↔ HasNone id (map block_at used.now) }
{
    for word in used {
        if block(*word).id == id {
            return false;
        }
    }
    true
}

/// The mark of an id. Few ids of a chain share one.
#[inline(always)]
fn mark_of(id: u64) -> u64
    ensures { result ≡ 2 ^ (id % 64) }
{
    1 << (id % 64)
}

/// Whether no block of these words has this id, where all that have one left its mark: they are looked at only where one left
/// the same mark.
#[inline(always)]
fn is_new(used: &[u64], marks: u64, id: u64) -> bool
    requires { All (λ b. IsMarked marks b.id) (map block_at used.now) }
    ensures { IsTrue result ↔ HasNone id (map block_at used.now) }
{
    marks & mark_of(id) == 0 || has_none(used, id)
}

/// Whether the block at this place may stand behind the one before it.
#[inline(always)]
fn may_follow(used: &[u64], place: usize) -> bool
    requires { place < length used.now }
    ensures { IsTrue result ↔ MayFollow place (map block_at used.now) }
{
    place == 0 || may_precede(block(used[place - 1]), block(used[place]))
}

/// Whether these are the words of a chain's blocks, whose ids are below `ids`.
#[inline(always)]
pub(crate) fn is_chain(used: &[u64], ids: u64) -> bool
    requires { length used.now ≤ 15 }
    ensures { IsTrue result ↔ IsChain ids (map block_at used.now) }
{
    let mut marks = 0;
    for (place, word) in used.iter().enumerate() {
        let id = block(*word).id;
        if id >= ids || !may_follow(used, place) || !is_new(&used[..place], marks, id) {
            return false;
        }
        marks |= mark_of(id);
    }
    true
}
