//! The sixteen words of a version.
ghost use Rattle.std.specs.Prelude.{◌≡◌, ◌+◌, ◌*◌, ◌^◌, ◌<◌, ◌≤◌, IsTrue, ◌↔◌, All, length, map};
ghost use Rattle.notify.specs.Blocks.{word_of, text_of, block_at, blocks_in, ids_text, EndsAt, IsTextOf, AreRead};

use crate::block::Block;
use crate::order::is_chain;

/// The word of a block: its priority, raised so that it is no negative number, above its id.
fn word(block: Block) -> u64
    requires { block.id < 2 ^ 32 }
    ensures { result ≡ word_of block }
{
    ((i64::from(block.priority) + (1 << 31)) as u64) << 32 | block.id
}

/// The block that has this word.
#[inline(always)]
pub(crate) fn block(word: u64) -> Block
    ensures { result ≡ block_at word }
{
    Block {
        id: word & 0xffff_ffff,
        priority: ((word >> 32) as i64 - (1 << 31)) as i32,
    }
}

/// The words of a version: how many blocks there are, their words, and zeros.
pub(crate) fn text(blocks: &[Block]) -> [u64; 16]
    requires few { length blocks.now ≤ 15 }
    requires small { All (λ b. b.id < 2 ^ 32) blocks.now }
    ensures { result ≡ text_of blocks.now }
{
    let mut words = [0; 16];
    words[0] = blocks.len() as u64;
    for (place, block) in blocks.iter().enumerate() {
        words[place + 1] = word(*block);
    }
    words
}

/// The ids of the blocks that have these words, and zeros.
#[inline(always)]
pub(crate) fn ids(used: &[u64]) -> [u64; 15]
    requires { length used.now ≤ 15 }
    ensures { result ≡ ids_text (map block_at used.now) }
{
    let mut ids = [0; 15];
    for (place, word) in used.iter().enumerate() {
        ids[place] = block(*word).id;
    }
    ids
}

/// Whether these are the words of a chain whose ids are below `ids`.
#[inline(always)]
fn is_text(words: &[u64; 16], ids: u64) -> bool
    requires { ids ≤ 2 ^ 32 }
    ensures { IsTrue result ↔ IsTextOf ids words.now (blocks_in words.now) }
{
    if words[0] > 15 {
        return false;
    }
    let count = words[0] as usize;
    is_chain(&words[1..=count], ids) && ends_at(words, count)
}

/// Whether zeros stand behind this place.
#[inline(always)]
fn ends_at(words: &[u64; 16], count: usize) -> bool
    requires { count ≤ 15 }
    ensures { IsTrue result ↔ EndsAt count words.now }
{
    for place in count + 1..16 {
        if words[place] != 0 {
            return false;
        }
    }
    true
}

/// The words of the blocks as which sixteen words are read: those of the chain whose text they are, and none where there
/// is no such chain. They are read where they lie: each of them is the word of one block.
#[inline(always)]
pub(crate) fn read(words: &[u64; 16], ids: u64) -> &[u64]
    requires { ids ≤ 2 ^ 32 }
    ensures { AreRead ids words.now (map block_at result.now) }
{
    if is_text(words, ids) {
        return &words[1..=words[0] as usize];
    }
    &words[..0]
}
