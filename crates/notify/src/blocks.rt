//! The blocks of a chain, in the order in which they are called.
ghost use Rattle.std.specs.Prelude.{◌<◌, ℕ, length, FitsSigned};
ghost use Rattle.std.specs.Int.{w32};
ghost use Rattle.notify.specs.Blocks.{HasNone, StandsAt, Inserts, Removes};
ghost use Rattle.notify.specs.Insides.{IsKept};

use crate::block::Block;
use crate::order::count_before;
use arrayvec::ArrayVec;

/// The blocks of a chain, in the order in which they are called.
pub(crate) type Blocks = ArrayVec<Block, 15>;

/// Puts a block behind all that may stand before it.
pub(crate) fn enter(blocks: &mut Blocks, block: Block)
    requires new_id { HasNone block.id blocks.old.items }
    requires few { length blocks.old.items < 15 }
    ensures inserts { (ids : ℕ) → IsKept ids blocks.old.items → Inserts block blocks.old.items blocks.new.items }
    ensures kept { (ids : ℕ) → block.id < ids → FitsSigned w32 block.priority → IsKept ids blocks.old.items → IsKept ids blocks.new.items }
{
    let place = count_before(blocks.as_slice(), block);
    blocks.insert(place, block);
}

/// Takes the block at this place out.
pub(crate) fn leave(blocks: &mut Blocks, place: usize)
    requires { place < length blocks.old.items }
    ensures removes { (id : ℕ) → StandsAt place id blocks.old.items → Removes id blocks.old.items blocks.new.items }
    ensures kept { (ids : ℕ) → IsKept ids blocks.old.items → IsKept ids blocks.new.items }
{
    blocks.remove(place);
}
