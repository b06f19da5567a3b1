//! The ids of the blocks of a chain.
ghost use Rattle.std.specs.Prelude.{◌≡◌, ◌≤◌, length};

use std::fmt;
use std::marker::Model;

/// A chain has as many blocks, at most.
const MOST: usize = 15;

/// The ids of at most fifteen blocks, in the order in which they are called. Contracts see the list of the ids. It takes
/// no memory but its own.
#[derive(Clone, Copy)]
pub struct BlockIds {
    /// The ids, and behind them as many zeros as there is room for.
    ids: [u64; MOST],
    count: usize,
}

impl Model for BlockIds {
    ghost use Rattle.std.specs.Prelude.{ℕ, List, length, take};
    ghost use Rattle.requests.specs.BlockIds.{ArePadded, padded, padded_again};

    ghost Value = { List ℕ };

    ghost view = { λ b. take b.count b.ids };

    ghost invariant = { λ b. ArePadded b.count b.ids };

    ghost inverse = { λ ids. record { ids = padded ids; count = length ids } };

    ghost inverse_ok = { λ b h. padded_again b.count b.ids h };
}

impl BlockIds {
    /// These ids. They are at most fifteen.
    pub fn new(ids: &[u64]) -> BlockIds
        requires { length ids.now ≤ 15 }
        ensures { result ≡ ids.now }
    {
        let mut all = [0; MOST];
        all[..ids.len()].copy_from_slice(ids);
        BlockIds {
            ids: all,
            count: ids.len(),
        }
    }

    /// The ids, in their order.
    pub fn as_slice(&self) -> &[u64]
        ensures { result.now ≡ self.now }
    {
        &self.ids[..self.count]
    }
}

/// Each with a space before it.
impl fmt::Display for BlockIds {
    ghost use Rattle.std.specs.Prelude.{Some};
    ghost use Rattle.requests.specs.Replies.{ids_text};

    ghost output = { λ ids. Some (ids_text ids) };

    fn fmt<W: fmt::Write>(&self, f: &mut fmt::Formatter<W>) -> fmt::Result {
        for id in self.as_slice() {
            write!(f, " {id}")?;
        }
        Ok(())
    }
}
