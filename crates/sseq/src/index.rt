//! The index of a section.
ghost use Rattle.std.specs.Prelude.{◌≡◌};
ghost use Rattle.sseq.specs.Indexes.{index_number, low_bit, other_index};

use std::fmt;

/// Which of its two pairs of counters a section uses (`srcu_read_lock` answers it as 0 or 1).
#[derive(Clone, Copy, Debug, PartialEq, Eq, PartialOrd, Ord, Hash)]
pub enum Index {
    Zero,
    One,
}

impl Index {
    /// The low bit of an index word, which only ever grows: a flip is one step of it.
    pub fn of_word(word: u64) -> Index
        ensures { result ≡ low_bit word }
    {
        if word % 2 == 0 {
            Index::Zero
        } else {
            Index::One
        }
    }

    /// The one of the two that this is not.
    pub fn other(self) -> Index
        ensures { result ≡ other_index self }
    {
        match self {
            Index::Zero => Index::One,
            Index::One => Index::Zero,
        }
    }

    /// 0 or 1: its place in an array of two.
    pub fn place(self) -> usize
        ensures { result ≡ index_number self }
    {
        match self {
            Index::Zero => 0,
            Index::One => 1,
        }
    }
}

/// Prints `0` or `1`.
impl fmt::Display for Index {
    ghost use Rattle.std.specs.Prelude.{Some};
    ghost use Rattle.sseq.specs.Indexes.{index_text};

    ghost output = { λ index. Some (index_text index) };

    fn fmt<W: fmt::Write>(&self, f: &mut fmt::Formatter<W>) -> fmt::Result {
        match self {
            Index::Zero => f.write_str("0"),
            Index::One => f.write_str("1"),
        }
    }
}
