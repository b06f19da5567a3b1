//! How many sections are open.
ghost use Rattle.std.specs.Prelude.{◌≡◌, ◌+◌, ◌<◌, ◌^◌, true, if◌then◌else◌};
ghost use Rattle.sseq.specs.declared.index.Index.{Index};
ghost use Rattle.names.specs.OpenSections.{is_index, count_of};

use sseq::Index;

/// How many sections of each index are open.
#[derive(Clone, Copy, Debug, PartialEq, Eq)]
pub struct Open {
    pub zero: usize,
    pub one: usize,
}

impl Open {
    pub const NONE: Open = Open { zero: 0, one: 0 };

    /// Counts a section more of the index; `None` counts none.
    pub fn raise(&mut self, index: Option<Index>)
        requires { (i : Index) → count_of i self.old < 2 ^ 63 }
        ensures { (i : Index) → count_of i self.new ≡ count_of i self.old + (if is_index i index then 1 else 0) }
    {
        let Some(index) = index else {
            return;
        };
        match index {
            Index::Zero => self.zero += 1,
            Index::One => self.one += 1,
        }
    }

    /// Counts a section less of the index; `None` counts none.
    pub fn lower(&mut self, index: Option<Index>)
        requires { (i : Index) → is_index i index ≡ true → 0 < count_of i self.old }
        ensures { (i : Index) → count_of i self.new + (if is_index i index then 1 else 0) ≡ count_of i self.old }
    {
        let Some(index) = index else {
            return;
        };
        match index {
            Index::Zero => self.zero -= 1,
            Index::One => self.one -= 1,
        }
    }
}
