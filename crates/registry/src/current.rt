//! What the writer knows of its versions.
ghost use Rattle.std.specs.Prelude.{◌≡◌, ◌^◌, ◌<◌, ◌≤◌, Some, None, IfSome, MatchBool, MatchOption};
ghost use Rattle.boxes.specs.Boxes.{Stored, stored_at};
ghost use Rattle.registry.specs.Names.{names_of, names_shown};

use crate::index::Index;
use crate::registry::Registry;
use boxes::Terms;
use std::alloc::Allocator;

impl<K: Ord + Copy, V: Drop, A: Allocator + Copy> Registry<K, V, A> {
    /// What is known of the index that sections find from now on, until the next change: it has just the devices that are here.
    /// None before the first one.
    pub fn terms(&self) -> Option<Terms<Index<K, V, A>>>
        ensures current { MatchOption result
            (stored_at self.now.writer self.now.writer.writer.current ≡ None)
            (λ t. (s : Stored _ A) × (stored_at self.now.writer self.now.writer.writer.current ≡ Some s) × (t.value ≡ s.value) × (t.round ≡ s.round)) }
        ensures shows { IfSome result (λ t. names_shown t.value ≡ names_of self.now.here) }
    {
        self.writer.terms()
    }

    /// Whether the cell has had 2^54 versions: then nothing is changed any more, and no device comes back.
    pub(crate) fn is_spent(&self) -> bool
        ensures { MatchBool result (2 ^ 54 ≤ self.now.writer.writer.version) (self.now.writer.writer.version < 2 ^ 54) }
    {
        self.writer.is_spent()
    }
}
