//! What a writer keeps of a box that it has put.
ghost use Rattle.std.specs.Prelude.{◌≡◌, ◌<◌, Option, Some, None, slice_index_or, slice_set};

use parts::{LooseDeed, Part};
use std::alloc::Allocator;

/// The right to have a box back, and what was not laid of its parts. Dropped, it gives the box up.
#[derive(Drop)]
pub(crate) struct Rest<V, A: Allocator> {
    pub(crate) deed: LooseDeed<V, A>,
    pub(crate) part: Part<V>,
}

/// Keeps a value in this place of a row.
pub(crate) fn keep_at<T: Drop>(row: &mut [Option<T>; 8], place: usize, value: T)
    requires { place < 8 }
    ensures { row.new ≡ slice_set row.old place (Some value) }
{
    row[place] = Some(value);
}

/// Takes what is kept in this place of a row.
pub(crate) fn take_at<T>(row: &mut [Option<T>; 8], place: usize) -> Option<T>
    requires { place < 8 }
    ensures value { (d : Option T) → result ≡ slice_index_or row.old place d }
    ensures row { row.new ≡ slice_set row.old place None }
{
    row[place].take()
}
