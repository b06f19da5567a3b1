//! One block of a chain.

/// A block: the handler of this id is called, before those of lower priority.
#[derive(Clone, Copy, Debug, Default, PartialEq, Eq)]
pub struct Block {
    pub id: u64,
    pub priority: i32,
}
