//! What the proofs know of a seat of the tree. But for `Shape` and `Holder`, no value of these types is ever made.

/// What the rule of a tree is told when the tree is made. The nodes are numbered from the root: it is node 0, and the
/// children of node k are the nodes from 4 k + 1 to 4 k + 4.
#[derive(Clone, Copy, Debug)]
pub struct Shape {
    /// How many processors may ask.
    pub processors: usize,
    pub nodes: usize,
}

/// Who makes steps in the tree.
#[derive(Clone, Copy, Debug, PartialEq, Eq)]
pub enum Holder {
    /// This one asks at its leaf.
    Processor(u16),
    /// It loads the root.
    Engine,
}

/// A number was asked for at a node: one step of an `ask`.
pub struct Raise {
    /// The processor that asked.
    pub by: u16,
    pub node: usize,
    pub number: u64,
}

/// A load of the root, with what it found, and all that had been raised by then.
pub struct Load {
    pub by: Holder,
    pub found: u64,
    pub at: [Raise; 0],
}

/// Where an `ask` stands.
pub enum Call {
    Idle,
    /// It has raised this node to this number, and has not yet made its step at the parent.
    From { node: usize, number: u64 },
}

/// What one seat knows beside the raises and the loads of the root. A clause reads an array as a list of any length.
pub struct Known {
    pub shape: Shape,
    /// The raises of this seat, in order.
    pub mine: [Raise; 0],
    pub call: Call,
}
