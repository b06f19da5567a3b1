//! A segment whose entries wait for one number.

/// How many entries wait, and for which number. Both are 0 where none waits.
#[derive(Clone, Copy)]
pub(crate) struct Segment {
    pub(crate) len: usize,
    pub(crate) number: u64,
}

impl Segment {
    pub(crate) const EMPTY: Segment = Segment { len: 0, number: 0 };
}
