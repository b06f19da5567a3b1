//! What the proofs know of a seat. No value of these types is ever made.

/// Whose entries a seat makes.
pub enum Role {
    /// Nobody's.
    Nobody,
    /// Those of the head, and of all from this number on, which are still to be dealt.
    Dealer(u64),
    /// Those of this number.
    Sits(u64),
}

/// What one seat knows. A clause reads an array as a list of any length.
pub struct View<E, D, C> {
    pub role: Role,
    /// A beginning of the log: all that this seat has seen of it. Its own entries are there.
    pub seen: [E; 0],
    /// What was handed in, which the next step covers.
    pub told: [E; 0],
    /// A beginning of the deeds: all that were done up to this seat's last own one.
    pub done: [D; 0],
    /// What the caller's rule knows of it.
    pub client: C,
}
