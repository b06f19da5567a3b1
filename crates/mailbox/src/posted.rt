//! What may lie in a mailbox.

/// A value that may lie in a mailbox of this key, or not. Contracts alone see it.
pub trait Posted<K> {
    ghost fits: { Self → K → Type 0 };
}
