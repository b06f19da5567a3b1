//! What a key knows.
use atomic_table::Badge;

/// What a key knows of its place. Contracts alone see it: no value of it is made.
#[derive(Drop)]
pub struct Tally {
    /// One more than the number of the place. 0 with whoever deals the keys of a new vault.
    pub key: u64,
    /// 1 while the place is open, and 0 between two calls.
    pub out: u64,
    /// How many parts lie in the place: 0 to 2^63.
    pub count: u64,
    /// The round of these parts.
    pub round: u64,
}

/// The key of one place of a vault. It has no bytes and can be dropped; its place then stays as it is until the vault is
/// dropped. Contracts see which vault and place it is of, and how many parts of which round lie there.
pub type Key = Badge<Tally>;
