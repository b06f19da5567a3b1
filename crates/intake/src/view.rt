//! What the proofs know of a pass. No value of these types is ever made.
use std::marker::{Model, PhantomData};

/// Values that were pushed, one after the other. Contracts see a list.
pub struct Values<T> {
    marker: PhantomData<T>,
}

impl<T> Model for Values<T> {
    ghost use Rattle.std.specs.Prelude.{List, []};

    ghost Value = { List T };

    ghost view = { λ _. [] };
}

/// What a pass is for.
pub enum Role<K> {
    /// It becomes the two ends.
    Founder,
    /// To push values into a line with this key.
    Pusher(Option<K>),
    /// To take values out of a line with this key.
    Taker(Option<K>),
}

/// What one pass knows.
pub struct View<T, K> {
    pub role: Role<K>,
    /// Of the pusher, all that was ever pushed; of the taker, all that was ever taken out.
    pub seen: Values<T>,
}
