//! Why a sign is not given.
use crate::stop::Told;
use std::alloc::{Allocator, Global};

/// Why [`Stop::give`](crate::Stop::give) did not give the sign.
#[derive(Drop)]
pub enum GiveRefusal<J, A: Allocator = Global> {
    /// There was no memory to note how many jobs were queued by then.
    Memory,
    /// It was given before, and stays as it was given then.
    Given(Told<J, A>),
}
