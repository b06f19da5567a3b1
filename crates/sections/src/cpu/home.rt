//! Of which domain a processor is.
ghost use Rattle.std.specs.Prelude.{◌≡◌};

use super::Cpu;
use crate::plays;
use crate::token::Home;
use std::alloc::Allocator;

impl<A: Allocator> Cpu<A> {
    /// The domain of this processor. One load, which tells nothing.
    pub fn home(&mut self) -> Home
        ensures home { result ≡ self.old.domain }
        ensures same { self.new ≡ self.old }
    {
        let seat = self
            .table
            .shared
            .split_seat::<plays::GiveToken>(&mut self.seat);
        Home { seat }
    }
}
