//! What is there when a line is read.
use crate::entry::place_of;
use crate::session::Session;
use lines::Name;
use requests::{Kind, Scene};
use std::alloc::Allocator;
use std::sync::Wait;

impl<A: Allocator, R: Wait> Scene for Session<'_, A, R> {
    ghost use Rattle.session.specs.States.{scene_of};

    ghost scene = { λ s. scene_of s.state };

    fn place_of(&self, domain: &[u8]) -> Option<usize> {
        place_of(&self.entries, domain)
    }

    fn set_of(&self, set: &[u8]) -> Option<usize> {
        self.sets
            .as_slice()
            .iter()
            .position(|known| known.is_named(set))
    }

    fn processors_of(&self, place: usize) -> u64 {
        self.entries[place].processors()
    }

    fn kind_of(&self, place: usize, name: &Name) -> Option<Kind> {
        self.entries[place].kind_of(name)
    }
}
