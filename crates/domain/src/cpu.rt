//! A processor of a domain.
ghost use Rattle.std.specs.Prelude.{◌≡◌};

use calls::CallSeat;
use funnel::FunnelSeat;
use scan::StationSeat;
use std::alloc::{Allocator, Global};
use std::marker::Model;
use std::ops::{Deref, DerefMut};

mod cookies;
mod readers;

/// A processor of a domain whose callbacks' jobs are of type `J`. It is a value that one thread owns: which processor of
/// the machine the thread runs on makes no difference. Contracts see its seats: at the domain's words, at the tree of
/// needs, at the place where the engine lies between two turns, and at the tally words of the callbacks.
#[derive(Drop)]
pub struct Cpu<J, A: Allocator = Global> {
    pub(crate) cpu: sections::Cpu<A>,
    pub(crate) needs: FunnelSeat<A>,
    pub(crate) turn: StationSeat<A>,
    pub(crate) calls: CallSeat<J, A>,
}

impl<J, A: Allocator> Model for Cpu<J, A> {
    ghost use Rattle.domain.specs.Views.{CpuView};

    ghost Value = { CpuView J };

    ghost use Rattle.domain.specs.Insides.{view_of_cpu};

    ghost view = { view_of_cpu };
}

/// A processor has the calls of its seat at the domain's words.
impl<J, A: Allocator> Deref for Cpu<J, A> {
    type Target = sections::Cpu<A>;

    ghost deref_gives = { λ cpu words. words ≡ cpu.cpu };

    #[inline(always)]
    fn deref(&self) -> &sections::Cpu<A> {
        &self.cpu
    }
}

/// They change that seat, and leave the others as they are. Two processors whose seats were swapped are of no domain, so
/// every call that takes a domain refuses them.
impl<J, A: Allocator> DerefMut for Cpu<J, A> {
    ghost use Rattle.std.specs.Borrow.{sem, Lends};
    ghost use Rattle.sections.specs.contracts.cpu.Cpu.{the_row as words_row};
    ghost use Rattle.domain.specs.Views.{with_cpu};
    ghost use Rattle.domain.specs.contracts.cpu.Cpu.{the_row};

    ghost deref_mut_gives = { λ cpu words. words ≡ cpu.cpu };

    #[inline(always)]
    fn deref_mut(&mut self) -> &mut sections::Cpu<A>
        ensures shows { result.now ≡ self.old.cpu }
        ensures* lends { sem 𝓛 (Lends (the_row J.row A.row A.Allocator) (words_row A.row A.Allocator) self.entry result (λ w. with_cpu w self.old)) }
    {
        &mut self.cpu
    }
}
