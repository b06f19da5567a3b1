//! Processors for threads that come and go.
use crate::home::Idle;
use domain::{Cpu, Domain};
use std::alloc::{Allocator, Global};
use std::marker::{Model, PhantomData};
use std::sync::atomic::AtomicU64;
use trail::{Sight, Stock};

mod lending;
mod working;

pub use lending::{Lent, Slip};

/// What was seen of a pool: how many processors were at home, each time that one came or went.
pub type AtHome<J, A = Global> = Sight<Domain<J, A>, usize>;

/// Processors of one domain that threads take for a while and give back, in the place of the kernel's per-CPU data, which
/// each task finds. It has a lock, behind which the processors lie that nobody has. Threads share it by reference.
/// Contracts see which pool it is, the domain, and how many processors there are, with those that are out.
#[derive(Drop)]
pub struct Pool<'a, J, A: Allocator = Global> {
    pub(crate) stock: Stock<Cpu<J, A>, Domain<J, A>, Idle, A>,
    /// How many times a processor was given back. Threads that wait for one sleep on it.
    pub(crate) given: AtomicU64,
    /// The domain is there as long as its pool.
    marker: PhantomData<&'a Domain<J, A>>,
}

impl<'a, J, A: Allocator> Model for Pool<'a, J, A> {
    ghost use Rattle.driver.specs.Pools.{PoolView};

    ghost Value = { PoolView };

    ghost use Rattle.driver.specs.PoolInsides.{view_of_pool};

    ghost view = { view_of_pool };
}
