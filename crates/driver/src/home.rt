//! Processors that are at home.
use domain::{Cpu, Domain};
use std::alloc::Allocator;
use trail::Stocked;

/// The rule of those that lie in a pool: each is of the pool's domain, and no reading is open on it.
pub struct Idle;

// They lie behind the lock of a stock, whose key is the domain.
impl<J, A: Allocator> Stocked<Domain<J, A>, Idle> for Cpu<J, A> {
    ghost use Rattle.driver.specs.Pools.{IsIdle};

    ghost fits = { IsIdle };
}
