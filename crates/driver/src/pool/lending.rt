//! Taking processors and giving them back.
ghost use Rattle.std.specs.Prelude.{◌≡◌, All, IfOk, MatchResult, length};
ghost use Rattle.driver.specs.Pools.{IsIdle, IsOut, NoneAtHome, OneMoreAtHome, AreAllHome, OneIsOut};

use super::{AtHome, Pool};
use domain::{Cpu, Domain};
use std::alloc::{AllocError, Allocator, Global};
use std::marker::{Model, PhantomData};
use std::sync::Wait;
use std::sync::atomic::AtomicU64;
use std::sync::atomic::Ordering::SeqCst;
use std::time::Duration;
use trail::{Out, Stock};

/// A sleep looks at the low 32 bits of its word.
const WORD: u64 = 1 << 32;

/// How long a thread sleeps at most before it looks again: a millisecond.
const LONGEST: u64 = 1_000;

/// A processor of a pool is out. It can't be dropped, and nobody but this module sees what is in it. Contracts see the pool,
/// and the processor's number.
pub struct Slip<J, A: Allocator = Global> {
    processor: u16,
    out: Out<Domain<J, A>>,
}

impl<J, A: Allocator> Model for Slip<J, A> {
    ghost use Rattle.driver.specs.Pools.{SlipView};

    ghost Value = { SlipView };

    ghost use Rattle.driver.specs.PoolInsides.{view_of_slip};

    ghost view = { view_of_slip };
}

/// A processor that a pool has lent. It can't be dropped: it ends in [`Pool::give`], at the pool that lent it.
pub struct Lent<J, A: Allocator = Global> {
    /// The processor, to be used as any other.
    pub cpu: Cpu<J, A>,
    /// Which one it is, and whose.
    pub slip: Slip<J, A>,
}

impl<'a, J: Drop, A: Allocator + Copy> Pool<'a, J, A> {
    /// A pool of this domain with no processor. `alloc` gives the memory, which no other call takes.
    pub fn new(alloc: A, domain: &'a Domain<J, A>) -> Result<Pool<'a, J, A>, AllocError>
        ensures { IfOk result (λ pool. (pool.domain ≡ domain.entry.now) × (pool.count ≡ 0)) }
    {
        let stock = Stock::new(alloc, alloc, domain)?;
        Ok(Pool {
            stock,
            given: AtomicU64::new(0),
            marker: PhantomData,
        })
    }

    /// Puts these processors in, on each of which no reading is open, and counts them. All that were put in before come out:
    /// none of a new pool. It is refused while one of those is out: then these come back, and the pool stays as it was.
    pub fn fill<R: Wait>(
        &mut self,
        rt: &R,
        cpus: Vec<Cpu<J, A>, A>,
    ) -> Result<Vec<Cpu<J, A>, A>, (Vec<Cpu<J, A>, A>, AtHome<J, A>)>
        requires { All (IsIdle self.old.domain) cpus.items }
        ensures same { self.new ≡ record self.old { count = self.new.count } }
        ensures count { MatchResult result (λ _. self.new.count ≡ length cpus.items) (λ _. self.new.count ≡ self.old.count) }
        ensures fills { MatchResult result
            (λ before. AreAllHome self.old before.items)
            (λ back. (back.0 ≡ cpus) × OneIsOut self.old back.1) }
    {
        let (before, _home) = self.stock.fill(rt, cpus)?;
        Ok(before)
    }

    /// Takes a processor out, if one is at home. Else all are out, and it tells at which moment. It waits for the lock alone,
    /// which others have for a few steps.
    pub fn try_take<R: Wait>(&self, rt: &R) -> Result<Lent<J, A>, AtHome<J, A>>
        ensures { MatchResult result (λ lent. IsOut self.now lent.cpu lent.slip) (λ home. NoneAtHome self.now home) }
    {
        let (cpu, out) = self.stock.try_take(rt)?;
        let processor = cpu.processor();
        Ok(Lent {
            cpu,
            slip: Slip { processor, out },
        })
    }

    /// Takes a processor out, and waits until one is there. Who comes first need not be served first.
    pub fn take<R: Wait>(&self, rt: &R) -> Lent<J, A>
        ensures { IsOut self.now result.cpu result.slip }
    {
        for _ in rt.forever() {
            // Before the look: one that is given back behind it ends the sleep at once.
            let given = self.given.load(SeqCst);
            if let Ok(lent) = self.try_take(rt) {
                return lent;
            }
            let length = Duration::from_micros(LONGEST);
            self.given.park_timeout(rt, (given % WORD) as u32, length);
        }
        unreachable!()
    }

    /// Gives a processor back to the pool that lent it. No reading may be open on it. It takes no memory, as there is room for
    /// all.
    pub fn give<R: Wait>(&self, rt: &R, lent: Lent<J, A>) -> AtHome<J, A>
        requires { IsOut self.now lent.cpu lent.slip }
        ensures { OneMoreAtHome self.now result }
    {
        let Lent { cpu, slip } = lent;
        let Slip { processor: _, out } = slip;
        let home = self.stock.give(rt, cpu, out);
        self.given.fetch_add(1, SeqCst);
        self.given.wake_one();
        home
    }

    /// Takes all processors out for good, as for [`Domain::cleanup`]. It is refused where one is out, and the pool comes
    /// back as it was.
    pub fn close<R: Wait>(self, rt: &R) -> Result<Vec<Cpu<J, A>, A>, (Pool<'a, J, A>, AtHome<J, A>)>
        ensures { MatchResult result
            (λ cpus. AreAllHome self.entry cpus.items)
            (λ back. (back.0 ≡ self.entry) × OneIsOut self.entry back.1) }
    {
        let Pool {
            stock,
            given,
            marker,
        } = self;
        match stock.close(rt) {
            Ok(cpus) => Ok(cpus),
            Err((stock, home)) => Err((
                Pool {
                    stock,
                    given,
                    marker,
                },
                home,
            )),
        }
    }
}
