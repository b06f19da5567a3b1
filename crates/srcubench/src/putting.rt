//! Values that are put one behind the other, each into the slot that the grace period before has made free.
ghost use Rattle.std.specs.Prelude.{◌≡◌, IfOk};
ghost use Rattle.domain.specs.Views.{IsOf};
ghost use Rattle.srcubench.specs.Putting.{PutsOnce, PutsOften, HavePut};

use crate::driving::drive_period;
use crate::work::Timed;
use anyhow::Result;
use domain::{Cpu, Domain, Limits, Writer};
use shelf::{Shelf, Versioned};
use std::alloc::Allocator;
use std::time::{Clock, Instant};

/// A value with the same number in each of its words.
#[derive(Clone, Copy)]
pub struct Sixteen {
    pub number: u64,
}

impl Versioned for Sixteen {
    ghost use Rattle.std.specs.Prelude.{replicate, slice_index_or, refl};

    ghost fits = { λ _. Unit {0} };

    ghost text = { λ s. replicate 16 s.number };

    ghost value = { λ words. record { number = slice_index_or words 0 0 } };

    ghost round_trip = { λ _ _. refl };

    fn encode(&self) -> [u64; 16] {
        [self.number; 16]
    }

    fn decode(words: &[u64; 16]) -> Sixteen {
        Sixteen { number: words[0] }
    }
}

/// Puts a value, and drives a grace period, behind which nobody can read the one that was there.
fn put_once<A: Allocator>(
    domain: &Domain<(), A>,
    cpu: &mut Cpu<(), A>,
    shelf: &mut Shelf<Sixteen>,
    number: u64,
) -> Result<()>
    requires here { IsOf domain.now cpu.old }
    requires shelf { shelf.old.domain ≡ domain.now.domain }
    ensures here { IsOf domain.now cpu.new }
    ensures shelf { shelf.new.domain ≡ domain.now.domain }
    ensures puts { IfOk result (λ _. PutsOnce number shelf.old cpu.old shelf.new cpu.new) }
{
    shelf.replace(domain, cpu, &Sixteen { number })?;
    drive_period(domain, cpu)?;
    Ok(())
}

/// Puts so many values, one behind the other.
fn put_often<A: Allocator>(
    domain: &Domain<(), A>,
    cpu: &mut Cpu<(), A>,
    shelf: &mut Shelf<Sixteen>,
    times: u64,
) -> Result<()>
    requires here { IsOf domain.now cpu.old }
    requires shelf { shelf.old.domain ≡ domain.now.domain }
    ensures { IfOk result (λ _. PutsOften times shelf.old cpu.old shelf.new cpu.new) }
{
    for number in 0..times {
        put_once(domain, cpu, shelf, number)?;
    }
    Ok(())
}

/// What puts values into the writer's cell.
fn shelve(writer: Writer) -> Shelf<Sixteen>
    ensures { result ≡ writer }
{
    let (shelf, _) = Shelf::new(writer);
    shelf
}

/// Does so. The `elapsed` is what the clock told, of which no clause speaks.
fn time_puts<R: Clock>(
    rt: &R,
    domain: &Domain<()>,
    cpu: &mut Cpu<()>,
    shelf: &mut Shelf<Sixteen>,
    times: u64,
) -> Result<Timed>
    requires here { IsOf domain.now cpu.old }
    requires shelf { shelf.old.domain ≡ domain.now.domain }
    ensures done { IfOk result (λ timed. timed.done ≡ times) }
    ensures puts { IfOk result (λ _. PutsOften times shelf.old cpu.old shelf.new cpu.new) }
{
    let start = Instant::now(rt)?;
    put_often(domain, cpu, shelf, times)?;
    let elapsed = start.elapsed(rt)?;
    Ok(Timed {
        done: times,
        elapsed,
    })
}

/// Puts so many values in a new domain of one processor, whose cell has two slots: one is current, and the other is
/// blank only behind the grace period of the put before.
pub fn run<R: Clock + AllocGlobal>(rt: &R, times: u64) -> Result<Timed>
    ensures done { IfOk result (λ timed. timed.done ≡ times) }
    ensures put { IfOk result (λ _. HavePut times) }
{
    let limits = Limits {
        sections: 1,
        periods: times,
        cells: 1,
        slots: 2,
    };
    let (domain, mut cpus, mut writers) = Domain::<()>::new(rt.alloc(), 1, limits)?;
    let mut cpu = cpus.pop().unwrap();
    let writer = writers.pop().unwrap();
    let mut shelf = shelve(writer);
    time_puts(rt, &domain, &mut cpu, &mut shelf, times)
}
