//! Watching a domain: what its counters are, and who holds a grace period up.
ghost use Rattle.std.specs.Prelude.{◌≡◌, ◌≢◌, ◌<◌, [], length, IfOk, MatchResult};
ghost use Rattle.sseq.specs.declared.index.Index.{Index};
ghost use Rattle.sseq.specs.Numbers.{cookie_at};
ghost use Rattle.calls.specs.Totals.{AddsUp};
ghost use Rattle.domain.specs.Views.{IsOf, with_cpu, with_calls};
ghost use Rattle.domain.specs.Acting.{loads, notes, ActsAs};
ghost use Rattle.glance.specs.Glances.{pair_of, counters_of};
ghost use Rattle.domain.specs.Watching.{HasRoom, HavePlaces, Watches, IsNoLess, WasBalanced, CountsEach, Tells, WasEmptyIn, WasOpenIn, differing, NamesHolders, Snaps};

use super::loads::load_sums;
use crate::cpu::Cpu;
use crate::domain::Domain;
use calls::Totals;
use glance::{Counters, Counts, Holder, Pair, Snapshot};
use sseq::Index;
use std::alloc::{AllocError, Allocator};

/// The processors whose counters differ, in order.
fn name_differing<A: Allocator>(
    counters: &Counters<A>,
    processors: u16,
    mut named: Vec<Holder, A>,
) -> Vec<Holder, A>
    requires unlocks { length counters.now.unlocks.items ≡ processors }
    requires locks { length counters.now.locks.items ≡ processors }
    requires room { HasRoom processors named }
    ensures { result.items ≡ differing counters.now.unlocks.items counters.now.locks.items processors }
{
    for processor in 0..processors {
        let place = usize::from(processor);
        let pair = Pair {
            locks: counters.locks[place],
            unlocks: counters.unlocks[place],
        };
        if pair.locks != pair.unlocks {
            named.push_reserved(Holder { processor, pair });
        }
    }
    named
}

/// The four counters of a processor, the unlocks first.
fn load_four<A: Allocator>(cpu: &mut sections::Cpu<A>, processor: u16) -> Counts
    requires { processor < cpu.old.processors }
    ensures { Watches processor result cpu.old cpu.new }
{
    let unlocks_zero = cpu.unlocks(processor, Index::Zero);
    let unlocks_one = cpu.unlocks(processor, Index::One);
    let locks_zero = cpu.locks(processor, Index::Zero);
    let locks_one = cpu.locks(processor, Index::One);
    Counts {
        zero: Pair {
            locks: locks_zero,
            unlocks: unlocks_zero,
        },
        one: Pair {
            locks: locks_one,
            unlocks: unlocks_one,
        },
    }
}

/// Places for one index on so many processors.
fn reserve<A: Allocator + Copy>(
    alloc: A,
    processors: u16,
) -> Result<(Vec<u64, A>, Vec<u64, A>), AllocError>
    ensures { IfOk result (λ room. HavePlaces processors room.0 room.1) }
{
    let unlocks = vec![in alloc; 0u64; usize::from(processors)]?;
    let locks = vec![in alloc; 0u64; usize::from(processors)]?;
    Ok((unlocks, locks))
}

/// The same, and for the holders among them.
fn reserve_to_name<A: Allocator + Copy>(
    alloc: A,
    processors: u16,
) -> Result<(Vec<Holder, A>, (Vec<u64, A>, Vec<u64, A>)), AllocError>
    ensures named { IfOk result (λ room. HasRoom processors room.0) }
    ensures rest { IfOk result (λ room. HavePlaces processors room.1.0 room.1.1) }
{
    let named = Vec::with_capacity(alloc, usize::from(processors))?;
    let rest = reserve(alloc, processors)?;
    Ok((named, rest))
}

impl<J, A: Allocator> Domain<J, A> {
    /// The four counters of a processor: how many sections of each index were begun there, and how many have ended there.
    /// Each is loaded once, first the unlocks of both indexes and then the locks. Each is what it was at a moment of the
    /// call, and never below what the caller had seen. Where both of an index are equal, no more sections of it had begun
    /// there than had ended there, at a moment of the call. Held sections may end elsewhere, so one processor alone doesn't
    /// tell whether a section is open: [`Domain::holders`] does.
    pub fn watch(&self, cpu: &mut Cpu<J, A>, processor: u16) -> Counts
        requires domain { IsOf self.now cpu.old }
        requires processor { processor < self.now.processors }
        ensures here { IsOf self.now cpu.new }
        ensures watches { Watches processor result cpu.old.cpu cpu.new.cpu }
        ensures acts { ActsAs loads cpu.old cpu.new }
        ensures rest { cpu.new ≡ with_cpu cpu.new.cpu cpu.old }

        // No word is older than what the caller had seen.
        ensures since { (i : Index) → IsNoLess processor i (pair_of i result) cpu.old.cpu.seen }

        // Equal words are a moment at which no more had begun there than had ended there.
        ensures balanced { (i : Index) → (pair_of i result).locks ≡ (pair_of i result).unlocks → WasBalanced processor i cpu.old.cpu.seen cpu.new.cpu.seen }
    {
        load_four(&mut cpu.cpu, processor)
    }

    /// The counters of an index on all processors: first all unlocks, and then all locks.
    fn counters(
        &self,
        cpu: &mut Cpu<J, A>,
        index: Index,
        room: (Vec<u64, A>, Vec<u64, A>),
    ) -> Counters<A>
        requires here { IsOf self.now cpu.old }
        requires room { HavePlaces self.now.processors room.0 room.1 }
        ensures here { IsOf self.now cpu.new }
        ensures counts { CountsEach index result cpu.old.cpu cpu.new.cpu }
        ensures many { (length result.unlocks.items ≡ self.now.processors) × (length result.locks.items ≡ self.now.processors) }
        ensures tells { Tells index result.ended result.begun cpu.old.cpu.seen cpu.new.cpu.seen }
        ensures acts { ActsAs loads cpu.old cpu.new }
        ensures rest { cpu.new ≡ with_cpu cpu.new.cpu cpu.old }
    {
        let (mut unlocks, mut locks) = room;
        let (ended, begun) = load_sums(
            &mut cpu.cpu,
            self.processors,
            index,
            unlocks.as_mut_slice(),
            locks.as_mut_slice(),
        );
        Counters {
            unlocks,
            locks,
            ended,
            begun,
        }
    }

    /// How many callbacks were queued on all processors, and how many are finished.
    fn tally(&self, cpu: &mut Cpu<J, A>) -> Totals
        requires here { IsOf self.now cpu.old }
        ensures here { IsOf self.now cpu.new }
        ensures adds { AddsUp cpu.old.calls result.queued result.finished cpu.new.calls }
        ensures acts { ActsAs loads cpu.old cpu.new }
        ensures rest { cpu.new ≡ with_calls cpu.new.calls cpu.old }
    {
        cpu.calls.totals()
    }
}

impl<J, A: Allocator + Copy> Domain<J, A> {
    /// Who may hold a grace period up that waits for sections of this index: the processors whose locks and unlocks of it
    /// differ. All unlocks are loaded first, and then all locks. There is no holder where the two sums are equal: then no
    /// section of the index was open at a moment of the call. Where there is one, a section of the index was open at a
    /// moment of the call. Held sections that end elsewhere may hide its processor, and name others: their counters differ too.
    /// `alloc` gives the memory. Where there isn't enough, no step was made.
    pub fn holders(
        &self,
        alloc: A,
        cpu: &mut Cpu<J, A>,
        index: Index,
    ) -> Result<Vec<Holder, A>, AllocError>
        requires { IsOf self.now cpu.old }
        ensures here { IsOf self.now cpu.new }
        ensures names { MatchResult result (λ named. NamesHolders index named.items cpu.old.cpu cpu.new.cpu) (λ _. cpu.new ≡ cpu.old) }
        ensures acts { ActsAs loads cpu.old cpu.new }
        ensures rest { cpu.new ≡ with_cpu cpu.new.cpu cpu.old }

        // An index on which nothing was open has no holder.
        ensures open { IfOk result (λ named. named.items ≢ [] → WasOpenIn index cpu.old.cpu.seen cpu.new.cpu.seen) }
        ensures empty { IfOk result (λ named. named.items ≡ [] → WasEmptyIn index cpu.old.cpu.seen cpu.new.cpu.seen) }
    {
        let (named, room) = reserve_to_name(alloc, self.processors)?;
        let counters = self.counters(cpu, index, room);
        if counters.ended == counters.begun {
            return Ok(named);
        }
        Ok(name_differing(&counters, self.processors, named))
    }

    /// The domain at a glance, after `srcu_torture_stats_print`: the number, the index, the need, all counters, and how many
    /// callbacks were queued and are finished. Each word is loaded once. Of each index all unlocks come first. So equal sums
    /// tell that no section of it was open at a moment of the call, and others that one was. The load of the number is the
    /// note of a cookie, as in [`Cpu::number`]. `alloc` gives the memory. Where there isn't enough, no step was made.
    pub fn snapshot(&self, alloc: A, cpu: &mut Cpu<J, A>) -> Result<Snapshot<A>, AllocError>
        requires { IsOf self.now cpu.old }
        ensures here { IsOf self.now cpu.new }
        ensures snaps { MatchResult result (λ s. Snaps s cpu.old cpu.new) (λ _. cpu.new ≡ cpu.old) }
        ensures acts { IfOk result (λ s. ActsAs (notes (cookie_at s.number)) cpu.old cpu.new) }

        // What the sums of each index tell.
        ensures tells { IfOk result (λ s. (i : Index) → Tells i (counters_of i s).ended (counters_of i s).begun cpu.old.cpu.seen cpu.new.cpu.seen) }
    {
        let zero = reserve(alloc, self.processors)?;
        let one = reserve(alloc, self.processors)?;
        let number = cpu.number();
        let index = cpu.look().index();
        let zero = self.counters(cpu, Index::Zero, zero);
        let one = self.counters(cpu, Index::One, one);
        let need = self.need(cpu);
        let calls = self.tally(cpu);
        Ok(Snapshot {
            number,
            index,
            need,
            zero,
            one,
            queued: calls.queued,
            finished: calls.finished,
        })
    }
}
