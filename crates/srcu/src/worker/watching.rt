//! Watching: what the counters of the domain are, and who holds a grace period up.
ghost use Rattle.std.specs.Prelude.{◌≡◌, ◌≢◌, ◌<◌, [], IfOk, MatchResult};
ghost use Rattle.sseq.specs.declared.index.Index.{Index};
ghost use Rattle.sseq.specs.Numbers.{cookie_at};
ghost use Rattle.sections.specs.Views.{LookView};
ghost use Rattle.sections.specs.Calls.{Looks};
ghost use Rattle.domain.specs.Views.{with_cpu};
ghost use Rattle.domain.specs.Acting.{loads, notes, ActsAs};
ghost use Rattle.glance.specs.Glances.{counters_of, pair_of};
ghost use Rattle.domain.specs.Watching.{IsNoLess, NamesHolders, Snaps, Tells, Watches, WasBalanced, WasEmptyIn, WasOpenIn};
ghost use Rattle.srcu.specs.Workers.{IsSameWorker};
ghost use Rattle.srcu.specs.Holders.{NamesOthers};

use super::Worker;
use domain::{Counts, Holder, Index, Memory, Snapshot};
use std::alloc::Allocator;

impl<'a, J, A: Allocator> Worker<'a, J, A> {
    /// The four counters of a processor: how many sections of each index began there, and how many have ended there.
    pub fn watch(&mut self, processor: u16) -> Counts
        requires { processor < self.old.domain.processors }
        ensures same { IsSameWorker self.old self.new }
        ensures watches { Watches processor result self.old.cpu.cpu self.new.cpu.cpu }
        ensures acts { ActsAs loads self.old.cpu self.new.cpu }
        ensures rest { self.new.cpu ≡ with_cpu self.new.cpu.cpu self.old.cpu }

        // No word is older than what the processor had seen.
        ensures since { (i : Index) → IsNoLess processor i (pair_of i result) self.old.cpu.cpu.seen }
        ensures balanced { (i : Index) → (pair_of i result).locks ≡ (pair_of i result).unlocks → WasBalanced processor i self.old.cpu.cpu.seen self.new.cpu.cpu.seen }
    {
        self.domain.watch(&mut self.cpu, processor)
    }
}

impl<'a, J, A: Allocator + Copy> Worker<'a, J, A> {
    /// Who may hold a grace period up that waits for sections of this index: the processors whose counters of it differ.
    pub fn holders(&mut self, alloc: A, index: Index) -> Result<Vec<Holder, A>, Memory>
        ensures same { IsSameWorker self.old self.new }
        ensures names { MatchResult result
            (λ named. NamesHolders index named.items self.old.cpu.cpu self.new.cpu.cpu)
            (λ _. self.new.cpu ≡ self.old.cpu) }
        ensures acts { ActsAs loads self.old.cpu self.new.cpu }
        ensures rest { self.new.cpu ≡ with_cpu self.new.cpu.cpu self.old.cpu }

        // An index on which nothing was open has no holder.
        ensures open { IfOk result (λ named. named.items ≢ [] → WasOpenIn index self.old.cpu.cpu.seen self.new.cpu.cpu.seen) }
        ensures empty { IfOk result (λ named. named.items ≡ [] → WasEmptyIn index self.old.cpu.cpu.seen self.new.cpu.cpu.seen) }
    {
        self.domain.holders(alloc, &mut self.cpu, index)
    }

    /// Who may hold the grace period up that runs: the index of the sections that it waits for, which is the one that isn't
    /// current, and its [`Worker::holders`]. It needs no turn of the engine, which a driver may have.
    pub fn who_holds(&mut self, alloc: A) -> Result<(Index, Vec<Holder, A>), Memory>
        ensures same { IsSameWorker self.old self.new }
        ensures names { MatchResult result
            (λ named. NamesOthers named.0 named.1.items self.old.cpu.cpu self.new.cpu.cpu)
            (λ _. (look : LookView) × Looks self.old.cpu.cpu self.new.cpu.cpu look) }
        ensures acts { ActsAs loads self.old.cpu self.new.cpu }
        ensures rest { self.new.cpu ≡ with_cpu self.new.cpu.cpu self.old.cpu }

        // As of `holders`: one that nothing holds up has no holder.
        ensures open { IfOk result (λ named. named.1.items ≢ [] → WasOpenIn named.0 self.old.cpu.cpu.seen self.new.cpu.cpu.seen) }
        ensures empty { IfOk result (λ named. named.1.items ≡ [] → WasEmptyIn named.0 self.old.cpu.cpu.seen self.new.cpu.cpu.seen) }
    {
        let index = self.cpu.look().index().other();
        Ok((index, self.holders(alloc, index)?))
    }

    /// The domain at a glance: its number, index and need, all counters, and how many jobs were queued and are finished.
    pub fn snapshot(&mut self, alloc: A) -> Result<Snapshot<A>, Memory>
        ensures same { IsSameWorker self.old self.new }
        ensures snaps { MatchResult result
            (λ s. Snaps s self.old.cpu self.new.cpu)
            (λ _. self.new.cpu ≡ self.old.cpu) }
        ensures acts { IfOk result (λ s. ActsAs (notes (cookie_at s.number)) self.old.cpu self.new.cpu) }

        // What the sums of each index tell.
        ensures tells { IfOk result (λ s. (i : Index) → Tells i (counters_of i s).ended (counters_of i s).begun self.old.cpu.cpu.seen self.new.cpu.cpu.seen) }
    {
        self.domain.snapshot(alloc, &mut self.cpu)
    }
}
