//! Handlers are registered and unregistered.
ghost use Rattle.std.specs.Prelude.{◌≡◌, ℕ, ◌<◌, [], IfErr, IfOk, MatchOption, MatchResult, All, length};
ghost use Rattle.std.specs.List.{HoldsAt, remove};
ghost use Rattle.domain.specs.Views.{IsOf, IsSameProcessor, Stays, with_cpu};
ghost use Rattle.domain.specs.Waiting.{HasNoneOpen};
ghost use Rattle.boxes.specs.Boxes.{IsCellIn, IsCellOf, cell_of};
ghost use Rattle.boxes.specs.Writing.{Equips, IsHandedBack, IsPlain};
ghost use Rattle.registry.specs.Names.{names_of};
ghost use Rattle.registry.specs.Changing.{Collects, Refuses};
ghost use Rattle.registry.specs.Waiting.{HasNoLimit};
ghost use Rattle.roster.specs.Rosters.{IsNotRegistered, IsNotUnregistered, IsReturned, MayBeInside, Registers, Unregisters};

use crate::callers::Callers;
use crate::rank::Rank;
use domain::{Cpu, Domain, Writer};
use notify::Handler;
use registry::{InsertRefusal, Registry, WaitRefusal};
use std::alloc::{Allocator, Global};
use std::sync::Wait;

/// What registers handlers and unregisters them. It has one owner. Dropped, it leaks those that are registered.
#[derive(Drop)]
pub struct Roster<H: Handler> {
    pub(crate) handlers: Registry<Rank, H>,
}

/// Makes a cell a roster with no handler in it. The writer comes back where there is no memory, or no slot of its cell is
/// blank.
pub fn make<H: Handler, J, B: Allocator>(
    alloc: Global,
    domain: &Domain<J, B>,
    cpu: &mut Cpu<J, B>,
    writer: Writer,
) -> Result<(Roster<H>, Callers<H>), Writer>
    requires domain { IsOf domain.now cpu.old }
    requires here { writer.domain ≡ domain.now.domain }
    requires plain { IsPlain writer }
    ensures here { IsOf domain.now cpu.new }
    ensures still_none { HasNoneOpen cpu.old → HasNoneOpen cpu.new }
    ensures roster { IfOk result (λ m. IsCellIn domain.now (cell_of m.0.handlers.writer)) }
    ensures nobody { IfOk result (λ m. (m.0.handlers.here ≡ []) × (m.0.handlers.leaving ≡ [])) }
    ensures callers { IfOk result (λ m. m.1.users.boxes ≡ cell_of m.0.handlers.writer) }
    ensures puts { MatchResult result (λ m. Equips writer cpu.old m.0.handlers.writer.writer cpu.new) (λ back. IsHandedBack writer back × (cpu.new ≡ cpu.old)) }
{
    match registry::make(alloc, domain, cpu, writer) {
        Ok((handlers, users)) => Ok((Roster { handlers }, Callers { users })),
        Err(writer) => Err(writer),
    }
}

impl<H: Handler> Roster<H> {
    /// Registers a handler (`srcu_notifier_chain_register`): each call that begins from now on calls it. It comes back where
    /// it can't be registered.
    pub fn register<J, B: Allocator>(
        &mut self,
        domain: &Domain<J, B>,
        cpu: &mut Cpu<J, B>,
        rank: Rank,
        handler: H,
    ) -> Result<(), (H, InsertRefusal)>
        requires domain { IsOf domain.now cpu.old }
        requires cell { IsCellIn domain.now (cell_of self.old.handlers.writer) }
        ensures here { IsOf domain.now cpu.new }
        ensures same { cell_of self.new.handlers.writer ≡ cell_of self.old.handlers.writer }
        ensures still_none { HasNoneOpen cpu.old → HasNoneOpen cpu.new }
        ensures registers { MatchResult result
            (λ _. Registers rank handler self.old.handlers cpu.old self.new.handlers cpu.new)
            (λ r. (r.0 ≡ handler) × Refuses self.old.handlers cpu.old self.new.handlers cpu.new) }
        ensures refused { IfErr result (λ r. IsNotRegistered rank r.1 (names_of self.old.handlers.here) self.new.handlers.writer) }
    {
        self.handlers.insert(domain, cpu, rank, handler)
    }

    /// Unregisters the handler of this rank (`srcu_notifier_chain_unregister`), waits until no call is inside it, and returns
    /// it. It waits for a slot first. After `Exhausted` [`Roster::reclaim`] returns it, if it comes back.
    pub fn unregister<R: Wait, J, B: Allocator>(
        &mut self,
        rt: &R,
        domain: &Domain<J, B>,
        cpu: &mut Cpu<J, B>,
        rank: Rank,
    ) -> Result<H, WaitRefusal>
        requires domain { IsOf domain.now cpu.old }
        requires none { HasNoneOpen cpu.old }
        requires cell { IsCellIn domain.now (cell_of self.old.handlers.writer) }
        ensures here { IsOf domain.now cpu.new }
        ensures same { cell_of self.new.handlers.writer ≡ cell_of self.old.handlers.writer }
        ensures same_cpu { IsSameProcessor cpu.old cpu.new }
        ensures still_none { HasNoneOpen cpu.new }
        ensures unregisters { MatchResult result
            (λ handler. Unregisters rank handler self.old.handlers cpu.old self.new.handlers cpu.new)
            (λ refusal. IsNotUnregistered rank refusal self.old.handlers cpu.old self.new.handlers cpu.new) }
        ensures no_limit { IfErr result HasNoLimit }
    {
        self.handlers.remove_and_wait(rt, domain, cpu, rank)
    }

    /// A handler that was unregistered and that no call is inside any more, with its rank.
    pub fn reclaim<J, B: Allocator>(&mut self, cpu: &mut Cpu<J, B>) -> Option<(Rank, H)>
        requires cell { IsCellOf cpu.old.cpu (cell_of self.old.handlers.writer) }
        ensures same { cell_of self.new.handlers.writer ≡ cell_of self.old.handlers.writer }
        ensures here { names_of self.new.handlers.here ≡ names_of self.old.handlers.here }
        ensures returns { MatchOption result
            ((names_of self.new.handlers.leaving ≡ names_of self.old.handlers.leaving) × All (MayBeInside self.new.handlers.writer) self.new.handlers.leaving)
            (λ name. IsReturned name self.old.handlers self.new.handlers) }
        ensures collects { Collects self.old.handlers.writer cpu.old.cpu self.new.handlers.writer cpu.new.cpu }
        ensures rest { cpu.new ≡ with_cpu cpu.new.cpu cpu.old }
        ensures stays { Stays cpu.old cpu.new }
        ensures cell { IsCellOf cpu.new.cpu (cell_of self.new.handlers.writer) }
        ensures still_none { HasNoneOpen cpu.old → HasNoneOpen cpu.new }
    {
        self.handlers.reclaim(cpu)
    }
}
