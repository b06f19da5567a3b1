//! The chain: blocks are registered, and their handlers called.
ghost use Rattle.std.specs.Prelude.{◌≡◌, ◌<◌, ◌≤◌, length};
ghost use Rattle.notify.specs.Calling.{GivesAt};
ghost use Rattle.session.specs.States.{IsSameHome};
ghost use Rattle.session.specs.Scripts.{Does, CallsChain, cause_of_registering, cause_of_unregistering};

use super::Entry;
use notify::{Handler, RegisterRefusal, UnregisterRefusal};
use requests::{Act, BlockIds, Cause, Command, Reply};
use sections::Exhausted;
use std::alloc::Allocator;

/// What a handler is called with beside the value: there is one action.
const ACTION: u64 = 1;

/// Why a block was not registered.
fn cause_of(why: RegisterRefusal) -> Cause
    ensures { result ≡ cause_of_registering why }
{
    match why {
        RegisterRefusal::There => Cause::There,
        RegisterRefusal::Full => Cause::Full,
        RegisterRefusal::NoSlot => Cause::NoSlot,
        RegisterRefusal::Memory => Cause::Memory,
    }
}

/// Why one was not unregistered.
fn cause_of_leaving(why: UnregisterRefusal) -> Cause
    ensures { result ≡ cause_of_unregistering why }
{
    match why {
        UnregisterRefusal::NotThere => Cause::NotThere,
        UnregisterRefusal::NoSlot => Cause::NoSlot,
    }
}

impl<'a, A: Allocator> Entry<&'a A> {
    /// Registers a block on a processor; refused for the first cause that stands against it.
    pub(super) fn register(&mut self, processor: u64, id: u64, priority: i32) -> Reply
        requires processor { processor < self.old.state.course.standing.processors }
        requires id { id < 16 }
        ensures limits { self.new.limits ≡ self.old.limits }
        ensures home { IsSameHome self.old self.new }
        ensures name { self.new.state.name ≡ self.old.state.name }
        ensures does { Does self.old.limits (Act.Register processor id priority) self.old.state result self.new.state }
    {
        match self
            .domain
            .register(processor, &mut self.chain, id, priority)
        {
            Ok(()) => Reply::Registered(id),
            Err(why) => Reply::Refused(Command::Register, cause_of(why)),
        }
    }

    /// Unregisters the block of this id; refused as `register` is.
    pub(super) fn unregister(&mut self, processor: u64, id: u64) -> Reply
        requires processor { processor < self.old.state.course.standing.processors }
        requires id { id < 16 }
        ensures limits { self.new.limits ≡ self.old.limits }
        ensures home { IsSameHome self.old self.new }
        ensures name { self.new.state.name ≡ self.old.state.name }
        ensures does { Does self.old.limits (Act.Unregister processor id) self.old.state result self.new.state }
    {
        match self.domain.unregister(processor, &mut self.chain, id) {
            Ok(()) => Reply::Unregistered(id),
            Err(why) => Reply::Refused(Command::Unregister, cause_of_leaving(why)),
        }
    }

    /// The ids of the chain's blocks, as they are called; refused where no section may begin on the processor.
    pub(super) fn show_chain(&mut self, processor: u64) -> Reply
        requires { processor < self.old.state.course.standing.processors }
        ensures limits { self.new.limits ≡ self.old.limits }
        ensures home { IsSameHome self.old self.new }
        ensures name { self.new.state.name ≡ self.old.state.name }
        ensures does { Does self.old.limits (Act.Chain processor) self.old.state result self.new.state }
    {
        match self.domain.chain(processor, &self.chain) {
            Ok(listed) => {
                let (ids, count) = listed;
                Reply::Chain(BlockIds::new(&ids[..count]))
            }
            Err(Exhausted) => Reply::Refused(Command::Chain, Cause::Exhausted),
        }
    }

    /// Calls the handlers of the chain's blocks with this value; refused as `show_chain` is.
    pub(super) fn notify(
        &mut self,
        handlers: &[Box<dyn Handler>],
        processor: u64,
        value: u64,
    ) -> Reply
        requires processor { processor < self.old.state.course.standing.processors }
        requires handlers { 16 ≤ length handlers.now }
        ensures limits { self.new.limits ≡ self.old.limits }
        ensures home { IsSameHome self.old self.new }
        ensures name { self.new.state.name ≡ self.old.state.name }
        ensures calls { CallsChain (λ v id x. GivesAt (λ h y. answers h 1 v y) handlers.now id x) self.old.limits processor value self.old.state result self.new.state }
    {
        let called = self
            .domain
            .notify(processor, &self.chain, handlers, ACTION, value);
        match called {
            Ok((last, calls)) => Reply::Called { last, calls },
            Err(Exhausted) => Reply::Refused(Command::Notify, Cause::Exhausted),
        }
    }
}
