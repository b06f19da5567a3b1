//! Barriers: tickets that wait for the jobs that were queued before.
ghost use Rattle.std.specs.Prelude.{◌≡◌, ◌∷◌, [], IfOk, OnErr};
ghost use Rattle.requests.specs.Requests.{IsActFor};
ghost use Rattle.session.specs.States.{scene_alone, IsSameHome};
ghost use Rattle.session.specs.Scripts.{Does};

use super::Entry;
use lines::Name;
use names::NamedToken;
use requests::{Act, Cause, Command, Reply};
use std::alloc::{AllocError, Allocator};

impl<'a, A: Allocator> Entry<&'a A> {
    /// Gives the name to a ticket, which waits for all jobs that are queued now; refused, with nothing done, where the
    /// domain has no memory for it.
    pub(super) fn barrier(&mut self, processor: u64, name: Name) -> Result<Reply, AllocError>
        requires { IsActFor (scene_alone self.old.state) 0 (Act.Barrier processor name) }
        ensures limits { self.new.limits ≡ self.old.limits }
        ensures home { IsSameHome self.old self.new }
        ensures name { self.new.state.name ≡ self.old.state.name }
        ensures does { IfOk result (λ r. Does self.old.limits (Act.Barrier processor name) self.old.state r self.new.state) }
        ensures err { OnErr result (self.new ≡ self.old) }
    {
        self.names.reserve()?;
        let Ok(ticket) = self.domain.barrier_start(processor) else {
            return Ok(Reply::Refused(Command::Barrier, Cause::Memory));
        };
        self.names.insert(name, NamedToken::Ticket(ticket));
        Ok(Reply::Ticket)
    }

    /// Whether the ticket of this name is done, as a processor finds it. It keeps its name.
    pub(super) fn barrier_poll(&mut self, processor: u64, name: &Name) -> Reply
        requires { IsActFor (scene_alone self.old.state) 0 (Act.BarrierPoll processor name.now) }
        ensures limits { self.new.limits ≡ self.old.limits }
        ensures home { IsSameHome self.old self.new }
        ensures name { self.new.state.name ≡ self.old.state.name }
        ensures does { Does self.old.limits (Act.BarrierPoll processor name.now) self.old.state result self.new.state }
    {
        let ticket = self.names.ticket(name);
        if self.domain.barrier_poll(processor, ticket) {
            return Reply::Done;
        }
        Reply::NotYet
    }
}
