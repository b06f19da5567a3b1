//! What calls the handlers of a roster.
ghost use Rattle.std.specs.Prelude.{◌≡◌, IfOk, MatchResult};
ghost use Rattle.sections.specs.Calls.{LooksInVain};
ghost use Rattle.domain.specs.Views.{Stays, with_cpu};
ghost use Rattle.domain.specs.Waiting.{HasNoneOpen};
ghost use Rattle.boxes.specs.Boxes.{IsCellOf};
ghost use Rattle.roster.specs.Calling.{AnswersOne, Calls};

use crate::rank::Rank;
use domain::{Cpu, Exhausted};
use notify::{DONE, Handler, STOP_BIT};
use registry::Users;
use std::alloc::{AllocError, Allocator};
use std::ops::ControlFlow;

/// Calls the handlers of one roster, on any processor of its domain. Each thread has its own ([`Callers::another`]).
#[derive(Drop)]
pub struct Callers<H: Handler> {
    pub(crate) users: Users<Rank, H>,
}

impl<H: Handler> Callers<H> {
    /// The same for another thread.
    pub fn another<J, B: Allocator>(&mut self, cpu: &Cpu<J, B>) -> Result<Callers<H>, AllocError>
        requires cell { IsCellOf cpu.now.cpu self.old.users.boxes }
        ensures another { IfOk result (λ c. c.users.boxes ≡ self.old.users.boxes) }
        ensures same { self.new.users.boxes ≡ self.old.users.boxes }
    {
        let users = self.users.another(cpu)?;
        Ok(Callers { users })
    }

    /// Calls the handlers of one version in the order of their ranks (`srcu_notifier_call_chain`), up to the first result with
    /// [`STOP_BIT`]. Returns the last result, [`DONE`] where there is none. All happens in one section, however long a handler
    /// sleeps.
    pub fn call<J, B: Allocator>(
        &mut self,
        cpu: &mut Cpu<J, B>,
        action: u64,
        value: u64,
    ) -> Result<u32, Exhausted>
        requires cell { IsCellOf cpu.old.cpu self.old.users.boxes }
        ensures calls { MatchResult result
            (λ last. Calls (λ h r. H.answers h action value r) self.old.users.boxes cpu.old.cpu cpu.new.cpu self.new.users.last last)
            (λ _. LooksInVain cpu.old.cpu cpu.new.cpu) }
        ensures same { self.new.users.boxes ≡ self.old.users.boxes }
        ensures rest { cpu.new ≡ with_cpu cpu.new.cpu cpu.old }
        ensures stays { Stays cpu.old cpu.new }
        ensures cell { IsCellOf cpu.new.cpu self.new.users.boxes }
        ensures still_none { HasNoneOpen cpu.old → HasNoneOpen cpu.new }
    {
        let step = |_last: u32, _rank: Rank, handler: &H| -> ControlFlow<u32, u32>
            ensures { AnswersOne (λ h r. H.answers h action value r) handler.now result }
        {
            let result = handler.call(action, value);
            if result & STOP_BIT != 0 {
                ControlFlow::Break(result)
            } else {
                ControlFlow::Continue(result)
            }
        };
        match self.users.try_fold(cpu, DONE, step)? {
            ControlFlow::Continue(last) => Ok(last),
            ControlFlow::Break(last) => Ok(last),
        }
    }
}
