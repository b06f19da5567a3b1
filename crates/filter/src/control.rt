//! The thread that changes what the filter reads, and the two subscribers that it tells: one sleeps first.
ghost use Rattle.std.specs.Prelude.{◌≡◌};
ghost use Rattle.filter.specs.Tools.{AreToolsOf};

use crate::shared::{Policy, Shared, Tools, Try, Worker};
use srcu::{Handler, OK};
use std::sync::Wait;
use std::thread::sleep;
use std::time::Duration;

/// It sleeps so long in its section.
#[derive(Drop)]
pub struct Subscriber {
    pub host: HostRuntime,
    pub nap: u64,
}

impl Handler for Subscriber {
    ghost answers = { λ h action value result. Unit {0} };

    fn call(&self, _action: u64, _value: u64) -> u32 {
        sleep(&self.host, Duration::from_millis(self.nap));
        OK
    }
}

impl Tools {
    /// Registers both subscribers, of which the one that sleeps is called last, and puts two rules.
    pub fn begin(&mut self, worker: &mut Worker<'_>) -> Try<()>
        requires { AreToolsOf worker.old.domain self.old }
        ensures { (worker.new.domain ≡ worker.old.domain) × AreToolsOf worker.old.domain self.new }
    {
        worker.register(&mut self.chain, 0, 10)?;
        worker.register(&mut self.chain, 1, 1)?;
        worker.install(&mut self.rules, 7, 1)?;
        worker.install(&mut self.rules, 8, 1)?;
        Ok(())
    }
}

impl Shared {
    /// Lets packets pass of whose port no rule speaks. The number of the old policy is left to the driver, which files it once no
    /// section reads that policy. Where it can't be queued, this waits, and files it itself.
    pub fn pass_others<R: Wait>(&self, rt: &R, worker: &mut Worker<'_>) -> Try<()>
        requires { self.now.stop.domain ≡ worker.old.domain }
        ensures { worker.new.domain ≡ worker.old.domain }
    {
        let mut old = 0;
        let next = |policy: &Policy| {
            old = policy.number;
            Policy {
                number: old.wrapping_add(1),
                passes: true,
            }
        };
        self.policy.update(rt, worker, next)?; // rcu_assign_pointer; it frees what no section reads
        if worker.call(rt, old).is_err() {
            worker.synchronize(rt)?;
            self.file();
        }
        Ok(())
    }
}
