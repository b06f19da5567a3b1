//! Asking for grace periods.
ghost use Rattle.domain.specs.Views.{IsOf};
ghost use Rattle.domain.specs.Waiting.{StartsPoll, LoadsNeed};
ghost use Rattle.domain.specs.Acting.{loads, asks_for, ActsAs};

use crate::cpu::Cpu;
use crate::domain::Domain;
use sections::Cookie;
use sseq::Number;
use std::alloc::Allocator;

impl<J, A: Allocator> Domain<J, A> {
    /// A cookie of now, and its grace period is asked for (`start_poll_synchronize_srcu`): whoever drives the engine
    /// may find it. It takes no memory and does not wait.
    pub fn start_poll(&self, cpu: &mut Cpu<J, A>) -> Cookie
        requires { IsOf self.now cpu.old }
        ensures here { IsOf self.now cpu.new }
        ensures starts { StartsPoll cpu.old result cpu.new }
        ensures acts { ActsAs (asks_for result.number 0) cpu.old cpu.new }
    {
        let cookie = cpu.cpu.cookie();
        // It is asked for behind the cookie's note, and by the cookie's number, not by one of now: a period that ended
        // in between would do for the one and not for the other.
        cpu.needs.ask(Number::new(cookie.number()).unwrap());
        // Rung before the asking, a driver would find nothing and sleep on.
        self.ring();
        cookie
    }

    /// The greatest number that is asked for at the root (`srcu_gp_seq_needed`), as the processor's load finds it: never a
    /// smaller one than it had seen.
    pub fn need(&self, cpu: &mut Cpu<J, A>) -> Number
        requires { IsOf self.now cpu.old }
        ensures here { IsOf self.now cpu.new }
        ensures need { LoadsNeed cpu.old result cpu.new }
        ensures acts { ActsAs loads cpu.old cpu.new }
    {
        cpu.needs.root_need()
    }
}
