//! Numbers and cookies on a processor, each call as that of `sections`.
ghost use Rattle.std.specs.Prelude.{◌≡◌, IsTrue, MatchResult};
ghost use Rattle.sseq.specs.Numbers.{cookie_at};
ghost use Rattle.sections.specs.Calls.{Notes, GivesCookie, Asks, IsNoCookie, AllClosed};
ghost use Rattle.sections.specs.Views.{IsKnownIn};
ghost use Rattle.domain.specs.Views.{Stays, with_cpu};
ghost use Rattle.domain.specs.Acting.{loads, notes, asks_whether, ActsAs};

use super::Cpu;
use sections::{Cookie, NotACookie};
use sseq::Number;
use std::alloc::Allocator;

impl<J, A: Allocator> Cpu<J, A> {
    /// The number of the domain, as one load finds it: never an older one than this processor has seen. It notes the
    /// cookie of this number, as [`Cpu::cookie`] does. It is at most 2^61 - 4, so that [`snap`](sseq::snap) may be asked
    /// of it.
    pub fn number(&mut self) -> Number
        ensures notes { Notes result self.old.cpu self.new.cpu }
        ensures rest { self.new ≡ with_cpu self.new.cpu self.old }
        ensures stays { Stays self.old self.new }
        ensures acts { ActsAs (notes (cookie_at result)) self.old self.new }
    {
        self.cpu.number()
    }

    /// A cookie of now (`get_state_synchronize_srcu`): once it is done, every section is closed that is open now. It
    /// asks for no grace period.
    pub fn cookie(&mut self) -> Cookie
        ensures gives { GivesCookie self.old.cpu self.new.cpu result }
        ensures rest { self.new ≡ with_cpu self.new.cpu self.old }
        ensures stays { Stays self.old self.new }
        ensures acts { ActsAs (notes result.number) self.old self.new }
    {
        self.cpu.cookie()
    }

    /// Whether the cookie is done (`poll_state_synchronize_srcu`): then no section is open that was open when it was
    /// given. It never waits. The cookie stays as it is. The completed one is done in every domain.
    pub fn poll(&mut self, cookie: &mut Cookie) -> bool
        requires { IsKnownIn self.old.cpu.domain cookie.old }
        ensures asks { Asks cookie.old.seen cookie.old.changes cookie.old.number result self.old.cpu self.new.cpu }
        ensures cookie { cookie.new ≡ cookie.old }
        ensures closed { IsTrue result → AllClosed cookie.old.seen self.new.cpu.seen }
        ensures rest { self.new ≡ with_cpu self.new.cpu self.old }
        ensures stays { Stays self.old self.new }
        ensures acts { ActsAs (asks_whether cookie.old.number result) self.old self.new }
    {
        self.cpu.poll(cookie)
    }

    /// The same for a cookie's number. What is neither a multiple of four nor 1 is refused, with no step.
    pub fn poll_number(&mut self, cookie: u64) -> Result<bool, NotACookie>
        ensures asks { MatchResult result (λ b. Asks self.old.cpu.seen self.old.cpu.changes cookie b self.old.cpu self.new.cpu) (λ _. IsNoCookie cookie × (self.new.cpu ≡ self.old.cpu)) }
        ensures rest { self.new ≡ with_cpu self.new.cpu self.old }
        ensures stays { Stays self.old self.new }
        ensures acts { MatchResult result (λ b. ActsAs (asks_whether cookie b) self.old self.new) (λ _. ActsAs loads self.old self.new) }
    {
        self.cpu.poll_number(cookie)
    }
}
