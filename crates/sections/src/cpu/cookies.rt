//! Cookies: how a processor learns that a grace period has gone by, without waiting for it.
ghost use Rattle.std.specs.Prelude.{◌≡◌, IsTrue, MatchResult};
ghost use Rattle.sections.specs.Calls.{Notes, GivesCookie, Asks, IsNoCookie, AllClosed};
ghost use Rattle.sections.specs.Views.{IsKnownIn};

use super::steps::{ask_number, note_number};
use super::{Cookie, Cpu, NotACookie};
use crate::plays;
use sseq::{COMPLETED, Number, snap};
use std::alloc::Allocator;
use std::marker::Brand;

impl<A: Allocator> Cpu<A> {
    /// The number of the domain, as one load finds it: never an older one than this processor has seen. It notes the
    /// cookie of this number, as [`Cpu::cookie`] does. It is at most 2^61 - 4, so that [`snap`] may be asked of it.
    pub fn number(&mut self) -> Number
        ensures { Notes result self.old self.new }
    {
        note_number(&self.table.shared, &mut self.seat)
    }

    /// A cookie of now (`get_state_synchronize_srcu`): once it is done, every section is closed that is open now. It
    /// asks for no grace period.
    pub fn cookie(&mut self) -> Cookie
        ensures { GivesCookie self.old self.new result }
    {
        let top = &self.table.shared;
        let number = note_number(top, &mut self.seat);
        let seat = top.split_seat::<plays::GiveToken>(&mut self.seat);
        Cookie {
            number: snap(number),
            seat: Some(seat),
        }
    }

    /// Whether the cookie is done (`poll_state_synchronize_srcu`): then no section is open that was open when it was
    /// given. It never waits. The cookie stays as it is. The completed one tells nothing, and is done.
    pub fn poll(&mut self, cookie: &mut Cookie) -> bool
        requires { IsKnownIn self.old.domain cookie.old }
        ensures asks { Asks cookie.old.seen cookie.old.changes cookie.old.number result self.old self.new }
        ensures cookie { cookie.new ≡ cookie.old }
        ensures closed { IsTrue result → AllClosed cookie.old.seen self.new.seen }
    {
        let top = &self.table.shared;
        let Some(given) = &mut cookie.seat else {
            return ask_number::<Brand>(top, &mut self.seat, COMPLETED);
        };
        let token = top.split_seat::<plays::GiveToken>(given);
        top.join_seat::<plays::TakeToken>(&mut self.seat, token);
        ask_number::<Brand>(top, &mut self.seat, cookie.number)
    }

    /// The same for a cookie's number. What is neither a multiple of four nor 1 is refused, with no step.
    pub fn poll_number(&mut self, cookie: u64) -> Result<bool, NotACookie>
        ensures { MatchResult result (λ b. Asks self.old.seen self.old.changes cookie b self.old self.new) (λ _. IsNoCookie cookie × (self.new ≡ self.old)) }
    {
        if cookie % 4 != 0 && cookie != COMPLETED {
            return Err(NotACookie);
        }
        Ok(ask_number::<Brand>(&self.table.shared, &mut self.seat, cookie))
    }
}
