//! Cookies that are kept, alone or several in a set.
ghost use Rattle.std.specs.Prelude.{◌≡◌, ◌<◌, ◌≤◌, ◌^◌, MatchOption};
ghost use Rattle.sections.specs.Sets.{IsPlacedIn, member_at, cookies_of};
ghost use Rattle.solo.specs.Calls.{IsSameDomain, Asks, AsksFor};
ghost use Rattle.solo.specs.Sets.{PollsMember};

use crate::solo::Solo;
use domain::CookieSet;
use sections::Cookie;
use std::alloc::Allocator;

impl<J: Drop, A: Allocator> Solo<J, A> {
    /// Gives a processor a cookie of now, and asks for a grace period up to it, from the processor's leaf of the tree upward
    /// (`start_poll_synchronize_srcu`). The engine starts one once it finds the need.
    pub fn start_poll(&mut self, processor: u64) -> Cookie
        requires { processor < self.old.course.standing.processors }
        ensures same { IsSameDomain self.old self.new }
        ensures asks { AsksFor processor result.number self.old.course self.new.course }
        ensures domain { result.domain ≡ self.old.table }
    {
        let cpu = &mut self.members.cpus[processor as usize];
        let cookie = self.members.domain.start_poll(cpu);
        self.members.settle();
        cookie
    }

    /// Whether the cookie at a place of a set is done, as a processor finds it; where it was found done before, nothing has
    /// changed. The cookie is of this domain.
    pub fn poll_member(&mut self, processor: u64, set: &mut CookieSet, place: usize) -> bool
        requires processor { processor < self.old.course.standing.processors }
        requires member { IsPlacedIn self.old.table place (cookies_of set.old) }
        ensures same { IsSameDomain self.old self.new }
        ensures polls { PollsMember place result set.old set.new }
        ensures answer { MatchOption (member_at place set.old).found
            (Asks processor (member_at place set.old).cookie.number result self.old.course self.new.course)
            (λ _. self.new ≡ self.old) }
    {
        let cpu = &mut self.members.cpus[processor as usize];
        let done = set.poll_member(place, cpu);
        self.members.settle();
        done
    }
}
