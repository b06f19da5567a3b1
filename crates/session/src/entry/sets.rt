//! Cookies that are kept in sets.
ghost use Rattle.std.specs.Prelude.{◌≡◌, ◌<◌, MatchOption};
ghost use Rattle.sections.specs.Sets.{IsPlacedIn, member_at, cookies_of};
ghost use Rattle.solo.specs.Calls.{Asks, AsksFor};
ghost use Rattle.solo.specs.Sets.{PollsMember};
ghost use Rattle.session.specs.States.{IsSameHome, domain_place, states_of};

use super::Entry;
use domain::CookieSet;
use lines::Name;
use sections::Cookie;
use std::alloc::Allocator;

/// The place of the domain of this name.
pub fn place_of<A: Allocator>(entries: &[Entry<A>], name: &[u8]) -> Option<usize>
    ensures { result ≡ domain_place name.now (states_of entries.now) }
{
    entries.iter().position(|entry| entry.is_named(name))
}

impl<A: Allocator> Entry<A> {
    /// The domain's name.
    pub fn name(&self) -> Name
        ensures { result ≡ self.now.state.name }
    {
        self.name
    }
}

impl<'a, A: Allocator> Entry<&'a A> {
    /// Gives a processor a cookie, and asks for its grace period.
    pub fn start_poll(&mut self, processor: u64) -> Cookie
        requires { processor < self.old.state.course.standing.processors }
        ensures limits { self.new.limits ≡ self.old.limits }
        ensures home { IsSameHome self.old self.new }
        ensures rest { self.new.state ≡ record self.old.state { course = self.new.state.course } }
        ensures asks { AsksFor processor result.number self.old.state.course self.new.state.course }
        ensures domain { result.domain ≡ self.old.table }
    {
        self.domain.start_poll(processor)
    }

    /// Whether the cookie at this place of a set is done, as a processor finds it. It is of this domain.
    pub fn poll_member(&mut self, processor: u64, set: &mut CookieSet, member: usize) -> bool
        requires processor { processor < self.old.state.course.standing.processors }
        requires member { IsPlacedIn self.old.table member (cookies_of set.old) }
        ensures limits { self.new.limits ≡ self.old.limits }
        ensures home { IsSameHome self.old self.new }
        ensures rest { self.new.state ≡ record self.old.state { course = self.new.state.course } }
        ensures polls { PollsMember member result set.old set.new }
        ensures answer { MatchOption (member_at member set.old).found
            (Asks processor (member_at member set.old).cookie.number result self.old.state.course self.new.state.course)
            (λ _. self.new ≡ self.old) }
    {
        self.domain.poll_member(processor, set, member)
    }
}
