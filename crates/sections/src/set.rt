//! Several cookies at once, possibly of several domains.
ghost use Rattle.std.specs.Prelude.{◌≡◌, ◌<◌, ◌≤◌, ◌↔◌, [], ◌∷◌, ◌++◌, length, All, IsTrue, MatchResult};
ghost use Rattle.std.specs.List.{list_all};
ghost use Rattle.sections.specs.Views.{IsKnownIn};
ghost use Rattle.sections.specs.Calls.{IsSameCpu};
ghost use Rattle.sections.specs.Sets.{unfound, cookies_of, IsPlacedIn, member_at, is_found, IsDoneThere, PollsOne, PollsMember, CatchesUp};

use crate::cpu::{Cookie, Cpu};
use crate::sight::Sight;
use arrayvec::ArrayVec;
use std::alloc::Allocator;
use std::marker::Model;
use thiserror::Error;

/// How many cookies a set has room for.
pub const MOST_MEMBERS: usize = 8;

/// A cookie in a set.
#[derive(Drop)]
struct Member {
    cookie: Cookie,
    /// How far the processor had seen that asked after it and was told that it is done.
    found: Option<Sight>,
}

impl Model for Member {
    ghost use Rattle.sections.specs.Sets.{MemberView};

    ghost Value = { MemberView };

    ghost use Rattle.sections.specs.SetInsides.{view_of_member, is_member};

    ghost view = { view_of_member };

    ghost invariant = { is_member };
}

/// What fills a place where no cookie lies.
impl Default for Member {
    fn default() -> Self {
        Member {
            cookie: Cookie::completed(),
            found: None,
        }
    }
}

impl Member {
    fn poll<A: Allocator>(&mut self, cpu: &mut Cpu<A>) -> bool
        requires { IsKnownIn cpu.old.domain self.old.cookie }
        ensures polls { PollsOne result self.old cpu.old self.new cpu.new }
        ensures cookie { self.new.cookie ≡ self.old.cookie }
        ensures same { IsSameCpu cpu.old cpu.new }
    {
        if self.found.is_some() {
            return true;
        }
        if !cpu.poll(&mut self.cookie) {
            return false;
        }
        self.found = Some(cpu.sight());
        true
    }

    fn catch_up<A: Allocator>(&mut self, cpu: &mut Cpu<A>)
        requires { IsKnownIn cpu.old.domain self.old.cookie }
        ensures catches { CatchesUp self.old cpu.old cpu.new }
        ensures member { self.new ≡ self.old }
        ensures same { IsSameCpu cpu.old cpu.new }
    {
        // Whoever found the completed cookie done may be of another domain.
        if self.cookie.is_completed() {
            return;
        }
        let Some(sight) = &mut self.found else {
            return;
        };
        cpu.catch_up(sight);
    }
}

/// At most eight cookies, which may be of several domains. It keeps which of them were found done, so each is asked after
/// only as long as it isn't.
#[derive(Drop)]
pub struct CookieSet {
    members: ArrayVec<Member, MOST_MEMBERS>,
}

impl Model for CookieSet {
    ghost use Rattle.std.specs.Prelude.{List};
    ghost use Rattle.sections.specs.Sets.{MemberView};

    ghost Value = { List MemberView };

    ghost use Rattle.sections.specs.SetInsides.{view_of_set};

    ghost view = { view_of_set };
}

/// The set has as many cookies as it has room for.
#[derive(Clone, Copy, Debug, Error, PartialEq, Eq)]
#[error("the set has eight cookies: begin another set")]
pub struct SetFull;

impl CookieSet {
    /// A set of no cookies.
    pub fn new() -> CookieSet
        ensures { result ≡ [] }
    {
        CookieSet {
            members: ArrayVec::new(),
        }
    }

    /// How many cookies it has.
    pub fn len(&self) -> usize
        ensures count { result ≡ length self.now }
        ensures fits { result ≤ 8 }
    {
        self.members.len()
    }

    /// Takes a cookie in. The answer is its place, from 0 on. It is handed back where there are eight already.
    pub fn add(&mut self, cookie: Cookie) -> Result<usize, (Cookie, SetFull)>
        ensures { MatchResult result
            (λ place. (place ≡ length self.old) × (place < 8) × (self.new ≡ self.old ++ unfound cookie ∷ []))
            (λ refused. (length self.old ≡ 8) × (refused.0 ≡ cookie) × (self.new ≡ self.old)) }
    {
        let place = self.members.len();
        if place == MOST_MEMBERS {
            return Err((cookie, SetFull));
        }
        self.members.push(Member {
            cookie,
            found: None,
        });
        Ok(place)
    }

    /// Asks after the cookie at this place, on a processor of its domain, as [`Cpu::poll`] does. Where it was found done
    /// before, no step is made.
    pub fn poll_member<A: Allocator>(&mut self, place: usize, cpu: &mut Cpu<A>) -> bool
        requires { IsPlacedIn cpu.old.domain place (cookies_of self.old) }
        ensures polls { PollsMember place result self.old cpu.old self.new cpu.new }
        ensures same { IsSameCpu cpu.old cpu.new }
    {
        self.members[place].poll(cpu)
    }

    /// Shows a processor what was seen when the cookie at this place was found done. The processor then knows that every
    /// section is closed that was open when the cookie was given. One load of the index word. No step is made where the
    /// cookie was not found done, and none for the completed one.
    pub fn catch_up<A: Allocator>(&mut self, place: usize, cpu: &mut Cpu<A>)
        requires { IsPlacedIn cpu.old.domain place (cookies_of self.old) }
        ensures catches { CatchesUp (member_at place self.old) cpu.old cpu.new }
        ensures set { self.new ≡ self.old }
        ensures same { IsSameCpu cpu.old cpu.new }
    {
        self.members[place].catch_up(cpu);
    }

    /// Whether each cookie was found done. Then, for each of them, somebody has asked after its number in its own domain
    /// since it was given, and was told so; and no section is open there that was open when it was given.
    pub fn done(&self) -> bool
        ensures found { result ≡ list_all is_found self.now }
        ensures done { IsTrue result ↔ All IsDoneThere self.now }
    {
        for member in self.members.as_slice() {
            if member.found.is_none() {
                return false;
            }
        }
        true
    }
}
