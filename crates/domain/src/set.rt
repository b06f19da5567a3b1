//! Several cookies at once, lent processors of their domains.
ghost use Rattle.std.specs.Prelude.{◌≡◌, ◌<◌, ◌≤◌, ◌↔◌, [], ◌∷◌, ◌++◌, length, All, IsTrue, MatchOption, MatchResult};
ghost use Rattle.std.specs.List.{list_all};
ghost use Rattle.sections.specs.Sets.{unfound, cookies_of, IsPlacedIn, member_at, is_found, IsDoneThere, PollsMember, CatchesUp};
ghost use Rattle.domain.specs.Views.{Stays, with_cpu};
ghost use Rattle.domain.specs.Acting.{loads, asks_whether, ActsAs};

use crate::cpu::Cpu;
use sections::{Cookie, SetFull};
use std::alloc::Allocator;
use std::marker::Model;

/// At most eight cookies, which may be of several domains. It keeps which of them were found done, so each is asked after
/// only as long as it isn't.
#[derive(Drop)]
pub struct CookieSet {
    pub(crate) set: sections::CookieSet,
}

impl Model for CookieSet {
    ghost use Rattle.std.specs.Prelude.{List};
    ghost use Rattle.sections.specs.Sets.{MemberView};

    ghost Value = { List MemberView };

    ghost use Rattle.domain.specs.Insides.{view_of_set};

    ghost view = { view_of_set };
}

impl CookieSet {
    /// A set of no cookies.
    pub fn new() -> CookieSet
        ensures { result ≡ [] }
    {
        CookieSet {
            set: sections::CookieSet::new(),
        }
    }

    /// How many cookies it has.
    pub fn len(&self) -> usize
        ensures count { result ≡ length self.now }
        ensures fits { result ≤ 8 }
    {
        self.set.len()
    }

    /// Takes a cookie in. The answer is its place, from 0 on. It is handed back where there are eight already.
    pub fn add(&mut self, cookie: Cookie) -> Result<usize, (Cookie, SetFull)>
        ensures { MatchResult result
            (λ place. (place ≡ length self.old) × (place < 8) × (self.new ≡ self.old ++ unfound cookie ∷ []))
            (λ refused. (length self.old ≡ 8) × (refused.0 ≡ cookie) × (self.new ≡ self.old)) }
    {
        self.set.add(cookie)
    }

    /// Asks after the cookie at this place, on a processor of its domain, as [`Cpu::poll`] does; the completed one may be
    /// asked after on any. Where it was found done before, no step is made.
    pub fn poll_member<J, A: Allocator>(&mut self, place: usize, cpu: &mut Cpu<J, A>) -> bool
        requires { IsPlacedIn cpu.old.cpu.domain place (cookies_of self.old) }
        ensures polls { PollsMember place result self.old cpu.old.cpu self.new cpu.new.cpu }
        ensures rest { cpu.new ≡ with_cpu cpu.new.cpu cpu.old }
        ensures stays { Stays cpu.old cpu.new }
        ensures acts { MatchOption (member_at place self.old).found
            (ActsAs (asks_whether (member_at place self.old).cookie.number result) cpu.old cpu.new)
            (λ _. ActsAs loads cpu.old cpu.new) }
    {
        self.set.poll_member(place, &mut cpu.cpu)
    }

    /// Shows a processor what was seen when the cookie at this place was found done. The processor then knows that every
    /// section is closed that was open when the cookie was given. It loads at most. A cookie that was not found done
    /// shows nothing, and neither does the completed one.
    pub fn catch_up<J, A: Allocator>(&mut self, place: usize, cpu: &mut Cpu<J, A>)
        requires { IsPlacedIn cpu.old.cpu.domain place (cookies_of self.old) }
        ensures catches { CatchesUp (member_at place self.old) cpu.old.cpu cpu.new.cpu }
        ensures set { self.new ≡ self.old }
        ensures rest { cpu.new ≡ with_cpu cpu.new.cpu cpu.old }
        ensures stays { Stays cpu.old cpu.new }
        ensures acts { ActsAs loads cpu.old cpu.new }
    {
        self.set.catch_up(place, &mut cpu.cpu);
    }

    /// Whether each cookie was found done. Then, for each of them, somebody has asked after its number in its own domain
    /// since it was given, and was told so; and no section is open there that was open when it was given.
    pub fn done(&self) -> bool
        ensures found { result ≡ list_all is_found self.now }
        ensures done { IsTrue result ↔ All IsDoneThere self.now }
    {
        self.set.done()
    }
}
