//! What a processor does behind all that a sight has seen.
ghost use Rattle.std.specs.Prelude.{◌≡◌, ◌<◌};
ghost use Rattle.sections.specs.Calls.{Hears};
ghost use Rattle.sections.specs.Sights.{sight_of, GivesCookieBehind, AsksHowFarBehind};

use super::Sight;
use crate::board::NUMBER_PLACE;
use crate::cpu::steps::{cover, note_number};
use crate::cpu::{Cpu, Given};
use crate::engine::EngineSeat;
use crate::plays;
use sseq::{Number, snap};
use std::alloc::Allocator;

impl<A: Allocator> EngineSeat<A> {
    /// A sight that goes as far as this seat has seen. No step is made; one load, which tells nothing.
    pub fn sight(&mut self) -> Sight
        ensures sight { result ≡ record { domain = self.old.domain; seen = self.old.seen; changes = self.old.changes } }
        ensures same { self.new ≡ self.old }
    {
        let seat = self
            .table
            .shared
            .split_seat::<plays::GiveToken>(&mut self.seat);
        Sight { seat }
    }
}

impl<A: Allocator> Cpu<A> {
    /// A cookie of now, as [`Cpu::cookie`] gives, behind all that the sight has seen too. The sight then goes as far as
    /// this processor. So cookies that are given behind one sight don't fall, whichever processors gave them.
    pub fn cookie_behind(&mut self, sight: &mut Sight) -> Given
        requires { sight.old.domain ≡ self.old.domain }
        ensures { GivesCookieBehind sight.old self.old self.new result sight.new }
    {
        let top = &self.table.shared;
        let told = top.split_seat::<plays::GiveToken>(&mut sight.seat);
        top.join_seat::<plays::TakeToken>(&mut self.seat, told);
        let number = note_number(top, &mut self.seat);
        let seat = top.split_seat::<plays::GiveToken>(&mut self.seat);
        sight.seat = top.split_seat::<plays::GiveToken>(&mut self.seat);
        Given {
            number: snap(number),
            seat,
        }
    }

    /// The number of the domain, as one load finds it after all that both sights have seen: so many grace periods have ended.
    /// `sight` then goes as far as this processor; `given` stays as it is. The number is at most 2^61 - 4.
    pub fn how_far_behind(&mut self, given: &mut Sight, sight: &mut Sight) -> Number
        requires { (given.old.domain ≡ self.old.domain) × (sight.old.domain ≡ self.old.domain) }
        ensures asks { AsksHowFarBehind result given.old sight.old self.old self.new sight.new }
        ensures same { given.new ≡ given.old }
    {
        let top = &self.table.shared;
        let first = top.split_seat::<plays::GiveToken>(&mut given.seat);
        top.join_seat::<plays::TakeToken>(&mut self.seat, first);
        let told = top.split_seat::<plays::GiveToken>(&mut sight.seat);
        top.join_seat::<plays::TakeToken>(&mut self.seat, told);
        let number = top.load::<plays::AskHowFar>(&mut self.seat, NUMBER_PLACE);
        sight.seat = top.split_seat::<plays::GiveToken>(&mut self.seat);
        Number::new(number).unwrap()
    }

    /// A sight that goes as far as this processor has seen. No step is made; one load, which tells nothing.
    pub fn sight(&mut self) -> Sight
        ensures sight { result ≡ sight_of self.old }
        ensures same { self.new ≡ self.old }
    {
        let seat = self
            .table
            .shared
            .split_seat::<plays::GiveToken>(&mut self.seat);
        Sight { seat }
    }

    /// A second sight like this one. No step is made; one load, which tells nothing.
    pub fn copy_sight(&self, sight: &mut Sight) -> Sight
        requires { sight.old.domain ≡ self.now.domain }
        ensures copy { result ≡ sight.old }
        ensures same { sight.new ≡ sight.old }
    {
        let seat = self
            .table
            .shared
            .split_seat::<plays::GiveToken>(&mut sight.seat);
        Sight { seat }
    }

    /// A second cookie like this one. No step is made; one load, which tells nothing.
    pub fn copy_given(&self, given: &mut Given) -> Given
        requires { given.old.domain ≡ self.now.domain }
        ensures copy { result ≡ given.old }
        ensures same { given.new ≡ given.old }
    {
        let seat = self
            .table
            .shared
            .split_seat::<plays::GiveToken>(&mut given.seat);
        Given {
            number: given.number,
            seat,
        }
    }

    /// One load of the index word, after which this processor has seen what the sight has. Both are of one domain.
    pub(crate) fn catch_up(&mut self, sight: &mut Sight)
        requires { sight.old.domain ≡ self.old.domain }
        ensures hears { Hears self.old sight.old.seen sight.old.changes self.new }
        ensures same { sight.new ≡ sight.old }
    {
        cover(&self.table.shared, &mut self.seat, &mut sight.seat);
    }
}
