//! One domain, all of whose processors and whose engine are in one hand.
ghost use Rattle.std.specs.Prelude.{◌≡◌, ◌+◌, ◌^◌, ◌<◌, ◌≤◌, IfOk, MatchResult};
ghost use Rattle.sections.specs.Limits.{AreInRange};
ghost use Rattle.sections.specs.Words.{cells_in};
ghost use Rattle.sections.specs.Dealing.{AreNewWriters};
ghost use Rattle.sections.specs.Calls.{IsNoCookie};
ghost use Rattle.scan.specs.Standings.{index_now};
ghost use Rattle.solo.specs.Calls.{IsSameDomain, IsNew, IsNotMade, IsOf, IsReadingAt, IsLookNow, Begins, IsOutOfSections, Ends, GivesCookie, Asks, AsksFor, ReadsNumber, Starts, StartsNone, Steps, Advances, IsAskedTooMuch};

use crate::members::Members;
use crate::refusals::{started, told};
use domain::{Domain, Writer};
use scan::{NotStarted, PeriodsExhausted, Progress};
use sections::{Exhausted, Held, Home, Limits, Look, MakeError, NotACookie, Reading};
use sseq::{Index, Number};
use std::alloc::Allocator;
use std::marker::Model;

mod barriers;
mod calling;
mod chains;
mod cleanup;
mod sets;
mod tables;

/// A domain that one thread drives. After each call that made a step its processors and its engine meet, so that all
/// have seen one history, in which nothing stands but what the calls have done. Contracts see how far the domain has
/// come: its history, what is half done of a grace period, the greatest number that was asked for, and of each processor
/// how many jobs were queued there and how many of these are finished; and the list of each processor. A job is of type `J`.
#[derive(Drop)]
pub struct Solo<J, A: Allocator> {
    members: Members<J, A>,
    limits: Limits,
}

impl<J, A: Allocator> Model for Solo<J, A> {
    ghost use Rattle.solo.specs.Calls.{SoloView};

    ghost Value = { SoloView J };

    ghost use Rattle.solo.specs.Insides.{view_of_solo, IsSolo};

    ghost view = { view_of_solo };

    ghost invariant = { IsSolo };
}

impl<J: Drop, A: Allocator> Solo<J, A> {
    /// A domain in which nothing has happened, and the writers of its cells, in order; refused where it can't have so many
    /// processors (1 to 256), or memory is.
    pub fn new(
        alloc: A,
        processors: u64,
        limits: Limits,
    ) -> Result<(Solo<J, A>, Vec<Writer, A>), MakeError>
    where
        A: Copy,
        requires { AreInRange limits }
        ensures domain { MatchResult result (λ m. IsNew limits processors m.0) (IsNotMade processors) }
        ensures writers { IfOk result (λ m. AreNewWriters m.0.table limits.cells limits.slots m.1.items) }
        ensures cells { IfOk result (λ m. cells_in m.0.table ≡ limits.cells) }
    {
        let (domain, cpus, writers) = Domain::new(alloc, processors as usize, limits)?;
        let solo = Solo {
            members: Members { domain, cpus },
            limits,
        };
        Ok((solo, writers))
    }

    /// How many processors there are.
    pub fn processors(&self) -> u64
        ensures { result ≡ self.now.course.standing.processors }
    {
        self.members.cpus.len() as u64
    }

    /// The domain, for what is made for values of it: one load, which tells nothing.
    pub fn home(&mut self) -> Home
        ensures home { result ≡ self.old.table }
        ensures same { self.new ≡ self.old }
    {
        self.members.cpus[0].home()
    }

    /// Reads the index word on a processor, as the first half of `srcu_read_lock` does.
    pub fn look(&mut self, processor: u64) -> Look
        requires { processor < self.old.course.standing.processors }
        ensures look { IsLookNow self.old result }
        ensures after { self.new ≡ self.old }
    {
        let look = self.members.cpus[processor as usize].look();
        self.members.settle();
        look
    }

    /// Begins a section of the look's index on a processor, which need not be the one of the look: the second half of
    /// `srcu_read_lock`. It is refused where the processor has begun as many of this index as it may: the look is gone,
    /// and nothing else has changed.
    pub fn enter(&mut self, processor: u64, look: Look) -> Result<Reading, Exhausted>
        requires processor { processor < self.old.course.standing.processors }
        requires look { look.domain ≡ self.old.table }
        ensures same { IsSameDomain self.old self.new }
        ensures section { MatchResult result (λ r. Begins self.old.limits processor look.index r.section self.old.course self.new.course × IsReadingAt self.old.table processor look.index r)
            (λ _. IsOutOfSections self.old.limits processor look.index self.old.course × (self.new ≡ self.old)) }
    {
        let taken = self.members.cpus[processor as usize].enter(look);
        self.members.settle();
        taken
    }

    /// Begins a section of the current index on a processor (`srcu_read_lock`); refused as `enter` is.
    pub fn read_lock(&mut self, processor: u64) -> Result<Reading, Exhausted>
        requires { processor < self.old.course.standing.processors }
        ensures same { IsSameDomain self.old self.new }
        ensures section { MatchResult result (λ r. Begins self.old.limits processor (index_now self.old.course.standing) r.section self.old.course self.new.course × IsReadingAt self.old.table processor (index_now self.old.course.standing) r)
            (λ _. IsOutOfSections self.old.limits processor (index_now self.old.course.standing) self.old.course × (self.new ≡ self.old)) }
    {
        let taken = self.members.cpus[processor as usize].read_lock();
        self.members.settle();
        taken
    }

    /// Ends the reading's section, on its own processor (`srcu_read_unlock`).
    pub fn read_unlock(&mut self, reading: Reading)
        requires { IsOf self.old.table self.old.course.standing.processors reading }
        ensures same { IsSameDomain self.old self.new }
        ensures section { Ends reading.section reading.processor self.old.course self.new.course }
    {
        let processor = usize::from(reading.processor());
        self.members.cpus[processor].read_unlock(reading);
        self.members.settle();
    }

    /// Begins a section of the current index on a processor, that may end on any (`srcu_down_read`); refused as `enter` is.
    pub fn down_read(&mut self, processor: u64) -> Result<Held, Exhausted>
        requires { processor < self.old.course.standing.processors }
        ensures same { IsSameDomain self.old self.new }
        ensures section { MatchResult result (λ h. Begins self.old.limits processor (index_now self.old.course.standing) h.section self.old.course self.new.course × IsReadingAt self.old.table processor (index_now self.old.course.standing) h)
            (λ _. IsOutOfSections self.old.limits processor (index_now self.old.course.standing) self.old.course × (self.new ≡ self.old)) }
    {
        let taken = self.members.cpus[processor as usize].down_read();
        self.members.settle();
        taken
    }

    /// Ends a held section on a processor, wherever it was begun (`srcu_up_read`).
    pub fn up_read(&mut self, processor: u64, held: Held)
        requires processor { processor < self.old.course.standing.processors }
        requires held { held.domain ≡ self.old.table }
        ensures same { IsSameDomain self.old self.new }
        ensures section { Ends held.section processor self.old.course self.new.course }
    {
        self.members.cpus[processor as usize].up_read(held);
        self.members.settle();
    }

    /// The number of the cookie that a processor is given now (`get_state_synchronize_srcu`): at most 2^61, so that it is a
    /// [`Number`] itself.
    pub fn cookie(&mut self, processor: u64) -> u64
        requires { processor < self.old.course.standing.processors }
        ensures same { IsSameDomain self.old self.new }
        ensures cookie { GivesCookie processor result self.old.course self.new.course }
        ensures small { result ≤ 2 ^ 61 }
    {
        let cookie = self.members.cpus[processor as usize].cookie();
        self.members.settle();
        cookie.number()
    }

    /// Gives a processor a cookie of now, as `cookie` does, and asks for a grace period up to it, from the processor's leaf
    /// of the tree upward (`start_poll_synchronize_srcu`). The engine starts one once it finds the need.
    pub fn ask(&mut self, processor: u64) -> u64
        requires { processor < self.old.course.standing.processors }
        ensures same { IsSameDomain self.old self.new }
        ensures asks { AsksFor processor result self.old.course self.new.course }
        ensures small { result ≤ 2 ^ 61 }
    {
        self.start_poll(processor).number()
    }

    /// Whether the cookie of this number is done, as a processor finds it (`poll_state_synchronize_srcu`); refused,
    /// with nothing done, where the number is neither a multiple of four nor 1.
    pub fn poll(&mut self, processor: u64, cookie: u64) -> Result<bool, NotACookie>
        requires { processor < self.old.course.standing.processors }
        ensures same { IsSameDomain self.old self.new }
        ensures answer { MatchResult result (λ done. Asks processor cookie done self.old.course self.new.course)
            (λ _. IsNoCookie cookie × (self.new ≡ self.old)) }
    {
        let answer = self.members.cpus[processor as usize].poll_number(cookie);
        self.members.settle();
        answer
    }

    /// Starts a grace period, whether it is asked for or not, and answers the number from then on (`srcu_gp_start`).
    /// It is refused, with nothing done, where one runs or as many have ended as may.
    pub fn start(&mut self) -> Result<Number, NotStarted>
        ensures same { IsSameDomain self.old self.new }
        ensures start { MatchResult result (λ n. Starts n self.old.course self.new.course) (λ e. StartsNone e self.old.course × (self.new ≡ self.old)) }
    {
        let answer = self.members.domain.start(&mut self.members.cpus[0]);
        self.members.settle();
        started(answer)
    }

    /// Has the engine make steps until there is an answer (`srcu_advance_state`). It is refused, with nothing done but a
    /// load of the need, where a grace period is asked for and as many have ended as may.
    pub fn advance(&mut self) -> Result<Progress, PeriodsExhausted>
        ensures same { IsSameDomain self.old self.new }
        ensures answer { MatchResult result (λ a. Advances a self.old.course self.new.course)
            (λ _. IsAskedTooMuch self.old.course × (self.new ≡ self.old)) }
    {
        let answer = self.members.domain.advance(&mut self.members.cpus[0]);
        self.members.settle();
        told(answer)
    }

    /// Has the engine make one step; refused as `advance` is.
    pub fn step(&mut self) -> Result<Progress, PeriodsExhausted>
        ensures same { IsSameDomain self.old self.new }
        ensures answer { MatchResult result (λ a. Steps a self.old.course self.new.course)
            (λ _. IsAskedTooMuch self.old.course × (self.new ≡ self.old)) }
    {
        let answer = self.members.domain.step(&mut self.members.cpus[0]);
        self.members.settle();
        told(answer)
    }

    /// The greatest number that was asked for (`srcu_gp_seq_needed`), 0 if none, as processor 0 finds it at the root.
    pub fn need(&mut self) -> Number
        ensures value { result ≡ self.old.course.asked }
        ensures after { self.new ≡ self.old }
    {
        let need = self.members.domain.need(&mut self.members.cpus[0]);
        self.members.settle();
        need
    }

    /// The current index, as processor 0 finds it.
    pub fn index(&mut self) -> Index
        ensures value { result ≡ index_now self.old.course.standing }
        ensures after { self.new ≡ self.old }
    {
        let look = self.members.cpus[0].look();
        self.members.settle();
        look.index()
    }

    /// The number, as processor 0 loads it: at most 2^61 - 4, so that [`snap`](sseq::snap) may be asked of it. The load
    /// is a note of the cookie of now.
    pub fn number(&mut self) -> Number
        ensures same { IsSameDomain self.old self.new }
        ensures number { ReadsNumber result self.old.course self.new.course }
        ensures small { result + 4 ≤ 2 ^ 61 }
    {
        let number = self.members.cpus[0].number();
        self.members.settle();
        number
    }
}
