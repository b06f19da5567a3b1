//! A domain with its name, the names in use there, its desk, and the batches that are out.
ghost use Rattle.std.specs.Prelude.{◌≡◌, ◌<◌, ◌≤◌, length, [], ◌∷◌, IfOk, OnErr, bytes_eq};
ghost use Rattle.requests.specs.Requests.{IsActFor};
ghost use Rattle.session.specs.States.{kind_at, scene_alone, IsSameHome};
ghost use Rattle.session.specs.Entries.{AreTogether};
ghost use Rattle.notify.specs.Calling.{GivesAt};
ghost use Rattle.session.specs.Scripts.{Does, Acts};

use crate::batch_out::{Out, none_out};
use crate::entry::calling::finish_all;
use lines::Name;
use names::{NamedToken, Names, Parking, take_last};
use notify::Handler;
use requests::{Act, Cause, Command, Kind, Period, Reply, Sections};
use scan::{NotStarted, PeriodsExhausted, Progress};
use sections::{Exhausted, NotACookie};
use solo::{Notifier, Plugboard, Solo};
use sseq::state;
use std::alloc::{AllocError, Allocator};
use std::marker::Model;
use std::sync::Wait;

mod barriers;
mod calling;
mod chains;
mod cleanup;
mod sets;
mod tables;

pub use sets::place_of;

/// A domain of a session. Its open sections must be ended: spend it by [`Entry::finish`].
///
/// What moves batches takes an allocator that is lent. A batch holds its allocator, so that its size is known only where
/// that of the allocator is: here it is the size of a reference.
pub struct Entry<A: Allocator> {
    name: Name,
    /// Its jobs are their names.
    domain: Solo<Name, A>,
    names: Names<A>,
    parking: Parking<A>,
    /// Of each processor, in order.
    outs: Vec<Out<A>, A>,
    /// Of the domain's first cell.
    chain: Notifier,
    /// Of its second one.
    board: Plugboard,
}

impl<A: Allocator> Model for Entry<A> {
    ghost use Rattle.session.specs.States.{EntryView};

    ghost Value = { EntryView };

    ghost use Rattle.session.specs.Entries.{view_of_entry, IsEntry};

    ghost view = { view_of_entry };

    ghost invariant = { IsEntry };
}

impl<A: Allocator> Entry<A> {
    ghost use Rattle.session.specs.Scripts.{new_domain};
    ghost use Rattle.solo.specs.Calls.{IsNew};
    ghost use Rattle.session.specs.Entries.{IsNewChain, IsNewTable};

    /// A domain in which no name is in use. Nothing has happened in it.
    pub fn new(
        alloc: A,
        name: Name,
        mut domain: Solo<Name, A>,
        chain: Notifier,
        board: Plugboard,
    ) -> Result<Entry<A>, AllocError>
    where
        A: Copy,
        requires domain { IsNew domain.limits domain.course.standing.processors domain }
        requires chain { IsNewChain domain chain }
        requires board { IsNewTable domain board }
        ensures { IfOk result (λ e. e ≡ record { limits = domain.limits; table = domain.table; state = new_domain domain.limits name domain.course.standing.processors }) }
    {
        let parking = Parking::new(alloc, domain.home())?;
        let Ok(outs) = none_out(alloc, domain.processors()) else {
            let parked = parking.close();
            let None = parked else { unreachable!() };
            return Err(AllocError);
        };
        Ok(Entry {
            name,
            domain,
            names: Names::new(alloc),
            parking,
            outs,
            chain,
            board,
        })
    }

    /// Whether the domain has this name.
    pub fn is_named(&self, word: &[u8]) -> bool
        ensures { result ≡ bytes_eq self.now.state.name word.now }
    {
        self.name.is(word)
    }

    /// How many processors the domain has.
    pub fn processors(&self) -> u64
        ensures { result ≡ self.now.state.course.standing.processors }
    {
        self.domain.processors()
    }

    /// What has this name.
    pub fn kind_of(&self, name: &Name) -> Option<Kind>
        ensures { result ≡ kind_at name.now self.now.state }
    {
        if self.parking.has(name) {
            return Some(Kind::Parked);
        }
        match self.names.get(name)? {
            NamedToken::Look(_) => Some(Kind::Look),
            NamedToken::Reading(_) => Some(Kind::Reading),
            NamedToken::Held(_) => Some(Kind::Held),
            NamedToken::Ticket(_) => Some(Kind::Ticket),
            NamedToken::Lease(_) => Some(Kind::Lease),
        }
    }

    /// Reads the index word on a processor, and gives the look the name.
    fn look(&mut self, processor: u64, name: Name) -> Result<Reply, AllocError>
        requires { IsActFor (scene_alone self.old.state) 0 (Act.Look processor name) }
        ensures limits { self.new.limits ≡ self.old.limits }
        ensures home { IsSameHome self.old self.new }
        ensures name { self.new.state.name ≡ self.old.state.name }
        ensures does { IfOk result (λ r. Does self.old.limits (Act.Look processor name) self.old.state r self.new.state) }
        ensures err { OnErr result (self.new ≡ self.old) }
    {
        self.names.reserve()?;
        let look = self.domain.look(processor);
        let index = look.index();
        self.names.insert(name, NamedToken::Look(look));
        Ok(Reply::Look(index))
    }

    /// Uses up the look of this name, and begins a section of its index on a processor, which gets the name. Where it
    /// is refused, the name is free. The look's own place would do for the section, but the map doesn't say so: hence
    /// the room.
    fn enter(&mut self, processor: u64, name: Name) -> Result<Reply, AllocError>
        requires { IsActFor (scene_alone self.old.state) 0 (Act.Enter processor name) }
        ensures limits { self.new.limits ≡ self.old.limits }
        ensures home { IsSameHome self.old self.new }
        ensures name { self.new.state.name ≡ self.old.state.name }
        ensures does { IfOk result (λ r. Does self.old.limits (Act.Enter processor name) self.old.state r self.new.state) }
        ensures err { OnErr result (self.new ≡ self.old) }
    {
        self.names.reserve()?;
        let look = self.names.take_look(&name);
        match self.domain.enter(processor, look) {
            Ok(reading) => {
                let index = reading.index();
                self.names.insert(name, NamedToken::Reading(reading));
                Ok(Reply::Index(index))
            }
            Err(Exhausted) => Ok(Reply::Refused(Command::Enter, Cause::Exhausted)),
        }
    }

    /// Begins a section on a processor, and gives it the name; refused, with nothing done, where the processor has
    /// begun as many of its index as it may.
    fn lock(&mut self, processor: u64, name: Name) -> Result<Reply, AllocError>
        requires { IsActFor (scene_alone self.old.state) 0 (Act.Lock processor name) }
        ensures limits { self.new.limits ≡ self.old.limits }
        ensures home { IsSameHome self.old self.new }
        ensures name { self.new.state.name ≡ self.old.state.name }
        ensures does { IfOk result (λ r. Does self.old.limits (Act.Lock processor name) self.old.state r self.new.state) }
        ensures err { OnErr result (self.new ≡ self.old) }
    {
        self.names.reserve()?;
        match self.domain.read_lock(processor) {
            Ok(reading) => {
                let index = reading.index();
                self.names.insert(name, NamedToken::Reading(reading));
                Ok(Reply::Index(index))
            }
            Err(Exhausted) => Ok(Reply::Refused(Command::Lock, Cause::Exhausted)),
        }
    }

    /// Ends the section of this name, which is then free.
    fn unlock(&mut self, name: Name) -> Reply
        requires { IsActFor (scene_alone self.old.state) 0 (Act.Unlock name) }
        ensures limits { self.new.limits ≡ self.old.limits }
        ensures home { IsSameHome self.old self.new }
        ensures name { self.new.state.name ≡ self.old.state.name }
        ensures does { Does self.old.limits (Act.Unlock name) self.old.state result self.new.state }
    {
        let reading = self.names.take_reading(&name);
        self.domain.read_unlock(reading);
        Reply::Closed
    }

    /// Begins a section on a processor that any processor may end, and gives it the name; refused, with nothing done,
    /// where the processor has begun as many of its index as it may.
    fn down(&mut self, processor: u64, name: Name) -> Result<Reply, AllocError>
        requires { IsActFor (scene_alone self.old.state) 0 (Act.Down processor name) }
        ensures limits { self.new.limits ≡ self.old.limits }
        ensures home { IsSameHome self.old self.new }
        ensures name { self.new.state.name ≡ self.old.state.name }
        ensures does { IfOk result (λ r. Does self.old.limits (Act.Down processor name) self.old.state r self.new.state) }
        ensures err { OnErr result (self.new ≡ self.old) }
    {
        self.names.reserve()?;
        match self.domain.down_read(processor) {
            Ok(held) => {
                let index = held.index();
                self.names.insert(name, NamedToken::Held(held));
                Ok(Reply::Index(index))
            }
            Err(Exhausted) => Ok(Reply::Refused(Command::Down, Cause::Exhausted)),
        }
    }

    /// Ends the held section of this name on a processor. The name is then free.
    fn up(&mut self, processor: u64, name: Name) -> Reply
        requires { IsActFor (scene_alone self.old.state) 0 (Act.Up processor name) }
        ensures limits { self.new.limits ≡ self.old.limits }
        ensures home { IsSameHome self.old self.new }
        ensures name { self.new.state.name ≡ self.old.state.name }
        ensures does { Does self.old.limits (Act.Up processor name) self.old.state result self.new.state }
    {
        let held = self.names.take_held(&name);
        self.domain.up_read(processor, held);
        Reply::Closed
    }

    /// Puts the held section of this name on the desk; refused, with nothing done, where another one lies there.
    fn park(&mut self, name: Name) -> Reply
        requires { IsActFor (scene_alone self.old.state) 0 (Act.Park name) }
        ensures limits { self.new.limits ≡ self.old.limits }
        ensures home { IsSameHome self.old self.new }
        ensures name { self.new.state.name ≡ self.old.state.name }
        ensures does { Does self.old.limits (Act.Park name) self.old.state result self.new.state }
    {
        if !self.parking.is_empty() {
            return Reply::Refused(Command::Park, Cause::Full);
        }
        let held = self.names.take_held(&name);
        self.parking.park(name, held);
        Reply::Parked
    }

    /// Takes the section that lies on the desk back under its name; refused, with nothing done, where none does.
    fn unpark(&mut self) -> Result<Reply, AllocError>
        ensures limits { self.new.limits ≡ self.old.limits }
        ensures home { IsSameHome self.old self.new }
        ensures name { self.new.state.name ≡ self.old.state.name }
        ensures does { IfOk result (λ r. Does self.old.limits Act.Unpark self.old.state r self.new.state) }
        ensures err { OnErr result (self.new ≡ self.old) }
    {
        self.names.reserve()?;
        let Some(parked) = self.parking.unpark() else {
            return Ok(Reply::Refused(Command::Unpark, Cause::Empty));
        };
        let (name, held) = parked;
        self.names.insert(name, NamedToken::Held(held));
        Ok(Reply::Took(name))
    }

    /// Whether a cookie is done, as a processor finds it; refused where no cookie has this number.
    fn poll(&mut self, processor: u64, cookie: u64) -> Reply
        requires { processor < self.old.state.course.standing.processors }
        ensures limits { self.new.limits ≡ self.old.limits }
        ensures home { IsSameHome self.old self.new }
        ensures name { self.new.state.name ≡ self.old.state.name }
        ensures does { Does self.old.limits (Act.Poll processor cookie) self.old.state result self.new.state }
    {
        match self.domain.poll(processor, cookie) {
            Ok(true) => Reply::Done,
            Ok(false) => Reply::NotYet,
            Err(NotACookie) => Reply::Refused(Command::Poll, Cause::NotACookie),
        }
    }

    /// Starts a grace period; refused where one runs, or as many have ended as may.
    fn start(&mut self) -> Reply
        ensures limits { self.new.limits ≡ self.old.limits }
        ensures home { IsSameHome self.old self.new }
        ensures name { self.new.state.name ≡ self.old.state.name }
        ensures does { Does self.old.limits (Act.Start 0) self.old.state result self.new.state }
    {
        match self.domain.start() {
            Ok(number) => Reply::Progress(Progress::Started(number)),
            Err(NotStarted::Running) => Reply::Refused(Command::Start, Cause::Running),
            Err(NotStarted::Exhausted) => Reply::Refused(Command::Start, Cause::Exhausted),
        }
    }

    /// Lets the engine work until it has an answer; refused where a grace period is asked for and as many have ended as may.
    fn advance(&mut self) -> Reply
        ensures limits { self.new.limits ≡ self.old.limits }
        ensures home { IsSameHome self.old self.new }
        ensures name { self.new.state.name ≡ self.old.state.name }
        ensures does { Does self.old.limits (Act.Advance 0) self.old.state result self.new.state }
    {
        match self.domain.advance() {
            Ok(said) => Reply::Progress(said),
            Err(PeriodsExhausted) => Reply::Refused(Command::Advance, Cause::Exhausted),
        }
    }

    /// Lets the engine make one step; refused as `advance` is.
    fn step(&mut self) -> Reply
        ensures limits { self.new.limits ≡ self.old.limits }
        ensures home { IsSameHome self.old self.new }
        ensures name { self.new.state.name ≡ self.old.state.name }
        ensures does { Does self.old.limits (Act.Step 0) self.old.state result self.new.state }
    {
        match self.domain.step() {
            Ok(said) => Reply::Progress(said),
            Err(PeriodsExhausted) => Reply::Refused(Command::Step, Cause::Exhausted),
        }
    }

    /// Where the domain stands, as processor 0 finds it.
    fn show(&mut self) -> Reply
        ensures limits { self.new.limits ≡ self.old.limits }
        ensures home { IsSameHome self.old self.new }
        ensures name { self.new.state.name ≡ self.old.state.name }
        ensures does { Does self.old.limits Act.State self.old.state result self.new.state }
    {
        let number = self.domain.number();
        let period = Period {
            number,
            phase: state(number),
        };
        let mut open = self.names.open();
        open.raise(self.parking.open_index());
        let sections = Sections {
            index: self.domain.index(),
            zero: open.zero,
            one: open.one,
            need: self.domain.need(),
        };
        Reply::State {
            domain: self.name,
            period,
            sections,
        }
    }
}

impl<'a, A: Allocator> Entry<&'a A> {
    /// Does what a line asks of the domain. What it relies on is said of a scene with this domain alone. Where memory is
    /// refused, nothing is done.
    pub fn act(
        &mut self,
        rt: &impl Wait,
        handlers: &[Box<dyn Handler>],
        act: Act,
    ) -> Result<Reply, AllocError>
        requires fits { IsActFor (scene_alone self.old.state) 0 act }
        requires handlers { 16 ≤ length handlers.now }
        ensures limits { self.new.limits ≡ self.old.limits }
        ensures home { IsSameHome self.old self.new }
        ensures name { self.new.state.name ≡ self.old.state.name }
        ensures does { IfOk result (λ r. Acts (λ value id x. GivesAt (λ h y. answers h 1 value y) handlers.now id x) self.old.limits act self.old.state r self.new.state) }
        ensures err { OnErr result (self.new ≡ self.old) }
    {
        match act {
            Act::State => Ok(self.show()),
            Act::Look { processor, look } => self.look(processor, look),
            Act::Enter { processor, look } => self.enter(processor, look),
            Act::Lock { processor, section } => self.lock(processor, section),
            Act::Unlock { section } => Ok(self.unlock(section)),
            Act::Down { processor, section } => self.down(processor, section),
            Act::Up { processor, section } => Ok(self.up(processor, section)),
            Act::Park { section } => Ok(self.park(section)),
            Act::Unpark => self.unpark(),
            Act::Get { processor } => Ok(Reply::Cookie(self.domain.cookie(processor))),
            Act::Ask { processor } => Ok(Reply::Cookie(self.domain.ask(processor))),
            Act::Poll { processor, cookie } => Ok(self.poll(processor, cookie)),
            Act::Start { .. } => Ok(self.start()),
            Act::Advance { .. } => Ok(self.advance()),
            Act::Step { .. } => Ok(self.step()),
            Act::Call { processor, job } => Ok(self.call(rt, processor, job)),
            Act::Run { processor } => Ok(self.run(rt, processor)),
            Act::Batch { processor } => Ok(self.take_batch(rt, processor)),
            Act::Finish { processor } => Ok(self.finish_batch(rt, processor)),
            Act::Segs { processor } => Ok(self.segs(rt, processor)),
            Act::Barrier { processor, ticket } => self.barrier(processor, ticket),
            Act::BarrierPoll { processor, ticket } => Ok(self.barrier_poll(processor, &ticket)),
            Act::Register {
                processor,
                id,
                priority,
            } => Ok(self.register(processor, id, priority)),
            Act::Unregister { processor, id } => Ok(self.unregister(processor, id)),
            Act::Chain { processor } => Ok(self.show_chain(processor)),
            Act::Notify { processor, answers } => {
                Ok(self.notify(handlers, processor, answers.value()))
            }
            Act::Install {
                processor,
                key,
                plug,
            } => Ok(self.install(processor, key, plug)),
            Act::Remove { processor, key } => Ok(self.remove(processor, key)),
            Act::Lookup { processor, key } => Ok(self.lookup(processor, key)),
            Act::Lease { processor, lease } => self.lease(processor, lease),
            Act::Read {
                processor,
                lease,
                key,
            } => self.read(processor, lease, key),
            Act::Release { processor, lease } => Ok(self.release(processor, lease)),
        }
    }

    /// Finishes the batches that are out, ends all open sections, and drops the looks, the tickets and the domain.
    pub fn finish(self, rt: &impl Wait) {
        let Entry {
            name: _,
            mut domain,
            names,
            parking,
            outs,
            chain: _,
            board: _,
        } = self;
        finish_all(rt, &mut domain, outs);
        end_all(domain, names, parking);
    }
}

/// Ends all open sections of a domain, and drops its looks, its tickets and itself.
fn end_all<A: Allocator + Copy>(mut domain: Solo<Name, A>, names: Names<A>, parking: Parking<A>)
    requires { AreTogether domain names.tokens parking }
{
    if let Some(held) = parking.close() {
        let processor = u64::from(held.processor());
        domain.up_read(processor, held);
    }
    let mut tokens = names.into_tokens();
    while let Some(token) = take_last(&mut tokens) {
        match token {
            NamedToken::Look(_look) => {}
            NamedToken::Ticket(_ticket) => {}
            NamedToken::Reading(reading) => domain.read_unlock(reading),
            NamedToken::Held(held) => {
                let processor = u64::from(held.processor());
                domain.up_read(processor, held);
            }
            NamedToken::Lease(lease) => domain.release(0, lease),
        }
    }
    tokens.destroy_empty();
}
