//! A domain of one thread, which keeps its whole history and asks the definitions of it.
ghost use Rattle.std.specs.Prelude.{◌≡◌, ℕ, ◌+◌, ◌%◌, ◌<◌, ◌≤◌, ◌↔◌, [], ◌∷◌, ◌++◌, length, IfOk, IfErr, OnOk, OnErr, MatchOption, IsTrue, true};
ghost use Rattle.onedom.specs.Histories.{begins, ends, is_start, is_finish, begins_of, ends_of, starts_in, ended_in, IsOpen, IsRunning, IsBeforeLastStart, WasOpenAtStart, cookie_after, IsDone, slot_after, slot_of, version_after, version_of, finds, finds_of, IsClear, MayFollow, IsLegal};
ghost use Rattle.onedom.specs.Refusals.{IsRefusal};
ghost use Rattle.sseq.specs.Numbers.{IsCookieNumber};

use crate::event::Event;
use crate::illegal::Illegal;
use sseq::COMPLETED;
use std::alloc::{AllocError, Allocator};
use std::marker::Model;

/// There was no memory.
pub type Memory = AllocError;

/// A domain of one thread. Contracts see it as its history, which is legal.
#[derive(Drop)]
pub struct OneDomain<A: Allocator> {
    events: Vec<Event, A>,
}

impl<A: Allocator> Model for OneDomain<A> {
    ghost use Rattle.std.specs.Prelude.{List};
    ghost use Rattle.onedom.specs.declared.event.Event.{Event};
    ghost use Rattle.onedom.specs.Histories.{IsLegal};

    ghost Value = { List Event };

    ghost view = { λ domain. domain.events.items };

    ghost invariant = { λ domain. IsLegal domain.events.items };
}

impl<A: Allocator> OneDomain<A> {
    /// A domain in which nothing has happened. It allocates only once an event is applied.
    pub fn new(alloc: A) -> Self
        ensures { result ≡ [] }
    {
        OneDomain {
            events: Vec::new(alloc),
        }
    }

    /// All events that were applied, the oldest first.
    pub fn history(&self) -> &[Event]
        ensures all { result.now ≡ self.now }
        ensures legal { IsLegal self.now }
    {
        self.events.as_slice()
    }

    /// Adds the event to the history where it may follow, whoever made it. Otherwise the domain stays as it was, and the
    /// answer is why: `Memory` only for an event that may follow, where the history could not grow.
    pub fn apply(&mut self, event: Event) -> Result<(), Illegal>
        ensures legal { OnOk result (MayFollow self.old event) }
        ensures added { OnOk result (self.new ≡ self.old ++ event ∷ []) }
        ensures refused { IfErr result (λ cause. IsRefusal self.old event cause) }
        ensures unchanged { OnErr result (self.new ≡ self.old) }
    {
        may_follow(&self.events, event)?;
        self.events.push(event).map_err(|_| Illegal::Memory)?;
        Ok(())
    }
}

/// Whether each event may follow those before it. An `Err` is for want of memory alone.
pub fn legal<A: Allocator>(alloc: A, events: &[Event]) -> Result<bool, Memory>
    ensures { IfOk result (λ b. IsTrue b ↔ IsLegal events.now) }
{
    let mut domain = OneDomain::new(alloc);
    for event in events {
        if let Err(cause) = domain.apply(*event) {
            return match cause {
                Illegal::Memory => Err(AllocError),
                _ => Ok(false),
            };
        }
    }
    Ok(true)
}

// Whether the event may follow the history, and why not; want of memory is no reason yet.
fn may_follow(history: &[Event], event: Event) -> Result<(), Illegal>
    ensures follows { OnOk result (MayFollow history.now event) }
    ensures refused { IfErr result (λ cause. IsRefusal history.now event cause × ¬ MayFollow history.now event) }
{
    match event {
        Event::Begin { section, .. } if begins_of(history, section) > 0 => Err(
            Illegal::SectionUsed,
        ),
        Event::End { section, .. } if !is_open(history, section) => Err(Illegal::NotOpen),
        Event::Start { .. } if is_running(history) => Err(Illegal::PeriodRunning),
        Event::Finish { .. } if !is_running(history) => Err(Illegal::NoPeriod),
        Event::Finish { .. } if is_still_open(history) => Err(Illegal::StillOpen),
        Event::Note { cookie, .. } if !is_given_now(history, cookie) => Err(Illegal::WrongCookie),
        Event::Ask { cookie, done, .. } if !is_answer(history, cookie, done) => Err(
            Illegal::WrongPoll,
        ),
        Event::Find { section, .. } if !is_open(history, section) => Err(Illegal::NotOpen),
        Event::Find {
            cell,
            slot,
            version,
            ..
        } if !is_current(history, cell, slot, version) => Err(Illegal::WrongFind),
        Event::Put {
            cell,
            slot,
            version,
            ..
        } if !is_next(history, cell, slot, version) => Err(Illegal::WrongPut),
        _ => Ok(()),
    }
}

fn is_open(history: &[Event], section: u64) -> bool
    ensures { IsTrue result ↔ IsOpen history.now section }
{
    begins_of(history, section) > 0 && ends_of(history, section) == 0
}

fn is_running(history: &[Event]) -> bool
    ensures { IsTrue result ↔ IsRunning history.now }
{
    ended_in(history) < starts_in(history)
}

// Whether a section that was open when the last grace period started is open.
fn is_still_open(history: &[Event]) -> bool
    ensures { IsTrue result ↔ (s : ℕ) × WasOpenAtStart history.now s × IsOpen history.now s }
{
    let Some(before) = before_last_start(history) else {
        return false;
    };
    for event in before {
        if let Event::Begin { section, .. } = *event {
            if is_open(before, section) && is_open(history, section) {
                return true;
            }
        }
    }
    false
}

// The history up to its last start of a grace period, without that.
fn before_last_start(history: &[Event]) -> Option<&[Event]>
    ensures { MatchOption result (starts_in history.now ≡ 0) (λ before. IsBeforeLastStart before.now history.now) }
{
    let mut start = None;
    for (i, event) in history.iter().enumerate() {
        if is_start(*event) {
            start = Some(i);
        }
    }
    Some(&history[..start?])
}

// Whether this cookie is the one that is given now.
fn is_given_now(history: &[Event], cookie: u64) -> bool
    ensures { IsTrue result ↔ (cookie ≡ cookie_after history.now) }
{
    let periods = if is_running(history) { 2 } else { 1 };
    cookie % 4 == 0 && cookie / 4 == ended_in(history) as u64 + periods
}

// Whether this is a cookie, and `done` the answer that it gets now.
fn is_answer(history: &[Event], cookie: u64, done: bool) -> bool
    ensures { IsTrue result ↔ IsCookieNumber cookie × (IsTrue done ↔ IsDone cookie history.now) }
{
    if cookie == COMPLETED {
        return done;
    }
    cookie % 4 == 0 && done == (cookie / 4 <= ended_in(history) as u64)
}

// Whether these are the slot and the version that are current in the cell.
fn is_current(history: &[Event], cell: u64, slot: u64, version: u64) -> bool
    ensures { IsTrue result ↔ (slot ≡ slot_of cell history.now) × (version ≡ version_of cell history.now) }
{
    slot == slot_of(history, cell) && version == version_of(history, cell)
}

// Whether this is the next version of the cell, and nobody can read the slot.
fn is_next(history: &[Event], cell: u64, slot: u64, version: u64) -> bool
    ensures { IsTrue result ↔ IsClear history.now cell slot × (version ≡ version_of cell history.now + 1) }
{
    if version == 0 || version - 1 != version_of(history, cell) {
        return false;
    }
    is_clear(history, cell, slot)
}

// Whether nobody can read the slot.
fn is_clear(history: &[Event], cell: u64, slot: u64) -> bool
    ensures { IsTrue result ↔ IsClear history.now cell slot }
{
    if slot == slot_of(history, cell) {
        return false;
    }
    !is_found(history, cell, slot)
}

// Whether an open section has found the slot.
fn is_found(history: &[Event], cell: u64, slot: u64) -> bool
    ensures { IsTrue result ↔ (s : ℕ) × IsOpen history.now s × (0 < finds_of s cell slot history.now) }
{
    for event in history {
        if is_reading(history, cell, slot, *event) {
            return true;
        }
    }
    false
}

// Whether the event is a Find of the slot, and its section is open.
fn is_reading(history: &[Event], cell: u64, slot: u64, event: Event) -> bool
    ensures { IsTrue result ↔ (s : ℕ) × IsOpen history.now s × (finds s cell slot event ≡ true) }
{
    match event {
        Event::Find {
            section,
            cell: read,
            slot: found,
            ..
        } => read == cell && found == slot && is_open(history, section),
        _ => false,
    }
}

// The slot that is current in the cell.
fn slot_of(history: &[Event], cell: u64) -> u64
    ensures { result ≡ slot_of cell history.now }
{
    history
        .iter()
        .fold(0, |slot, event| slot_after(cell, slot, *event))
}

// The version that is current in the cell.
fn version_of(history: &[Event], cell: u64) -> u64
    ensures { result ≡ version_of cell history.now }
{
    history
        .iter()
        .fold(0, |version, event| version_after(cell, version, *event))
}

fn slot_after(cell: u64, before: u64, event: Event) -> u64
    ensures { result ≡ slot_after cell before event }
{
    match event {
        Event::Put {
            cell: written,
            slot,
            ..
        } if written == cell => slot,
        _ => before,
    }
}

fn version_after(cell: u64, before: u64, event: Event) -> u64
    ensures { result ≡ version_after cell before event }
{
    match event {
        Event::Put {
            cell: written,
            version,
            ..
        } if written == cell => version,
        _ => before,
    }
}

fn begins_of(history: &[Event], section: u64) -> usize
    ensures { result ≡ begins_of section history.now }
{
    history
        .iter()
        .filter(|event| begins(section, **event))
        .count()
}

fn ends_of(history: &[Event], section: u64) -> usize
    ensures { result ≡ ends_of section history.now }
{
    history
        .iter()
        .filter(|event| ends(section, **event))
        .count()
}

fn starts_in(history: &[Event]) -> usize
    ensures { result ≡ starts_in history.now }
{
    history.iter().filter(|event| is_start(**event)).count()
}

fn ended_in(history: &[Event]) -> usize
    ensures ended { result ≡ ended_in history.now }
    ensures within { result ≤ length history.now }
{
    history.iter().filter(|event| is_finish(**event)).count()
}

fn begins(section: u64, event: Event) -> bool
    ensures { result ≡ begins section event }
{
    matches!(event, Event::Begin { section: begun, .. } if begun == section)
}

fn ends(section: u64, event: Event) -> bool
    ensures { result ≡ ends section event }
{
    matches!(event, Event::End { section: ended, .. } if ended == section)
}

fn is_start(event: Event) -> bool
    ensures { result ≡ is_start event }
{
    matches!(event, Event::Start { .. })
}

fn is_finish(event: Event) -> bool
    ensures { result ≡ is_finish event }
{
    matches!(event, Event::Finish { .. })
}
