//! What each step on the table tells the one that makes it.
ghost use Rattle.std.specs.Prelude.{ℕ, true, false};
ghost use Rattle.sections.specs.Rule.{lacking, bearer, informed, shower, hearing, noting, regaining, spent, dealer, dealt, pen_dealer, pen_dealt};
ghost use Rattle.sections.specs.Plays.{looked, admitted, began, ended, noted, asked, counted_unlocks, counted_locks, found, loaded, put, refreshed, stored, started, flipped, moved_on, finished};
ghost use Rattle.sections.specs.Pins.{loaded_next};
ghost use Rattle.sections.specs.Sights.{asked_how_far};
ghost use Rattle.sections.specs.Taking.{took, returned, drew, paid};
ghost use Rattle.sections.specs.Laying.{handled, laid_more, emptied, handled_bare, equipped};

use crate::view::View;
use atomic_table::{Join, Play, Split};
use std::marker::{Brand, PhantomData};
use vault::Key;

/// Load of the index word.
pub(crate) struct LoadIndex;

impl Play<Key, View> for LoadIndex {
    ghost then = { looked };
}

/// Load of the index word by a processor, which then has seen just what it was told.
pub(crate) struct Admit;

impl Play<Key, View> for Admit {
    ghost then = { admitted };
}

/// Increment of a lock counter.
pub(crate) struct Lock;

impl Play<Key, View> for Lock {
    ghost then = { began false };
}

/// The same for a section that may end on any processor.
pub(crate) struct LockHeld;

impl Play<Key, View> for LockHeld {
    ghost then = { began true };
}

/// Increment of an unlock counter.
pub(crate) struct Unlock;

impl Play<Key, View> for Unlock {
    ghost then = { ended };
}

/// Load of the number, for a cookie.
pub(crate) struct NoteNumber;

impl Play<Key, View> for NoteNumber {
    ghost then = { noted };
}

/// After which cookie somebody asks. Each call says it.
pub trait Asked {
    ghost cookie: { ℕ };
}

impl Asked for Brand {
    ghost cookie = { 0 };
}

/// Load of the number, to tell whether a cookie is done.
pub(crate) struct AskNumber<Q: Asked>(PhantomData<Q>);

impl<Q: Asked> Play<Key, View> for AskNumber<Q> {
    ghost then = { asked Q.cookie };
}

/// Load of the number, to tell how many periods have ended.
pub(crate) struct AskHowFar;

impl Play<Key, View> for AskHowFar {
    ghost then = { asked_how_far };
}

/// Load of an unlock counter.
pub(crate) struct CountUnlocks;

impl Play<Key, View> for CountUnlocks {
    ghost then = { counted_unlocks };
}

/// Load of a lock counter.
pub(crate) struct CountLocks;

impl Play<Key, View> for CountLocks {
    ghost then = { counted_locks };
}

/// Load of a cell, by an open section.
pub(crate) struct FindThere;

impl Play<Key, View> for FindThere {
    ghost then = { found };
}

/// Load of a word of a slot that an open section has found.
pub(crate) struct LoadPayload;

impl Play<Key, View> for LoadPayload {
    ghost then = { loaded };
}

/// Load of a further word of a slot that an open section has found, by a seat that has seen this itself.
pub(crate) struct LoadNext;

impl Play<Key, View> for LoadNext {
    ghost then = { loaded_next };
}

/// A processor takes its key to a slot that an open section has found. The number of the word is that of the slot.
pub(crate) struct TakeKey;

impl Play<Key, View> for TakeKey {
    ghost then = { took };
}

/// It gives the key back as it was.
pub(crate) struct ReturnKey;

impl Play<Key, View> for ReturnKey {
    ghost then = { returned };
}

/// It gives the key back to one part less, which is out with the section.
pub(crate) struct DrawPart;

impl Play<Key, View> for DrawPart {
    ghost then = { drew };
}

/// It gives the key back to one part more, which was out with the section.
pub(crate) struct PayPart;

impl Play<Key, View> for PayPart {
    ghost then = { paid };
}

/// Store to a cell.
pub(crate) struct PutSlot;

impl Play<Key, View> for PutSlot {
    ghost then = { put };
}

/// Load of a cell by the one that writes it.
pub(crate) struct Refresh;

impl Play<Key, View> for Refresh {
    ghost then = { refreshed };
}

/// How many processors the domain has in which somebody stores a word: a writer's seat doesn't know. Each call says it.
pub trait HasProcessors {
    ghost processors: { ℕ };
}

impl HasProcessors for Brand {
    ghost processors = { 0 };
}

/// Store of a word of a slot that nobody can read.
pub(crate) struct StorePayload<N: HasProcessors>(PhantomData<N>);

impl<N: HasProcessors> Play<Key, View> for StorePayload<N> {
    ghost then = { stored N.processors };
}

/// For which processor a writer handles a key. Each call says it.
pub trait AtProcessor {
    ghost processor: { ℕ };
}

impl AtProcessor for Brand {
    ghost processor = { 0 };
}

/// The writer of a cell takes a key to a slot that no reader can reach. The number of the word is that of the slot.
pub(crate) struct HandleKey<N: AtProcessor>(PhantomData<N>);

impl<N: AtProcessor> Play<Key, View> for HandleKey<N> {
    ghost then = { handled N.processor };
}

/// It gives the key back to more parts.
pub(crate) struct LayParts;

impl Play<Key, View> for LayParts {
    ghost then = { laid_more };
}

/// It gives the key back to none.
pub(crate) struct EmptyKey<N: HasProcessors>(PhantomData<N>);

impl<N: HasProcessors> Play<Key, View> for EmptyKey<N> {
    ghost then = { emptied N.processors };
}

/// It takes a place of its cell that has no key yet.
pub(crate) struct TakeBare<N: AtProcessor>(PhantomData<N>);

impl<N: AtProcessor> Play<Key, View> for TakeBare<N> {
    ghost then = { handled_bare N.processor };
}

/// It gives the place back with its key.
pub(crate) struct LayKey;

impl Play<Key, View> for LayKey {
    ghost then = { equipped };
}

/// Addition of 1 to the number, at rest.
pub(crate) struct StartPeriod;

impl Play<Key, View> for StartPeriod {
    ghost then = { started };
}

/// Addition of 1 to the index word.
pub(crate) struct Flip;

impl Play<Key, View> for Flip {
    ghost then = { flipped };
}

/// Addition of 1 to the number, behind the flip.
pub(crate) struct MoveOn;

impl Play<Key, View> for MoveOn {
    ghost then = { moved_on };
}

/// Addition of 2 to the number, behind both scans.
pub(crate) struct FinishPeriod;

impl Play<Key, View> for FinishPeriod {
    ghost then = { finished };
}

/// A new seat gets the right, and has seen as much.
pub(crate) struct GiveToken;

impl Split<View> for GiveToken {
    ghost left = { lacking };

    ghost right = { bearer };
}

/// What the other seat has seen is told, and its right is taken over.
pub(crate) struct TakeToken;

impl Join<View> for TakeToken {
    ghost both = { informed };

    ghost spent = { spent };
}

/// The other seat's right is taken back, and nothing is told.
pub(crate) struct TakeBack;

impl Join<View> for TakeBack {
    ghost both = { regaining };

    ghost spent = { spent };
}

/// A new seat has seen as much, and can show how many changes this processor has seen.
pub(crate) struct Show;

impl Split<View> for Show {
    ghost left = { λ v. v };

    ghost right = { shower };
}

/// What the other seat has seen is told, and what is known of a processor.
pub(crate) struct Hear;

impl Join<View> for Hear {
    ghost both = { hearing };

    ghost spent = { spent };
}

/// What is known of a processor is noted.
pub(crate) struct NoteShown;

impl Join<View> for NoteShown {
    ghost both = { noting };

    ghost spent = { spent };
}

/// A new seat is that of the next cell's writer.
pub(crate) struct DealPen;

impl Split<View> for DealPen {
    ghost left = { pen_dealer };

    ghost right = { pen_dealt };
}

/// A new seat is the next processor's.
pub(crate) struct Deal;

impl Split<View> for Deal {
    ghost left = { dealer };

    ghost right = { dealt };
}
