//! The rule of the tally words, and what each step on them tells the one that makes it.
ghost use Rattle.std.specs.Prelude.{ℕ, Option, None};
ghost use Rattle.calls.specs.declared.entry.Entry.{Entry};
ghost use Rattle.annals.specs.Rule.{dealer, dealt, informed, spent};
ghost use Rattle.calls.specs.Rule.{tally_client, without_list, only_list, with_list, without_batch, only_batch, with_batch, note, announcing, announced, moving};
ghost use Rattle.calls.specs.Plays.{queues, takes_out, finishes, lacks_room, counts_queued, counts_finished, found_all, admitted, found_out, found_list};

use crate::view::{Held, Logged, Plan};
use annals::{Annals, Chronicle};
use atomic_table::{Join, Play, Seat, Shared, Split, Table};
use std::marker::{Brand, PhantomData};

/// The table has no slots.
pub(crate) type NoSlot = Option<u64>;

/// What one seat knows.
pub(crate) type View<J> = annals::View<Logged<J>, (), Held<J>>;

/// Each word counts what was done.
pub struct Counted;

impl<J> Chronicle<NoSlot, Logged<J>, (), Held<J>, Plan> for Counted {
    ghost client = { tally_client };
}

/// There is one log of what was done.
pub(crate) type Rule = Annals<Counted>;

/// The tally words.
pub(crate) type Tallies<J, A> = Table<NoSlot, View<J>, Plan, Rule, A>;

/// What the steps are made on.
pub(crate) type Board<J> = Shared<NoSlot, View<J>, Plan, Rule>;

/// With what they are made.
pub(crate) type Place<J> = Seat<NoSlot, View<J>>;

/// Addition of 1 to a queued word, for the call that was announced.
pub(crate) struct AddQueued;

impl<J> Play<NoSlot, View<J>> for AddQueued {
    ghost then = { queues };
}

/// For which number entries are ready, and how many are wanted. Each `take_ready` names them anew.
pub trait Taking {
    ghost number: { ℕ };

    ghost max: { ℕ };
}

impl Taking for Brand {
    ghost number = { 0 };

    ghost max = { 0 };
}

/// Load of a queued word with its list, out of which something is taken.
pub(crate) struct TakeOut<N: Taking>(PhantomData<N>);

impl<J, N: Taking> Play<NoSlot, View<J>> for TakeOut<N> {
    ghost then = { takes_out N.number N.max };
}

/// Addition of a batch's count to a finished word.
pub(crate) struct AddFinished;

impl<J> Play<NoSlot, View<J>> for AddFinished {
    ghost then = { finishes };
}

/// Load of a queued word with its list, in which a call that came in has no room.
pub(crate) struct LackRoom;

impl<J> Play<NoSlot, View<J>> for LackRoom {
    ghost then = { lacks_room };
}

/// Load of a queued word.
pub(crate) struct CountQueued;

impl<J> Play<NoSlot, View<J>> for CountQueued {
    ghost then = { counts_queued };
}

/// Load of a finished word, where the tally words are of so many processors.
pub(crate) struct CountFinished<N: Counting>(PhantomData<N>);

impl<J, N: Counting> Play<NoSlot, View<J>> for CountFinished<N> {
    ghost then = { counts_finished N.count };
}

/// Load of a word by a seat that has then seen all that was done, where the tally words are of so many processors. It is
/// no deed.
pub(crate) struct Cover<N: Counting>(PhantomData<N>);

impl<J, N: Counting> Play<NoSlot, View<J>> for Cover<N> {
    ghost then = { found_all N.count };
}

/// Load of a word by a seat that has then seen just what it was told. It is no deed.
pub(crate) struct Admit<N: Counting>(PhantomData<N>);

impl<J, N: Counting> Play<NoSlot, View<J>> for Admit<N> {
    ghost then = { admitted N.count };
}

/// Load of a word with the right of a batch, which is out in all that is then seen. It is no deed.
pub(crate) struct SeeOut<N: Counting>(PhantomData<N>);

impl<J, N: Counting> Play<NoSlot, View<J>> for SeeOut<N> {
    ghost then = { found_out N.count };
}

/// Load of a queued word with its list's right: in all that is then seen, the list is as the right knows it, and it knows how
/// many were queued. It is no deed.
pub(crate) struct SeeList<N: Counting>(PhantomData<N>);

impl<J, N: Counting> Play<NoSlot, View<J>> for SeeList<N> {
    ghost then = { found_list N.count };
}

/// A new seat is the next processor's, with its list's right.
pub(crate) struct Deal;

impl<J> Split<View<J>> for Deal {
    ghost left = { dealer };

    ghost right = { dealt tally_client };
}

/// A new seat gets the list's right.
pub(crate) struct GiveList;

impl<J> Split<View<J>> for GiveList {
    ghost left = { without_list };

    ghost right = { only_list };
}

/// The list's right is taken over.
pub(crate) struct TakeList;

impl<J> Join<View<J>> for TakeList {
    ghost both = { with_list };

    ghost spent = { spent tally_client };
}

/// Which call is announced. Each `call` names it anew.
pub trait Calling<J> {
    ghost call: { Option (Entry J) };
}

impl<J> Calling<J> for Brand {
    ghost call = { None };
}

/// A new seat gets the right of a call that is about to be queued.
pub(crate) struct Announce<N>(PhantomData<N>);

impl<J, N: Calling<J>> Split<View<J>> for Announce<N> {
    ghost left = { announcing N.call };

    ghost right = { announced N.call };
}

/// The right of a call comes back, which is not queued.
pub(crate) struct Withdraw;

impl<J> Join<View<J>> for Withdraw {
    ghost both = { λ v w. without_list v };

    ghost spent = { spent tally_client };
}

/// The right of a call goes into that of its list, in which it now waits.
pub(crate) struct Move;

impl<J> Join<View<J>> for Move {
    ghost both = { moving };

    ghost spent = { spent tally_client };
}

/// A new seat has seen as much.
pub(crate) struct GiveNote;

impl<J> Split<View<J>> for GiveNote {
    ghost left = { λ v. v };

    ghost right = { note };
}

/// What the other seat has seen is told.
pub(crate) struct TakeNote;

impl<J> Join<View<J>> for TakeNote {
    ghost both = { informed };

    ghost spent = { spent tally_client };
}

/// How many processors there are. Each call that looks names it anew.
pub trait Counting {
    ghost count: { ℕ };
}

impl Counting for Brand {
    ghost count = { 0 };
}

/// A new seat gets the right of a batch that is out.
pub(crate) struct PassBatch;

impl<J> Split<View<J>> for PassBatch {
    ghost left = { without_batch };

    ghost right = { only_batch };
}

/// The batch's right is taken over.
pub(crate) struct TakeBatch;

impl<J> Join<View<J>> for TakeBatch {
    ghost both = { with_batch };

    ghost spent = { spent tally_client };
}
