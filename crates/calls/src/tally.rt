//! The steps on the tally words.
ghost use Rattle.std.specs.Prelude.{◌≡◌, ℕ, ◌<◌, Some, None};
ghost use Rattle.calls.specs.declared.entry.Entry.{Entry};
ghost use Rattle.calls.specs.Tallies.{queued_place, finished_place, word_count, most_calls, queued_in, IsBeginning};
ghost use Rattle.calls.specs.Seats.{IsPlaced, IsAtRest, IsAboutTo, IsOfCaller, IsListSeat, IsBatchSeat, IsCallPlace, known_in, next_known, Announces, Withdraws, QueuesOne, MovesCall, TakesOne, LacksOne, FinishesBatch, CountsFinished, SeesAll, SeesTold, SeesBatchOut, SeesList};

use crate::entry::Entry;
use crate::plays::{self, Board, Calling, Counting, Place, Taking};

/// Where the queued word of a processor stands.
pub(crate) fn place_of_queued(processor: u16) -> usize
    ensures { result ≡ queued_place processor }
{
    16 * processor as usize + 8
}

/// Where the finished word of a processor stands.
pub(crate) fn place_of_finished(processor: u16) -> usize
    ensures { result ≡ finished_place processor }
{
    16 * processor as usize + 16
}

/// Announces a call, which comes next on the seat's processor. Gives its right.
pub(crate) fn announce<J, N: Calling<J>>(
    top: &Board<J>,
    seat: &mut Place<J>,
    processor: u16,
    entry: &Entry<J>,
) -> Place<J>
    requires call { N.call ≡ Some entry.now }
    requires placed { IsPlaced top.now.key top.now.table_id seat.old }
    requires rests { IsAtRest processor top.now.key seat.old.me.0 }
    ensures { Announces processor entry.now seat.old seat.new result }
{
    // For the proof, which notes what is to be queued, and by whom.
    let _ = entry;
    let _ = processor;
    top.split_seat::<plays::Announce<N>>(seat)
}

/// The call is not queued after all.
pub(crate) fn withdraw<J>(top: &Board<J>, seat: &mut Place<J>, call: Place<J>)
    requires placed { IsPlaced top.now.key top.now.table_id seat.old }
    requires call { (p : ℕ) × (e : Entry J) × IsAboutTo p top.now.key e seat.old.me.0 × IsCallPlace top.now.table_id p (queued_in p seat.old.me.0.seen) e call }
    ensures { Withdraws seat.old seat.new }
{
    top.join_seat::<plays::Withdraw>(seat, call);
}

/// Adds 1 to the processor's queued word for the call that was announced. Answers what the word held.
pub(crate) fn add_queued<J>(top: &Board<J>, seat: &mut Place<J>, processor: u16) -> u64
    requires placed { IsPlaced top.now.key top.now.table_id seat.old }
    requires calling { (e : Entry J) × IsAboutTo processor top.now.key e seat.old.me.0 }
    requires room { queued_in processor seat.old.me.0.seen < most_calls }
    ensures placed { IsPlaced top.now.key top.now.table_id seat.new }
    ensures queues { (e : Entry J) → IsAboutTo processor top.now.key e seat.old.me.0 → QueuesOne processor e seat.old result seat.new }
{
    top.fetch_add::<plays::AddQueued>(seat, place_of_queued(processor), 1)
}

/// The call waits in its list from now on, behind those that were moved there before.
pub(crate) fn move_call<J>(top: &Board<J>, list: &mut Place<J>, call: Place<J>)
    requires wide { top.now.table_id.words ≡ word_count top.now.key.processors }
    requires call { (p : ℕ) × (e : Entry J) × IsListSeat top.now.table_id p list.old × IsCallPlace top.now.table_id p (next_known (known_in list.old.me.0.client.list)) e call × (p < top.now.key.processors) }
    requires queued { next_known (known_in list.old.me.0.client.list) < (known_in list.old.me.0.client.list).queued }
    ensures { (p : ℕ) (e : Entry J) → IsListSeat top.now.table_id p list.old → IsCallPlace top.now.table_id p (next_known (known_in list.old.me.0.client.list)) e call → MovesCall p e list.old list.new }
{
    top.join_seat::<plays::Move>(list, call);
}

/// Loads the queued word of the list's processor, with the right of the list, out of which is taken what is ready. Gives the
/// batch's right.
pub(crate) fn take_out<J, N: Taking>(
    top: &Board<J>,
    seat: &mut Place<J>,
    list: &mut Place<J>,
    processor: u16,
    number: u64,
    max: usize,
) -> Place<J>
    requires taking { (N.number ≡ number) × (N.max ≡ max) }
    requires placed { IsPlaced top.now.key top.now.table_id seat.old }
    requires rests { (c : ℕ) × IsAtRest c top.now.key seat.old.me.0 }
    requires there { processor < top.now.key.processors }
    requires list { IsListSeat top.now.table_id processor list.old }
    requires none { (known_in list.old.me.0.client.list).out ≡ None }
    ensures placed { IsPlaced top.now.key top.now.table_id seat.new }
    ensures takes { TakesOne processor number max seat.old list.old seat.new list.new result }
{
    // For the proof, which notes for which number jobs were taken, and how many were wanted.
    let _ = (number, max);
    let right = top.split_seat::<plays::GiveList>(list);
    top.join_seat::<plays::TakeList>(seat, right);
    top.load::<plays::TakeOut<N>>(seat, place_of_queued(processor));
    *list = top.split_seat::<plays::GiveList>(seat);
    top.split_seat::<plays::PassBatch>(seat)
}

/// Loads the queued word of this processor, with the right of its list, which gets it back: not all calls that came in are
/// moved there.
pub(crate) fn lack_room<J>(top: &Board<J>, seat: &mut Place<J>, list: &mut Place<J>, processor: u16)
    requires placed { IsPlaced top.now.key top.now.table_id seat.old }
    requires rests { (c : ℕ) × IsAtRest c top.now.key seat.old.me.0 }
    requires there { processor < top.now.key.processors }
    requires list { IsListSeat top.now.table_id processor list.old }
    requires short { next_known (known_in list.old.me.0.client.list) < (known_in list.old.me.0.client.list).queued }
    ensures placed { IsPlaced top.now.key top.now.table_id seat.new }
    ensures lacks { LacksOne processor seat.old list.old seat.new list.new }
{
    let right = top.split_seat::<plays::GiveList>(list);
    top.join_seat::<plays::TakeList>(seat, right);
    top.load::<plays::LackRoom>(seat, place_of_queued(processor));
    *list = top.split_seat::<plays::GiveList>(seat);
}

/// Loads the queued word of this processor, with the right of its list, which gets it back. The seat has then seen all that
/// was done, and there the list is as its right knows it. Answers how many were queued.
pub(crate) fn see_list<J, N: Counting>(
    top: &Board<J>,
    seat: &mut Place<J>,
    list: &mut Place<J>,
    processor: u16,
) -> u64
    requires count { top.now.key.processors ≡ N.count }
    requires placed { IsPlaced top.now.key top.now.table_id seat.old }
    requires rests { (c : ℕ) × IsAtRest c top.now.key seat.old.me.0 }
    requires there { processor < top.now.key.processors }
    requires list { IsListSeat top.now.table_id processor list.old }
    ensures { SeesList top.now.key processor seat.old list.old result seat.new list.new }
{
    let right = top.split_seat::<plays::GiveList>(list);
    top.join_seat::<plays::TakeList>(seat, right);
    let found = top.load::<plays::SeeList<N>>(seat, place_of_queued(processor));
    *list = top.split_seat::<plays::GiveList>(seat);
    found
}

/// Loads the finished word at this place. Answers what it holds. Each call says of how many processors the tally words
/// are, and learns that no other one has finished a batch.
pub(crate) fn count_finished<J, N: Counting>(
    top: &Board<J>,
    seat: &mut Place<J>,
    place: usize,
) -> u64
    requires count { top.now.key.processors ≡ N.count }
    requires there { (p : ℕ) × (place ≡ finished_place p) × (p < top.now.key.processors) }
    requires placed { IsPlaced top.now.key top.now.table_id seat.old }
    requires rests { IsOfCaller top.now.key seat.old.me.0 }
    ensures { CountsFinished top.now.key place seat.old result seat.new }
{
    top.load::<plays::CountFinished<N>>(seat, place)
}

/// Loads the queued word of the seat's processor. The seat has then seen all that was done.
pub(crate) fn see_all<J, N: Counting>(top: &Board<J>, seat: &mut Place<J>, processor: u16)
    requires count { top.now.key.processors ≡ N.count }
    requires placed { IsPlaced top.now.key top.now.table_id seat.old }
    requires rests { IsAtRest processor top.now.key seat.old.me.0 }
    ensures { SeesAll top.now.key seat.old seat.new }
{
    top.load::<plays::Cover<N>>(seat, place_of_queued(processor));
}

/// Loads the queued word of the seat's processor. The seat has then seen just what it was told.
pub(crate) fn see_told<J, N: Counting>(top: &Board<J>, seat: &mut Place<J>, processor: u16)
    requires count { top.now.key.processors ≡ N.count }
    requires placed { IsPlaced top.now.key top.now.table_id seat.old }
    requires rests { IsAtRest processor top.now.key seat.old.me.0 }
    requires since { IsBeginning seat.old.me.0.seen seat.old.me.0.told }
    ensures { SeesTold top.now.key seat.old seat.new }
{
    top.load::<plays::Admit<N>>(seat, place_of_queued(processor));
}

/// Loads the queued word of the seat's processor, with the right of a batch of another one, perhaps, which gets it back.
/// The seat has then seen all that was done, and there the batch is out: only with its right can it be finished.
pub(crate) fn see_batch_out<J, N: Counting>(
    top: &Board<J>,
    seat: &mut Place<J>,
    batch: &mut Place<J>,
    processor: u16,
)
    requires count { top.now.key.processors ≡ N.count }
    requires placed { IsPlaced top.now.key top.now.table_id seat.old }
    requires rests { IsAtRest processor top.now.key seat.old.me.0 }
    requires batch { batch.old.table_id ≡ top.now.table_id }
    ensures { (p count : ℕ) → IsBatchSeat batch.old.table_id p count batch.old → SeesBatchOut top.now.key p count seat.old batch.old seat.new batch.new }
{
    let right = top.split_seat::<plays::PassBatch>(batch);
    top.join_seat::<plays::TakeBatch>(seat, right);
    top.load::<plays::SeeOut<N>>(seat, place_of_queued(processor));
    *batch = top.split_seat::<plays::PassBatch>(seat);
}

/// Adds the batch's count to its processor's finished word, with the rights of the batch, which is over, and of the
/// list, which gets its own back.
pub(crate) fn add_finished<J>(
    top: &Board<J>,
    seat: &mut Place<J>,
    list: &mut Place<J>,
    batch: Place<J>,
    processor: u16,
    count: usize,
)
    requires placed { IsPlaced top.now.key top.now.table_id seat.old }
    requires there { processor < top.now.key.processors }
    requires rests { (c : ℕ) × IsAtRest c top.now.key seat.old.me.0 }
    requires list { IsListSeat top.now.table_id processor list.old }
    requires batch { IsBatchSeat top.now.table_id processor count batch }
    ensures placed { IsPlaced top.now.key top.now.table_id seat.new }
    ensures finishes { FinishesBatch processor count seat.old list.old batch seat.new list.new }
{
    top.join_seat::<plays::TakeBatch>(seat, batch);
    let right = top.split_seat::<plays::GiveList>(list);
    top.join_seat::<plays::TakeList>(seat, right);
    top.fetch_add::<plays::AddFinished>(seat, place_of_finished(processor), count as u64);
    *list = top.split_seat::<plays::GiveList>(seat);
}
