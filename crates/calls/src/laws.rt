//! What holds of all callbacks, for callers and readers: the calls do nothing.
ghost use Rattle.calls.specs.Laws.{OneHistory, NoStepIsForged, WaitsInOrder, GivesOnce, KeepsCalls, StaysQueued, StaysFinished, BarriersCover, TotalsAreExact};

/// Between any two steps of any threads there is one list of what was done on the tally words, the words hold its counts,
/// each deed in it is one that could be done, by those before it, and what each seat has seen is a beginning of it. And no split or
/// join gives a processor's seat a load that it did not make: it is said of a new seat of processor 0, beside one of
/// processor 1 that has loaded a word.
pub fn tallies_of_callbacks<J>()
    ensures history { OneHistory J }
    ensures forged { NoStepIsForged J }
{}

/// What waits on a processor is just what was queued there and not given out, in its order: the calls from a number on.
/// A batch begins with the number of those that are finished, and ends before the next batch begins. No call that was
/// queued is ever another one. So a batch has the very jobs that were queued with its numbers, and no number is in two
/// batches.
pub fn jobs_of_callbacks<J>()
    ensures order { WaitsInOrder J }
    ensures once { GivesOnce J }
    ensures calls { KeepsCalls J }
{}

/// A receipt whose call was queued stays so for who goes on from there, and one that is finished too. Where a seat had
/// seen a receipt's call queued when it started a barrier, the receipt is finished once the barrier is done, whoever
/// learns of it.
pub fn barriers_of_callbacks<J>()
    ensures queued { StaysQueued J }
    ensures finished { StaysFinished J }
    ensures covers { BarriersCover J }
{}

/// What a seat's [`totals`](crate::CallSeat::totals) finds is exact where no other processor did anything meanwhile: the sums
/// are those of what this seat has then seen. Who has all seats in hand makes sure of it by a meeting.
pub fn totals_of_callbacks<J>()
    ensures { TotalsAreExact J }
{}
