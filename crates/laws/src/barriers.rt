//! What a barrier covers.
ghost use Rattle.laws.specs.Barriers.{LooksCount, StartsCount, HearingCounts, CountsStay, CountedAreCovered, CountedAreFinished};

/// A barrier covers each receipt whose number is below a count that its starter had seen loaded, by any seat: `lens`, `hear`
/// and an earlier barrier load such counts. So it waits for the job, whoever queued it. The call does nothing.
pub fn barriers_cover_counts<J>()
    ensures looks { LooksCount J }
    ensures starts { StartsCount J }
    ensures hears { HearingCounts J }
    ensures stays { CountsStay J }
    ensures covers { CountedAreCovered J }
    ensures finished { CountedAreFinished J }
{}
