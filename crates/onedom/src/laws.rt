//! What follows from the definitions alone, for callers and readers: the calls do nothing.
ghost use Rattle.onedom.specs.Laws.{EachMayFollow, OneMore, BeginningsAreLegal, OpenHasOneBegin, OnlyOpenEnds, ClosedForGood, OpenAreListed, OnePeriodRuns, EmptyInTurnMayEnd, GracePeriodLaw, CurrentIsShelved, FoundStays, ClearUntilPut, ReclaimLaw};

/// A history is legal just where each event may follow those before it, so each beginning of a legal history is legal.
pub fn legality_of_histories()
    ensures each { EachMayFollow }
    ensures one_more { OneMore }
    ensures beginnings { BeginningsAreLegal }
{}

/// In a legal history an open section has one Begin and no End, only an open section ends, and a section that was
/// closed is never open again.
pub fn sections_of_a_legal_history()
    ensures opened { OpenHasOneBegin }
    ensures ended { OnlyOpenEnds }
    ensures closed { ClosedForGood }
    ensures listed { OpenAreListed }
{}

/// In a legal history one grace period runs at most, and it may end where each of the two indexes was empty at a moment
/// since its start.
pub fn periods_of_a_legal_history()
    ensures one { OnePeriodRuns }
    ensures may_end { EmptyInTurnMayEnd }
{}

/// The law of grace periods: once a cookie is done, no section that was open when it was given is still open.
pub fn law_of_grace_periods()
    ensures { GracePeriodLaw }
{}

/// In a legal history what is current in a cell lies in its slot, what an open section found stays there, and a slot that
/// nobody can read stays so until something is put into it. A slot that was replaced is such a one after a grace period.
pub fn versions_of_a_legal_history()
    ensures current { CurrentIsShelved }
    ensures found { FoundStays }
    ensures clear { ClearUntilPut }
    ensures reclaim { ReclaimLaw }
{}
