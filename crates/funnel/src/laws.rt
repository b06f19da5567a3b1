//! What holds of every tree of needs, for callers and readers: the calls do nothing.
ghost use Rattle.funnel.specs.Laws.{OneHistory, NoStepIsForged, NeedsClimb, HoldsWhatWasAsked, RootHasGreatest};

/// Between any two steps of any threads there is one legal history, the nodes hold what it says, each load of the root found
/// what the root held, and what each seat has seen is a beginning of it. A node holds 0 or a number that was asked through
/// a processor below it, and its parent holds as much, or a call is on its way there. And no split or join gives any
/// seat a load of the root that was not made, as long as another holder has a seat elsewhere.
pub fn tree_of_a_funnel()
    ensures history { OneHistory }
    ensures forged { NoStepIsForged }
{}

/// The same of every legal history. And where no call is on its way, the root holds the greatest number that was asked.
pub fn needs_of_a_tree()
    ensures asked { HoldsWhatWasAsked }
    ensures climb { NeedsClimb }
    ensures root { RootHasGreatest }
{}
