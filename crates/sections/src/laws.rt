//! What holds of the words of every domain, for callers and readers: the calls do nothing.
ghost use Rattle.sections.specs.Laws.{OneHistory, ShownIsSeen, WordsAgree, NoStepIsForged, NoTextIsForged, EqualSumsAreEmpty, FewerEndsShowOne, CountersAddUp, CountersGrow};

/// Between any two steps of any threads there is one legal history, the words of the domain agree with it, and what each
/// seat has seen is a beginning of it. The words of the cells tell the last Put of each, the slots that somebody can read
/// have the texts of their versions, and two seats that have seen a Put know one text of it. `changes` tell the number and
/// the index word.
pub fn words_of_a_domain()
    ensures history { OneHistory }
    ensures words { WordsAgree }
    ensures shown { ShownIsSeen }
{}

/// A load leaves no mark in the words, so what a processor or the engine says of its loads rests on the rule alone: as
/// long as there is a maker that has a seat elsewhere, no seat gets a step that it did not make by being cut in two or by
/// taking another in. Where that maker is a processor, no seat gets to see an event of its own that it did not make: a
/// load of the number is an event. And where there is such a processor, a seat that comes out of a cut or has taken another
/// in knows one text for each Put that it has seen and no other, each that of a version which was put.
pub fn steps_of_a_domain()
    ensures steps { NoStepIsForged }
    ensures texts { NoTextIsForged }
{}

/// The argument of a scan: as many sections of an index have ended as were begun just where none is open, and the
/// counters only grow.
pub fn sums_of_a_domain()
    ensures empty { EqualSumsAreEmpty }
    ensures one { FewerEndsShowOne }
    ensures grow { CountersGrow }
{}

/// The argument of a count of all sections: those that are open are the locks less the unlocks.
pub fn totals_of_a_domain()
    ensures { CountersAddUp }
{}
