//! What holds of the swaps of every desk and bay, for callers and readers: the calls do nothing.
ghost use Rattle.desk.specs.BayLaws.{OneHolds, GrowsByOne, GrowsByTwo, OneSwap, OneTurn};
ghost use Rattle.desk.specs.Forged.{NoDeskSwapIsForged, NoBaySwapIsForged};

use crate::bay::Alike;
use sections::Token;

/// The rule of a bay: behind any legal swaps the value lies there and no seat holds, or nothing lies there and just one
/// seat does. So a put finds the bay empty.
pub fn holders_of_a_bay<T: Token>()
    ensures { OneHolds T }
{}

/// Each swap has one maker. So a list in which those in hand have just the swaps that they made is no longer than
/// these: when all seats have met, one of them takes and puts back, and all meet again, the list is the old one and
/// these two swaps, and the take found what lay there.
pub fn swaps_of_a_bay<T: Token>()
    ensures one { GrowsByOne T }
    ensures two { GrowsByTwo T }
    ensures swap { OneSwap T }
    ensures turn { OneTurn T }
{}

/// What contracts see of a seat's swaps, the rules of desk and bay tie to the one list of all swaps: as long as another
/// seat is elsewhere, no seat gets a swap that it did not make by being cut in two or by taking another in.
pub fn makers_of_swaps<T: Token + Alike>()
    ensures desk { NoDeskSwapIsForged T.domain }
    ensures bay { NoBaySwapIsForged T.domain T.like }
{}
