//! What a job that comes in has to be, behind those that came before it.
use super::Arrival;
use crate::spot::Spot;
use intake::Item;

impl<J> Item<Spot<J>> for Arrival<J> {
    ghost use Rattle.calls.specs.Arrivals.{Follows};

    ghost follows = { Follows };
}
