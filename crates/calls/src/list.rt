//! The list of a processor's callbacks.
use crate::entry::{Arrival, Entry};
use crate::plays::Place;
use crate::spot::Spot;
use intake::LazyOutlet;
use keep::Keyed;
use sections::{Sight, Token};
use segs::SegList;
use std::alloc::{Allocator, Global};
use std::marker::Model;

mod gathering;
mod taking;

/// The callbacks of one processor that were queued and not taken (`struct srcu_data`'s `srcu_cblist`). They come in through
/// a line with no lock (`intake`), and are moved here before something is taken out. The list stands behind a lock, and what
/// its calls promise is said here, of the list before and after.
///
/// Its type keeps that the numbers of its entries are consecutive, that no cookie is smaller than one before it, that a
/// number waited for is at least the cookies of its entries, and that the cookie of each entry that is done was
/// reached, as somebody has seen who had the list.
#[derive(Drop)]
pub struct List<J, A: Allocator = Global> {
    pub(crate) waiting: SegList<Option<Entry<J>>, A>,
    /// Calls come out of the line here.
    pub(crate) outlet: LazyOutlet<Arrival<J>, Spot<J>, A>,
    /// As far as the one had seen who queued the last call that was moved here.
    pub(crate) given: Sight,
    /// As far as all who took something out of the list had seen then.
    pub(crate) sight: Sight,
    pub(crate) seat: Place<J>,
    pub(crate) processor: u16,
    /// How many calls were ever moved here.
    pub(crate) arrived: u64,
    /// Whether a batch is out.
    pub(crate) out: bool,
}

impl<J, A: Allocator> Model for List<J, A> {
    ghost use Rattle.calls.specs.Views.{ListView};

    ghost Value = { ListView J };

    ghost use Rattle.calls.specs.Insides.{view_of_list, IsList};

    ghost view = { view_of_list };

    ghost invariant = { IsList };
}

impl<J, A: Allocator> Token for List<J, A> {
    ghost domain = { λ l. l.sight.domain };
}

impl<J, A: Allocator> Keyed<Spot<J>> for List<J, A> {
    ghost use Rattle.calls.specs.Views.{key_of};

    ghost key = { key_of };
}
