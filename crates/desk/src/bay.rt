//! A bay, and how it is made.
ghost use Rattle.std.specs.Prelude.{◌≡◌, ◌+◌, ◌<◌, IfOk};
ghost use Rattle.desk.specs.BayCalls.{IsNewBay, AreNewBaySeats};
ghost use Rattle.desk.specs.BaySeats.{IsFounder, IsDealt};

use atomic_table::Table;
use plays::{BayView, Board, Place, Rule};
use seat::BaySeat;
use sections::{Home, Token};
use std::alloc::{AllocError, Allocator, Global};
use std::marker::Model;
use std::snapshot::Snapshot;
use view::Plan;

pub(crate) mod plays;
pub(crate) mod seat;
mod ties;
pub(crate) mod view;
pub(crate) mod work;

pub(crate) type BayTable<T, A> = Table<Option<T>, BayView<T>, Plan<T>, Rule<T>, A>;

/// The word while the value lies in the bay.
pub(crate) const THERE: u64 = 0;

/// The word while a seat holds the value.
pub(crate) const OUT: u64 = 1;

/// The bay's one slot.
pub(crate) const SLOT: usize = 0;

/// A value that may lie in a bay. Each that lies there is like the one that lay there first; what that says, contracts
/// alone see. So whoever finds it knows what all of them share.
pub trait Alike {
    ghost like: { Self → Self → Type 0 };
}

/// One place where a value of one domain lies, or just one seat holds it. A bay that is dropped drops what lies there.
/// Contracts see which bay it is, its domain, how many seats it has, and what lay there first.
#[derive(Drop)]
pub struct Bay<T: Token + Alike, A: Allocator = Global> {
    pub(crate) table: BayTable<T, A>,
}

impl<T: Token + Alike, A: Allocator> Model for Bay<T, A> {
    ghost use Rattle.desk.specs.BayViews.{BayView};

    ghost Value = { BayView T };

    ghost use Rattle.desk.specs.BayInsides.{view_of_bay, IsBay};

    ghost view = { view_of_bay };

    ghost invariant = { IsBay };
}

/// The bay's next seat.
fn deal<T: Token + Alike>(top: &Board<T>, dealer: &mut Place<T>, number: usize) -> BaySeat<T>
    requires there { number < top.now.key.seats }
    requires dealer { IsFounder top.now.key top.now.table_id number dealer.old }
    ensures dealer { IsFounder top.now.key top.now.table_id (number + 1) dealer.new }
    ensures dealt { IsDealt top.now.key top.now.table_id number result }
{
    BaySeat {
        seat: annals::deal(top, dealer),
    }
}

impl<T: Token + Alike + Drop, A: Allocator + Clone> Bay<T, A> {
    /// A bay for values of this domain where the value lies, and its seats in the order of their numbers. There may be
    /// no memory for it. The value is dropped then.
    pub fn new(
        alloc: A,
        value: T,
        seats: usize,
        home: Home,
    ) -> Result<(Bay<T, A>, Vec<BaySeat<T>, A>), AllocError>
        requires there { T.domain value ≡ home }
        requires alike { T.like value value }
        ensures bay { IfOk result (λ r. IsNewBay home seats value r.0) }
        ensures seats { IfOk result (λ r. AreNewBaySeats r.0 r.1.items) }
    {
        let mut dealt = Vec::with_capacity(alloc.clone()?, seats)?;
        let mut slots = Vec::with_capacity(alloc.clone()?, 1)?;
        let first = Snapshot::of(&value);
        slots.push_reserved(Some(value));
        let plan = Plan { home, seats, first };
        let Ok((table, mut dealer)) = Table::new(alloc, &[THERE], slots, &plan) else {
            return Err(AllocError);
        };
        for number in 0..seats {
            dealt.push_reserved(deal(&table.shared, &mut dealer, number));
        }
        Ok((Bay { table }, dealt))
    }
}
