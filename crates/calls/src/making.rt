//! New callbacks.
ghost use Rattle.std.specs.Prelude.{◌≡◌, ◌+◌, ◌<◌, ◌≤◌, ◌^◌, IfOk, vec_len, vec_capacity};
ghost use Rattle.std.specs.Arc.{arc_value};
ghost use Rattle.calls.specs.Calls.{AreMade, new_seat};
ghost use Rattle.calls.specs.Making.{NewTable, IsDealer, AreSights, IsDealt};

use crate::calls::{Calls, Lock};
use crate::list::List;
use crate::plays::{self, Place, Tallies};
use crate::refusals::Memory;
use crate::seat::CallSeat;
use crate::spot::Spot;
use crate::view::Plan;
use atomic_table::Table;
use intake::open_lazily;
use keep::Keep;
use sections::{EngineSeat, Sight};
use segs::SegList;
use std::alloc::Allocator;
use std::sync::Arc;

/// The tally words, all 0, and the seat that stands for all processors and their lists.
fn new_table<J, A: Allocator + Copy>(
    alloc: A,
    plan: Plan,
) -> Result<(Arc<Tallies<J, A>, A>, Place<J>), Memory>
    requires { plan.processors < 2 ^ 16 }
    ensures { IfOk result (λ t. let shared = (arc_value t.0).shared in NewTable plan shared.key shared.table_id t.1) }
{
    let words = vec![in alloc; 0u64; 16 * plan.processors + 8]?;
    let (table, dealer) = Table::of_words(alloc, words.as_slice(), &plan)?;
    Ok((Arc::new(alloc, table)?, dealer))
}

/// How far the engine's seat has seen: for who queues, for the list what was queued, and for who takes something out.
#[derive(Drop)]
struct Sights {
    seat: Sight,
    given: Sight,
    list: Sight,
}

/// The next processor's seat and list, with a new line between them.
fn deal<J: Drop, A: Allocator + Copy>(
    alloc: A,
    table: &Arc<Tallies<J, A>, A>,
    dealer: &mut Place<J>,
    spot: &Spot<J>,
    sights: Sights,
) -> Result<(CallSeat<J, A>, List<J, A>), Memory>
    requires there { spot.now.processor < (arc_value table.now).shared.key.processors }
    requires dealer { let shared = (arc_value table.now).shared in
        IsDealer shared.key shared.table_id spot.now.processor dealer.old }
    requires spot { let shared = (arc_value table.now).shared in
        (spot.now.tallies ≡ shared.table_id) × AreSights spot.now.domain sights }
    ensures { let shared = (arc_value table.now).shared in IfOk result (λ d.
        IsDealt shared.key shared.table_id spot.now.domain spot.now.processor d.0 d.1
        × IsDealer shared.key shared.table_id (spot.now.processor + 1) dealer.new) }
{
    let (inlet, outlet) = open_lazily(alloc, spot)?;
    let table = Arc::try_clone(table)?;
    let mut seat = table.shared.split_seat::<plays::Deal>(dealer);
    let right = table.shared.split_seat::<plays::GiveList>(&mut seat);
    let list = List {
        waiting: SegList::new(alloc),
        outlet,
        given: sights.given,
        sight: sights.list,
        seat: right,
        processor: spot.processor,
        arrived: 0,
        out: false,
    };
    let seat = CallSeat {
        table,
        seat,
        processor: spot.processor,
        queued: 0,
        inlet,
        sight: sights.seat,
    };
    Ok((seat, list))
}

/// The next processor's seat, and its list in a lock.
fn deal_locked<J: Drop, A: Allocator + Copy, B: Allocator>(
    alloc: A,
    engine: &mut EngineSeat<B>,
    table: &Arc<Tallies<J, A>, A>,
    dealer: &mut Place<J>,
    spot: &Spot<J>,
) -> Result<(CallSeat<J, A>, Lock<J, A>), Memory>
    requires there { spot.now.processor < (arc_value table.now).shared.key.processors }
    requires dealer { let shared = (arc_value table.now).shared in
        IsDealer shared.key shared.table_id spot.now.processor dealer.old }
    requires spot { (spot.now.tallies ≡ (arc_value table.now).shared.table_id) × (spot.now.domain ≡ engine.old.domain) }
    ensures seat { let shared = (arc_value table.now).shared in IfOk result (λ d.
        d.0 ≡ new_seat spot.now.domain shared.table_id shared.key.processors spot.now.processor) }
    ensures lock { IfOk result (λ d. d.1.key ≡ spot.now) }
    ensures dealer { let shared = (arc_value table.now).shared in IfOk result (λ _.
        IsDealer shared.key shared.table_id (spot.now.processor + 1) dealer.new) }
    ensures same { engine.new ≡ engine.old }
{
    let sights = Sights {
        seat: engine.sight(),
        given: engine.sight(),
        list: engine.sight(),
    };
    let (seat, list) = deal(alloc, table, dealer, spot, sights)?;
    let lock = Keep::new(alloc, alloc, list, spot)?;
    Ok((seat, lock))
}

/// Room for the seats and the locks of so many processors.
fn rooms<J: Drop, A: Allocator + Copy>(
    alloc: A,
    processors: usize,
) -> Result<(Vec<CallSeat<J, A>, A>, Vec<Lock<J, A>, A>), Memory>
    ensures seats { IfOk result (λ r. (vec_len r.0 ≡ 0) × (processors ≤ vec_capacity r.0)) }
    ensures locks { IfOk result (λ r. (vec_len r.1 ≡ 0) × (processors ≤ vec_capacity r.1)) }
{
    let seats = Vec::with_capacity(alloc, processors)?;
    let locks = Vec::with_capacity(alloc, processors)?;
    Ok((seats, locks))
}

/// The seats and the locks of all processors. Memory for these is taken first, so that there is little to give back where
/// there is none.
fn build<J: Drop, A: Allocator + Copy, B: Allocator>(
    alloc: A,
    engine: &mut EngineSeat<B>,
    processors: u16,
) -> Result<(Calls<J, A>, Vec<CallSeat<J, A>, A>), Memory>
    requires { 1 ≤ processors }
    ensures made { IfOk result (λ m. AreMade engine.old.domain processors m.0 m.1.items) }
    ensures same { engine.new ≡ engine.old }
{
    let plan = Plan {
        processors: processors as usize,
    };
    let (mut seats, mut lists) = rooms(alloc, plan.processors)?;
    let (table, mut dealer) = new_table(alloc, plan)?;
    let mut spot = Spot {
        home: engine.home(),
        seat: table.shared.split_seat::<plays::GiveNote>(&mut dealer),
        processor: 0,
    };
    for processor in 0..processors {
        spot.processor = processor;
        let (seat, lock) = deal_locked(alloc, engine, &table, &mut dealer, &spot)?;
        seats.push_reserved(seat);
        lists.push_reserved(lock);
    }
    Ok((Calls { lists }, seats))
}

impl<J: Drop, A: Allocator + Copy> Calls<J, A> {
    /// Callbacks for a domain, whose engine's seat is lent: none is queued. The seats come in the order of their
    /// processors. Where there is not enough memory, nothing is made.
    pub fn make<B: Allocator>(
        alloc: A,
        engine: &mut EngineSeat<B>,
    ) -> Result<(Calls<J, A>, Vec<CallSeat<J, A>, A>), Memory>
        ensures made { IfOk result (λ m. AreMade engine.old.domain engine.old.processors m.0 m.1.items) }
        ensures same { engine.new ≡ engine.old }
    {
        let processors = engine.processors();
        build(alloc, engine, processors)
    }
}
