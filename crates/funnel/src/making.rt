//! A new tree.
ghost use Rattle.std.specs.Prelude.{◌≡◌, ◌+◌, ◌^◌, ◌<◌, ◌≤◌, IfOk};
ghost use Rattle.std.specs.Arc.{arc_value};
ghost use Rattle.funnel.specs.declared.view.Holder.TheVariants.{Processor};
ghost use Rattle.funnel.specs.Tree.{IsLeast, LeavesAreThere};
ghost use Rattle.funnel.specs.Calls.{new_seat, AreOfProcessors};
ghost use Rattle.funnel.specs.Making.{IsTree, IsFounder, IsMade, IsMadeOf};

use crate::seat::{FunnelSeat, Nodes, Place};
use crate::view::{Holder, Shape};
use atomic_table::Table;
use std::alloc::{AllocError, Allocator};
use std::sync::Arc;

/// There was not enough memory.
pub type Memory = AllocError;

/// The least tree in which each leaf has at most four processors, and each other node four children.
pub(crate) fn nodes_for(processors: usize) -> usize
    requires { processors ≤ 2 ^ 16 }
    ensures least { IsLeast processors result }
    ensures leaves { LeavesAreThere processors result }
    ensures few { result < 2 ^ 17 }
{
    let mut nodes = 1;
    let mut room = 4;
    while room < processors {
        nodes = 4 * nodes + 1;
        room = 4 * room;
    }
    nodes
}

/// The words of a new tree, all 0, and the seat that stands for all of its holders.
fn new_table<A: Allocator + Clone>(alloc: A, shape: Shape) -> Result<(Nodes<A>, Place), AllocError>
    requires { IsTree shape }
    ensures { IfOk result (λ t. IsFounder shape t.0.shared.key t.0.shared.table_id 0 t.1) }
{
    let words = vec![in alloc.clone()?; 0u64; 16 * shape.nodes]?;
    Table::of_words(alloc, words.as_slice(), &shape)
}

/// The next processor.
fn deal<A: Allocator>(
    table: &Arc<Nodes<A>, A>,
    seat: &mut Place,
    processor: u16,
    shape: Shape,
) -> Result<FunnelSeat<A>, AllocError>
    requires tree { IsTree shape × (processor < shape.processors) }
    requires next { let shared = (arc_value table.now).shared in
        IsFounder shape shared.key shared.table_id processor seat.old }
    ensures { let shared = (arc_value table.now).shared in IfOk result (λ s.
        (s ≡ new_seat seat.old.table_id shape (Processor processor))
        × IsFounder shape shared.key shared.table_id (processor + 1) seat.new) }
{
    let table = Arc::try_clone(table)?;
    let dealt = annals::deal(&table.shared, seat);
    Ok(FunnelSeat {
        table,
        seat: dealt,
        holder: Holder::Processor(processor),
        nodes: shape.nodes,
    })
}

fn build<A: Allocator + Clone>(
    alloc: A,
    shape: Shape,
) -> Result<(Vec<FunnelSeat<A>, A>, FunnelSeat<A>), Memory>
    requires { IsTree shape }
    ensures { IfOk result (λ m. IsMadeOf shape m.0.items m.1) }
{
    let (table, mut seat) = new_table(alloc.clone()?, shape)?;
    let table = Arc::new(alloc.clone()?, table)?;
    let mut seats = Vec::with_capacity(alloc, shape.processors)?;
    for processor in 0..shape.processors {
        seats.push(deal(&table, &mut seat, processor as u16, shape)?)?;
    }
    let engine = FunnelSeat {
        table,
        seat,
        holder: Holder::Engine,
        nodes: shape.nodes,
    };
    Ok((seats, engine))
}

/// Makes a tree for so many processors (`init_srcu_struct_nodes`), of which each node holds 0: a seat for each processor,
/// in the order of their numbers, and one for the engine. There are at most 2^16 processors. Where there is not enough
/// memory, nothing is made.
pub fn make<A: Allocator + Clone>(
    alloc: A,
    processors: usize,
) -> Result<(Vec<FunnelSeat<A>, A>, FunnelSeat<A>), Memory>
    requires { processors ≤ 2 ^ 16 }
    ensures made { IfOk result (λ m. IsMade processors m.0.items m.1) }
    ensures seats { IfOk result (λ m. AreOfProcessors m.0.items) }
{
    let shape = Shape {
        processors,
        nodes: nodes_for(processors),
    };
    build(alloc, shape)
}
