//! The steps on the tree: the climb to the root, and the loads of it.
ghost use Rattle.std.specs.Prelude.{◌≡◌, ◌^◌, ◌<◌, ◌≤◌};
ghost use Rattle.sseq.specs.Numbers.{IsNumber};
ghost use Rattle.annals.specs.declared.view.Role.TheVariants.{Sits};
ghost use Rattle.funnel.specs.declared.view.Call.TheVariants.{Idle};
ghost use Rattle.funnel.specs.Tree.{leaf_of, word_of};
ghost use Rattle.funnel.specs.Histories.{IsBeginning, MayRaise};
ghost use Rattle.funnel.specs.Plays.{Raised, FindsRoot};
ghost use Rattle.funnel.specs.Seats.{IsPlaced, IsSeated, IsAtRest, IsInTree, HasHolder, Climbs, Covers, Accepts, IsSameSeat};

use super::{Board, Level, Place};
use crate::plays;

/// Where a node stands. Each node has a stride of 16 words, so that no two of them share a cache line of 64 bytes,
/// wherever the table begins.
pub(crate) fn place_of(node: usize) -> usize
    requires { node < 2 ^ 32 }
    ensures { result ≡ word_of node }
{
    16 * node
}

/// Where the root stands.
const ROOT_PLACE: usize = 0;

/// The leaf at which a processor asks: four processors have one.
pub(crate) fn leaf_of(nodes: usize, processor: u16) -> usize
    requires { 1 ≤ nodes }
    ensures { result ≡ leaf_of nodes processor }
{
    (nodes - 1) / 4 + processor as usize / 4
}

/// One `fetch_max` of the node, and what it held before.
fn raise(top: &Board, seat: &mut Place, processor: u16, node: usize, number: u64) -> u64
    requires placed { IsPlaced top.now.key top.now.table_id seat.old }
    requires there { (node < top.now.key.nodes) × (node < 2 ^ 32) }
    requires role { (seat.old.me.0.role ≡ Sits processor) × (processor < top.now.key.processors) }
    requires next { MayRaise (leaf_of top.now.key.nodes processor) seat.old.me.0.client.call node number }
    requires number { IsNumber number }
    ensures placed { IsPlaced top.now.key top.now.table_id seat.new }
    ensures raised { Raised processor node number result seat.old.me.0 seat.new.me.0 }
{
    top.fetch_max::<plays::RaiseNode>(seat, place_of(node), number)
}

/// From the leaf to the root, one `fetch_max` at each node. A node that holds the number already was raised by a call
/// that has gone on to the parent, or is about to, so there is no more to do above it.
pub(crate) fn climb(
    top: &Board,
    seat: &mut Place,
    processor: u16,
    leaf: usize,
    number: u64,
) -> Level
    requires placed { IsPlaced top.now.key top.now.table_id seat.old }
    requires role { (seat.old.me.0.role ≡ Sits processor) × IsInTree top.now.key processor }
    requires idle { seat.old.me.0.client.call ≡ Idle }
    requires leaf { leaf ≡ leaf_of top.now.key.nodes processor }
    requires number { IsNumber number }
    ensures placed { IsPlaced top.now.key top.now.table_id seat.new }
    ensures climbs { Climbs processor leaf number seat.old.me.0 result seat.new.me.0 }
{
    let mut node = leaf;
    let mut nodes = 0;
    'climb: loop {
        nodes += 1;
        if raise(top, seat, processor, node, number) >= number {
            return Level { nodes, found: true };
        }
        if node == 0 {
            return Level {
                nodes,
                found: false,
            };
        }
        node = (node - 1) / 4;
    }
}

/// The root, as one load finds it.
pub(crate) fn load_root(top: &Board, seat: &mut Place) -> u64
    requires placed { IsPlaced top.now.key top.now.table_id seat.old }
    requires holder { HasHolder seat.old.me.0 }
    ensures placed { IsPlaced top.now.key top.now.table_id seat.new }
    ensures root { FindsRoot result seat.old.me.0 seat.new.me.0 }
{
    top.load::<plays::LoadRoot>(seat, ROOT_PLACE)
}

/// One load of the root by the first seat, which then covers what the second has seen.
pub(crate) fn cover(top: &Board, first: &mut Place, second: &mut Place)
    requires first { IsPlaced top.now.key top.now.table_id first.old × HasHolder first.old.me.0 }
    requires second { IsSeated top.now.table_id second.old }
    ensures placed { IsPlaced top.now.key top.now.table_id first.new }
    ensures first { Covers first.old.me.0 second.old.me.0 first.new.me.0 }
    ensures second { IsSameSeat second.old second.new }
{
    annals::tell(top, first, second);
    top.load::<plays::LoadRoot>(first, ROOT_PLACE);
}

/// One load of the root by the first seat, which shows that it raised no node that the second has not seen. So it may
/// see just as much as the second.
pub(crate) fn admit(top: &Board, first: &mut Place, second: &mut Place)
    requires first { IsPlaced top.now.key top.now.table_id first.old × HasHolder first.old.me.0 }
    requires rests { IsAtRest first.old.me.0 }
    requires second { IsSeated top.now.table_id second.old }
    requires covered { IsBeginning first.old.me.0.seen second.old.me.0.seen }
    ensures placed { IsPlaced top.now.key top.now.table_id first.new }
    ensures first { Accepts first.old.me.0 second.old.me.0 first.new.me.0 }
    ensures second { IsSameSeat second.old second.new }
{
    annals::tell(top, first, second);
    top.load::<plays::Admit>(first, ROOT_PLACE);
}
