//! New writers.
ghost use Rattle.std.specs.Prelude.{◌≡◌, ◌<◌, ◌≤◌, Some, replicate};
ghost use Rattle.sections.specs.Words.{cells_in};
ghost use Rattle.sections.specs.Pens.{IsWide, DealsPens, DealsPen};
ghost use Rattle.sections.specs.Dealing.{new_writer};

use super::{Standing, Writer};
use crate::board::{Board, DomainSeat};
use crate::plays;
use crate::token::Home;

// The domain of the seat, which stays as it is.
fn home_of(top: &Board, seat: &mut DomainSeat) -> Option<Home>
    requires { (seat.old.table_id ≡ top.now.table_id) × (0 < top.now.table_id.words) }
    ensures home { result ≡ Some seat.old.table_id }
    ensures seat { (seat.new.table_id ≡ seat.old.table_id) × (seat.new.me ≡ seat.old.me) }
{
    let seat = top.split_seat::<plays::Show>(seat);
    Some(Home { seat })
}

// One for each slot.
fn homes_of(top: &Board, seat: &mut DomainSeat) -> [Option<Home>; 8]
    requires { (seat.old.table_id ≡ top.now.table_id) × (0 < top.now.table_id.words) }
    ensures homes { result ≡ replicate 8 (Some seat.old.table_id) }
    ensures seat { (seat.new.table_id ≡ seat.old.table_id) × (seat.new.me ≡ seat.old.me) }
{
    [
        home_of(top, seat),
        home_of(top, seat),
        home_of(top, seat),
        home_of(top, seat),
        home_of(top, seat),
        home_of(top, seat),
        home_of(top, seat),
        home_of(top, seat),
    ]
}

/// The writer of the next cell: slot 0 is current there with all words 0, and the others are blank.
pub(crate) fn deal_writer(top: &Board, seat: &mut DomainSeat, cell: usize, slots: usize) -> Writer
    requires wide { IsWide top.now.key top.now.table_id }
    requires seat { DealsPens top.now.table_id cell seat.old }
    requires cell { cell < cells_in top.now.table_id }
    requires slots { (2 ≤ slots) × (slots ≤ 8) }
    ensures seat { DealsPen cell seat.old seat.new }
    ensures writer { result ≡ new_writer seat.old.table_id cell slots }
{
    let mut pen = top.split_seat::<plays::DealPen>(seat);
    let homes = homes_of(top, &mut pen);
    Writer {
        seat: pen,
        cell,
        slots,
        version: 0,
        current: 0,
        standings: [
            Standing::Current,
            Standing::Blank,
            Standing::Blank,
            Standing::Blank,
            Standing::Blank,
            Standing::Blank,
            Standing::Blank,
            Standing::Blank,
        ],
        homes,
    }
}
