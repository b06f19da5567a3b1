//! Steps on a seat, which several calls share.
ghost use Rattle.std.specs.Prelude.{◌≡◌, ◌<◌, ◌≤◌, true, false};
ghost use Rattle.sseq.specs.Numbers.{IsCookieNumber};
ghost use Rattle.onedom.specs.Histories.{IsBeginning};
ghost use Rattle.sections.specs.declared.view.Role.TheVariants.{Cpu};
ghost use Rattle.sections.specs.Words.{index_word, locks};
ghost use Rattle.sections.specs.declared.view.Right.TheVariants.{Nothing};
ghost use Rattle.sections.specs.Seats.{IsPlaced, BeginsSection, NotesNumber, AsksNumber, Covers, Accepts, NotesShown, IsOfProcessor, IsOfMaker, IsFreeAt, IsSameSeat};
ghost use Rattle.sections.specs.Insides.{IsAtRest};

use crate::board::{Board, DomainSeat, INDEX_PLACE, NUMBER_PLACE, place_of_lock};
use crate::plays;
use crate::plays::Asked;
use sseq::{COMPLETED, Index, Number};

/// Adds 1 to the processor's lock counter of the index, and cuts off a token with the right to end the section.
pub(crate) fn begin_section(
    top: &Board,
    seat: &mut DomainSeat,
    processor: u16,
    index: Index,
) -> DomainSeat
    requires placed { IsPlaced top.now.key top.now.table_id seat.old }
    requires role { seat.old.me.0.role ≡ Cpu processor }
    requires there { processor < top.now.key.processors }
    requires room { locks processor index seat.old.me.0.mine < top.now.key.sections }
    requires free { seat.old.me.0.right ≡ Nothing }
    ensures { BeginsSection false processor index seat.old seat.new result }
{
    top.fetch_add::<plays::Lock>(seat, place_of_lock(processor, index), 1);
    top.split_seat::<plays::GiveToken>(seat)
}

/// The same for a section that may end on any processor.
pub(crate) fn begin_held(
    top: &Board,
    seat: &mut DomainSeat,
    processor: u16,
    index: Index,
) -> DomainSeat
    requires placed { IsPlaced top.now.key top.now.table_id seat.old }
    requires role { seat.old.me.0.role ≡ Cpu processor }
    requires there { processor < top.now.key.processors }
    requires room { locks processor index seat.old.me.0.mine < top.now.key.sections }
    requires free { seat.old.me.0.right ≡ Nothing }
    ensures { BeginsSection true processor index seat.old seat.new result }
{
    top.fetch_add::<plays::LockHeld>(seat, place_of_lock(processor, index), 1);
    top.split_seat::<plays::GiveToken>(seat)
}

/// Loads the number, and notes the cookie of it.
pub(crate) fn note_number(top: &Board, seat: &mut DomainSeat) -> Number
    requires placed { IsPlaced top.now.key top.now.table_id seat.old }
    requires role { IsOfProcessor top.now.key.processors seat.old.me.0 }
    ensures { NotesNumber seat.old result seat.new }
{
    let found = top.load::<plays::NoteNumber>(seat, NUMBER_PLACE);
    Number::new(found).unwrap()
}

/// Loads the number, and tells whether the cookie is done. The completed one is, whatever the number.
pub(crate) fn ask_number<Q: Asked>(top: &Board, seat: &mut DomainSeat, cookie: u64) -> bool
    requires cookie { (cookie ≡ Q.cookie) × IsCookieNumber cookie }
    requires placed { IsPlaced top.now.key top.now.table_id seat.old }
    requires role { IsOfProcessor top.now.key.processors seat.old.me.0 }
    ensures { AsksNumber cookie seat.old result seat.new }
{
    let found = top.load::<plays::AskNumber<Q>>(seat, NUMBER_PLACE);
    cookie == COMPLETED || found >= cookie
}

/// One load of the index word by the first seat, which then covers what the second has seen. Returns the word.
pub(crate) fn cover(top: &Board, first: &mut DomainSeat, second: &mut DomainSeat) -> u64
    requires first { IsPlaced top.now.key top.now.table_id first.old × IsAtRest first.old.me.0 }
    requires second { IsFreeAt top.now.table_id second.old }
    requires maker { IsOfMaker first.old.me.0 }
    ensures placed { IsPlaced top.now.key top.now.table_id first.new }
    ensures first { Covers first.old.me.0 second.old.me.0 first.new.me.0 }
    ensures word { result ≡ index_word first.new.me.0.changes }
    ensures second { IsSameSeat second.old second.new }
{
    let token = top.split_seat::<plays::GiveToken>(second);
    top.join_seat::<plays::TakeToken>(first, token);
    top.load::<plays::LoadIndex>(first, INDEX_PLACE)
}

/// One load of the index word by the first seat, which shows that it made no event that the second has not seen.
/// So it may see just as much as the second.
pub(crate) fn accept(top: &Board, first: &mut DomainSeat, second: &mut DomainSeat)
    requires first { IsPlaced top.now.key top.now.table_id first.old × IsAtRest first.old.me.0 }
    requires second { IsPlaced top.now.key top.now.table_id second.old × IsAtRest second.old.me.0 }
    requires role { IsOfProcessor top.now.key.processors first.old.me.0 }
    requires covered { IsBeginning first.old.me.0.seen second.old.me.0.seen × (first.old.me.0.changes ≤ second.old.me.0.changes) }
    ensures placed { IsPlaced top.now.key top.now.table_id first.new }
    ensures first { Accepts first.old.me.0 second.old.me.0 first.new.me.0 }
    ensures second { IsSameSeat second.old second.new }
{
    let token = top.split_seat::<plays::Show>(second);
    top.join_seat::<plays::Hear>(first, token);
    top.load::<plays::Admit>(first, INDEX_PLACE);
}

/// The first seat notes how many changes the processor of the second has seen. From then on the rule keeps that it has.
pub(crate) fn note_shown(top: &Board, first: &mut DomainSeat, second: &mut DomainSeat)
    requires first { IsPlaced top.now.key top.now.table_id first.old × (first.old.me.0.right ≡ Nothing) }
    requires second { IsPlaced top.now.key top.now.table_id second.old }
    ensures first { NotesShown second.old.me.0 first.old first.new }
    ensures second { IsSameSeat second.old second.new }
{
    let token = top.split_seat::<plays::Show>(second);
    top.join_seat::<plays::NoteShown>(first, token);
}
