//! Seats of the table, and what two of them do.
ghost use Rattle.std.specs.Prelude.{◌≡◌, ◌<◌, []};
ghost use Rattle.annals.specs.declared.view.Role.TheVariants.{Dealer};
ghost use Rattle.annals.specs.Logs.{IsBeginning};
ghost use Rattle.annals.specs.Rule.{number_of, dealer, dealt, informed};
ghost use Rattle.annals.specs.Plays.{Covers, Accepts, IsSeated, IsSameSeat};

use crate::plays;
use crate::rule::{Annals, Chronicle};
use crate::view::View;
use atomic_table::{Seat, Shared};

pub type Place<S, E, D, C> = Seat<S, View<E, D, C>>;

pub type Board<S, E, D, C, K, P> = Shared<S, View<E, D, C>, K, Annals<P>>;

/// The next seat, for which the dealer no longer stands.
pub fn deal<S, E, D, C, K, P: Chronicle<S, E, D, C, K>>(
    top: &Board<S, E, D, C, K, P>,
    seat: &mut Place<S, E, D, C>,
) -> Place<S, E, D, C>
    requires seat { IsSeated top.now.table_id seat.old }
    requires dealer { seat.old.me.0.role ≡ Dealer (number_of seat.old.me.0.role) }
    requires may { P.client.may_deal top.now.key (number_of seat.old.me.0.role) }
    ensures table { (seat.new.table_id ≡ seat.old.table_id) × (result.table_id ≡ seat.old.table_id) }
    ensures dealer { seat.new.me ≡ (dealer seat.old.me.0, seat.old.me.1) }
    ensures dealt { result.me ≡ (dealt P.client seat.old.me.0, []) }
{
    top.split_seat::<plays::Deal<S, K, P>>(seat)
}

/// What the second seat has seen is told to the first, whose next step covers it. The caller's rule says what else this step
/// does.
pub fn tell<S, E, D, C, K, P: Chronicle<S, E, D, C, K>>(
    top: &Board<S, E, D, C, K, P>,
    first: &mut Place<S, E, D, C>,
    second: &mut Place<S, E, D, C>,
)
    requires first { IsSeated top.now.table_id first.old }
    requires second { IsSeated top.now.table_id second.old }
    ensures table { first.new.table_id ≡ first.old.table_id }
    ensures told { first.new.me ≡ (informed first.old.me.0 second.old.me.0, first.old.me.1) }
    ensures second { IsSameSeat second.old second.new }
{
    let token = top.split_seat::<plays::GiveToken<S, K, P>>(second);
    top.join_seat::<plays::TakeToken<S, K, P>>(first, token);
}

/// One load of the word by the first seat, which has then seen all that the second has.
pub fn cover<S, E, D, C, K, P: Chronicle<S, E, D, C, K>>(
    top: &Board<S, E, D, C, K, P>,
    first: &mut Place<S, E, D, C>,
    second: &mut Place<S, E, D, C>,
    word: usize,
)
    requires first { IsSeated top.now.table_id first.old }
    requires second { IsSeated top.now.table_id second.old }
    requires word { word < top.now.table_id.words }
    ensures table { first.new.table_id ≡ first.old.table_id }
    ensures covers { Covers P.client first.old.me second.old.me.0.seen first.new.me }
    ensures second { IsSameSeat second.old second.new }
{
    tell(top, first, second);
    top.load::<plays::Cover<K, P>>(first, word);
}

/// One load of the word by the first seat, which has then seen just what the second has. What it had seen, the second had
/// seen before.
pub fn admit<S, E, D, C, K, P: Chronicle<S, E, D, C, K>>(
    top: &Board<S, E, D, C, K, P>,
    first: &mut Place<S, E, D, C>,
    second: &mut Place<S, E, D, C>,
    word: usize,
)
    requires first { IsSeated top.now.table_id first.old }
    requires second { IsSeated top.now.table_id second.old }
    requires covered { IsBeginning first.old.me.0.seen second.old.me.0.seen }
    requires word { word < top.now.table_id.words }
    ensures table { first.new.table_id ≡ first.old.table_id }
    ensures accepts { Accepts P.client first.old.me second.old.me.0.seen first.new.me }
    ensures second { IsSameSeat second.old second.new }
{
    tell(top, first, second);
    top.load::<plays::Admit<K, P>>(first, word);
}
