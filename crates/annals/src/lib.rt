//! One log of what was done at a table: who made which entry, how much of it each seat has seen, and the rule that ties
//! both to the table's words, over a rule of the caller's.
#![tactic(auto)]

mod plays;
mod rule;
mod seat;
mod view;

pub use plays::{Admit, Cover, Deal, GiveToken, TakeToken};
pub use rule::{Annals, Chronicle};
pub use seat::{Board, Place, admit, cover, deal, tell};
pub use view::{Role, View};
