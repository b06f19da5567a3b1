//! The rule of a vault's table, and what each of its steps tells.
use crate::key::Tally;
use crate::pile::Pile;
use atomic_table::{Play, Split, TableRule};

/// The rule: each place has one key, which knows what lies there.
pub(crate) struct Places;

impl<T> TableRule<Option<Pile<T>>, Tally, u64> for Places {
    ghost use Rattle.vault.specs.Rule.{Vaulted, dealer};

    ghost holds = { λ _. Vaulted };

    ghost first = { dealer };
}

/// The step that opens the place of a key.
pub(crate) struct Open;

impl<T> Play<Option<Pile<T>>, Tally> for Open {
    ghost use Rattle.vault.specs.Rule.{opened};

    ghost then = { opened };
}

/// The step that shuts it.
pub(crate) struct Shut;

impl<T> Play<Option<Pile<T>>, Tally> for Shut {
    ghost use Rattle.vault.specs.Rule.{shut};

    ghost then = { shut };
}

/// How the next key is cut from what deals them.
pub(crate) struct Deal;

impl Split<Tally> for Deal {
    ghost use Rattle.vault.specs.Rule.{one_less, next_key};

    ghost left = { one_less };

    ghost right = { next_key };
}
