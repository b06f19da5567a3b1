//! A chain with what reads there.
ghost use Rattle.std.specs.Prelude.{◌≡◌, ◌^◌, ◌≤◌, []};

use domain::Writer;
use notify::{Chain, ChainView};
use std::marker::Model;

/// A notifier chain of a domain in one hand: who changes it, and what reads there. Contracts see the chain.
#[derive(Drop)]
pub struct Notifier {
    pub(crate) chain: Chain,
    pub(crate) view: ChainView,
}

impl Model for Notifier {
    ghost use Rattle.notify.specs.Chains.{ChainState};

    ghost Value = { ChainState };

    ghost use Rattle.solo.specs.Notifiers.{view_of_notifier, IsNotifier};

    ghost view = { view_of_notifier };

    ghost invariant = { IsNotifier };
}

impl Notifier {
    /// A chain without blocks, in a cell to which nothing is put. Blocks have ids below `ids`.
    pub fn new(writer: Writer, ids: u64) -> Notifier
        requires { ids ≤ 2 ^ 32 }
        ensures { result ≡ record { writer = writer; ids = ids; blocks = [] } }
    {
        let (chain, view) = Chain::new(writer, ids);
        Notifier { chain, view }
    }
}
