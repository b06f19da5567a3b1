//! Where a handler stands.
ghost use Rattle.std.proofs.Common.{rules};
ghost use Rattle.std.specs.Cmp.{partial_order_from_own_ties};
ghost use Rattle.std.specs.Cmp.Rules.{comparing};
ghost use Rattle.std.specs.Ordering.{as_partial_cmp, flip_args, int_cmp, nat_cmp, on, then_cmp};

use std::cmp::Ordering;

/// What a handler is registered by. The highest priority comes first, and of one priority the lowest id.
#[derive(Clone, Copy, Debug, PartialEq, Eq)]
pub struct Rank {
    pub priority: i32,
    pub id: u64,
}

impl Ord for Rank {
    ghost cmp = { then_cmp (flip_args (on (λ r. r.priority) int_cmp)) (on (λ r. r.id) nat_cmp) };

    ghost total = { Prim.search (comparing, rules) };

    ghost matches_partial_cmp = { Prim.search (comparing, rules) };

    ghost matches_eq = { Prim.search (comparing, rules) };

    fn cmp(&self, other: &Rank) -> Ordering {
        other
            .priority
            .cmp(&self.priority)
            .then(self.id.cmp(&other.id))
    }
}

impl PartialOrd for Rank {
    ghost partial_cmp = { as_partial_cmp (then_cmp (flip_args (on (λ r. r.priority) int_cmp)) (on (λ r. r.id) nat_cmp)) };

    ghost laws = { partial_order_from_own_ties (Prim.search (comparing, rules)) (Prim.search (comparing, rules)) };

    fn partial_cmp(&self, other: &Rank) -> Option<Ordering> {
        Some(self.cmp(other))
    }
}
