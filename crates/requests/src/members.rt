//! The members of a set.
ghost use Rattle.std.specs.Prelude.{◌≡◌, ◌<◌, ◌≤◌, [], ◌∷◌, ◌++◌, length};

use std::marker::Model;

/// As many members are in a set, at most.
const MOST: usize = 8;

/// A processor of a domain, which a set has a cookie of.
#[derive(Clone, Copy, Debug, PartialEq, Eq)]
pub struct Member {
    /// The place of the domain.
    pub domain: usize,
    pub processor: u64,
}

/// At most eight members, in their order. Contracts see the list of them. It takes no memory but its own.
#[derive(Clone, Copy, PartialEq, Eq)]
pub struct Members {
    /// The members, and behind them as many blank ones as there is room for.
    members: [Member; MOST],
    count: usize,
}

impl Model for Members {
    ghost use Rattle.std.specs.Prelude.{List, length, take};
    ghost use Rattle.requests.specs.declared.members.Member.{Member};
    ghost use Rattle.requests.specs.Members.{ArePadded, padded, padded_again};

    ghost Value = { List Member };

    ghost view = { λ m. take m.count m.members };

    ghost invariant = { λ m. ArePadded m.count m.members };

    ghost inverse = { λ members. record { members = padded members; count = length members } };

    ghost inverse_ok = { λ m h. padded_again m.count m.members h };
}

impl Members {
    /// No member.
    pub fn new() -> Members
        ensures { result ≡ [] }
    {
        let blank = Member {
            domain: 0,
            processor: 0,
        };
        Members {
            members: [blank; MOST],
            count: 0,
        }
    }

    /// Puts a member behind those that are there. They are fewer than eight.
    pub fn push(&mut self, member: Member)
        requires { length self.old < 8 }
        ensures { self.new ≡ self.old ++ member ∷ [] }
    {
        self.members[self.count] = member;
        self.count += 1;
    }

    /// The members, in their order.
    pub fn as_slice(&self) -> &[Member]
        ensures is { result.now ≡ self.now }
        ensures fits { length result.now ≤ 8 }
    {
        &self.members[..self.count]
    }
}
