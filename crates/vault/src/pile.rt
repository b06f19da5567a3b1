//! Parts that were counted.
ghost use Rattle.std.specs.Prelude.{◌≡◌, ◌+◌, ◌-◌, ◌<◌, ◌≤◌, ◌^◌};

use parts::Part;

/// Parts of one box, with their count as a number that code can read. Of a [`Part`] contracts alone see it.
#[derive(Drop)]
pub struct Pile<T> {
    /// All of the parts, in one.
    pub part: Part<T>,
    /// How many they are: 1 to 2^63.
    pub count: u64,
    pub ghost counted: { count ≡ part.count },
    pub ghost some: { 0 < count },
}

impl<T> Pile<T> {
    /// Cuts off `count` parts, at least one and fewer than there are. Returns the other parts, and these.
    pub(crate) fn split(self, count: u64) -> (Pile<T>, Part<T>)
        requires { (0 < count) × (count < self.count) }
        ensures rest { result.0.part ≡ record self.part { count = self.part.count - count } }
        ensures part { result.1 ≡ record self.part { count = count } }
    {
        let Pile {
            mut part,
            count: all,
        } = self;
        let cut = part.split(count);
        let rest = Pile {
            part,
            count: all - count,
        };
        (rest, cut)
    }

    /// One pile of two of the same round.
    pub(crate) fn join(self, more: Pile<T>) -> Pile<T>
        requires { more.part.round ≡ self.part.round }
        ensures { result.part ≡ record self.part { count = self.part.count + more.part.count } }
    {
        let Pile { mut part, count } = self;
        let Pile {
            part: other,
            count: others,
        } = more;
        part.join(other);
        Pile {
            part,
            count: count + others,
        }
    }
}
