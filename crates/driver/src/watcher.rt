//! Who looks at a driver after each of its rounds.
use crate::counts::Came;
use domain::Domain;
use std::alloc::Allocator;

/// Looks at a driver after each of its rounds. It has nothing of the driver's: so whoever looks, the driver does the same.
pub trait Watcher<J, A: Allocator> {
    ghost use Rattle.domain.specs.Views.{DomainView};

    /// Whether it may look at a driver of this domain.
    ghost watches: { DomainView → Self → Type 0 };

    fn look(&mut self, domain: &Domain<J, A>, came: &Came)
        requires { watches domain.now self.old }
        ensures { watches domain.now self.new };
}

/// No watcher at all.
#[derive(Drop)]
pub struct Unwatched;

impl<J, A: Allocator> Watcher<J, A> for Unwatched {
    ghost watches = { λ _ _. Unit };

    fn look(&mut self, _domain: &Domain<J, A>, _came: &Came) {}
}
