//! What lies behind the lock of a stock.
ghost use Rattle.std.specs.Prelude.{◌≡◌};

use crate::trail::Lies;
use std::alloc::Allocator;
use std::marker::PhantomData;

/// A value that may lie in a stock, by this rule: a name that the user's crate declares. Contracts alone see what is declared
/// here.
pub trait Stocked<K, M> {
    /// Whether the value fits a stock of this key.
    ghost fits: { K → Self → Type 0 };
}

/// Those that are at home.
#[derive(Drop)]
pub struct Shelf<X, M, A: Allocator> {
    pub(crate) items: Vec<X, A>,
    pub(crate) marker: PhantomData<M>,
}

impl<X, M, A: Allocator> Shelf<X, M, A> {
    /// These are.
    pub(crate) fn of(items: Vec<X, A>) -> Shelf<X, M, A>
        ensures { result.items ≡ items }
    {
        Shelf {
            items,
            marker: PhantomData,
        }
    }
}

impl<X: Stocked<K, M>, K, M, A: Allocator> Lies<K, usize> for Shelf<X, M, A> {
    ghost use Rattle.std.specs.Prelude.{All, length};

    ghost fits = { λ key shelf. All (X.fits key) shelf.items.items };

    ghost state = { λ shelf. length shelf.items.items };

    ghost goes = { λ found next. Unit {0} };
}
