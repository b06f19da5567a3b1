//! Values that come and go.
ghost use Rattle.std.specs.Prelude.{◌≡◌, ℕ, ◌<◌, ◌+◌, ◌∷◌, List, All, IfOk, MatchResult, length, vec_len, vec_capacity};
ghost use Rattle.trail.specs.Stocks.{IsOut, IsEmpty, IsHome, AreHome, AreAll, IsMissing};

use crate::shelf::{Shelf, Stocked};
use crate::trail::{Loan, Sight, Trail};
use std::alloc::{AllocError, Allocator, Global};
use std::marker::Model;
use std::sync::Wait;
use std::thread::yield_now;

/// Values that threads take for a while and give back, behind one lock. Contracts see which stock it is, its key, which each
/// value fits by the rule M, and how many values were put in. How many are at home at a moment is seen by whoever comes to it.
///
/// The calls that take a value out and put it back can't drop one: the type of the values need not be one that may be.
#[derive(Drop)]
pub struct Stock<X: Stocked<K, M>, K, M, A: Allocator = Global> {
    pub(crate) trail: Trail<Shelf<X, M, A>, K, usize, A>,
    pub(crate) count: usize,
}

impl<X: Stocked<K, M>, K, M, A: Allocator> Model for Stock<X, K, M, A> {
    ghost use Rattle.trail.specs.Views.{StockView};

    ghost Value = { StockView K };

    ghost use Rattle.trail.specs.Insides.{view_of_stock};

    ghost view = { view_of_stock };
}

/// The values that a fill hands out, and what was then seen of the stock.
pub type Filled<X, K, A> = (Vec<X, A>, Sight<K, usize>);

/// A value of a stock is out. It can't be dropped: it ends in [`Stock::give`]. Contracts see of which stock, and how many were
/// at home when it was taken. It has no bytes.
pub struct Out<K> {
    sight: Sight<K, usize>,
}

impl<K> Model for Out<K> {
    ghost use Rattle.trail.specs.Views.{SightView};
    ghost use Rattle.std.specs.Prelude.{ℕ};

    ghost Value = { SightView ℕ };

    ghost use Rattle.trail.specs.Insides.{view_of_out};

    ghost view = { view_of_out };
}

impl<X: Stocked<K, M> + Drop, K, M, A: Allocator + Copy> Stock<X, K, M, A> {
    /// A stock in which nothing is. `other` gives the memory for a moment, `alloc` for good.
    pub fn new<B: Allocator>(alloc: A, other: B, key: &K) -> Result<Stock<X, K, M, A>, AllocError>
        ensures { IfOk result (λ stock. (stock.key ≡ key.now) × (stock.count ≡ 0)) }
    {
        let shelf = Shelf::of(Vec::new(alloc));
        let trail = Trail::new(alloc, other, shelf, key)?;
        Ok(Stock { trail, count: 0 })
    }

    /// Takes all values out for good, where as many are at home as were put in. Else the stock comes back as it was, with what
    /// was seen of it.
    pub fn close<R: Wait>(self, rt: &R) -> Result<Vec<X, A>, (Stock<X, K, M, A>, Sight<K, usize>)>
        ensures { MatchResult result
            (λ items. AreAll (X.fits self.key) self items.items)
            (λ back. (back.0 ≡ self) × IsMissing self back.1) }
    {
        let (shelf, loan) = self.trail.take(rt);
        if shelf.items.len() != self.count {
            let sight = self.trail.put_back(shelf, loan);
            return Err((self, sight));
        }
        let Shelf { items, marker: _ } = shelf;
        let none = Vec::new(*items.allocator());
        self.trail.put_back(Shelf::of(none), loan);
        Ok(items)
    }
}

// No value is dropped here.
impl<X: Stocked<K, M>, K, M, A: Allocator> Stock<X, K, M, A> {
    /// Puts these in, in the place of all that were put in before, which come out. It is refused while one of those is out:
    /// then these come back, and the stock stays as it was.
    pub fn fill<R: Wait>(
        &mut self,
        rt: &R,
        items: Vec<X, A>,
    ) -> Result<Filled<X, K, A>, Filled<X, K, A>>
        requires { All (X.fits self.old.key) items.items }
        ensures same { self.new ≡ record self.old { count = self.new.count } }
        ensures count { MatchResult result (λ _. self.new.count ≡ length items.items) (λ _. self.new.count ≡ self.old.count) }
        ensures fills { MatchResult result
            (λ filled. AreAll (X.fits self.old.key) self.old filled.0.items × AreHome self.old (length items.items) filled.1)
            (λ back. (back.0 ≡ items) × IsMissing self.old back.1) }
    {
        let (shelf, loan) = self.trail.take(rt);
        // One that comes back later would not be counted.
        let one_is_out = shelf.items.len() != self.count;
        if one_is_out {
            let sight = self.trail.put_back(shelf, loan);
            return Err((items, sight));
        }
        let Shelf {
            items: before,
            marker: _,
        } = shelf;
        self.count = items.len();
        let sight = self.trail.put_back(Shelf::of(items), loan);
        Ok((before, sight))
    }

    /// Takes a value out, if one is at home. Else it tells what was seen: none was there. It waits for the lock alone, which
    /// others have for a few steps.
    pub fn try_take<R: Wait>(&self, rt: &R) -> Result<(X, Out<K>), Sight<K, usize>>
        ensures { MatchResult result
            (λ taken. X.fits self.now.key taken.0 × IsOut self.now taken.1)
            (λ sight. IsEmpty self.now sight) }
    {
        let (mut shelf, loan) = self.trail.take(rt);
        let taken = shelf.items.pop();
        let sight = self.trail.put_back(shelf, loan);
        match taken {
            Some(item) => Ok((item, Out { sight })),
            None => Err(sight),
        }
    }

    /// Waits until there is room for one more on the shelf, and takes the shelf. There is room for all that were put in,
    /// so it waits for the lock alone where the one was taken from here.
    fn take_shelf<R: Wait>(&self, rt: &R) -> (Shelf<X, M, A>, Loan<Shelf<X, M, A>, K, usize>)
        ensures fits { All (X.fits self.now.key) result.0.items.items }
        ensures room { vec_len result.0.items < vec_capacity result.0.items }
        ensures lock { result.1.lock ≡ self.now.lock }
        ensures found { (before : List ℕ) × (result.1.seen ≡ length result.0.items.items ∷ before) }
    {
        for _ in rt.forever() {
            let (shelf, loan) = self.trail.take(rt);
            if shelf.items.len() < shelf.items.capacity() {
                return (shelf, loan);
            }
            self.trail.put_back(shelf, loan);
            yield_now();
        }
        unreachable!()
    }

    /// Gives a value back, with what it was taken out with. Tells what is then seen of the stock: one more is at home.
    pub fn give<R: Wait>(&self, rt: &R, item: X, out: Out<K>) -> Sight<K, usize>
        requires fits { X.fits self.now.key item }
        requires out { out.lock ≡ self.now.lock }
        ensures { IsHome self.now result }
    {
        let Out { sight: _ } = out;
        let (mut shelf, loan) = self.take_shelf(rt);
        shelf.items.push_reserved(item);
        self.trail.put_back(shelf, loan)
    }
}
