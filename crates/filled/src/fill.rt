//! How an array is filled, and what is in it.
ghost use Rattle.std.specs.Prelude.{◌≡◌, ◌≤◌, [], ◌∷◌, ◌++◌, length, take};
ghost use Rattle.filled.specs.Items.{items};

use crate::filled::Filled;

impl<T: Copy, const N: usize> Filled<T, N> {
    /// No items, over places that hold a blank.
    pub fn empty(blank: T) -> Self
        ensures { items result ≡ [] }
    {
        Filled {
            places: [blank; N],
            filled: 0,
        }
    }

    /// The items.
    pub fn items(&self) -> &[T]
        ensures value { result.now ≡ items self.now }
        ensures few { length result.now ≤ N }
    {
        &self.places[..self.filled]
    }

    /// One item more; what no longer fits is let go.
    pub fn push(&mut self, item: T)
        ensures { items self.new ≡ take N (items self.old ++ item ∷ []) }
    {
        if self.filled < N {
            self.places[self.filled] = item;
            self.filled += 1;
        }
    }

    #[tactic(auto, using(crate::proofs::Filling::filled_none, crate::proofs::Filling::filled_more, crate::proofs::Filling::filled_all))]
    /// Items after those that are there; what no longer fits is let go.
    pub fn extend(&mut self, more: &[T])
        ensures { items self.new ≡ take N (items self.old ++ more.now) }
    {
        for item in more {
            self.push(*item);
        }
    }
}
