//! A list of at most `N` items, which takes no memory but its own.
ghost use Rattle.std.specs.Prelude.{◌≡◌, ◌≤◌, length, ⊤};

use std::alloc::AllocError;

// The one count beside an array: what holds a table has no heap, and is copied, which the vectors of the library are not.
/// At most `N` items, from the front of an array. What lies behind them is not seen.
pub struct Filled<T, const N: usize> {
    pub(crate) places: [T; N],
    pub(crate) filled: usize,
    ghost sized: { length places ≡ N },
    ghost few: { filled ≤ N },
}

// By hand: a derive would ask of any `T` that its clone be equal, and `T: Copy` says it.
impl<T: Copy, const N: usize> Clone for Filled<T, N> {
    ghost is_clone = { λ x y. y ≡ x };

    ghost is_infallible = { λ _. ⊤ };

    fn clone(&self) -> Result<Self, AllocError> {
        Ok(*self)
    }
}

impl<T: Copy, const N: usize> Copy for Filled<T, N> {}
