// A row of at most `N` values, which lie in the row itself: nothing is allocated, and a row can be copied. The type stands alone here, since
// the definitions that name it can't be imported where it is declared: rows.rt has what it does. Its fact is a ghost field and no model: a
// struct that can be copied and holds one with a model is not copied where it is passed by value and used again.
ghost use Rattle.std.specs.Prelude.{◌≡◌, ◌≤◌, ⊤};

use std::alloc::AllocError;

pub struct Row<T, const N: usize> {
    // The row's values in front; what stands behind them means nothing.
    pub(crate) places: [T; N],
    pub(crate) len: usize,
    ghost fits: { len ≤ N },
}

// A derive would not say what the copy's ghost field holds.
impl<T: Copy, const N: usize> Clone for Row<T, N> {
    ghost is_clone = { λ row copy. copy ≡ row };

    ghost is_infallible = { λ _. ⊤ };

    fn clone(&self) -> Result<Self, AllocError> {
        Ok(*self)
    }
}

impl<T: Copy, const N: usize> Copy for Row<T, N> {}
