//! A stack of at most `N` items.
ghost use Rattle.std.specs.Prelude.{◌≡◌, ◌≤◌, length, ⊤};

use std::alloc::AllocError;

/// The stack holds as many items as it may.
#[derive(Clone, Copy, Debug, PartialEq, Eq)]
pub struct Full;

/// The item that was pushed last stands at `len - 1`; what stands behind it counts for nothing.
pub struct Stack<T, const N: usize> {
    pub(crate) items: [T; N],
    pub(crate) len: usize,
    ghost long: { length items ≡ N },
    ghost few: { len ≤ N },
}

impl<T: Copy, const N: usize> Clone for Stack<T, N> {
    ghost is_clone = { λ x y. y ≡ x };

    ghost is_infallible = { λ _. ⊤ };

    fn clone(&self) -> Result<Stack<T, N>, AllocError> {
        Ok(*self)
    }
}

impl<T: Copy, const N: usize> Copy for Stack<T, N> {}
