//! Clones of slots.
ghost use Rattle.std.specs.List.{All, AllZip};

use crate::Slots;
use std::alloc::AllocError;

/// A clone has a clone of each value, in order. It fails only if the clone of a value fails.
impl<T: Clone, const N: usize> Clone for Slots<T, N> {
    ghost is_clone = { λ xs ys. AllZip T.is_clone xs ys };

    ghost is_infallible = { λ xs. All T.is_infallible xs };

    fn clone(&self) -> Result<Self, AllocError> {
        let mut copy = Slots::new();
        for index in 0..self.len() {
            copy.push(self.get(index).unwrap().clone()?);
        }
        Ok(copy)
    }
}
