//! An allocator that refuses one chosen allocation.
use std::alloc::{AllocError, Allocator};
use std::cell::Cell;

/// An allocator that refuses one allocation, and passes every other call on to an inner allocator.
///
/// Lend it to what allocates, as `&Refusing<Global>`. A block that grows or shrinks counts as one more allocation. Its count is in a
/// cell, which no contract sees: a caller reads it by `refuses`.
pub struct Refusing<B: Allocator> {
    inner: B,
    // Which allocation from now on is refused: 1 is the next one, 0 is none.
    at: Cell<u64>,
}

impl<B: Allocator> Refusing<B> {
    /// Returns an allocator that refuses the `at`-th allocation from now on: 1 is the next one, 0 is none.
    pub fn over(inner: B, at: u64) -> Refusing<B> {
        Refusing {
            inner,
            at: Cell::new(at),
        }
    }

    /// Refuses the `at`-th allocation from now on: 1 is the next one, 0 is none.
    pub fn refuse(&self, at: u64) {
        self.at.set(at);
    }

    /// Returns which allocation from now on is refused: 1 is the next one, 0 is none, or one that was refused already.
    pub fn refuses(&self) -> u64 {
        self.at.get()
    }

    /// Counts one allocation, and returns whether it is the one to refuse.
    pub(crate) fn counts(&self) -> bool {
        count_down(&self.at)
    }
}

impl<B: Allocator> Drop for Refusing<B> {
    fn drop(self) {
        let Self { inner: _, at: _ } = self;
    }
}

// Counts one allocation, and returns whether it is the one to refuse.
fn count_down(at: &Cell<u64>) -> bool {
    let left = at.get();
    if left > 0 {
        at.set(left - 1);
    }
    left == 1
}

unsafe impl<B: Allocator> Allocator for Refusing<B> {
    ghost dealloc_token = { λ heap ty ptr. B.dealloc_token heap.inner ty ptr };

    fn allocate(&self, size: usize, align: usize) -> Result<*mut u8, AllocError> {
        if count_down(&self.at) {
            return Err(AllocError);
        }
        self.inner.allocate(size, align)
    }

    unsafe fn deallocate(&self, ptr: *mut u8, size: usize, align: usize) {
        self.inner.deallocate(ptr, size, align);
    }
}
