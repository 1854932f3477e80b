//! Values as bytes.
ghost use Rattle.std.specs.Prelude.{◌≡◌, List, ℕ, ◌++◌, OnOk, Some, option_map};
ghost use Rattle.btree_spelled.specs.Spelled.{AreBytes, Read};

use std::alloc::{AllocError, Allocator};

/// A value that is written as bytes and read again from the front of bytes. Its bytes say where they end: what follows does not matter.
///
/// Two values of a type never have the same bytes, and a value that is read has the bytes that it was read from.
pub trait Spelled: Sized + Drop {
    /// The bytes of a value.
    ghost spelling: { Self → List ℕ };

    /// The value that bytes begin with and the bytes after it, if there is one.
    ghost read: { Read Self };

    /// Appends the bytes of the value.
    fn put<A: Allocator>(&self, out: &mut Vec<u8, A>) -> Result<(), AllocError>
        ensures appends { OnOk result (out.new.items ≡ out.old.items ++ spelling self.now) }
        ensures reads_back { OnOk result
            ((rest : List ℕ) → read (spelling self.now ++ rest) ≡ Some (self.now, rest)) };

    /// Returns the value that bytes begin with, and the bytes after it.
    fn take(bytes: &[u8]) -> Option<(Self, &[u8])>
        ensures { option_map (λ x. (x.0, x.1.now)) result ≡ read bytes.now };

    // What is read is spelled so.
    ghost takes: { (bytes rest : List ℕ) (x : Self) → AreBytes bytes → read bytes ≡ Some (x, rest) →
        bytes ≡ spelling x ++ rest };
}
