//! A type of one's own as bytes: those of what stands for it.
ghost use Rattle.std.specs.Prelude.{◌≡◌, ◌++◌, OnOk, Some, option_map};
ghost use Rattle.btree_spelled.specs.Mapped.{mapped_bytes, mapped_read};
ghost use Rattle.btree_spelled.specs.MappedLaws.{mapped-takes};

use crate::spelled::Spelled;
use std::alloc::{AllocError, Allocator};

/// A value that is written as another one, as a struct is as the tuple of its fields. So it is `Spelled`.
pub trait SpelledAs: Sized + Drop {
    /// What is written for it.
    type Parts: Spelled;

    /// What stands for a value.
    ghost parts: { Self → Self.Parts };

    /// The value for which it stands.
    ghost whole: { Self.Parts → Self };

    /// Returns what is written for the value.
    fn to_parts(&self) -> Self::Parts
        ensures { result ≡ parts self.now };

    /// Returns the value for which this was written.
    fn from_parts(written: Self::Parts) -> Self
        ensures { result ≡ whole written };

    // What is written for a value stands for it.
    ghost again: { (x : Self) → whole (parts x) ≡ x };

    // Nothing else does.
    ghost only: { (y : Self.Parts) → parts (whole y) ≡ y };
}

impl<T: SpelledAs> Spelled for T {
    ghost spelling = { mapped_bytes T.parts T.Parts.spelling };

    ghost read = { mapped_read T.whole T.Parts.read };

    fn put<A: Allocator>(&self, out: &mut Vec<u8, A>) -> Result<(), AllocError> {
        self.to_parts().put(out)
    }

    fn take(bytes: &[u8]) -> Option<(T, &[u8])> {
        let (parts, rest) = T::Parts::take(bytes)?;
        Some((T::from_parts(parts), rest))
    }

    ghost takes = { mapped-takes T.parts T.whole T.Parts.spelling T.Parts.read T.only T.Parts.takes };
}
