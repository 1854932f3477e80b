//! Signed numbers as bytes.
#![tactic(auto, using(crate::specs::IntegerLaws::wider))]

ghost use Rattle.std.specs.Prelude.{◌≡◌, ◌++◌, OnOk, Some, option_map};
ghost use Rattle.std.specs.Int.{w16, w32, w64};
ghost use Rattle.btree_spelled.specs.IntegerLaws.{i8-takes, i16-takes, i32-takes, i64-takes, i128-takes};
ghost use Rattle.btree_spelled.specs.Integers.{signed_byte_bytes, signed_byte_read, signed_bytes, signed_long_bytes, signed_long_read, signed_read};

use crate::spelled::Spelled;
use std::alloc::{AllocError, Allocator};

impl Spelled for i8 {
    ghost spelling = { signed_byte_bytes };

    ghost read = { signed_byte_read };

    fn put<A: Allocator>(&self, out: &mut Vec<u8, A>) -> Result<(), AllocError> {
        self.cast_unsigned().put(out)
    }

    fn take(bytes: &[u8]) -> Option<(i8, &[u8])> {
        let (bits, rest) = u8::take(bytes)?;
        Some((bits.cast_signed(), rest))
    }

    ghost takes = { i8-takes };
}

impl Spelled for i16 {
    ghost spelling = { signed_bytes w16 };

    ghost read = { signed_read w16 };

    fn put<A: Allocator>(&self, out: &mut Vec<u8, A>) -> Result<(), AllocError> {
        self.cast_unsigned().put(out)
    }

    fn take(bytes: &[u8]) -> Option<(i16, &[u8])> {
        let (bits, rest) = u16::take(bytes)?;
        Some((bits.cast_signed(), rest))
    }

    ghost takes = { i16-takes };
}

impl Spelled for i32 {
    ghost spelling = { signed_bytes w32 };

    ghost read = { signed_read w32 };

    fn put<A: Allocator>(&self, out: &mut Vec<u8, A>) -> Result<(), AllocError> {
        self.cast_unsigned().put(out)
    }

    fn take(bytes: &[u8]) -> Option<(i32, &[u8])> {
        let (bits, rest) = u32::take(bytes)?;
        Some((bits.cast_signed(), rest))
    }

    ghost takes = { i32-takes };
}

impl Spelled for i64 {
    ghost spelling = { signed_bytes w64 };

    ghost read = { signed_read w64 };

    fn put<A: Allocator>(&self, out: &mut Vec<u8, A>) -> Result<(), AllocError> {
        self.cast_unsigned().put(out)
    }

    fn take(bytes: &[u8]) -> Option<(i64, &[u8])> {
        let (bits, rest) = u64::take(bytes)?;
        Some((bits.cast_signed(), rest))
    }

    ghost takes = { i64-takes };
}

impl Spelled for i128 {
    ghost spelling = { signed_long_bytes };

    ghost read = { signed_long_read };

    fn put<A: Allocator>(&self, out: &mut Vec<u8, A>) -> Result<(), AllocError> {
        self.cast_unsigned().put(out)
    }

    fn take(bytes: &[u8]) -> Option<(i128, &[u8])> {
        let (bits, rest) = u128::take(bytes)?;
        Some((bits.cast_signed(), rest))
    }

    ghost takes = { i128-takes };
}

impl Spelled for isize {
    ghost spelling = { signed_bytes w64 };

    ghost read = { signed_read w64 };

    fn put<A: Allocator>(&self, out: &mut Vec<u8, A>) -> Result<(), AllocError> {
        self.cast_unsigned().put(out)
    }

    fn take(bytes: &[u8]) -> Option<(isize, &[u8])> {
        let (bits, rest) = usize::take(bytes)?;
        Some((bits.cast_signed(), rest))
    }

    ghost takes = { i64-takes };
}
