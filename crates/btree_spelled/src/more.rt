//! Numbers of the machine's width and of sixteen bytes, characters, and arrays of bytes, as bytes.
#![tactic(auto, using(crate::specs::IntegerLaws::wider))]

ghost use Rattle.std.specs.Prelude.{◌≡◌, ◌++◌, OnOk, Some, option_map};
ghost use Rattle.std.specs.Char.{IsScalar};
ghost use Rattle.std.specs.Int.{w64};
ghost use Rattle.btree_spelled.specs.IntegerLaws.{array-takes, char-takes, u128-takes};
ghost use Rattle.btree_spelled.specs.Integers.{char_bytes, char_read, long_bytes, long_read};
ghost use Rattle.btree_spelled.specs.NumberLaws.{u64-takes};
ghost use Rattle.btree_spelled.specs.Numbers.{array_bytes, array_read, number_bytes, number_read};

use crate::spelled::Spelled;
use std::alloc::{AllocError, Allocator};

impl Spelled for usize {
    ghost spelling = { number_bytes w64 };

    ghost read = { number_read w64 };

    fn put<A: Allocator>(&self, out: &mut Vec<u8, A>) -> Result<(), AllocError> {
        (*self as u64).put(out)
    }

    fn take(bytes: &[u8]) -> Option<(usize, &[u8])> {
        let (number, rest) = u64::take(bytes)?;
        Some((number as usize, rest))
    }

    ghost takes = { u64-takes };
}

impl Spelled for u128 {
    ghost spelling = { long_bytes };

    ghost read = { long_read };

    fn put<A: Allocator>(&self, out: &mut Vec<u8, A>) -> Result<(), AllocError> {
        ((*self / (1 << 64)) as u64, (*self % (1 << 64)) as u64).put(out)
    }

    fn take(bytes: &[u8]) -> Option<(u128, &[u8])> {
        let ((high, low), rest) = <(u64, u64)>::take(bytes)?;
        Some((high as u128 * (1 << 64) + low as u128, rest))
    }

    ghost takes = { u128-takes };
}

impl<const N: usize> Spelled for [u8; N] {
    ghost spelling = { array_bytes };

    ghost read = { array_read N };

    #[tactic(auto, using(crate::specs::IntegerLaws::arrays), unfolding(crate::specs::Numbers::array_read))]
    fn put<A: Allocator>(&self, out: &mut Vec<u8, A>) -> Result<(), AllocError> {
        out.extend_from_slice(&self[..])
    }

    #[tactic(auto, using(crate::specs::IntegerLaws::arrays), unfolding(crate::specs::Numbers::array_read))]
    fn take(bytes: &[u8]) -> Option<([u8; N], &[u8])> {
        if bytes.len() < N {
            return None;
        }
        let (front, rest) = bytes.split_at(N);
        let mut values = [0u8; N];
        values.copy_from_slice(front);
        Some((values, rest))
    }

    ghost takes = { array-takes N };
}

// The code of a character.
fn code_of(value: char) -> u32
    ensures code { result ≡ value }
    ensures scalar { IsScalar value }
{
    value as u32
}

impl Spelled for char {
    ghost spelling = { char_bytes };

    ghost read = { char_read };

    fn put<A: Allocator>(&self, out: &mut Vec<u8, A>) -> Result<(), AllocError> {
        code_of(*self).put(out)
    }

    fn take(bytes: &[u8]) -> Option<(char, &[u8])> {
        let (code, rest) = u32::take(bytes)?;
        let value = char::from_u32(code)?;
        Some((value, rest))
    }

    ghost takes = { char-takes };
}
