//! Arrays of numbers as bytes.
ghost use Rattle.std.specs.Prelude.{◌≡◌, ◌++◌, IfNone, IfSome, None, OnOk, Some, length, option_map};
ghost use Rattle.std.specs.Int.{w16, w32, w64};
ghost use Rattle.btree_spelled.specs.Arrays.{AreReadBack, items_bytes, items_read};
ghost use Rattle.btree_spelled.specs.ArrayLaws.{items-takes};
ghost use Rattle.btree_spelled.specs.NumberLaws.{u16-takes, u32-takes, u64-takes};
ghost use Rattle.btree_spelled.specs.Numbers.{number_bytes, number_read};

use crate::spelled::Spelled;
use std::alloc::{AllocError, Allocator};

// Appends the bytes of each value in turn.
fn put_items<T: Spelled, A: Allocator>(items: &[T], out: &mut Vec<u8, A>) -> Result<(), AllocError>
    ensures appends { OnOk result
        (out.new.items ≡ out.old.items ++ items_bytes T.spelling items.now) }
    ensures reads_back { OnOk result (AreReadBack T.spelling T.read items.now) }
{
    for item in items {
        item.put(out)?;
    }
    Ok(())
}

// Reads a value into each place in turn, and returns the bytes after them.
fn take_items<'a, T: Spelled + Copy>(bytes: &'a [u8], items: &mut [T]) -> Option<&'a [u8]>
    ensures read { IfSome result
        (λ rest. items_read T.read (length items.old) bytes.now ≡ Some (items.new, rest.now)) }
    ensures none { IfNone result (items_read T.read (length items.old) bytes.now ≡ None) }
    ensures places { length items.new ≡ length items.old }
{
    let mut rest = bytes;
    for at in 0..items.len() {
        let (value, after) = T::take(rest)?;
        items[at] = value;
        rest = after;
    }
    Some(rest)
}

impl<const N: usize> Spelled for [u16; N] {
    ghost spelling = { items_bytes (number_bytes w16) };

    ghost read = { items_read (number_read w16) N };

    fn put<A: Allocator>(&self, out: &mut Vec<u8, A>) -> Result<(), AllocError> {
        put_items(self, out)
    }

    fn take(bytes: &[u8]) -> Option<([u16; N], &[u8])> {
        let mut values = [0; N];
        let rest = take_items(bytes, &mut values)?;
        Some((values, rest))
    }

    ghost takes = { items-takes (number_bytes w16) (number_read w16) u16-takes N };
}

impl<const N: usize> Spelled for [u32; N] {
    ghost spelling = { items_bytes (number_bytes w32) };

    ghost read = { items_read (number_read w32) N };

    fn put<A: Allocator>(&self, out: &mut Vec<u8, A>) -> Result<(), AllocError> {
        put_items(self, out)
    }

    fn take(bytes: &[u8]) -> Option<([u32; N], &[u8])> {
        let mut values = [0; N];
        let rest = take_items(bytes, &mut values)?;
        Some((values, rest))
    }

    ghost takes = { items-takes (number_bytes w32) (number_read w32) u32-takes N };
}

impl<const N: usize> Spelled for [u64; N] {
    ghost spelling = { items_bytes (number_bytes w64) };

    ghost read = { items_read (number_read w64) N };

    fn put<A: Allocator>(&self, out: &mut Vec<u8, A>) -> Result<(), AllocError> {
        put_items(self, out)
    }

    fn take(bytes: &[u8]) -> Option<([u64; N], &[u8])> {
        let mut values = [0; N];
        let rest = take_items(bytes, &mut values)?;
        Some((values, rest))
    }

    ghost takes = { items-takes (number_bytes w64) (number_read w64) u64-takes N };
}
