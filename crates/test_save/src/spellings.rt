//! The bytes of the types that are saved. Each list is written by hand.
ghost use Rattle.std.specs.Prelude.{◌≡◌, refl};

use crate::asserts::{assert_same, assert_true, given, some};
use btree_range_map::Span;
use btree_spelled::{Spelled, SpelledAs};
use std::alloc::Global;
use std::fmt::Debug;
use std::process::Abort;

// Checks that a value has these bytes, that they are read as it before others, and that no front of them is read.
fn check<T: Spelled + PartialEq + Debug>(rt: &impl Abort, alloc: Global, value: T, bytes: &[u8]) {
    let mut written = Vec::new(alloc);
    given(rt, value.put(&mut written));
    assert_same(rt, written.as_slice(), bytes);
    given(rt, written.push(9));
    let (again, rest) = some(rt, T::take(&written));
    assert_same(rt, again, value);
    assert_same(rt, rest, [9].as_slice());
    check_fronts::<T>(rt, bytes);
}

// Checks that no front of bytes is read.
fn check_fronts<T: Spelled>(rt: &impl Abort, bytes: &[u8]) {
    for len in 0..bytes.len() {
        assert_true(rt, T::take(&bytes[..len]).is_none());
    }
}

#[test]
fn numbers_have_their_bytes(rt: HostRuntime) {
    let alloc = rt.alloc();
    check(&rt, alloc, 200u8, &[200]);
    check(&rt, alloc, 0x0102u16, &[1, 2]);
    check(&rt, alloc, 0x0102_0304u32, &[1, 2, 3, 4]);
    let eight = [1, 2, 3, 4, 5, 6, 7, 8];
    check(&rt, alloc, 0x0102_0304_0506_0708u64, &eight);
    check(&rt, alloc, 258usize, &[0, 0, 0, 0, 0, 0, 1, 2]);
    let sixteen = [0, 0, 0, 0, 0, 0, 0, 7, 8, 9, 10, 11, 12, 13, 14, 15];
    check(&rt, alloc, 0x07_0809_0a0b_0c0d_0e0fu128, &sixteen);
}

#[test]
fn signed_numbers_have_their_bytes(rt: HostRuntime) {
    let alloc = rt.alloc();
    check(&rt, alloc, -1i8, &[255]);
    check(&rt, alloc, i8::MIN, &[128]);
    check(&rt, alloc, -2i16, &[255, 254]);
    check(&rt, alloc, 258i16, &[1, 2]);
    check(&rt, alloc, i32::MIN, &[128, 0, 0, 0]);
    check(&rt, alloc, -1i64, &[255; 8]);
    let most = [127, 255, 255, 255, 255, 255, 255, 255];
    check(&rt, alloc, i64::MAX, &most);
    let below = [255, 255, 255, 255, 255, 255, 255, 254];
    check(&rt, alloc, -2isize, &below);
    check(&rt, alloc, -1i128, &[255; 16]);
}

#[test]
fn others_have_their_bytes(rt: HostRuntime) {
    let alloc = rt.alloc();
    check(&rt, alloc, true, &[1]);
    check(&rt, alloc, false, &[0]);
    check(&rt, alloc, (), &[]);
    check(&rt, alloc, 'A', &[0, 0, 0, 65]);
    check(&rt, alloc, '\u{10ffff}', &[0, 0x10, 255, 255]);
    check(&rt, alloc, (7u8, (true, -1i16)), &[7, 1, 255, 255]);
    check(&rt, alloc, [1u8, 2, 3], &[1, 2, 3]);
    check(&rt, alloc, [0u8; 0], &[]);
    let span = Span {
        end: 258,
        value: 7u8,
    };
    check(&rt, alloc, span, &[0, 0, 0, 0, 0, 0, 1, 2, 7]);
}

#[test]
fn arrays_have_their_bytes(rt: HostRuntime) {
    let alloc = rt.alloc();
    check(&rt, alloc, [0x0102u16, 3, 0xff04], &[1, 2, 0, 3, 255, 4]);
    check(&rt, alloc, [0x0102_0304u32, 5], &[1, 2, 3, 4, 0, 0, 0, 5]);
    check(&rt, alloc, [6u64], &[0, 0, 0, 0, 0, 0, 0, 6]);
    check(&rt, alloc, [0u64; 0], &[]);
}

// A point with a mark, as the pair of its place and its mark.
#[derive(Clone, Copy, Debug, PartialEq)]
struct Point {
    across: i16,
    up: i16,
    mark: char,
}

impl SpelledAs for Point {
    type Parts = ((i16, i16), char);

    ghost parts = { λ point. ((point.across, point.up), point.mark) };

    ghost whole = { λ written. record { across = written.0.0; up = written.0.1; mark = written.1 } };

    fn to_parts(&self) -> ((i16, i16), char) {
        ((self.across, self.up), self.mark)
    }

    fn from_parts(((across, up), mark): ((i16, i16), char)) -> Point {
        Point { across, up, mark }
    }

    ghost again = { λ _. refl };

    ghost only = { λ _. refl };
}

#[test]
fn types_of_ones_own_have_the_bytes_of_their_parts(rt: HostRuntime) {
    let point = Point {
        across: -2,
        up: 258,
        mark: 'A',
    };
    check(&rt, rt.alloc(), point, &[255, 254, 1, 2, 0, 0, 0, 65]);
}

// Bytes that no value has: a third boolean, and codes within the gap of the characters and past their end.
#[test]
fn some_bytes_are_no_value(rt: HostRuntime) {
    assert_true(&rt, bool::take(&[2]).is_none());
    for code in [[0, 0, 0xd8, 0], [0, 0, 0xdf, 255], [0, 0x11, 0, 0]] {
        assert_true(&rt, char::take(&code).is_none());
    }
    assert_true(&rt, char::take(&[0, 0, 0xe0, 0]).is_some());
}
