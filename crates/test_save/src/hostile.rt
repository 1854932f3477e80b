//! Bytes that no one saved.
use crate::asserts::{assert_same, assert_true, given, some};
use crate::maps::{Slots, saved_squares};
use crate::verdicts::{Tally, Verdict, tried};
use crate::words::{MAGIC, add_sum, bytes_of_words, put_word};
use btree_image::BadImage;
use std::alloc::Global;
use std::process::Abort;

// A step of a sequence of numbers without a pattern.
fn next(state: u64) -> u64 {
    state
        .wrapping_mul(6364136223846793005)
        .wrapping_add(1442695040888963407)
}

// Returns the bytes of a map with many nodes.
fn good_bytes(rt: &impl Abort, alloc: Global) -> Vec<u8> {
    saved_squares::<Slots>(rt, alloc, alloc, 44)
}

// Writes the check sum of all bytes but the last eight over these.
fn sum_anew(rt: &impl Abort, bytes: &mut Vec<u8>) {
    let len = bytes.len().saturating_sub(8);
    bytes.truncate(len);
    add_sum(rt, bytes);
}

// Returns where bytes are found to be no image, if they are.
fn fault_in(rt: &impl Abort, alloc: Global, bytes: &[u8]) -> Option<usize> {
    match tried(rt, alloc, bytes) {
        Verdict::Image(_, at) => Some(at),
        _ => None,
    }
}

// Checks that bytes are no image.
fn check_no_image(rt: &impl Abort, alloc: Global, bytes: &[u8]) {
    let at = some(rt, fault_in(rt, alloc, bytes));
    assert_true(rt, at <= bytes.len());
}

// Changes a byte. With the old check sum the bytes are no image, and with the right one they may be.
fn change(rt: &impl Abort, alloc: Global, bytes: &[u8], (at, mask): (usize, u8)) -> Verdict {
    let mut other = given(rt, bytes.to_vec(alloc));
    if let Some(byte) = other.get_mut(at) {
        *byte ^= mask;
    }
    check_no_image(rt, alloc, &other);
    sum_anew(rt, &mut other);
    tried(rt, alloc, &other)
}

// Changes a byte in three ways.
fn change_thrice(rt: &impl Abort, alloc: Global, bytes: &[u8], at: usize, tally: &mut Tally) {
    for mask in [1, 128, 255] {
        tally.count(rt, change(rt, alloc, bytes, (at, mask)));
    }
}

// Each byte is changed in three ways.
#[test]
fn each_byte_is_changed(rt: HostRuntime) {
    let bytes = good_bytes(&rt, rt.alloc());
    let mut tally = Tally::NONE;
    for at in 0..bytes.len() {
        change_thrice(&rt, rt.alloc(), &bytes, at, &mut tally);
    }
    assert_true(&rt, tally.opened > 0);
    assert_true(&rt, tally.images > 0);
    assert_true(&rt, tally.trees > 0);
}

// Returns bytes with one of them doubled.
fn doubled(rt: &impl Abort, alloc: Global, front: &[u8], rest: &[u8]) -> Vec<u8> {
    let mut bytes = given(rt, front.to_vec(alloc));
    if let Some(byte) = rest.first() {
        given(rt, bytes.push(*byte));
    }
    given(rt, bytes.extend_from_slice(rest));
    bytes
}

// Each front is no image, and neither is a list with a byte doubled, nor a file twice.
#[test]
fn fronts_and_doubled_bytes(rt: HostRuntime) {
    let bytes = good_bytes(&rt, rt.alloc());
    for at in 0..bytes.len() {
        let (front, rest) = bytes.split_at(at);
        check_no_image(&rt, rt.alloc(), front);
        check_no_image(&rt, rt.alloc(), &doubled(&rt, rt.alloc(), front, rest));
    }
}

#[test]
fn a_file_twice(rt: HostRuntime) {
    let mut twice = good_bytes(&rt, rt.alloc());
    let len = twice.len();
    let more = good_bytes(&rt, rt.alloc());
    assert_true(&rt, twice.extend_from_slice(&more).is_ok());
    let found = tried(&rt, rt.alloc(), &twice);
    assert_same(&rt, found, Verdict::Image(BadImage::Trailing, len));
}

// Returns a file of words without a pattern, most of them small, after a head that is right.
fn random_file(rt: &impl Abort, alloc: Global, list: u64) -> Vec<u8> {
    let mut bytes = bytes_of_words(rt, alloc, &[MAGIC, 1]);
    let mut state = list;
    for _ in 0..list % 40 {
        state = next(state);
        let word = match (state >> 33) % 8 {
            7 => u64::MAX,
            small => small % 4,
        };
        put_word(rt, &mut bytes, word);
    }
    add_sum(rt, &mut bytes);
    bytes
}

#[test]
fn random_words(rt: HostRuntime) {
    let mut tally = Tally::NONE;
    for list in 0..2000 {
        let bytes = random_file(&rt, rt.alloc(), list);
        tally.count(&rt, tried(&rt, rt.alloc(), &bytes));
    }
    assert_true(&rt, tally.images > 0);
    assert_true(&rt, tally.trees > 0);
}
