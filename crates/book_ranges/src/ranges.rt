//! Ranges as words: `3..9`, and with its value `3..9=1`.
ghost use Rattle.std.specs.Iterator.{IsFinite};

use book_text::Reply;
use btree_item::Refused;
use btree_range_map::Span;
use std::iter::{DoubleEndedIterator, Iterator};

/// A range of a set or a map.
pub(crate) trait Range {
    /// Adds it to a reply.
    fn put(self, reply: &mut Reply);
}

impl Range for (u64, u64) {
    fn put(self, reply: &mut Reply) {
        reply.number(self.0);
        reply.glue("..");
        reply.glue_number(self.1);
    }
}

impl Range for (u64, Span<u64>) {
    fn put(self, reply: &mut Reply) {
        (self.0, &self.1).put(reply)
    }
}

impl<'a> Range for (u64, &'a Span<u64>) {
    fn put(self, reply: &mut Reply) {
        (self.0, self.1.end).put(reply);
        reply.glue("=");
        reply.glue_number(self.1.value);
    }
}

/// Adds a range, or `none`.
pub(crate) fn put_range<R: Range>(range: Option<R>, reply: &mut Reply) {
    match range {
        Some(range) => range.put(reply),
        None => reply.word("none"),
    }
}

/// Adds `ok`, or the numbers that were refused, and the cause.
pub(crate) fn put_outcome(outcome: Result<(), Refused<u64, u64>>, reply: &mut Reply) {
    match outcome {
        Ok(()) => reply.word("ok"),
        Err(refused) => {
            reply.refused(refused.cause);
            (refused.key, refused.value).put(reply)
        }
    }
}

/// Adds all ranges that an iterator yields, or `empty`.
pub(crate) fn put_ranges<I: Iterator + Drop>(ranges: I, reply: &mut Reply)
where
    I::Item: Range,
    requires can { I.can_next ranges }
    requires ends { IsFinite (I.remaining ranges) }
{
    let mut is_empty = true;
    for range in ranges {
        range.put(reply);
        is_empty = false;
    }
    if is_empty {
        return reply.word("empty");
    }
}

// Takes a range from one end of an iterator, or asks for the hint.
fn take<I: DoubleEndedIterator>(ranges: &mut I, end: u8, reply: &mut Reply)
where
    I::Item: Range,
    requires front { (state : I) → I.can_next state }
    requires back { (state : I) → I.can_next_back state }
{
    match end {
        b'f' => put_range(ranges.next(), reply),
        b'b' => put_range(ranges.next_back(), reply),
        b'h' => reply.hint(ranges.size_hint()),
        _ => reply.unknown(),
    }
}

/// Takes ranges from both ends of an iterator.
pub(crate) fn walk_ranges<I: DoubleEndedIterator + Drop>(ranges: I, ends: &str, reply: &mut Reply)
where
    I::Item: Range,
    requires front { (state : I) → I.can_next state }
    requires back { (state : I) → I.can_next_back state }
{
    let mut ranges = ranges;
    for end in ends.as_bytes() {
        take(&mut ranges, *end, reply);
    }
}
