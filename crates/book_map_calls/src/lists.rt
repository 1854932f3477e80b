//! Lists of pairs and of elements, as words and as iterators.
ghost use Rattle.std.specs.Iterator.{IsFinite};

use crate::walks::{Yielded, put};
use book_text::{Reply, number, pair};
use std::alloc::Global;

/// Returns the pairs of a text, or none if a word is not one, or memory for them is refused.
pub fn pairs(alloc: Global, text: &str, reply: &mut Reply) -> Option<Vec<(u64, u64)>> {
    let mut pairs: Vec<(u64, u64)> = Vec::new(alloc);
    for word in text.split(' ') {
        if pairs.push(pair(word)?).is_err() {
            reply.run_out();
            return None;
        }
    }
    Some(pairs)
}

/// Returns the numbers of a text, or none if a word is not one, or memory for them is refused.
pub fn numbers(alloc: Global, text: &str, reply: &mut Reply) -> Option<Vec<u64>> {
    let mut numbers: Vec<u64> = Vec::new(alloc);
    for word in text.split(' ') {
        if numbers.push(number(word)?).is_err() {
            reply.run_out();
            return None;
        }
    }
    Some(numbers)
}

/// Adds what is left of an iterator.
pub fn put_left<I: Iterator>(source: &mut I, reply: &mut Reply)
where
    I::Item: Yielded,
    requires can { (state : I) → I.can_next state }
    requires ends { IsFinite (I.remaining source.old) }
{
    reply.word("left");
    put(source.next(), reply);
    while let Some(item) = source.next() {
        item.put(reply);
    }
}
