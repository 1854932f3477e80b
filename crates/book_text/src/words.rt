//! The words of a line.
use std::ops::Bound;

/// Returns the first word of a text, and what follows the space after it.
pub fn word(text: &str) -> (&str, &str) {
    match text.split_once(' ') {
        Some((word, rest)) => (word, rest),
        None => (text, ""),
    }
}

/// Returns the number that a word is, if it is one.
pub fn number(word: &str) -> Option<u64> {
    word.parse::<u64>().ok()
}

/// Returns the numbers of a text of two words.
pub fn two_numbers(text: &str) -> Option<(u64, u64)> {
    let (first, second) = word(text);
    Some((number(first)?, number(second)?))
}

/// Returns the pair that a word such as `3=30` names.
pub fn pair(word: &str) -> Option<(u64, u64)> {
    let (key, value) = word.split_once('=')?;
    Some((number(key)?, number(value)?))
}

/// Returns the lower bound that a word such as `[3`, `(3` or `..` names.
pub fn low(word: &str) -> Option<Bound<u64>> {
    if let Some(rest) = word.strip_prefix('[') {
        return Some(Bound::Included(number(rest)?));
    }
    if let Some(rest) = word.strip_prefix('(') {
        return Some(Bound::Excluded(number(rest)?));
    }
    if word == ".." {
        return Some(Bound::Unbounded);
    }
    None
}

/// Returns the upper bound that a word such as `3]`, `3)` or `..` names.
pub fn high(word: &str) -> Option<Bound<u64>> {
    if let Some(rest) = word.strip_suffix(']') {
        return Some(Bound::Included(number(rest)?));
    }
    if let Some(rest) = word.strip_suffix(')') {
        return Some(Bound::Excluded(number(rest)?));
    }
    if word == ".." {
        return Some(Bound::Unbounded);
    }
    None
}
