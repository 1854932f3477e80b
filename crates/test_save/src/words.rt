//! Files made of words.
use crate::asserts::given;
use btree_image::check_sum_of;
use std::alloc::Global;
use std::process::Abort;

/// The number that stands for no node, and for no limit.
pub(crate) const NONE: u64 = u64::MAX;

/// The word that each file begins with.
pub(crate) const MAGIC: u64 = 0x6274_7265_6573_6176;

/// Appends a word to bytes.
pub(crate) fn put_word(rt: &impl Abort, bytes: &mut Vec<u8>, word: u64) {
    given(rt, bytes.extend_from_slice(&word.to_be_bytes()));
}

/// Returns the bytes of these words.
pub(crate) fn bytes_of_words(rt: &impl Abort, alloc: Global, words: &[u64]) -> Vec<u8> {
    let mut bytes = Vec::new(alloc);
    for word in words {
        put_word(rt, &mut bytes, *word);
    }
    bytes
}

/// Appends the check sum of bytes to them.
pub(crate) fn add_sum(rt: &impl Abort, bytes: &mut Vec<u8>) {
    let sum = check_sum_of(bytes.as_slice());
    put_word(rt, bytes, sum);
}

/// Returns the file with these words and their check sum.
pub(crate) fn file_of(rt: &impl Abort, alloc: Global, words: &[u64]) -> Vec<u8> {
    let mut bytes = bytes_of_words(rt, alloc, words);
    add_sum(rt, &mut bytes);
    bytes
}
