//! How many keys a search compares.
ghost use Rattle.std.specs.Prelude.{◌≡◌};
ghost use Rattle.btree_item.specs.Comparisons.{comparisons};

/// How many keys a search compares: row n, at p, among n keys of which p are smaller. It is worked out by hand.
///
/// Among up to four keys a search compares all of them. Among more it compares the fifth, and then the four before it or all behind it. It
/// compares one key more, for equality, unless all keys are smaller. What is behind p = n in a row has no meaning.
pub const COMPARISONS: [[usize; 10]; 10] = [
    [0, 0, 0, 0, 0, 0, 0, 0, 0, 0],
    [2, 1, 0, 0, 0, 0, 0, 0, 0, 0],
    [3, 3, 2, 0, 0, 0, 0, 0, 0, 0],
    [4, 4, 4, 3, 0, 0, 0, 0, 0, 0],
    [5, 5, 5, 5, 4, 0, 0, 0, 0, 0],
    [6, 6, 6, 6, 6, 1, 0, 0, 0, 0],
    [6, 6, 6, 6, 6, 3, 2, 0, 0, 0],
    [6, 6, 6, 6, 6, 4, 4, 3, 0, 0],
    [6, 6, 6, 6, 6, 5, 5, 5, 4, 0],
    [6, 6, 6, 6, 6, 6, 6, 6, 6, 5],
];

/// Returns how many keys a search promises to compare among `len` keys of which so many are smaller. Tests compare it with what a key
/// counts, and with `COMPARISONS`.
pub fn promised_comparisons(len: usize, smaller: usize) -> usize
    ensures { result ≡ comparisons len smaller }
{
    let for_place = if len <= 4 {
        len
    } else if smaller <= 4 {
        5
    } else {
        len - 4
    };
    if smaller < len {
        for_place + 1
    } else {
        for_place
    }
}
