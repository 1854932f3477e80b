//! A count of words, by the entries of a map.
ghost use Rattle.std.specs.Prelude.{◌≡◌, IfOk};
ghost use Rattle.example_maps.specs.Counts.{StoresCount, count_with_one};
ghost use Rattle.btree_slab.specs.TreeState.{pairs_of};

use btree_slab::generic::map::{BTreeMap, Refused};
use btree_slab::store::NodesMut;

/// Counts a word, in a map over any store. Returns how often it has been counted, at most `u64::MAX`.
///
/// It searches once: the entry inserts the word where the search ended.
pub fn count_word<K: Ord + Drop, C: NodesMut<K, u64>>(
    counts: &mut BTreeMap<K, u64, C>,
    word: K,
) -> Result<u64, Refused<K, u64>>
    ensures stored { IfOk result (StoresCount K.cmp word (pairs_of counts.old) (pairs_of counts.new)) }
    ensures counted { IfOk result (λ n. n ≡ count_with_one K.cmp u64.MAX word (pairs_of counts.old)) }
{
    let count = counts.entry(word).or_insert(0)?;
    *count = count.saturating_add(1);
    Ok(*count)
}
