//! A count of words in a map of strings, which are looked up by their texts.
ghost use Rattle.std.specs.Prelude.{◌≡◌, ◌+◌, OnOk, Some, min, unwrap_or};
ghost use Rattle.example_maps.specs.Texts.{count_in};
ghost use Rattle.btree_slab.specs.TreeState.{pairs_of};

use btree_slab::generic::BTreeMap;
use btree_slab::store::NodesMut;
use std::alloc::Global;
use std::io;

/// Returns how often a word was counted. No `String` is made for it.
pub fn count_of<C: NodesMut<String, u64>>(counts: &BTreeMap<String, u64, C>, word: &str) -> u64
    ensures { result ≡ unwrap_or (count_in word.now (pairs_of counts.now)) 0 }
{
    counts.get_by(&word).copied().unwrap_or(0)
}

/// Counts a word once more, in a map over any store, up to `u64::MAX` times. A `String` is made for a word that is not there yet, and for no
/// other.
pub fn count_text<C: NodesMut<String, u64>>(
    counts: &mut BTreeMap<String, u64, C>,
    alloc: Global,
    word: &str,
) -> io::Result<()>
    ensures { OnOk result (count_in word.now (pairs_of counts.new)
        ≡ Some (min (unwrap_or (count_in word.now (pairs_of counts.old)) 0 + 1) u64.MAX)) }
{
    if let Some(count) = counts.get_mut_by(&word) {
        *count = count.saturating_add(1);
        return Ok(());
    }
    counts.insert(String::from_str(alloc, word)?, 1)?;
    Ok(())
}
