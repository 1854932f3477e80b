//! A listing, page by page: a page is the beginning of the range after the last part of the page before. And how many parts a range has.
#![tactic(auto, using(btree_slab::specs::Laws::map_laws))]

ghost use Rattle.std.specs.Prelude.{◌≡◌, ◌≤◌, ◌++◌, OnOk};
ghost use Rattle.example_maps.specs.Listing.{count_between, page_after};

use btree_slab::BTreeMap;
use std::alloc::AllocError;
use std::ops::Bound;

/// Appends to a page the parts of a listing that come after `last`, in order, at most `size` of them. It returns an error only if there is no
/// memory for the page.
pub fn next_page(
    listing: &BTreeMap<u32, u64>,
    last: u32,
    size: usize,
    page: &mut Vec<u32>,
) -> Result<(), AllocError>
    ensures { OnOk result (page.new.items ≡ page.old.items ++ page_after last size listing.now) }
{
    let mut rest = listing.range((Bound::Excluded(&last), Bound::Unbounded));
    let mut left = size;
    while left > 0 {
        let Some((part, _count)) = rest.next() else {
            return Ok(());
        };
        page.push(*part)?;
        left -= 1;
    }
    Ok(())
}

/// Counts the parts from `first` on and before `last`.
///
/// The prover has to know that the count fits in `usize`. The listing's length does, which the call of `len` says, and a law of the
/// ruleset `map_laws` says that a range is not longer.
pub fn count_parts(listing: &BTreeMap<u32, u64>, first: u32, last: u32) -> usize
    requires { first ≤ last }
    ensures { result ≡ count_between first last listing.now }
{
    let _all = listing.len();
    listing.range(first..last).count()
}
