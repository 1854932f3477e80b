//! Bookings of a room, by the time at which each begins. Those that overlap a given time are found by navigation from one address.
ghost use Rattle.std.specs.Prelude.{◌≡◌};
ghost use Rattle.std.specs.List.{count_by};
ghost use Rattle.btree_slab.specs.TreeState.{pairs_of};
ghost use Rattle.example_maps.specs.Bookings.{AreApart, IsFirstCandidate, overlaps};

use btree_slab::{Address, BTreeExt, BTreeMap};

// Returns the address of the last booking that begins at a time or before it, or of the first one if there is none.
fn first_candidate(bookings: &BTreeMap<u32, u32>, start: u32) -> Option<Address>
    requires { AreApart (pairs_of bookings.now) }
    ensures { IsFirstCandidate bookings.now start result }
{
    match bookings.address_of(&start) {
        Ok(addr) => bookings.normalize(addr),
        Err(gap) => match bookings.previous_item_address(gap) {
            Some(previous) => Some(previous),
            None => bookings.normalize(gap),
        },
    }
}

/// Returns how many of the bookings overlap the time from `start` to `end`. The bookings may not overlap one another.
///
/// It searches for one address, and goes from there to the next bookings until one begins at `end` or later.
pub fn count_overlaps(bookings: &BTreeMap<u32, u32>, start: u32, end: u32) -> usize
    requires { AreApart (pairs_of bookings.now) }
    ensures { result ≡ count_by (overlaps start end) (pairs_of bookings.now) }
{
    let mut count = 0;
    let mut next = first_candidate(bookings, start);
    for _step in 0..bookings.len() {
        let Some(addr) = next else {
            return count;
        };
        let (begins, ends) = bookings.pair_at(addr);
        if *begins >= end {
            return count;
        }
        if *ends > start {
            count += 1;
        }
        next = bookings.next_item_address(addr);
    }
    count
}
