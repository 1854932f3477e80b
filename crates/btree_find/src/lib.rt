//! Look-up and navigation in a well formed tree, over any lawful store of nodes.
//!
//! A search by a key or another query makes at most six comparisons at each level. A call reads at most one node of each level, unless it
//! says otherwise; `fits_at`, `replaces_at` and `key_fits_in` do so for each of at most two keys. No call copies a key or a value, or
//! allocates memory. `RawBTree::is_valid` decides whether an address is valid.
#![tactic(auto)]

mod ends;
mod fits;
mod navigation;
mod search;
mod visits;

pub use ends::{first_back_address, first_item_address, last_item_address, last_valid_address};
pub use fits::{fits_at, key_fits_in, replaces_at};
pub use navigation::{
    first_item, first_item_beside, leaf_address, next_item_address, next_item_or_back_address,
    normalize, previous_item_address,
};
pub use search::{address_by, address_in, address_of, address_of_counted, get, get_in, height};
pub use visits::{next_back_address, previous_front_address};
