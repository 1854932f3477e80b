//! The ordered map.
#![tactic(auto)]

mod append;
mod clone;
mod comparison;
mod cursor;
mod drain;
mod entries;
mod entry;
mod extension;
mod fmt;
mod iterators;
mod keys;
mod map;
mod owned;
mod pair_test;
mod queries;
mod range_removal;
mod removal;
mod splitting;

pub use cursor::{EntriesMut, IterMut, RangeMut, ValuesMut};
pub use drain::{DrainFilter, run_out, seek_from};
pub use entry::{Entry, OccupiedEntry, VacantEntry};
pub use extension::insert_in_order;
pub use map::BTreeMap;
pub use owned::{IntoIter, IntoKeys, IntoValues};
pub use pair_test::{ByKey, ByPair, PairTest};
pub use queries::{AfterAll, BeforeAll};
