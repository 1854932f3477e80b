//! Maps and sets that are saved, and opened again where they were.
#![tactic(auto)]

mod error;
mod map;

pub use btree_image::BadImage;
pub use btree_spelled::{Spelled, SpelledAs};
pub use error::{OpenError, SaveError};
pub use map::{SavedMap, bytes_of_map, map_of_bytes, open, save};
