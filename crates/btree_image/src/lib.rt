//! Trees as bytes: nodes under their numbers, written from a tree and read from any bytes.
#![tactic(auto)]

mod fault;
mod head;
mod places;
mod reading;
mod sum;
mod words;
mod writing;

pub use fault::{BadImage, ReadError, Stop};
pub use places::read_tree;
pub use sum::check_sum_of;
pub use writing::bytes_of;

/// The word that the bytes of a tree begin with: `btreesav` in ASCII.
pub const MAGIC: u64 = 0x6274_7265_6573_6176;

/// The version of the bytes of a tree.
pub const VERSION: u64 = 1;
